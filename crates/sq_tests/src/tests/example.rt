// The caller of the library that docs/guide/library.md shows.
use sq_examples::world::move_one_root;

#[test]
fn reads_the_number_that_it_moved(rt: HostRuntime) {
    for number in [i64::MIN, 0, 10, i64::MAX] {
        assert!(rt;
            move_one_root(rt.alloc(), number) == Some(number),
            "{number}"
        );
    }
}
