// The caller of an engine that docs/guide/library.md shows.
use sq_audit::Verdict;
use sq_examples::engine::{CameBack, go_there_and_back};
use sq_moves::Opening;
use sq_plan::Plan;
use sq_schema::{Root, RowKey, Schema};
use sq_store::FamilyStore;
use sq_text::{LineReader, read_header};
use std::alloc::Global;
use std::process::Abort;

// Two partitions and ten root keys, with the number 0 each, between which nothing moves.
const AT_REST: &str = r#"old {"version":1,"partitions":2,"ranges":[[0,5,0],[5,4294967296,1]]}
new {"version":1,"partitions":2,"ranges":[[0,5,0],[5,4294967296,1]]}
config 1 64 1
row 0 0 0 0 -
row 1 0 0 0 -
row 2 0 0 0 -
row 3 0 0 0 -
row 4 0 0 0 -
row 5 0 0 0 -
row 6 0 0 0 -
row 7 0 0 0 -
row 8 0 0 0 -
row 9 0 0 0 -
"#;

// Root keys 2 to 4 go to partition 1.
const THERE: &[u8] = br#"{"version":1,"partitions":2,"ranges":[[0,2,0],[2,4294967296,1]]}"#;

// The opening of a header.
fn read_opening<R: Abort>(rt: &R, alloc: Global, header: &str) -> Opening {
    let schema = Schema::new(8).unwrap();
    let mut lines = LineReader::new(alloc, header.as_bytes()).expect(rt, "no memory for lines");
    read_header(alloc, schema, &mut lines).expect(rt, "it is a header")
}

// Each of two threads has 1,000 jobs answered, which add 1 to the number of a root key, to each of ten in turn.
#[test]
fn has_each_job_answered(rt: HostRuntime) {
    let alloc = rt.alloc();
    let opening = read_opening(&rt, alloc, AT_REST);
    let there = Plan::read(alloc, THERE).expect(&rt, "it is a plan");
    let end = go_there_and_back(&rt, alloc, opening, there);
    let end = end.expect(&rt, "it comes back");
    assert_good_end(&rt, &end);
}

// All jobs were answered, the engine is sound, and each root key has its number at its owner.
fn assert_good_end<R: Abort>(rt: &R, end: &(CameBack, (u64, u64))) {
    let (came, heard) = end;
    assert_eq!(*rt; *heard, (1_000, 1_000));
    assert_eq!(*rt; came.verdict, Verdict::Sound);
    for root in 0..10 {
        let part = if root < 5 { 0 } else { 1 };
        let number = number_at(came, part, root);
        assert_eq!(*rt; number, Some(200), "of {root}");
    }
}

// The number of a root key in the store of a partition.
fn number_at(came: &CameBack, part: usize, root: u64) -> Option<i64> {
    let family = came.engine.rows()?.get(part)?.get(Root::new(root)?)?;
    let row = family.rows().get(RowKey { table: 0, sub: 0 })?;
    Some(row.number())
}
