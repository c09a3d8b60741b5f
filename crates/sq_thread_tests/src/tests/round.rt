// Four partitions; each gives its five root keys to the next one, with all workers at once.
use super::run::TestRun;
use sq_driver::OpenGate;
use sq_schema::{Root, RowKey};
use sq_store::{FamilyStore, SlabStore};
use std::alloc::Global;
use std::process::Abort;
use std::sync::Wait;
use std::thread::Threads;

const HEADER: &str =
    r#"old {"version":1,"partitions":4,"ranges":[[0,5,0],[5,10,1],[10,15,2],[15,20,3],[20,4294967296,0]]}
new {"version":1,"partitions":4,"ranges":[[0,5,1],[5,10,2],[10,15,3],[15,20,0],[20,4294967296,0]]}
config 1 128 2
row 0 0 0 0 -
row 1 0 0 0 -
row 2 0 0 0 -
row 3 0 0 0 -
row 4 0 0 0 -
row 5 0 0 0 -
row 6 0 0 0 -
row 7 0 0 0 -
row 8 0 0 0 -
row 9 0 0 0 -
row 10 0 0 0 -
row 11 0 0 0 -
row 12 0 0 0 -
row 13 0 0 0 -
row 14 0 0 0 -
row 15 0 0 0 -
row 16 0 0 0 -
row 17 0 0 0 -
row 18 0 0 0 -
row 19 0 0 0 -
"#;

// The run of these partitions, in which one was added to the number of each root key ten times, while all of them moved.
fn worked<R: Threads + Wait + Abort + Sync>(rt: &R, alloc: Global) -> TestRun {
    let mut run = TestRun::opened(rt, alloc, HEADER, 2);
    for id in 0..200_u64 {
        let key = id % 20;
        let part = key / 5;
        let line = format!(in alloc; "txn {part} {id} {key} add 0 0 1");
        run.post(rt, alloc, &line.expect(rt, "no memory for a line"));
    }
    run.work(rt, 2_000_000, &OpenGate);
    run
}

// The number of a root key, and how many transactions are in its log, where a store has it.
fn number_and_log(store: &SlabStore, key: u64) -> Option<(i64, u64)> {
    let family = store.get(Root::new(key)?)?;
    let row = family.rows().get(RowKey::ROOT)?;
    Some((row.number(), family.position()))
}

// How many root keys have the number 10 and ten transactions in their log at their new owner, the partition behind the old one.
fn count_moved(stores: &[SlabStore]) -> usize {
    let mut count = 0_usize;
    for key in 0..20_u64 {
        let home = (key as usize / 5 + 1) % 4;
        if let Some(store) = stores.get(home)
            && number_and_log(store, key) == Some((10, 10))
        {
            count = count.saturating_add(1);
        }
    }
    count
}

#[test]
fn each_root_key_moves_with_its_ten_transactions(rt: HostRuntime) {
    let alloc = rt.alloc();
    let (gathered, _) = worked(&rt, alloc).gathered(&rt, alloc);
    assert_eq!(rt; count_moved(&gathered.stores), 20);
}
