// Transactions that wait, and the numbers that they get.
use super::fixtures::{opening, transaction};
use sq_exec::{Outcome, PartCore};
use sq_plan::PartId;
use sq_schema::Root;
use sq_store::VecStore;
use std::alloc::Global;
use std::test::Fail;

// The last number that a transaction can get.
const LAST: u64 = 18_446_744_073_709_551_614;

// The leaf that a transaction waits for, if it waits.
fn leaf_of(outcome: Outcome) -> Option<u64> {
    match outcome {
        Outcome::Waits(_, leaf) => Some(leaf.number()),
        _ => None,
    }
}

// Whether a transaction waits for the leaf of this root key.
fn waits(alloc: Global, part: &mut PartCore<VecStore>, root: u64) -> Result<bool, Fail> {
    let line = format!(in alloc; "txn 1 1 {root} get 0 0")?;
    let txn = transaction(alloc, line.as_str())?;
    let leaf = leaf_of(part.submit(&txn)?);
    Ok(leaf.is_some() && leaf == root.checked_sub(4))
}

// The arrival number of the first transaction that waits for a root key, if one does.
fn arrival(part: &PartCore<VecStore>, root: u64) -> Option<u64> {
    part.arrival(Root::new(root)?)
}

// A root key, and the arrival numbers of those that wait for the root keys 5 and 6, once a transaction waits for it.
const ARRIVALS: [(u64, Option<u64>, Option<u64>); 2] = [
    (5, Some(LAST), None),
    (6, Some(0), Some(1)),
];

// Whether transactions wait for these root keys, and get these numbers.
fn wait_in_turn(alloc: Global, part: &mut PartCore<VecStore>) -> Result<bool, Fail> {
    for (root, five, six) in &ARRIVALS {
        if !waits(alloc, part, *root)? || arrival(part, 5) != *five || arrival(part, 6) != *six {
            return Ok(false);
        }
    }
    Ok(true)
}

// The first transaction that waits at the destination gets the last number.
#[test]
fn numbers_begin_anew_where_none_is_left(rt: HostRuntime) -> Result<(), Fail> {
    let alloc = rt.alloc();
    let opening = opening(alloc, "config 1 64 1\n")?;
    let store = VecStore::new(alloc);
    let mut part = PartCore::open_at(alloc, &opening, PartId::new(1), store, LAST)?;
    part.start();
    assert!(rt; wait_in_turn(alloc, &mut part)?);
    Ok(())
}
