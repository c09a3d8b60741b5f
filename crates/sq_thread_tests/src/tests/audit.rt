// The audit of a run, and of what was gathered of it with one thing changed.
ghost use Rattle.sq_audit.specs.Answers.{IdsDiffer};

use super::node::PAIR;
use super::run::{TestRun, read_opening, two_jobs, with_id};
use sq_audit::{Job, Verdict, audit};
use sq_gather::Gathered;
use sq_moves::Extent;
use sq_node::Receipt;
use sq_schema::{Family, Root, Row, RowKey, Rows};
use sq_store::{FamilyStore, SlabStore, StoreAnswer, StoreCommand, run_store};
use std::alloc::Global;
use std::process::Abort;
use std::sync::Wait;
use std::thread::Threads;

// The first commits, and the second aborts.
const FIRST: &str = "txn 0 1 5 get 0 0";

const SECOND: &str = "txn 0 2 9 check 0 0 99";

// What is gathered of the run, in which partition 0 answers both, and the receipts.
fn worked<R: Wait + Abort>(rt: &R, alloc: Global) -> (Gathered, Vec<Receipt>) {
    let mut run = TestRun::opened(rt, alloc, PAIR, 1);
    run.post(rt, alloc, FIRST);
    run.post(rt, alloc, SECOND);
    run.turns(rt, 4, &[0]);
    run.gathered(rt, alloc)
}

// What is changed of it.
#[derive(Clone, Copy, Debug)]
enum Change {
    Nothing,
    // The family of root key 5 is taken out.
    FamilyOut,
    // A second one is at partition 1.
    FamilyTwice,
    // One that opens with this number is in its place, with an empty log.
    FamilyOpened(i64),
    // It is at partition 1.
    FamilyMoved,
    // The receipt of the first job has this id.
    ReceiptId(u64),
    // The receipt at this place is taken out.
    ReceiptOut(usize),
}

// A family of root key 5 that opens with this number.
fn opened<R: Abort>(rt: &R, alloc: Global, number: i64) -> Family {
    let root = Root::new(5).expect(rt, "no root key");
    let mut rows = Rows::new(alloc);
    let inserted = rows.insert(RowKey::ROOT, Row::new(number, Vec::new(alloc)));
    inserted.expect(rt, "no memory for a row");
    Family::opened(alloc, root, rows)
}

// Takes the family of root key 5 out of the store of partition 0.
fn take_family<R: Abort>(rt: &R, stores: &mut [SlabStore]) -> Family {
    let Some(store) = stores.first_mut() else {
        rt.panic("no store")
    };
    let cut = store.take(Extent { lo: 5, hi: 6 }, 1000);
    let mut cut = cut.expect(rt, "no memory for families");
    cut.families.pop().expect(rt, "no family")
}

// Puts a family into the store of a partition.
fn put_family<R: Abort>(
    rt: &R,
    alloc: Global,
    stores: &mut [SlabStore],
    part: usize,
    family: Family,
) {
    let Some(store) = stores.get_mut(part) else {
        rt.panic("no store")
    };
    let answers = run_store(alloc, store, gives(rt, alloc, family));
    let answers = answers.expect(rt, "no memory for answers");
    assert!(rt; is_given(&answers), "the family isn't given");
}

// The command that gives a family, alone.
fn gives<R: Abort>(rt: &R, alloc: Global, family: Family) -> Vec<StoreCommand> {
    let families = vec![in alloc; family].expect(rt, "no memory for a family");
    vec![in alloc; StoreCommand::Give(families)].expect(rt, "no memory for a command")
}

// Whether it is answered, and was given.
fn is_given(answers: &[StoreAnswer]) -> bool {
    matches!(answers, [StoreAnswer::Given(Ok(()))])
}

// Makes a change.
fn make<R: Abort>(
    rt: &R,
    alloc: Global,
    stores: &mut [SlabStore],
    receipts: &mut Vec<Receipt>,
    change: Change,
) {
    match change {
        Change::Nothing => {}
        Change::FamilyOut => drop(take_family(rt, stores)),
        Change::FamilyTwice => put_family(rt, alloc, stores, 1, opened(rt, alloc, 10)),
        Change::FamilyOpened(number) => {
            drop(take_family(rt, stores));
            put_family(rt, alloc, stores, 0, opened(rt, alloc, number));
        }
        Change::FamilyMoved => {
            let family = take_family(rt, stores);
            put_family(rt, alloc, stores, 1, family);
        }
        Change::ReceiptId(id) => set_first_id(rt, alloc, receipts, id),
        Change::ReceiptOut(at) => take_receipt(rt, receipts, at),
    }
}

fn set_first_id<R: Abort>(rt: &R, alloc: Global, receipts: &mut [Receipt], id: u64) {
    let Some(first) = receipts.first_mut() else {
        rt.panic("no receipt")
    };
    first.txn = with_id(rt, alloc, &first.txn, id);
}

fn take_receipt<R: Abort>(rt: &R, receipts: &mut Vec<Receipt>, at: usize) {
    assert!(rt; at < receipts.len(), "no receipt");
    drop(receipts.remove(at));
}

// The number of the defect that an audit finds, if it finds one.
fn defect_of<R: Threads + Abort + Sync>(
    rt: &R,
    alloc: Global,
    gathered: &Gathered,
    receipts: &[Receipt],
    jobs: &[Job],
) -> Option<u16>
    requires { IdsDiffer jobs.now }
{
    let opening = read_opening(rt, alloc, PAIR);
    let verdict = audit(&opening, gathered, receipts, jobs);
    defect_told(verdict.expect(rt, "no memory for an audit"))
}

/// The number of the defect that a verdict tells, if it tells one.
pub fn defect_told(verdict: Verdict) -> Option<u16> {
    match verdict {
        Verdict::Sound => None,
        Verdict::Unsound(defect) => Some(defect.number()),
    }
}

// Each change, and the number of the defect that is found.
const DEFECTS: [(Change, Option<u16>); 9] = [
    (Change::Nothing, None),
    (Change::FamilyOut, Some(301)),
    (Change::FamilyTwice, Some(302)),
    (Change::FamilyOpened(11), Some(303)),
    (Change::FamilyMoved, Some(304)),
    (Change::FamilyOpened(10), Some(305)),
    (Change::ReceiptId(3), Some(305)),
    (Change::ReceiptOut(0), Some(305)),
    (Change::ReceiptOut(1), Some(306)),
];

// The number of the defect that is found once this is changed.
fn defect_after<R: Threads + Wait + Abort + Sync>(
    rt: &R,
    alloc: Global,
    change: Change,
) -> Option<u16> {
    let jobs = two_jobs(rt, alloc, FIRST, SECOND);
    let (mut gathered, mut receipts) = worked(rt, alloc);
    make(rt, alloc, &mut gathered.stores, &mut receipts, change);
    defect_of(rt, alloc, &gathered, &receipts, &jobs)
}

#[test]
fn each_change_has_its_defect(rt: HostRuntime) {
    for (change, want) in &DEFECTS {
        let found = defect_after(&rt, rt.alloc(), *change);
        assert!(rt; found == *want, "{change:?}");
    }
}
