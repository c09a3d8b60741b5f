// Whether the receipts are the right answers, tell the logs, and leave the rows of the families.
// The log of a family is not in memory: the transactions of its receipts are replayed on its
// opening rows.
ghost use Rattle.std.specs.Prelude.{◌≡◌, ℕ, ◌<◌, ◌≤◌, ◌&&◌, true, List, length, slice_get, Some, IfOk, OnOk};
ghost use Rattle.std.specs.Bool.{Decides};
ghost use Rattle.std.specs.List.Sorted.{IsPermutation, IsSortedByKey};
ghost use Rattle.sq_gather.specs.Prelude.{ReceiptValue, is_commit, rows_in};
ghost use Rattle.sq_audit.specs.declared.job.Job.{Job};
ghost use Rattle.sq_audit.specs.Answers.{IdsDiffer, IsAbortOn, ArePosted};
ghost use Rattle.sq_audit.specs.Located.{entries_in, AreByRoot};
ghost use Rattle.sq_audit.specs.Told.{values_of, receipt_key, key_order, IsReplyOn, IsAfter, AreInOrder, IsReplay, IsFoundOf, TellNoLog, AreFound, IsFound};

use crate::in_threads::{all_known, all_start, part_size};
use crate::index::{has_family, may_start};
use crate::job::Job;
use crate::located::Located;
use crate::posted::{are_posted, are_posted_in_threads};
use sq_gather::{Family, Receipt, Reply, Root, Rows, Table};
use std::alloc::{AllocError, Global};
use std::thread;
use std::thread::Threads;

/// What was found of families and receipts.
#[derive(Clone, Copy, Debug)]
pub(crate) struct Found {
    /// Whether each family starts from its opening rows.
    pub(crate) start: bool,
    /// Whether the receipts are known and tell the log of each family.
    pub(crate) known: bool,
}

impl Found {
    // Returns what holds of both.
    fn and(self, other: Found) -> Found
        ensures start { result.start ≡ (self.start && other.start) }
        ensures known { result.known ≡ (self.known && other.known) }
    {
        Found {
            start: self.start && other.start,
            known: self.known && other.known,
        }
    }
}

/// Returns what is found of all families, which `all` lists sorted by root key, and of all
/// receipts. `table` has the opening rows.
pub(crate) fn find_all(
    alloc: Global,
    table: &Table,
    all: &[Located],
    jobs: &[Job],
    receipts: &[Receipt],
) -> Result<Found, AllocError>
    requires ids { IdsDiffer jobs.now }
    requires rise { AreByRoot (entries_in all.now) }
    ensures { IfOk result (IsFound (rows_in table.now) (entries_in all.now) jobs.now
        receipts.now) }
{
    let in_order = sort(alloc, receipts)?;
    let sorted = in_order.as_slice();
    let logs = find_logs(alloc, table, all, sorted)?;
    let posted = are_posted(alloc, jobs, receipts)?;
    find_others(alloc, table, all, receipts, sorted, logs, posted)
}

/// Does the same as [`find_all`]: several threads check parts of the families.
pub(crate) fn find_all_in_threads<R: Threads + Sync>(
    rt: &R,
    alloc: Global,
    table: &Table,
    all: &[Located],
    jobs: &[Job],
    receipts: &[Receipt],
) -> Result<Found, AllocError>
    requires ids { IdsDiffer jobs.now }
    requires rise { AreByRoot (entries_in all.now) }
    ensures { IfOk result (IsFound (rows_in table.now) (entries_in all.now) jobs.now
        receipts.now) }
{
    let in_order = sort(alloc, receipts)?;
    let sorted = in_order.as_slice();
    let logs = find_logs_in_threads(rt, alloc, table, all, sorted)?;
    let posted = are_posted_in_threads(rt, alloc, jobs, receipts)?;
    find_others(alloc, table, all, receipts, sorted, logs, posted)
}

// Returns what is found of everything: `logs` is what was found of the families, `posted` whether
// each receipt's transaction is that of a job, and the receipts of root keys without a family have
// to be of aborts.
fn find_others(
    alloc: Global,
    table: &Table,
    all: &[Located],
    receipts: &[Receipt],
    sorted: &[&Receipt],
    logs: Found,
    posted: bool,
) -> Result<Found, AllocError>
    requires rise { AreByRoot (entries_in all.now) }
    requires all { IsPermutation receipts.now (values_of sorted.now) }
    requires logs { AreFound (rows_in table.now) (entries_in all.now)
        (values_of sorted.now) logs }
    ensures { IfOk result (λ found. (jobs : List Job)
        → Decides posted (ArePosted jobs receipts.now)
        → IsFound (rows_in table.now) (entries_in all.now) jobs receipts.now found) }
{
    let others = tell_no_log(alloc, table, all, receipts)?;
    let told = logs.and(Found {
        start: true,
        known: others,
    });
    Ok(told.and(Found {
        start: true,
        known: posted,
    }))
}

// Does the same as `find_logs`: several threads check parts of the families.
fn find_logs_in_threads<R: Threads + Sync>(
    rt: &R,
    alloc: Global,
    table: &Table,
    all: &[Located],
    sorted: &[&Receipt],
) -> Result<Found, AllocError>
    requires sorted { IsSortedByKey receipt_key key_order (values_of sorted.now) }
    requires rise { AreByRoot (entries_in all.now) }
    ensures { IfOk result (AreFound (rows_in table.now) (entries_in all.now)
        (values_of sorted.now)) }
{
    let size = part_size(all.len());
    let said = thread::map_chunks(
        rt,
        alloc,
        all,
        size,
        &|_, part: &[Located]| -> Result<Found, AllocError>
            requires sorted { IsSortedByKey receipt_key key_order (values_of sorted.now) }
            requires rise { AreByRoot (entries_in part.now) }
            ensures { IfOk result (AreFound (rows_in table.entry.now) (entries_in part.entry.now)
                (values_of sorted.entry.now)) }
        { find_logs(alloc, table, part, sorted) },
    )?;
    let start = all_start(&said)?;
    let known = all_known(&said)?;
    Ok(Found { start, known })
}

// Returns what is found of the families in `all`, which is sorted by root key, by the receipts in
// `sorted`.
fn find_logs(
    alloc: Global,
    table: &Table,
    all: &[Located],
    sorted: &[&Receipt],
) -> Result<Found, AllocError>
    requires sorted { IsSortedByKey receipt_key key_order (values_of sorted.now) }
    requires rise { AreByRoot (entries_in all.now) }
    ensures { IfOk result (AreFound (rows_in table.now) (entries_in all.now)
        (values_of sorted.now)) }
{
    let mut found = Found {
        start: true,
        known: true,
    };
    let mut from = 0;
    for located in all {
        let root = located.family.root().number();
        from = first_from(sorted, from, root);
        let end = first_from(sorted, from, root + 1);
        let one = find_log(alloc, table, located.family, &sorted[from..end])?;
        found = found.and(one);
    }
    Ok(found)
}

// Returns true if the receipts of root keys without a family are of aborts on their opening rows.
fn tell_no_log(
    alloc: Global,
    table: &Table,
    all: &[Located],
    receipts: &[Receipt],
) -> Result<bool, AllocError>
    requires rise { AreByRoot (entries_in all.now) }
    ensures { IfOk result (λ tell. Decides tell
        (TellNoLog (rows_in table.now) (entries_in all.now) receipts.now)) }
{
    for receipt in receipts {
        if has_family(all, receipt.txn.root()) {
            continue;
        }
        if !tells_no_log(alloc, table, receipt)? {
            return Ok(false);
        }
    }
    Ok(true)
}

// Returns true if `receipt` is of an abort on the opening rows of its root key.
fn tells_no_log(alloc: Global, table: &Table, receipt: &Receipt) -> Result<bool, AllocError>
    ensures { IfOk result (λ tells. Decides tells
        (IsAbortOn (rows_in table.now receipt.now.txn.root) receipt.now)) }
{
    if receipt.position != 0 {
        return Ok(false);
    }
    if commits(receipt) {
        return Ok(false);
    }
    let mut rows = opening_rows(alloc, table, receipt.txn.root())?;
    is_answered(alloc, &mut rows, receipt)
}

// Returns a copy of the rows that `table` has for `root`.
fn opening_rows(alloc: Global, table: &Table, root: Root) -> Result<Rows, AllocError>
    ensures { IfOk result (λ rows. rows ≡ rows_in table.now root) }
{
    match table.rows(root) {
        Some(rows) => rows.clone(),
        None => Ok(Rows::new(alloc)),
    }
}

// Returns what is found of `family` by `receipts`, which are those of its root key, sorted by
// position, and at one position the aborts first.
fn find_log(
    alloc: Global,
    table: &Table,
    family: &Family,
    receipts: &[&Receipt],
) -> Result<Found, AllocError>
    requires order { AreInOrder (values_of receipts.now) }
    ensures { IfOk result (IsFoundOf (rows_in table.now family.now.root) family.now
        (values_of receipts.now)) }
{
    let opening = opening_rows(alloc, table, family.root())?;
    match replay(alloc, family, opening, receipts)? {
        Some(rows) => Ok(Found {
            start: *family.rows() == rows,
            known: true,
        }),
        None => Ok(Found {
            start: may_start(table, family),
            known: false,
        }),
    }
}

// Replays on `opening` the log that `receipts` tell and returns the rows after it; `None` if they
// tell no log as long as that of `family`. They are the receipts of its root key, sorted by
// position, and at one position the aborts come first.
fn replay(
    alloc: Global,
    family: &Family,
    opening: Rows,
    receipts: &[&Receipt],
) -> Result<Option<Rows>, AllocError>
    requires order { AreInOrder (values_of receipts.now) }
    ensures { IfOk result (IsReplay opening family.now (values_of receipts.now)) }
{
    let mut rows = opening;
    let mut position = 0;
    for receipt in receipts {
        if receipt.position != position {
            return Ok(None);
        }
        if !is_answered(alloc, &mut rows, receipt)? {
            return Ok(None);
        }
        if commits(receipt) {
            position += 1;
        }
    }
    if position == family.position() {
        Ok(Some(rows))
    } else {
        Ok(None)
    }
}

// Runs the transaction of `receipt` on `rows`, and returns true if its reply is that of the
// receipt.
fn is_answered(alloc: Global, rows: &mut Rows, receipt: &Receipt) -> Result<bool, AllocError>
    ensures answered { IfOk result (λ answered. Decides answered
        (IsReplyOn rows.old receipt.now)) }
    ensures rows { OnOk result (IsAfter rows.old receipt.now rows.new) }
{
    let reply = receipt.txn.apply_to(alloc, rows)?;
    Ok(reply == receipt.reply)
}

fn commits(receipt: &Receipt) -> bool
    ensures { result ≡ is_commit receipt.now.reply }
{
    match &receipt.reply {
        Reply::Committed(_) => true,
        Reply::Aborted { .. } => false,
    }
}

// Returns the receipts sorted by root key, then by position, and at one position the aborts first.
fn sort(alloc: Global, receipts: &[Receipt]) -> Result<Vec<&Receipt>, AllocError>
    ensures all { IfOk result (λ sorted. IsPermutation receipts.now (values_of sorted.items)) }
    ensures sorted { IfOk result (λ sorted. IsSortedByKey receipt_key key_order
        (values_of sorted.items)) }
{
    let mut sorted = Vec::with_capacity(alloc, receipts.len())?;
    for receipt in receipts {
        sorted.push(receipt)?;
    }
    sorted.sort_unstable_by_key(|receipt| (
        receipt.txn.root().number(),
        receipt.position,
        commits(receipt),
    ));
    Ok(sorted)
}

// Returns the place of the first receipt at or after `from` whose root key is at least `root`, or
// the length if there is none. The receipts are sorted by root key.
fn first_from(sorted: &[&Receipt], from: usize, root: u64) -> usize
    requires { from ≤ length sorted.now }
    ensures from { from ≤ result }
    ensures within { result ≤ length sorted.now }
    ensures below { (k : ℕ) (receipt : ReceiptValue) → from ≤ k → k < result
        → slice_get (values_of sorted.now) k ≡ Some receipt → receipt.txn.root < root }
    ensures first { (receipt : ReceiptValue)
        → slice_get (values_of sorted.now) result ≡ Some receipt → root ≤ receipt.txn.root }
{
    let mut at = from;
    while at < sorted.len() {
        let receipt: &Receipt = sorted[at];
        if receipt.txn.root().number() >= root {
            return at;
        }
        at += 1;
    }
    at
}
