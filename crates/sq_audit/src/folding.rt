// Folding the logs of what was gathered into the bases of its families.
ghost use Rattle.std.specs.Prelude.{◌≡◌, ℕ, ◌≤◌, List, [], map, filter, not, IfOk, IfErr};
ghost use Rattle.sq_gather.specs.Prelude.{ROOT_END, rows_in, OpeningValue, ReceiptValue, IsSetUp, folded_store, IsStageDone, folded_opening, folded_gathered};
ghost use Rattle.sq_audit.specs.declared.job.Job.{Job};
ghost use Rattle.sq_audit.specs.Answers.{IdsDiffer};
ghost use Rattle.sq_audit.specs.ById.{AreById, ListsIds, is_listed};
ghost use Rattle.sq_audit.specs.Sound.{with_receipts};
ghost use Rattle.sq_audit.specs.Defects.{IsVerdict};
ghost use Rattle.sq_audit.specs.Folding.{answered_jobs, IsPrepared, IsFold, IsUnfolded};

use crate::answered::{copy_answered, leave_unanswered, list_ids};
use crate::folded::{Folded, Unchanged, Unfolded};
use crate::job::Job;
use crate::passes::{audit, audit_in_threads};
use crate::table::table_of;
use crate::verdict::{Defect, Verdict};
use sq_gather::{FamilyStore, Gathered, Opening, Receipt, SlabStore, Table};
use sq_history::History;
use std::alloc::{AllocError, Global};
use std::thread::Threads;

/// Folds `gathered`, of a stage whose segments are complete, once those of `jobs` that have a
/// receipt in `receipts` are audited; the ids of `jobs` differ. If they are sound, each family
/// starts anew from its rows, the opening gets these rows, the receipts are dropped, and the jobs
/// without a receipt are kept. Otherwise it returns the first defect. If memory runs out,
/// everything is returned unchanged.
pub fn fold(
    alloc: Global,
    opening: Opening,
    gathered: Gathered,
    receipts: Vec<Receipt>,
    jobs: Vec<Job>,
) -> Result<Folded, Unfolded>
    requires done { IsStageDone opening gathered }
    requires ids { IdsDiffer jobs.items }
    ensures folded { IfOk result (IsFold opening
        (with_receipts gathered receipts.items) jobs.items) }
    ensures unfolded { IfErr result (IsUnfolded opening gathered receipts.items jobs.items) }
{
    let prepared = prepare(alloc, &opening, &gathered, &receipts, &jobs);
    complete(opening, gathered, receipts, jobs, prepared)
}

/// Does the same as [`fold`]; if there are many families, several threads check parts of them.
pub fn fold_in_threads<R: Threads + Sync>(
    rt: &R,
    alloc: Global,
    opening: Opening,
    gathered: Gathered,
    receipts: Vec<Receipt>,
    jobs: Vec<Job>,
) -> Result<Folded, Unfolded>
    requires done { IsStageDone opening gathered }
    requires ids { IdsDiffer jobs.items }
    ensures folded { IfOk result (IsFold opening
        (with_receipts gathered receipts.items) jobs.items) }
    ensures unfolded { IfErr result (IsUnfolded opening gathered receipts.items jobs.items) }
{
    let prepared = prepare_in_threads(rt, alloc, &opening, &gathered, &receipts, &jobs);
    complete(opening, gathered, receipts, jobs, prepared)
}

// Folds what was gathered, if the audit before it allows it.
fn complete(
    opening: Opening,
    gathered: Gathered,
    receipts: Vec<Receipt>,
    jobs: Vec<Job>,
    prepared: Result<Prepared, AllocError>,
) -> Result<Folded, Unfolded>
    requires done { IsStageDone opening gathered }
    requires ids { IdsDiffer jobs.items }
    requires prepared { IfOk prepared (IsPrepared opening
        (with_receipts gathered receipts.items) jobs.items) }
    ensures folded { IfOk result (IsFold opening
        (with_receipts gathered receipts.items) jobs.items) }
    ensures unfolded { IfErr result (IsUnfolded opening gathered receipts.items jobs.items) }
{
    match prepared {
        Ok(Prepared::Ready(ready)) => {
            drop(receipts);
            Ok(finish(opening, gathered, jobs, ready))
        }
        Ok(Prepared::Unsound(defect)) => Err(Unfolded::Unsound(defect)),
        Err(_) => Err(Unfolded::Memory(Unchanged {
            opening,
            gathered,
            receipts,
            jobs,
        })),
    }
}

// The jobs that have a receipt, and the ids of the receipts with their root keys, sorted by id.
#[derive(Drop)]
struct Answered {
    jobs: Vec<Job>,
    ids: Vec<(u64, u64)>,
}

// What a fold needs: the ids of the receipts with their root keys, sorted by id, and the table of
// the rows of all families.
#[derive(Drop)]
struct Ready {
    ids: Vec<(u64, u64)>,
    table: Table,
}

// The outcome of the audit before a fold.
#[derive(Drop)]
enum Prepared {
    // The jobs that have a receipt are sound.
    Ready(Ready),
    // The jobs that have a receipt have this defect first.
    Unsound(Defect),
}

// Audits the jobs that have a receipt, and prepares what a fold needs.
fn prepare(
    alloc: Global,
    opening: &Opening,
    g: &Gathered,
    receipts: &[Receipt],
    jobs: &[Job],
) -> Result<Prepared, AllocError>
    requires { IdsDiffer jobs.now }
    ensures { IfOk result (IsPrepared opening.now
        (with_receipts g.now receipts.now) jobs.now) }
{
    let answered = list_answered(alloc, receipts, jobs)?;
    let verdict = audit(opening, g, receipts, &answered.jobs)?;
    make_ready(alloc, g, answered.ids, verdict)
}

// Does the same as `prepare`, with an audit in threads.
fn prepare_in_threads<R: Threads + Sync>(
    rt: &R,
    alloc: Global,
    opening: &Opening,
    g: &Gathered,
    receipts: &[Receipt],
    jobs: &[Job],
) -> Result<Prepared, AllocError>
    requires { IdsDiffer jobs.now }
    ensures { IfOk result (IsPrepared opening.now
        (with_receipts g.now receipts.now) jobs.now) }
{
    let answered = list_answered(alloc, receipts, jobs)?;
    let verdict = audit_in_threads(rt, opening, g, receipts, &answered.jobs)?;
    make_ready(alloc, g, answered.ids, verdict)
}

// Returns the jobs that have a receipt, and the ids of the receipts.
fn list_answered(alloc: Global, receipts: &[Receipt], jobs: &[Job]) -> Result<Answered, AllocError>
    requires { IdsDiffer jobs.now }
    ensures ids { IfOk result (λ answered. ListsIds receipts.now answered.ids.items) }
    ensures jobs { IfOk result (λ answered. answered.jobs.items
        ≡ answered_jobs receipts.now jobs.now) }
    ensures differ { IfOk result (λ answered. IdsDiffer answered.jobs.items) }
{
    let ids = list_ids(alloc, receipts)?;
    let answered = copy_answered(alloc, &ids, jobs)?;
    Ok(Answered {
        jobs: answered,
        ids,
    })
}

// Returns what a fold needs if `verdict` is that the jobs with a receipt are sound.
fn make_ready(
    alloc: Global,
    g: &Gathered,
    ids: Vec<(u64, u64)>,
    verdict: Verdict,
) -> Result<Prepared, AllocError>
    ensures { IfOk result (λ prepared. (o : OpeningValue) (receipts : List ReceiptValue)
        (jobs : List Job)
        → ListsIds receipts ids.items
        → IsVerdict o (with_receipts g.now receipts) (answered_jobs receipts jobs) verdict
        → IsPrepared o (with_receipts g.now receipts) jobs prepared) }
{
    match verdict {
        Verdict::Sound => {
            let table = table_of(alloc, &g.stores)?;
            Ok(Prepared::Ready(Ready { ids, table }))
        }
        Verdict::Unsound(defect) => Ok(Prepared::Unsound(defect)),
    }
}

// Returns the opening with the new table, the gathered stage with its logs folded and without
// receipts, and the jobs that are left.
fn finish(opening: Opening, gathered: Gathered, mut jobs: Vec<Job>, ready: Ready) -> Folded
    requires by_id { AreById ready.ids.items }
    requires bound { (root : ℕ) → ROOT_END ≤ root → rows_in ready.table root ≡ [] }
    ensures opening { result.opening ≡ folded_opening opening ready.table }
    ensures set_up { IsSetUp result.opening }
    ensures gathered { result.gathered
        ≡ folded_gathered gathered (map folded_store gathered.stores) }
    ensures jobs { result.jobs.items
        ≡ filter (λ job. not (is_listed ready.ids.items job)) jobs.items }
{
    leave_unanswered(&ready.ids, &mut jobs);
    Folded {
        opening: opening.with_table(ready.table),
        gathered: with_logs_folded(gathered),
        jobs,
    }
}

// Returns `gathered` with its logs folded and without receipts.
fn with_logs_folded(gathered: Gathered) -> Gathered
    ensures { result ≡ folded_gathered gathered (map folded_store gathered.stores) }
{
    let Gathered {
        stage,
        mut stores,
        links,
        statuses,
        left,
        ..
    } = gathered;
    fold_stores(&mut stores);
    Gathered {
        stage,
        stores,
        links,
        statuses,
        receipts: History::new(),
        left,
    }
}

// Folds the logs of the families of each store.
fn fold_stores(stores: &mut [SlabStore])
    ensures { stores.new ≡ map folded_store stores.old }
{
    for store in stores.iter_mut() {
        store.fold();
    }
}
