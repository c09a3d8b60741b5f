// Which jobs have a receipt.
ghost use Rattle.std.specs.Prelude.{◌≡◌, ◌==◌, ◌≤◌, length, filter, take_while, count_by, nat_lt, not, IfOk};
ghost use Rattle.std.specs.Bool.{Decides};
ghost use Rattle.sq_audit.specs.Answers.{AreAnsweredBy};
ghost use Rattle.sq_audit.specs.ById.{AreById, ListsIds, is_id_and_root, is_listed};
ghost use Rattle.sq_audit.specs.Folding.{answered_jobs};

use crate::job::Job;
use sq_gather::Receipt;
use std::alloc::{AllocError, Global};

/// Returns true if each job has exactly one receipt.
pub(crate) fn are_answered(
    alloc: Global,
    jobs: &[Job],
    receipts: &[Receipt],
) -> Result<bool, AllocError>
    ensures { IfOk result (λ answered. Decides answered (AreAnsweredBy receipts.now jobs.now)) }
{
    let ids = list_ids(alloc, receipts)?;
    for job in jobs {
        if count_of(&ids, job) != 1 {
            return Ok(false);
        }
    }
    Ok(true)
}

/// Returns how many of the jobs have a receipt.
pub fn count_answered(
    alloc: Global,
    receipts: &[Receipt],
    jobs: &[Job],
) -> Result<usize, AllocError>
    ensures answered { IfOk result (λ n. n ≡ length (answered_jobs receipts.now jobs.now)) }
    ensures most { IfOk result (λ n. n ≤ length jobs.now) }
{
    let ids = list_ids(alloc, receipts)?;
    let mut answered = 0;
    for job in jobs {
        if is_listed(&ids, job) {
            answered += 1;
        }
    }
    Ok(answered)
}

/// Returns the ids of `receipts`, each with its root key, sorted by id. [`copy_answered`] and
/// [`leave_unanswered`] use them to find the jobs that have a receipt.
pub fn list_ids(alloc: Global, receipts: &[Receipt]) -> Result<Vec<(u64, u64)>, AllocError>
    ensures { IfOk result (λ ids. ListsIds receipts.now ids.items) }
{
    let mut ids = Vec::with_capacity(alloc, receipts.len())?;
    for receipt in receipts {
        ids.push((receipt.txn.id(), receipt.txn.root().number()))?;
    }
    ids.sort_unstable_by_key(|one| one.0);
    Ok(ids)
}

/// Returns copies of the jobs that have a receipt listed in `ids`, in their order.
pub fn copy_answered(
    alloc: Global,
    ids: &[(u64, u64)],
    jobs: &[Job],
) -> Result<Vec<Job>, AllocError>
    requires { AreById ids.now }
    ensures { IfOk result (λ answered. answered.items ≡ filter (is_listed ids.now) jobs.now) }
{
    let mut answered = Vec::new(alloc);
    for job in jobs {
        if is_listed(ids, job) {
            answered.push(copy(job)?)?;
        }
    }
    Ok(answered)
}

/// Removes from `jobs` those that have a receipt listed in `ids`; the others keep their order.
pub fn leave_unanswered(ids: &[(u64, u64)], jobs: &mut Vec<Job>)
    requires { AreById ids.now }
    ensures { jobs.new.items ≡ filter (λ job. not (is_listed ids.now job)) jobs.old.items }
{
    jobs.retain(|job| !is_listed(ids, job));
}

// Returns true if `ids` lists a receipt of `job`.
fn is_listed(ids: &[(u64, u64)], job: &Job) -> bool
    requires { AreById ids.now }
    ensures { result ≡ is_listed ids.now job.now }
{
    count_of(ids, job) > 0
}

// Returns how often `ids` lists the job's id with its root key.
fn count_of(ids: &[(u64, u64)], job: &Job) -> usize
    requires { AreById ids.now }
    ensures { result ≡ count_by (is_id_and_root job.now.txn.id job.now.txn.root) ids.now }
{
    let id = job.txn.id();
    let root = job.txn.root().number();
    let first = ids.partition_point(
        |one: &(u64, u64)| -> bool
            ensures { result ≡ nat_lt one.now.0 id }
        { one.0 < id },
    );
    count_first(&ids[first..], id, root)
}

// Among the entries at the start of `ids` that have `id`, counts those with `root`.
fn count_first(ids: &[(u64, u64)], id: u64, root: u64) -> usize
    ensures { result ≡ count_by (λ one. one.1 == root) (take_while (λ one. one.0 == id) ids.now) }
{
    ids.iter()
        .take_while(|one| one.0 == id)
        .filter(|one| one.1 == root)
        .count()
}

fn copy(job: &Job) -> Result<Job, AllocError>
    ensures { IfOk result (λ copy. copy ≡ job.now) }
{
    Ok(Job {
        part: job.part,
        txn: job.txn.clone()?,
    })
}
