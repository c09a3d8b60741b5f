// Whether the transactions of receipts were posted.
ghost use Rattle.std.specs.Prelude.{◌≡◌, ℕ, nat_lt, Contains, IfOk, IfSome, IfNone};
ghost use Rattle.std.specs.Bool.{Decides};
ghost use Rattle.std.specs.List.{list_all};
ghost use Rattle.sq_audit.specs.Answers.{IdsDiffer, IsPosted, ArePosted};
ghost use Rattle.sq_audit.specs.ById.{AreById};
ghost use Rattle.sq_audit.specs.Index.{IsIndexOf};
ghost use Rattle.sq_audit.specs.Told.{id_of};

use crate::in_threads::part_size;
use crate::job::Job;
use sq_gather::Receipt;
use std::alloc::{AllocError, Global};
use std::thread;
use std::thread::Threads;

/// Returns true if the transaction of each receipt is that of a job. The ids of `jobs` differ.
pub(crate) fn are_posted(
    alloc: Global,
    jobs: &[Job],
    receipts: &[Receipt],
) -> Result<bool, AllocError>
    requires { IdsDiffer jobs.now }
    ensures { IfOk result (λ posted. Decides posted (ArePosted jobs.now receipts.now)) }
{
    let places = by_id(alloc, jobs)?;
    Ok(all_posted(jobs, &places, receipts))
}

/// Does the same as [`are_posted`]: several threads check parts of the receipts.
pub(crate) fn are_posted_in_threads<R: Threads + Sync>(
    rt: &R,
    alloc: Global,
    jobs: &[Job],
    receipts: &[Receipt],
) -> Result<bool, AllocError>
    requires { IdsDiffer jobs.now }
    ensures { IfOk result (λ posted. Decides posted (ArePosted jobs.now receipts.now)) }
{
    let places = by_id(alloc, jobs)?;
    let ids = places.as_slice();
    let size = part_size(receipts.len());
    let said = thread::map_chunks(
        rt,
        alloc,
        receipts,
        size,
        &|_, part: &[Receipt]| -> bool
            requires ids { IdsDiffer jobs.now }
            requires index { IsIndexOf id_of jobs.now ids.now }
            ensures { Decides result (ArePosted jobs.entry.now part.entry.now) }
        { all_posted(jobs, ids, part) },
    )?;
    Ok(all_true(&said))
}

// Returns true if all of `said` are true.
fn all_true(said: &[bool]) -> bool
    ensures { result ≡ list_all (λ one. one) said.now }
{
    said.iter().all(|one| *one)
}

// Returns true if the transaction of each receipt is that of a job. `places` lists the jobs by id.
fn all_posted(jobs: &[Job], places: &[(u64, usize)], receipts: &[Receipt]) -> bool
    requires ids { IdsDiffer jobs.now }
    requires places { IsIndexOf id_of jobs.now places.now }
    ensures { Decides result (ArePosted jobs.now receipts.now) }
{
    for receipt in receipts {
        if !is_posted(jobs, places, receipt) {
            return false;
        }
    }
    true
}

// Returns true if the receipt's transaction is that of a job.
fn is_posted(jobs: &[Job], places: &[(u64, usize)], receipt: &Receipt) -> bool
    requires ids { IdsDiffer jobs.now }
    requires places { IsIndexOf id_of jobs.now places.now }
    ensures { Decides result (IsPosted jobs.now receipt.now) }
{
    let Some(place) = place_of(places, receipt.txn.id()) else {
        return false;
    };
    match jobs.get(place) {
        Some(job) => job.txn == receipt.txn,
        None => false,
    }
}

// Returns the ids of the jobs with their places in `jobs`, sorted by id.
fn by_id(alloc: Global, jobs: &[Job]) -> Result<Vec<(u64, usize)>, AllocError>
    ensures { IfOk result (λ places. IsIndexOf id_of jobs.now places.items) }
{
    let mut places = Vec::with_capacity(alloc, jobs.len())?;
    for (at, job) in jobs.iter().enumerate() {
        places.push((job.txn.id(), at))?;
    }
    places.sort_unstable_by_key(|place| place.0);
    Ok(places)
}

// Returns the place that is listed with `id`, the first one if there are several.
fn place_of(places: &[(u64, usize)], id: u64) -> Option<usize>
    requires { AreById places.now }
    ensures some { IfSome result (λ place. Contains places.now (id, place)) }
    ensures none { IfNone result ((place : ℕ) → Contains places.now (id, place) → ⊥) }
{
    let first = places.partition_point(
        |place: &(u64, usize)| -> bool
            ensures { result ≡ nat_lt place.now.0 id }
        { place.0 < id },
    );
    let Some(found) = places.get(first) else {
        return None;
    };
    if found.0 == id { Some(found.1) } else { None }
}
