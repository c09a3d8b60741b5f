// Takes families out of runs.
ghost use Rattle.std.specs.Prelude.{◌≡◌, ◌+◌, ◌++◌, ◌<◌, ◌≤◌, List, [], length, take, set, vec_len, vec_capacity, IfOk, OnOk, OnErr, IsTrue};
ghost use Rattle.sq_schema.specs.declared.root.TheConstants.{ROOT_END};
ghost use Rattle.sq_schema.specs.Prelude.{FamilyValue};
ghost use Rattle.sq_store.specs.StoreValue.{families_between, without_between};
ghost use Rattle.sq_store.specs.InOrder.{AreKeyed};
ghost use Rattle.sq_store.specs.Listed.{roots_rise};
ghost use Rattle.sq_store.specs.Counting.{chunk_count, fitting, root_after};
ghost use Rattle.sq_store.specs.Runs.{families_in_runs, store_of_runs, between as between_in, outside, AreRuns, IsTakenTo, nth_run, refilled};

use crate::family_run::{between, detach, take_between as take_of_run};
use crate::runs::Runs;
use crate::search::{first_from, runs_between};
use sq_schema::Family;
use std::alloc::AllocError;

// Returns how many families from `lo` on and below `hi` a chunk of `limit` bytes takes, and where
// it ends.
pub(crate) fn cut(runs: &Runs, lo: u64, hi: u64, limit: u64) -> (usize, u64)
    requires bounds { lo ≤ hi }
    requires runs { AreRuns ROOT_END runs.now }
    ensures count { result.0 ≡ chunk_count limit (between_in lo hi (families_in_runs runs.now)) }
    ensures end { result.1
        ≡ root_after hi (between_in lo hi (families_in_runs runs.now)) result.0 }
{
    let Some(family) = first_from(runs, lo) else {
        return (0, hi);
    };
    fit(runs, lo, hi, limit.max(family.size()))
}

// Returns how many families from `lo` on and below `hi` fit into `room` bytes, and where they end.
fn fit(runs: &Runs, lo: u64, hi: u64, room: u64) -> (usize, u64)
    requires bounds { lo ≤ hi }
    requires runs { AreRuns ROOT_END runs.now }
    ensures count { result.0 ≡ fitting room (between_in lo hi (families_in_runs runs.now)) }
    ensures end { result.1
        ≡ root_after hi (between_in lo hi (families_in_runs runs.now)) result.0 }
{
    let (first, last) = runs_between(runs, lo, hi);
    let mut left = room;
    let mut count = 0;
    for at in first..last {
        let families = between(runs.families(at), lo, hi);
        let (fits, rest) = fit_in(families, left);
        count += fits;
        if let Some(family) = families.get(fits) {
            return (count, family.root().number());
        }
        left = rest;
    }
    (count, hi)
}

// Returns how many families from the front fit into `room` bytes, and how many bytes they leave.
fn fit_in(families: &[Family], room: u64) -> (usize, u64)
    ensures count { result.0 ≡ fitting room families.now }
    ensures left { (more : List FamilyValue) → result.0 ≡ length families.now
        → fitting room (families.now ++ more) ≡ result.0 + fitting result.1 more }
{
    let mut left = room;
    for (at, family) in families.iter().enumerate() {
        match left.checked_sub(family.size()) {
            Some(rest) => left = rest,
            None => return (at, left),
        }
    }
    (families.len(), left)
}

// Takes out the `count` families from `lo` on and below `hi`. If memory runs out, nothing changes.
pub(crate) fn take_chunk(
    runs: &mut Runs,
    lo: u64,
    hi: u64,
    count: usize,
) -> Result<Vec<Family>, AllocError>
    requires bounds { lo ≤ hi }
    requires runs { AreRuns ROOT_END runs.old }
    requires count { count ≡ length (families_between (store_of_runs runs.old) lo hi) }
    ensures taken { IfOk result (λ taken.
        taken.items ≡ families_between (store_of_runs runs.old) lo hi) }
    ensures store { OnOk result (store_of_runs runs.new
        ≡ without_between (store_of_runs runs.old) lo hi) }
    ensures runs { AreRuns ROOT_END runs.new }
    ensures keyed { IfOk result (λ taken. AreKeyed taken.items) }
    ensures err { OnErr result (families_in_runs runs.new ≡ families_in_runs runs.old) }
{
    let (first, last) = runs_between(runs, lo, hi);
    if last <= first {
        return Ok(Vec::new(runs.allocator()));
    }
    let at = last - 1;
    let part = between(runs.families(at), lo, hi).len();
    if part == count {
        return detach_at(runs, at, lo, hi);
    }
    let mut taken = Vec::with_capacity(runs.allocator(), count)?;
    let mut rest = detach_at(runs, at, lo, hi)?;
    take_runs(runs, first, at, lo, hi, &mut taken);
    let Ok(()) = taken.append(&mut rest) else {
        unreachable!()
    };
    Ok(taken)
}

// Takes the families from `lo` on and below `hi` out of the run at `at`. If memory runs out,
// nothing changes.
fn detach_at(runs: &mut Runs, at: usize, lo: u64, hi: u64) -> Result<Vec<Family>, AllocError>
    requires bounds { lo ≤ hi }
    requires at { at < length runs.old }
    requires rise { IsTrue (roots_rise (nth_run runs.old at).families) }
    ensures taken { IfOk result (λ taken.
        taken.items ≡ between_in lo hi (nth_run runs.old at).families) }
    ensures left { OnOk result (runs.new
        ≡ set runs.old at (refilled runs.old at
        (outside lo hi (nth_run runs.old at).families))) }
    ensures keyed { IfOk result (λ taken. AreKeyed taken.items) }
    ensures err { OnErr result (runs.new ≡ runs.old) }
{
    let mut families = Vec::new(runs.allocator());
    runs.swap(at, &mut families);
    let taken = detach(&mut families, lo, hi);
    runs.swap(at, &mut families);
    taken
}

// Moves the families from `lo` on and below `hi` to the end of `taken`, which has room for them. A
// run that becomes empty stays until the store is folded.
pub(crate) fn take_between(runs: &mut Runs, lo: u64, hi: u64, taken: &mut Vec<Family>)
    requires bounds { lo ≤ hi }
    requires runs { AreRuns ROOT_END runs.old }
    requires room { vec_len taken.old
        + length (families_between (store_of_runs runs.old) lo hi) ≤ vec_capacity taken.old }
    ensures taken { taken.new.items
        ≡ taken.old.items ++ families_between (store_of_runs runs.old) lo hi }
    ensures store { store_of_runs runs.new
        ≡ without_between (store_of_runs runs.old) lo hi }
    ensures capacity { vec_capacity taken.old ≤ vec_capacity taken.new }
    ensures runs { AreRuns ROOT_END runs.new }
    ensures keyed { AreKeyed taken.old.items → AreKeyed taken.new.items }
{
    let (first, last) = runs_between(runs, lo, hi);
    take_runs(runs, first, last, lo, hi, taken);
}

// Moves the families from `lo` on and below `hi` that are in the runs from `first` on and before
// `last`.
fn take_runs(runs: &mut Runs, first: usize, last: usize, lo: u64, hi: u64, taken: &mut Vec<Family>)
    requires bounds { lo ≤ hi }
    requires runs { AreRuns ROOT_END runs.old }
    requires last { last ≤ length runs.old }
    requires before { between_in lo hi (families_in_runs (take first runs.old)) ≡ [] }
    requires room { vec_len taken.old
        + length (between_in lo hi (families_in_runs (take last runs.old))) ≤ vec_capacity taken.old }
    requires rise { first ≤ last }
    ensures taken { taken.new.items
        ≡ taken.old.items ++ between_in lo hi (families_in_runs (take last runs.old)) }
    ensures left { IsTakenTo runs.old lo hi last runs.new }
    ensures capacity { vec_capacity taken.old ≤ vec_capacity taken.new }
    ensures keyed { AreKeyed taken.old.items → AreKeyed taken.new.items }
{
    for at in first..last {
        take_run(runs, at, lo, hi, taken);
    }
}

// Moves the families from `lo` on and below `hi` that are in the run at `at`.
fn take_run(runs: &mut Runs, at: usize, lo: u64, hi: u64, taken: &mut Vec<Family>)
    requires bounds { lo ≤ hi }
    requires at { at < length runs.old }
    requires rise { IsTrue (roots_rise (nth_run runs.old at).families) }
    requires room { vec_len taken.old + length (between_in lo hi (nth_run runs.old at).families)
        ≤ vec_capacity taken.old }
    ensures taken { taken.new.items
        ≡ taken.old.items ++ between_in lo hi (nth_run runs.old at).families }
    ensures left { runs.new ≡ set runs.old at (refilled runs.old at
        (outside lo hi (nth_run runs.old at).families)) }
    ensures capacity { vec_capacity taken.old ≤ vec_capacity taken.new }
    ensures keyed { AreKeyed taken.old.items → AreKeyed taken.new.items }
{
    let mut families = Vec::new(runs.allocator());
    runs.swap(at, &mut families);
    take_of_run(&mut families, lo, hi, taken);
    runs.swap(at, &mut families);
}
