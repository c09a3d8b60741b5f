// Searches runs of families.
ghost use Rattle.std.specs.Prelude.{◌≡◌, ◌<◌, ◌≤◌, length, drop, slice_get, option_copied, None, IfSome, IfNone, IsTrue, []};
ghost use Rattle.std.specs.FinMap.{get};
ghost use Rattle.sq_schema.specs.declared.root.TheConstants.{ROOT_END};
ghost use Rattle.sq_store.specs.InOrder.{family_from};
ghost use Rattle.sq_store.specs.Runs.{families_in_runs, store_of_runs, first_bound, AreRuns, IsRunOf, IsFamilyAt, IsSpan, between as families_between};

use crate::family_run::between;
use crate::runs::Runs;
use crate::sorted::{place, start};
use sq_schema::{Family, Root};

// Returns the place of the run that `root` belongs to; `None` if `root` is below all bounds.
pub(crate) fn run_of(runs: &Runs, root: Root) -> Option<usize>
    requires { AreRuns ROOT_END runs.now }
    ensures some { IfSome result (IsRunOf runs.now root) }
    ensures none { IfNone result (root < first_bound ROOT_END runs.now) }
{
    runs.below(root.number() + 1).checked_sub(1)
}

// Returns the place of the run that has the family of `root`, and its place in the run.
pub(crate) fn find(runs: &Runs, root: Root) -> Option<(usize, usize)>
    requires { AreRuns ROOT_END runs.now }
    ensures some { IfSome result (λ found. IsFamilyAt runs.now root found.0 found.1) }
    ensures none { IfNone result (get (store_of_runs runs.now) root ≡ None) }
{
    let run = run_of(runs, root)?;
    match place(runs.families(run), root) {
        Ok(at) => Some((run, at)),
        Err(_) => None,
    }
}

/// A place of a family in a slab, which may be out of date.
#[derive(Clone, Copy, Debug)]
pub struct Place {
    run: usize,
    // The place after it in the run; the last family of the run if it has fewer.
    end: usize,
}

impl Place {
    /// Returns a place to begin with.
    pub fn new() -> Place {
        Place { run: 0, end: 0 }
    }

    // Returns the place before that of the family at `at` in the run at `run`.
    pub(crate) fn before(run: usize, at: usize) -> Place {
        if at > 0 {
            Place { run, end: at }
        } else {
            Place {
                run: run.saturating_sub(1),
                end: usize::MAX,
            }
        }
    }
}

// Returns what `find` does; it looks at `near` first.
pub(crate) fn find_near(runs: &Runs, root: Root, near: Place) -> Option<(usize, usize)>
    requires { AreRuns ROOT_END runs.now }
    ensures some { IfSome result (λ found. IsFamilyAt runs.now root found.0 found.1) }
    ensures none { IfNone result (get (store_of_runs runs.now) root ≡ None) }
{
    match at_place(runs, root, near) {
        Some(found) => Some(found),
        None => find(runs, root),
    }
}

// Returns the place `near`, if the family of `root` is there.
fn at_place(runs: &Runs, root: Root, near: Place) -> Option<(usize, usize)>
    requires { AreRuns ROOT_END runs.now }
    ensures { IfSome result (λ found. IsFamilyAt runs.now root found.0 found.1) }
{
    if near.run >= runs.len() {
        return None;
    }
    let families = runs.families(near.run);
    let at = families.len().min(near.end).checked_sub(1)?;
    if families[at].root() == root {
        Some((near.run, at))
    } else {
        None
    }
}

// Returns the family with the least root key from `key` on.
pub(crate) fn first_from(runs: &Runs, key: u64) -> Option<&Family>
    requires { AreRuns ROOT_END runs.now }
    ensures { option_copied result ≡ family_from (store_of_runs runs.now) key }
{
    let next = runs.below(key);
    if let Some(run) = next.checked_sub(1) {
        let families = runs.families(run);
        if let Some(family) = families.get(start(families, key)) {
            return Some(family);
        }
    }
    first_of(runs, next)
}

// Returns the first family of the runs from `from` on.
fn first_of(runs: &Runs, from: usize) -> Option<&Family>
    ensures { option_copied result ≡ slice_get (families_in_runs (drop from runs.now)) 0 }
{
    for at in from..runs.len() {
        if let Some(family) = runs.families(at).first() {
            return Some(family);
        }
    }
    None
}

// Returns the span of the runs that may have families from `lo` on and below `hi`: the first, and
// the one after the last.
pub(crate) fn runs_between(runs: &Runs, lo: u64, hi: u64) -> (usize, usize)
    requires bounds { lo ≤ hi }
    requires runs { AreRuns ROOT_END runs.now }
    ensures { IsSpan runs.now lo hi result.0 result.1 }
{
    (runs.below(lo).saturating_sub(1), runs.below(hi))
}

// Returns true only if no family has a root key from `lo` on and below `hi`.
pub(crate) fn has_none(runs: &Runs, lo: u64, hi: u64) -> bool
    requires bounds { lo ≤ hi }
    requires runs { AreRuns ROOT_END runs.now }
    ensures { IsTrue result → families_between lo hi (families_in_runs runs.now) ≡ [] }
{
    let (first, last) = runs_between(runs, lo, hi);
    for at in first..last {
        if !between(runs.families(at), lo, hi).is_empty() {
            return false;
        }
    }
    true
}

// Counts the families of all runs.
pub(crate) fn count(runs: &Runs) -> usize
    requires { length (families_in_runs runs.now) ≤ ROOT_END }
    ensures { result ≡ length (families_in_runs runs.now) }
{
    let mut count = 0;
    for at in 0..runs.len() {
        count += runs.families(at).len();
    }
    count
}
