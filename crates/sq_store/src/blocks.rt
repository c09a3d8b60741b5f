// Families that are inserted together.
ghost use Rattle.std.specs.Prelude.{◌≡◌, ◌+◌, ◌++◌, ◌<◌, ◌≤◌, [], nat_lt, length, drop, set, All, IfSome, IfOk, IfErr, OnOk, OnErr, IsTrue};
ghost use Rattle.sq_schema.specs.declared.root.TheConstants.{ROOT_END};
ghost use Rattle.sq_store.specs.StoreValue.{with_families};
ghost use Rattle.sq_store.specs.Listed.{roots_rise};
ghost use Rattle.sq_store.specs.Runs.{families_in_runs, store_of_runs, between, AreRuns, IsRunOf, IsGap, HasGap, IsBlock, IsRaised, KeepsFamilies, nth_run, refilled};

use crate::putting::{MAX_RUN, make_run_of};
use crate::runs::Runs;
use crate::search::has_none;
use crate::sorted::start;
use sq_schema::{Family, Root};
use std::alloc::AllocError;

// Fewer families than this are inserted one by one.
const MIN_BLOCK: usize = 8;

// Returns the least root key of `families` and the one after the greatest if they can be inserted
// together: their root keys rise, and the runs have no family between them.
pub(crate) fn block_of(runs: &Runs, families: &[Family]) -> Option<(Root, Root)>
    requires { AreRuns ROOT_END runs.now }
    ensures { IfSome result (λ block. IsBlock runs.now families.now block.0 block.1) }
{
    if families.len() < MIN_BLOCK || !are_sorted(families) {
        return None;
    }
    let (Some(first), Some(last)) = (families.first(), families.last()) else {
        return None;
    };
    let lo = first.root();
    let end = Root::new(last.root().number() + 1)?;
    if has_none(runs, lo.number(), end.number()) {
        Some((lo, end))
    } else {
        None
    }
}

// Returns true only if the root keys rise.
fn are_sorted(families: &[Family]) -> bool
    ensures { IsTrue result → IsTrue (roots_rise families.now) }
{
    families.is_sorted_by(
        |family: &Family, next: &Family| -> bool
            ensures { result ≡ nat_lt family.now.root next.now.root }
        { family.root() < next.root() },
    )
}

// Inserts `families` together. If memory runs out, they are returned.
pub(crate) fn give_block(
    runs: &mut Runs,
    lo: Root,
    end: Root,
    families: Vec<Family>,
) -> Result<(), Vec<Family>>
    requires runs { AreRuns ROOT_END runs.old }
    requires block { IsBlock runs.old families.items lo end }
    ensures ok { OnOk result (store_of_runs runs.new
        ≡ with_families (store_of_runs runs.old) families.items) }
    ensures runs { AreRuns ROOT_END runs.new }
    ensures families_returned { IfErr result (λ back. back.items ≡ families.items) }
    ensures err { OnErr result (families_in_runs runs.new ≡ families_in_runs runs.old) }
{
    let Ok(at) = make_gap(runs, lo, end) else {
        return Err(families);
    };
    let place = fill_gap(runs, at, lo, families)?;
    divide(runs, place);
    Ok(())
}

// Makes a run that root keys from `lo` on belong to, with all its families below `lo`, and raises
// the bounds of all later runs to `end` at least. Returns its place.
fn make_gap(runs: &mut Runs, lo: Root, end: Root) -> Result<usize, AllocError>
    requires runs { AreRuns ROOT_END runs.old }
    requires rise { lo < end }
    requires none { between lo end (families_in_runs runs.old) ≡ [] }
    ensures gap { IfOk result (IsGap runs.new lo end) }
    ensures kept { KeepsFamilies runs.old runs.new }
{
    let at = make_run_of(runs, lo)?;
    split_above(runs, at, lo)?;
    let next = runs.after(at);
    raise_bounds(runs, next, end);
    Ok(at)
}

// Splits the run at `at` before its families from `lo` on, if it has any.
fn split_above(runs: &mut Runs, at: usize, lo: Root) -> Result<(), AllocError>
    requires runs { AreRuns ROOT_END runs.old }
    requires place { IsRunOf runs.old lo at }
    ensures gap { OnOk result (IsGap runs.new lo lo at) }
    ensures kept { KeepsFamilies runs.old runs.new }
{
    let families = runs.families(at);
    let place = start(families, lo.number());
    if place < families.len() {
        runs.split(at, place)?;
    }
    Ok(())
}

// Raises the bounds of the runs from `from` on to at least `end`.
fn raise_bounds(runs: &mut Runs, from: usize, end: Root)
    requires runs { AreRuns ROOT_END runs.old }
    requires from { from ≤ length runs.old }
    requires above { All (λ family. end ≤ family.root) (families_in_runs (drop from runs.old)) }
    ensures { IsRaised runs.old from end runs.new }
{
    let mut at = runs.below(end.number()).max(from);
    while at > from {
        at -= 1;
        runs.set_lo(at, end);
    }
}

// Puts `families` into the run at `at` if it has room, or else into a new run after it. Returns the
// place of that run.
fn fill_gap(
    runs: &mut Runs,
    at: usize,
    lo: Root,
    mut families: Vec<Family>,
) -> Result<usize, Vec<Family>>
    requires runs { AreRuns ROOT_END runs.old }
    requires gap { HasGap runs.old families.items lo at }
    ensures place { IfOk result (λ place. place < length runs.new) }
    ensures ok { OnOk result (store_of_runs runs.new
        ≡ with_families (store_of_runs runs.old) families.items) }
    ensures runs { AreRuns ROOT_END runs.new }
    ensures families_returned { IfErr result (λ back. back.items ≡ families.items) }
    ensures err { OnErr result (families_in_runs runs.new ≡ families_in_runs runs.old) }
{
    let stand = runs.families(at).len();
    if stand == 0 {
        runs.swap(at, &mut families);
        Ok(at)
    } else if families.len() <= MAX_RUN.saturating_sub(stand) {
        append_to(runs, at, families)
    } else {
        let next = runs.after(at);
        runs.insert(next, lo, families)?;
        Ok(next)
    }
}

// Appends `families` to the run at `at`. If memory runs out, they are returned.
fn append_to(runs: &mut Runs, at: usize, mut families: Vec<Family>) -> Result<usize, Vec<Family>>
    requires { at < length runs.old }
    ensures place { IfOk result (λ place. place ≡ at) }
    ensures ok { OnOk result (runs.new ≡ set runs.old at (refilled runs.old at
        ((nth_run runs.old at).families ++ families.items))) }
    ensures families_returned { IfErr result (λ back. back.items ≡ families.items) }
    ensures err { OnErr result (runs.new ≡ runs.old) }
{
    let mut all = Vec::new(runs.allocator());
    runs.swap(at, &mut all);
    let appended = all.append(&mut families);
    runs.swap(at, &mut all);
    match appended {
        Ok(()) => Ok(at),
        Err(_) => Err(families),
    }
}

// Divides the run at `at` into runs of at most `MAX_RUN` families, unless memory runs out.
fn divide(runs: &mut Runs, at: usize)
    requires runs { AreRuns ROOT_END runs.old }
    requires at { at < length runs.old }
    ensures { KeepsFamilies runs.old runs.new }
{
    let mut len = runs.families(at).len();
    while len > MAX_RUN {
        len -= MAX_RUN;
        let Ok(()) = runs.split(at, len) else {
            return;
        };
    }
}
