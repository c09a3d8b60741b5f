// Inserts families into runs.
ghost use Rattle.std.specs.Prelude.{◌≡◌, ◌+◌, ◌++◌, ◌∷◌, ◌<◌, ◌≤◌, ◌↔◌, [], length, set, None, All, IfOk, IfErr, OnOk, OnErr, IsErrOf};
ghost use Rattle.std.specs.List.{insert as put_in};
ghost use Rattle.std.specs.FinMap.{get, insert as insert_at_key};
ghost use Rattle.sq_schema.specs.declared.root.TheConstants.{ROOT_END};
ghost use Rattle.sq_schema.specs.declared.family.TheConstants.{MAX_LOG};
ghost use Rattle.sq_store.specs.StoreValue.{log_length, store_reply, store_after};
ghost use Rattle.sq_store.specs.Listed.{folded_families};
ghost use Rattle.sq_store.specs.Runs.{families_in_runs, store_of_runs, AreRuns, IsRunOf, IsFamilyAt, KeepsFamilies, nth_run, refilled};

use crate::family_run::insert;
use crate::runs::Runs;
use crate::search::run_of;
use crate::vec_store::fold_all;
use sq_schema::{ApplyFault, Family, Reply, Root, Txn};
use std::alloc::AllocError;

// The number of families at which a run is full.
pub(crate) const MAX_RUN: usize = 128;

// The number of families in each run when a store opens.
const OPENED_RUN: usize = 32;

// Runs `txn` on the family of its root key, which is at `at` in the run at `run`.
pub(crate) fn apply_at(
    runs: &mut Runs,
    run: usize,
    at: usize,
    txn: &Txn,
) -> Result<Reply, ApplyFault>
    requires runs { AreRuns ROOT_END runs.old }
    requires place { IsFamilyAt runs.old txn.now.root run at }
    ensures full { IsErrOf result ApplyFault.LogFull
        ↔ (MAX_LOG ≤ log_length (store_of_runs runs.old) txn.now.root) }
    ensures reply { IfOk result (λ reply.
        reply ≡ store_reply (store_of_runs runs.old) txn.now) }
    ensures store { IfOk result (λ reply. store_of_runs runs.new
        ≡ store_after (store_of_runs runs.old) txn.now reply) }
    ensures runs { AreRuns ROOT_END runs.new }
    ensures err { OnErr result (families_in_runs runs.new ≡ families_in_runs runs.old) }
{
    runs.apply(run, at, txn)
}

// Replaces the family at `at` in the run at `run` by `family`, which has its root key.
pub(crate) fn put_at(runs: &mut Runs, run: usize, at: usize, family: Family)
    requires runs { AreRuns ROOT_END runs.old }
    requires place { IsFamilyAt runs.old family.root run at }
    ensures store { store_of_runs runs.new
        ≡ insert_at_key (store_of_runs runs.old) family.root family }
    ensures runs { AreRuns ROOT_END runs.new }
{
    runs.put(run, at, family);
}

// Inserts `family`. If memory runs out, it is returned.
pub(crate) fn insert_family(runs: &mut Runs, family: Family) -> Result<(), Family>
    requires runs { AreRuns ROOT_END runs.old }
    requires absent { get (store_of_runs runs.old) family.root ≡ None }
    ensures ok { OnOk result (store_of_runs runs.new
        ≡ insert_at_key (store_of_runs runs.old) family.root family) }
    ensures runs { AreRuns ROOT_END runs.new }
    ensures family_returned { IfErr result (λ back. back ≡ family) }
    ensures err { OnErr result (families_in_runs runs.new ≡ families_in_runs runs.old) }
{
    match make_place(runs, family.root()) {
        Ok(at) => insert_at(runs, at, family),
        Err(_) => Err(family),
    }
}

// Inserts `family` into the run at `at`, to which it belongs. If memory runs out, it is returned.
fn insert_at(runs: &mut Runs, at: usize, family: Family) -> Result<(), Family>
    requires runs { AreRuns ROOT_END runs.old }
    requires place { IsRunOf runs.old family.root at }
    requires absent { get (store_of_runs runs.old) family.root ≡ None }
    ensures ok { OnOk result (store_of_runs runs.new
        ≡ insert_at_key (store_of_runs runs.old) family.root family) }
    ensures runs { AreRuns ROOT_END runs.new }
    ensures family_returned { IfErr result (λ back. back ≡ family) }
    ensures err { OnErr result (families_in_runs runs.new ≡ families_in_runs runs.old) }
{
    let mut families = Vec::new(runs.allocator());
    runs.swap(at, &mut families);
    let put = insert(&mut families, family);
    runs.swap(at, &mut families);
    put
}

// Makes a run that `root` belongs to and that isn't full. Returns its place.
fn make_place(runs: &mut Runs, root: Root) -> Result<usize, AllocError>
    requires { AreRuns ROOT_END runs.old }
    ensures place { IfOk result (IsRunOf runs.new root) }
    ensures kept { KeepsFamilies runs.old runs.new }
{
    let at = make_run_of(runs, root)?;
    if runs.families(at).len() < MAX_RUN {
        Ok(at)
    } else {
        split_for(runs, at, root)
    }
}

// Makes a run that `root` belongs to, if there is none: lowers the bound of the first run, or
// inserts an empty run. Returns its place.
pub(crate) fn make_run_of(runs: &mut Runs, root: Root) -> Result<usize, AllocError>
    requires { AreRuns ROOT_END runs.old }
    ensures place { IfOk result (IsRunOf runs.new root) }
    ensures kept { KeepsFamilies runs.old runs.new }
{
    if let Some(at) = run_of(runs, root) {
        return Ok(at);
    }
    if runs.len() == 0 {
        start_run(runs, 0, root)?;
    } else {
        runs.set_lo(0, root);
    }
    Ok(0)
}

// Inserts an empty run at `at`.
fn start_run(runs: &mut Runs, at: usize, lo: Root) -> Result<(), AllocError>
    requires { at ≤ length runs.old }
    ensures ok { OnOk result (runs.new ≡ put_in runs.old at (record { lo = lo; families = [] })) }
    ensures err { OnErr result (runs.new ≡ runs.old) }
{
    let families = Vec::new(runs.allocator());
    match runs.insert(at, lo, families) {
        Ok(()) => Ok(()),
        Err(_) => Err(AllocError),
    }
}

// Splits a full run for `root`, which belongs to it: a root key above all others gets a run of its
// own, and otherwise the run is halved. Returns the place of the run that `root` then belongs to.
fn split_for(runs: &mut Runs, at: usize, root: Root) -> Result<usize, AllocError>
    requires runs { AreRuns ROOT_END runs.old }
    requires place { IsRunOf runs.old root at }
    ensures place { IfOk result (IsRunOf runs.new root) }
    ensures kept { KeepsFamilies runs.old runs.new }
{
    let Some(last) = runs.families(at).last() else {
        return Ok(at);
    };
    if last.root() < root {
        start_behind(runs, at, root)
    } else {
        halve(runs, at, root)
    }
}

// Inserts a run with the bound `root` after the run at `at`. Returns its place.
fn start_behind(runs: &mut Runs, at: usize, root: Root) -> Result<usize, AllocError>
    requires runs { AreRuns ROOT_END runs.old }
    requires place { IsRunOf runs.old root at }
    requires below { All (λ family. family.root < root) (nth_run runs.old at).families }
    ensures place { IfOk result (IsRunOf runs.new root) }
    ensures kept { KeepsFamilies runs.old runs.new }
{
    let next = runs.after(at);
    start_run(runs, next, root)?;
    Ok(next)
}

// Halves the run at `at`. Returns the place of the half that `root` belongs to.
fn halve(runs: &mut Runs, at: usize, root: Root) -> Result<usize, AllocError>
    requires runs { AreRuns ROOT_END runs.old }
    requires place { IsRunOf runs.old root at }
    requires some { 0 < length (nth_run runs.old at).families }
    ensures place { IfOk result (IsRunOf runs.new root) }
    ensures kept { KeepsFamilies runs.old runs.new }
{
    let middle = runs.families(at).len() / 2;
    runs.split(at, middle)?;
    let next = runs.after(at);
    if root < runs.lo(next) {
        Ok(at)
    } else {
        Ok(next)
    }
}

// Appends `family`, whose root key is above all others.
pub(crate) fn put_behind(runs: &mut Runs, family: Family) -> Result<(), AllocError>
    requires { AreRuns family.root runs.old }
    ensures families { OnOk result (families_in_runs runs.new
        ≡ families_in_runs runs.old ++ family ∷ []) }
    ensures runs { OnOk result (AreRuns (family.root + 1) runs.new) }
{
    if let Some(last) = runs.len().checked_sub(1) {
        if runs.families(last).len() < OPENED_RUN {
            return runs.push(last, family);
        }
    }
    let lo = family.root();
    let mut families = Vec::with_capacity(runs.allocator(), OPENED_RUN)?;
    families.push_reserved(family);
    let Ok(()) = runs.insert(runs.len(), lo, families) else {
        return Err(AllocError);
    };
    Ok(())
}

// Folds the logs of all families, then drops the families without rows and the empty runs.
pub(crate) fn fold_runs(runs: &mut Runs)
    requires { AreRuns ROOT_END runs.old }
    ensures families { families_in_runs runs.new ≡ folded_families (families_in_runs runs.old) }
    ensures runs { AreRuns ROOT_END runs.new }
{
    fold_each_run(runs);
    runs.drop_empty();
}

// Folds the logs of all families, and drops those without rows.
fn fold_each_run(runs: &mut Runs)
    requires { AreRuns ROOT_END runs.old }
    ensures families { families_in_runs runs.new ≡ folded_families (families_in_runs runs.old) }
    ensures runs { AreRuns ROOT_END runs.new }
{
    for at in 0..runs.len() {
        fold_run(runs, at);
    }
}

// Folds the logs of the families of the run at `at`, and drops those without rows.
fn fold_run(runs: &mut Runs, at: usize)
    requires { at < length runs.old }
    ensures { runs.new ≡ set runs.old at
        (refilled runs.old at (folded_families (nth_run runs.old at).families)) }
{
    let mut families = Vec::new(runs.allocator());
    runs.swap(at, &mut families);
    fold_all(&mut families);
    runs.swap(at, &mut families);
}
