// Runs of families in a slab.
ghost use Rattle.std.specs.Prelude.{◌≡◌, ◌==◌, ◌+◌, ◌++◌, ◌∷◌, ◌<◌, ◌≤◌, ◌↔◌, not, nat_lt, length, set, filter, [], vec_len, vec_capacity, IsTrue, IsErrOf, OnOk, OnErr, IfErr};
ghost use Rattle.std.specs.List.{insert as put_in};
ghost use Rattle.slab.specs.Slab.{HasRoomFor};
ghost use Rattle.sq_schema.specs.declared.root.TheConstants.{ROOT_END};
ghost use Rattle.sq_schema.specs.declared.family.TheConstants.{MAX_LOG};
ghost use Rattle.sq_store.specs.StoreValue.{log_length};
ghost use Rattle.sq_store.specs.Listed.{roots_rise, store_of, IsRootAt};
ghost use Rattle.sq_store.specs.Run.{has_families};
ghost use Rattle.sq_store.specs.Indexed.{run_under, runs_of, IsIndex};
ghost use Rattle.sq_store.specs.Runs.{AreRuns, IsBoundPlace, IsSplit, IsApplied, nth_run, refilled, with_lo};

use crate::family_run::{apply, cut_off};
use slab::Slab;
use sq_schema::{ApplyFault, Family, Reply, Root, Txn};
use std::alloc::{AllocError, Global};
use std::marker::Model;
use std::mem;

/// An entry of a run: the lower bound of its root keys, and its key in the slab.
#[derive(Clone, Copy, Debug)]
pub(crate) struct RunEntry {
    lo: Root,
    key: usize,
}

/// Runs of families in a slab, with an index of their lower bounds. To a contract it is the list of
/// the runs.
#[derive(Debug, Drop)]
pub(crate) struct Runs {
    slab: Slab<Vec<Family>>,
    index: Vec<RunEntry>,
}

impl Model for Runs {
    ghost use Rattle.std.specs.Prelude.{List};
    ghost use Rattle.sq_store.specs.Run.{Run};
    ghost use Rattle.sq_store.specs.Indexed.{runs_of, IsIndex};

    ghost Value = { List Run };

    ghost view = { λ r. runs_of r.slab r.index.items };

    ghost invariant = { λ r. IsIndex r.slab r.index.items };
}

impl Runs {
    /// Creates an empty list of runs.
    pub(crate) fn new(alloc: Global) -> Runs
        ensures { result ≡ [] }
    {
        Runs {
            slab: Slab::new(alloc),
            index: Vec::new(alloc),
        }
    }

    pub(crate) fn allocator(&self) -> Global {
        *self.index.allocator()
    }

    /// Returns the number of runs.
    pub(crate) fn len(&self) -> usize
        ensures { result ≡ length self.now }
    {
        self.index.len()
    }

    /// Counts the runs whose bound is below `key`.
    pub(crate) fn below(&self, key: u64) -> usize
        requires { AreRuns ROOT_END self.now }
        ensures { IsBoundPlace self.now key result }
    {
        self.index.partition_point(
            |entry: &RunEntry| -> bool
                ensures { result ≡ nat_lt entry.now.lo key }
            { entry.lo.number() < key },
        )
    }

    /// Returns the bound of the run at `at`.
    pub(crate) fn lo(&self, at: usize) -> Root
        requires { at < length self.now }
        ensures { result ≡ (nth_run self.now at).lo }
    {
        self.index[at].lo
    }

    /// Returns the place after the run at `at`.
    pub(crate) fn after(&self, at: usize) -> usize
        requires { at < length self.now }
        ensures { result ≡ at + 1 }
    {
        // Called for what it ensures: a `usize` counts the runs.
        let _ = self.len();
        at + 1
    }

    /// Returns the families of the run at `at`.
    pub(crate) fn families(&self, at: usize) -> &[Family]
        requires { at < length self.now }
        ensures { result.now ≡ (nth_run self.now at).families }
    {
        &self.slab[self.index[at].key]
    }

    /// Exchanges the families of the run at `at` with `families`.
    pub(crate) fn swap(&mut self, at: usize, families: &mut Vec<Family>)
        requires { at < length self.old }
        ensures families { families.new.items ≡ (nth_run self.old at).families }
        ensures runs { self.new ≡ set self.old at (refilled self.old at families.old.items) }
    {
        mem::swap(&mut self.slab[self.index[at].key], families);
    }

    /// Sets the bound of the run at `at`.
    pub(crate) fn set_lo(&mut self, at: usize, lo: Root)
        requires { at < length self.old }
        ensures { self.new ≡ set self.old at (with_lo self.old at lo) }
    {
        self.index[at].lo = lo;
    }

    /// Appends `family` to the families of the run at `at`.
    pub(crate) fn push(&mut self, at: usize, family: Family) -> Result<(), AllocError>
        requires { at < length self.old }
        ensures { OnOk result (self.new ≡ set self.old at
            (refilled self.old at ((nth_run self.old at).families ++ family ∷ []))) }
    {
        let pushed = self.slab[self.index[at].key].push(family);
        match pushed {
            Ok(()) => Ok(()),
            Err(_) => Err(AllocError),
        }
    }

    /// Puts `family` in the place of the one at `at` in the run at `run`.
    pub(crate) fn put(&mut self, run: usize, at: usize, family: Family)
        requires run { run < length self.old }
        requires at { at < length (nth_run self.old run).families }
        ensures { self.new ≡ set self.old run
            (refilled self.old run (set (nth_run self.old run).families at family)) }
    {
        self.slab[self.index[run].key][at] = family;
    }

    /// Runs `txn` on the family of its root key, which is at `at` in the run at `run`.
    pub(crate) fn apply(&mut self, run: usize, at: usize, txn: &Txn) -> Result<Reply, ApplyFault>
        requires rise { IsTrue (roots_rise (nth_run self.old run).families) }
        requires run { run < length self.old }
        requires here { IsRootAt (nth_run self.old run).families txn.now.root at }
        ensures full { IsErrOf result ApplyFault.LogFull
            ↔ (MAX_LOG ≤ log_length (store_of (nth_run self.old run).families) txn.now.root) }
        ensures applied { IsApplied self.old run txn.now result self.new }
    {
        apply(&mut self.slab[self.index[run].key], at, txn)
    }

    /// Inserts a run with the bound `lo` at `at`. If memory runs out, its `families` are returned.
    pub(crate) fn insert(
        &mut self,
        at: usize,
        lo: Root,
        families: Vec<Family>,
    ) -> Result<(), Vec<Family>>
        requires { at ≤ length self.old }
        ensures ok { OnOk result (self.new
            ≡ put_in self.old at (record { lo = lo; families = families.items })) }
        ensures families_returned { IfErr result (λ back. back.items ≡ families.items) }
        ensures err { OnErr result (self.new ≡ self.old) }
    {
        let Ok(()) = make_room(&mut self.slab, &mut self.index) else {
            return Err(families);
        };
        add(&mut self.slab, &mut self.index, at, lo, families);
        Ok(())
    }

    /// Splits the run at `at` before its family at `place`. If memory runs out, nothing changes.
    pub(crate) fn split(&mut self, at: usize, place: usize) -> Result<(), AllocError>
        requires at { at < length self.old }
        requires place { place < length (nth_run self.old at).families }
        ensures ok { OnOk result (IsSplit self.old at place self.new) }
        ensures err { OnErr result (self.new ≡ self.old) }
    {
        make_room(&mut self.slab, &mut self.index)?;
        let (lo, back) = cut_off(&mut self.slab[self.index[at].key], place)?;
        add(&mut self.slab, &mut self.index, at + 1, lo, back);
        Ok(())
    }

    /// Drops the empty runs.
    pub(crate) fn drop_empty(&mut self)
        ensures { self.new ≡ filter has_families self.old }
    {
        keep_filled(&mut self.slab, &mut self.index);
    }
}

// Drops the empty runs and their entries.
fn keep_filled(slab: &mut Slab<Vec<Family>>, index: &mut Vec<RunEntry>)
    requires { IsIndex slab.old index.old.items }
    ensures runs { runs_of slab.new index.new.items
        ≡ filter has_families (runs_of slab.old index.old.items) }
    ensures indexed { IsIndex slab.new index.new.items }
{
    keep_entries(slab, index);
    slab.retain(
        |_: usize, families: &mut Vec<Family>| -> bool
            ensures is { result ≡ not (length families.old.items == 0) }
            ensures same { families.new ≡ families.old }
        { !families.is_empty() },
    );
}

// Drops the entries of the empty runs.
fn keep_entries(slab: &Slab<Vec<Family>>, index: &mut Vec<RunEntry>)
    ensures { index.new.items
        ≡ filter (λ entry. has_families (run_under slab.now entry)) index.old.items }
{
    index.retain(
        |entry: &RunEntry| -> bool
            ensures { result ≡ has_families (run_under slab.entry.now entry.now) }
        {
            match slab.get(entry.key) {
                Some(families) => !families.is_empty(),
                None => false,
            }
        },
    );
}

// Allocates room for one more run in the slab and in its index.
fn make_room(slab: &mut Slab<Vec<Family>>, index: &mut Vec<RunEntry>) -> Result<(), AllocError>
    ensures slots { slab.new.slots ≡ slab.old.slots }
    ensures entries { index.new.items ≡ index.old.items }
    ensures free { OnOk result (HasRoomFor slab.new 1) }
    ensures room { OnOk result (vec_len index.new < vec_capacity index.new) }
{
    index.reserve(1)?;
    slab.reserve(1)
}

// Puts `families` into a slab as a run, and their entry into its index at `at`.
fn add(
    slab: &mut Slab<Vec<Family>>,
    index: &mut Vec<RunEntry>,
    at: usize,
    lo: Root,
    families: Vec<Family>,
)
    requires indexed { IsIndex slab.old index.old.items }
    requires at { at ≤ vec_len index.old }
    requires slots { HasRoomFor slab.old 1 }
    requires room { vec_len index.old < vec_capacity index.old }
    ensures runs { runs_of slab.new index.new.items ≡ put_in (runs_of slab.old index.old.items) at
        (record { lo = lo; families = families.items }) }
    ensures indexed { IsIndex slab.new index.new.items }
{
    let key = slab.insert_reserved(families);
    let Ok(()) = index.insert(at, RunEntry { lo, key }) else {
        unreachable!()
    };
}
