// Families in a slab.
ghost use Rattle.std.specs.Prelude.{◌≡◌, ◌==◌, ◌+◌, ◌++◌, ◌<◌, ◌≤◌, List, [], option_to_list, vec_len, vec_capacity, None, IsTrue, IfOk, IfErr, OnOk, OnErr};
ghost use Rattle.std.specs.FinMap.{get, insert, remove, len, empty};
ghost use Rattle.sq_store.specs.StoreValue.{store_reply, store_after, with_families, roots_differ, has_none_of};
ghost use Rattle.sq_store.specs.InOrder.{families_in, HoldsByRoot};
ghost use Rattle.sq_store.specs.PutIn.{IsPutIn, TakesBack};

use crate::blocks::{block_of, give_block};
use crate::putting::{apply_at, fold_runs, insert_family};
use crate::run_iter::RunIter;
use crate::runs::Runs;
use crate::search::{count, find, first_from};
use crate::store::{Cut, FamilyStore};
use crate::taking::{cut, take_between, take_chunk};
use sq_moves::Extent;
use sq_schema::{ApplyFault, Family, Reply, Root, Txn};
use std::alloc::{AllocError, Global};
use std::marker::Model;

mod open;

/// The families of one partition, in a slab of runs with an index of the runs by root key. A call
/// searches the index, and then one run. A chunk that covers whole runs takes them and puts them in
/// whole: no family is searched for or shifted. To a contract it is a `StoreValue`, a map from root
/// keys to families.
#[derive(Debug, Drop)]
pub struct SlabStore {
    runs: Runs,
}

impl Model for SlabStore {
    ghost use Rattle.sq_schema.specs.declared.root.TheConstants.{ROOT_END};
    ghost use Rattle.sq_store.specs.StoreValue.{StoreValue};
    ghost use Rattle.sq_store.specs.Codes.{store_coded};
    ghost use Rattle.sq_store.specs.Runs.{store_of_runs, AreRuns};

    ghost Value = { StoreValue };

    ghost coded = { store_coded };

    ghost view = { λ s. store_of_runs s.runs };

    ghost invariant = { λ s. AreRuns ROOT_END s.runs };
}

impl SlabStore {
    /// Creates an empty store.
    pub fn new(alloc: Global) -> SlabStore
        ensures { result ≡ empty }
    {
        SlabStore {
            runs: Runs::new(alloc),
        }
    }

    /// Returns the number of families.
    pub fn len(&self) -> usize
        ensures { result ≡ len self.now }
    {
        count(&self.runs)
    }

    /// Returns an iterator over the families by rising root key.
    pub fn families(&self) -> RunIter<'_>
        ensures families { result ≡ families_in self.now }
        ensures rooted { HoldsByRoot self.now }
    {
        RunIter::new(&self.runs)
    }

    /// Returns true if the store is empty.
    pub fn is_empty(&self) -> bool
        ensures { result ≡ (len self.now == 0) }
    {
        self.len() == 0
    }

    // Inserts `family`. If memory runs out, it is returned.
    fn insert(&mut self, family: Family) -> Result<(), Family>
        requires { get self.old family.root ≡ None }
        ensures ok { OnOk result (self.new ≡ insert self.old family.root family) }
        ensures family_returned { IfErr result (λ back. back ≡ family) }
        ensures err { OnErr result (self.new ≡ self.old) }
    {
        insert_family(&mut self.runs, family)
    }

    // Runs a transaction whose root key has no family. If it commits, its family is inserted.
    fn open(&mut self, txn: &Txn) -> Result<Reply, ApplyFault>
        requires { get self.old txn.now.root ≡ None }
        ensures memory { IfErr result (λ fault. fault ≡ ApplyFault.Memory) }
        ensures reply { IfOk result (λ reply. reply ≡ store_reply self.old txn.now) }
        ensures store { IfOk result (λ reply. self.new ≡ store_after self.old txn.now reply) }
        ensures err { OnErr result (self.new ≡ self.old) }
    {
        let mut family = Family::empty(self.runs.allocator(), txn.root());
        let reply = family.apply(txn)?;
        if let Reply::Committed(_) = &reply {
            if self.insert(family).is_err() {
                return Err(ApplyFault::Memory);
            }
        }
        Ok(reply)
    }

    // Inserts families from the last on, and lists their root keys in `roots`, which has room for
    // them. Returns false if memory runs out; the families not inserted are then left in
    // `families`.
    fn put_in(&mut self, families: &mut Vec<Family>, roots: &mut Vec<Root>) -> bool
        requires differ { IsTrue (roots_differ families.old.items) }
        requires absent { IsTrue (has_none_of self.old families.old.items) }
        requires none { roots.old.items ≡ [] }
        requires room { vec_len families.old ≤ vec_capacity roots.old }
        ensures put { IsPutIn self.old families.old.items families.new.items roots.new.items
            self.new }
        ensures all { IsTrue result → families.new.items ≡ [] }
        ensures capacity { vec_capacity families.new ≡ vec_capacity families.old }
        ensures count { vec_len families.new + vec_len roots.new ≡ vec_len families.old }
    {
        while let Some(family) = families.pop() {
            let root = family.root();
            if let Err(family) = self.insert(family) {
                families.push_reserved(family);
                return false;
            }
            roots.push_reserved(root);
        }
        true
    }

    // Moves the families of `roots` out again, from the last on, to the end of `families`, which
    // has room for them.
    fn take_back(&mut self, families: &mut Vec<Family>, mut roots: Vec<Root>)
        requires { vec_len families.old + vec_len roots ≤ vec_capacity families.old }
        ensures { TakesBack families.old.items roots.items self.old families.new.items self.new }
    {
        while let Some(root) = roots.pop() {
            self.move_out(root, families);
        }
    }

    // Moves the family of `root`, if there is one, to the end of `families`, which has room for it.
    fn move_out(&mut self, root: Root, families: &mut Vec<Family>)
        requires { vec_len families.old < vec_capacity families.old }
        ensures taken { families.new.items
            ≡ families.old.items ++ option_to_list (get self.old root) }
        ensures store { self.new ≡ remove self.old root }
        ensures capacity { vec_capacity families.old ≤ vec_capacity families.new }
    {
        let at = root.number();
        take_between(&mut self.runs, at, at + 1, families);
    }

    // Inserts `families` one by one. If memory runs out, all are returned.
    fn give_each(&mut self, mut families: Vec<Family>) -> Result<(), Vec<Family>>
        requires differ { IsTrue (roots_differ families.items) }
        requires absent { IsTrue (has_none_of self.old families.items) }
        ensures ok { OnOk result (self.new ≡ with_families self.old families.items) }
        ensures families_returned { IfErr result (λ back. back.items ≡ families.items) }
        ensures err { OnErr result (self.new ≡ self.old) }
    {
        let mut roots = Vec::new(self.runs.allocator());
        if roots.reserve(families.len()).is_err() {
            return Err(families);
        }
        // After this, rising families are inserted in rising order, each at the end of a run.
        families.reverse();
        if self.put_in(&mut families, &mut roots) {
            Ok(())
        } else {
            self.take_back(&mut families, roots);
            families.reverse();
            Err(families)
        }
    }
}

impl FamilyStore for SlabStore {
    ghost contents = { λ store. store };

    fn get(&self, root: Root) -> Option<&Family> {
        let (run, at) = find(&self.runs, root)?;
        Some(&self.runs.families(run)[at])
    }

    fn walk(&self, at: u64) -> Option<&Family> {
        first_from(&self.runs, at)
    }

    fn apply(&mut self, txn: &Txn) -> Result<Reply, ApplyFault> {
        match find(&self.runs, txn.root()) {
            Some((run, at)) => apply_at(&mut self.runs, run, at, txn),
            None => self.open(txn),
        }
    }

    fn take(&mut self, extent: Extent, limit: u64) -> Result<Cut, AllocError> {
        let Extent { lo, hi } = extent;
        if hi <= lo {
            return Ok(Cut {
                families: Vec::new(self.runs.allocator()),
                end: hi,
                last: true,
            });
        }
        let (count, end) = cut(&self.runs, lo, hi, limit);
        let families = take_chunk(&mut self.runs, lo, end, count)?;
        Ok(Cut {
            families,
            end,
            last: end == hi,
        })
    }

    fn give(&mut self, families: Vec<Family>) -> Result<(), Vec<Family>> {
        match block_of(&self.runs, &families) {
            Some((lo, hi)) => give_block(&mut self.runs, lo, hi, families),
            None => self.give_each(families),
        }
    }

    fn fold(&mut self) {
        fold_runs(&mut self.runs);
    }
}
