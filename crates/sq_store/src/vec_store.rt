// Families in a vector.
ghost use Rattle.std.specs.Prelude.{◌≡◌, ◌≤◌, ◌==◌, not, length, map, filter, vec_len, IfOk, IfErr, OnErr};
ghost use Rattle.std.specs.FinMap.{empty};
ghost use Rattle.sq_schema.specs.Prelude.{reply, rows_of, folded};
ghost use Rattle.sq_store.specs.StoreValue.{absent};
ghost use Rattle.sq_store.specs.InOrder.{families_in, HoldsByRoot};
ghost use Rattle.sq_store.specs.Listed.{opened, folded_families};

use crate::merge::merge;
use crate::sorted::{chunk_count, least_root, place, root_at, sorted, start, take_out};
use crate::store::{Cut, FamilyStore};
use sq_moves::Extent;
use sq_schema::{ApplyFault, Family, Reply, Root, Txn};
use std::alloc::{AllocError, Global};
use std::marker::Model;

/// The families of one partition in a vector, by root key. To a contract it is a `StoreValue`, a
/// map from root keys to families.
#[derive(Debug, Drop)]
pub struct VecStore {
    families: Vec<Family>,
}

impl Model for VecStore {
    ghost use Rattle.std.specs.Prelude.{IsTrue};
    ghost use Rattle.sq_store.specs.StoreValue.{StoreValue};
    ghost use Rattle.sq_store.specs.Codes.{store_coded};
    ghost use Rattle.sq_store.specs.Listed.{roots_rise, store_of};

    ghost Value = { StoreValue };

    ghost coded = { store_coded };

    ghost view = { λ s. store_of s.families.items };

    ghost invariant = { λ s. IsTrue (roots_rise s.families.items) };
}

impl VecStore {
    /// Creates an empty store.
    pub fn new(alloc: Global) -> VecStore
        ensures { result ≡ empty }
    {
        VecStore {
            families: Vec::new(alloc),
        }
    }

    /// Returns the families by rising root key.
    pub fn families(&self) -> &[Family]
        ensures families { result.now ≡ families_in self.now }
        ensures rooted { HoldsByRoot self.now }
    {
        &self.families
    }
}

impl FamilyStore for VecStore {
    ghost contents = { λ store. store };

    fn get(&self, root: Root) -> Option<&Family> {
        match place(&self.families, root) {
            Ok(at) => Some(&self.families[at]),
            Err(_) => None,
        }
    }

    fn walk(&self, at: u64) -> Option<&Family> {
        self.families.get(start(&self.families, at))
    }

    fn apply(&mut self, txn: &Txn) -> Result<Reply, ApplyFault> {
        match place(&self.families, txn.root()) {
            Ok(at) => self.families[at].apply(txn),
            Err(at) => open(&mut self.families, at, txn),
        }
    }

    fn take(&mut self, extent: Extent, limit: u64) -> Result<Cut, AllocError> {
        let first = start(&self.families, extent.lo);
        let last = start(&self.families, extent.hi.max(extent.lo));
        let rest = &self.families[first..last];
        let count = chunk_count(rest, limit);
        let end = root_at(rest, count, extent.hi);
        let families = take_out(&mut self.families, first, count)?;
        Ok(Cut {
            families,
            end,
            last: end == extent.hi,
        })
    }

    fn give(&mut self, families: Vec<Family>) -> Result<(), Vec<Family>> {
        let at = start(&self.families, least_root(&families));
        if self.families.reserve(families.len()).is_err() {
            return Err(families);
        }
        let Ok(tail) = self.families.split_off(at) else {
            return Err(families);
        };
        merge(&mut self.families, tail.into(), sorted(families).into());
        Ok(())
    }

    fn fold(&mut self) {
        fold_all(&mut self.families);
    }
}

/// Folds the logs of `families`: each family restarts from its rows, and families without rows are
/// dropped.
pub fn fold_all(families: &mut Vec<Family>)
    ensures { families.new.items ≡ folded_families families.old.items }
{
    keep_rowed(families);
    fold_each(families);
}

// Drops the families without rows.
fn keep_rowed(families: &mut Vec<Family>)
    ensures { families.new.items ≡ filter
        (λ family. not (length (rows_of family) == 0)) families.old.items }
{
    families.retain(|family| !family.rows().is_empty());
}

// Folds the logs of `families`.
fn fold_each(families: &mut [Family])
    ensures { families.new ≡ map folded families.old }
{
    for family in families.iter_mut() {
        family.fold();
    }
}

// Runs a transaction whose root key has no family. If it commits, its family is inserted at `at`;
// otherwise `families` stay as they were.
fn open(families: &mut Vec<Family>, at: usize, txn: &Txn) -> Result<Reply, ApplyFault>
    requires { at ≤ vec_len families.old }
    ensures memory { IfErr result (λ fault. fault ≡ ApplyFault.Memory) }
    ensures reply { IfOk result (λ r. r ≡ reply (rows_of (absent txn.now.root)) txn.now) }
    ensures families { IfOk result (λ r. families.new.items
        ≡ opened families.old.items at txn.now r) }
    ensures err { OnErr result (families.new.items ≡ families.old.items) }
{
    families.reserve(1)?;
    let alloc = *families.allocator();
    let mut family = Family::empty(alloc, txn.root());
    let reply = family.apply(txn)?;
    if let Reply::Committed(_) = &reply {
        let Ok(()) = families.insert(at, family) else {
            unreachable!()
        };
    }
    Ok(reply)
}
