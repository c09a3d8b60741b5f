// Iterators over families by root key.
ghost use Rattle.std.specs.Prelude.{◌≡◌, length};
ghost use Rattle.std.specs.Iterator.{at_most};
ghost use Rattle.std.specs.Map.Iter.{TakesFirst, deref};
ghost use Rattle.sq_store.specs.Runs.{families_in_runs};

use crate::runs::Runs;
use sq_schema::Family;
use std::marker::Model;
use std::slice;

/// An iterator over the families of a store by rising root key. To a contract it is the list of the
/// families that are left.
#[derive(Drop)]
pub struct RunIter<'a> {
    // The families that are left in the current run.
    families: slice::Iter<'a, Family>,
    runs: &'a Runs,
    // The place of the next run.
    next: usize,
}

impl<'a> Model for RunIter<'a> {
    ghost use Rattle.std.specs.Prelude.{List, ◌++◌, drop};
    ghost use Rattle.std.specs.Slice.Iter.{iter_rest};
    ghost use Rattle.sq_schema.specs.Family.{FamilyValue};
    ghost use Rattle.sq_store.specs.Runs.{families_in_runs};

    ghost Value = { List FamilyValue };

    ghost view = { λ f. iter_rest f.families ++ families_in_runs (drop f.next f.runs.now) };
}

impl<'a> RunIter<'a> {
    /// Returns an iterator over the families of `runs`.
    pub(crate) fn new(runs: &'a Runs) -> RunIter<'a>
        ensures { result ≡ families_in_runs runs.now }
    {
        let none: &[Family] = &[];
        RunIter {
            families: none.iter(),
            runs,
            next: 0,
        }
    }
}

impl<'a> Iterator for RunIter<'a> {
    type Item = &'a Family;

    ghost next_gives = { TakesFirst deref };

    ghost remaining = { λ families. at_most (length families) };

    fn next(&mut self) -> Option<&'a Family> {
        loop {
            if let Some(family) = self.families.next() {
                return Some(family);
            }
            if self.next >= self.runs.len() {
                return None;
            }
            self.families = self.runs.families(self.next).iter();
            self.next += 1;
        }
    }
}
