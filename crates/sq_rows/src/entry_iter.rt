// Iterators over entries by key.
ghost use Rattle.std.specs.Prelude.{◌≡◌, length};
ghost use Rattle.std.specs.Iterator.{at_most};
ghost use Rattle.std.specs.Map.Iter.{TakesFirst, deref_pair};
ghost use Rattle.sq_rows.specs.Equal.{rows_eq};

use crate::row::{Row, RowKey};
use std::collections::{BTreeMap, btree_map};
use std::marker::Model;
use std::slice;

/// An iterator over entries by rising key. To a contract it is the list of the entries that are
/// left.
#[derive(Drop)]
pub struct EntryIter<'a, K, V> {
    left: EntriesLeft<'a, K, V>,
}

/// An iterator over the rows of one root key with their keys, by rising key.
pub type RowIter<'a> = EntryIter<'a, RowKey, Row>;

// The entries that are left, for each way of storing them.
#[derive(Drop)]
enum EntriesLeft<'a, K, V> {
    Listed(slice::Iter<'a, (K, V)>),
    Mapped(btree_map::Iter<'a, K, V>),
    Ranged(btree_map::Range<'a, K, V>),
}

impl<'a, K, V> Model for EntryIter<'a, K, V> {
    ghost use Rattle.std.specs.Prelude.{List};
    ghost use Rattle.sq_rows.specs.EntryIter.{entries_left};

    ghost Value = { List (K × V) };

    ghost view = { λ r. entries_left r.left };
}

impl<'a, K: Ord, V> EntryIter<'a, K, V> {
    /// Returns an iterator over the entries of a list.
    pub fn of_list(entries: &'a [(K, V)]) -> EntryIter<'a, K, V>
        ensures { result ≡ entries.now }
    {
        EntryIter {
            left: EntriesLeft::Listed(entries.iter()),
        }
    }

    /// Returns an iterator over the entries of a map.
    pub fn of_map(entries: &'a BTreeMap<K, V>) -> EntryIter<'a, K, V>
        ensures { result ≡ entries.now.entries }
    {
        EntryIter {
            left: EntriesLeft::Mapped(entries.iter()),
        }
    }

    /// Returns an iterator over a range of a map.
    pub fn of_range(entries: btree_map::Range<'a, K, V>) -> EntryIter<'a, K, V>
        ensures { result ≡ entries.entry }
    {
        EntryIter {
            left: EntriesLeft::Ranged(entries),
        }
    }
}

impl<'a, K, V> Iterator for EntryIter<'a, K, V> {
    type Item = (&'a K, &'a V);

    ghost next_gives = { TakesFirst deref_pair };

    ghost remaining = { λ entries. at_most (length entries) };

    fn next(&mut self) -> Option<(&'a K, &'a V)> {
        match &mut self.left {
            EntriesLeft::Listed(entries) => {
                let (key, value) = entries.next()?;
                Some((key, value))
            }
            EntriesLeft::Mapped(entries) => entries.next(),
            EntriesLeft::Ranged(entries) => entries.next(),
        }
    }

    fn size_hint(&self) -> (usize, Option<usize>) {
        match &self.left {
            EntriesLeft::Listed(entries) => entries.size_hint(),
            EntriesLeft::Mapped(entries) => entries.size_hint(),
            EntriesLeft::Ranged(entries) => entries.size_hint(),
        }
    }
}

// Returns true if both have equal rows under equal keys.
pub(crate) fn are_equal(mut one: RowIter<'_>, mut other: RowIter<'_>) -> bool
    ensures { result ≡ rows_eq one.entry other.entry }
{
    while let Some(entry) = one.next() {
        match other.next() {
            Some(found) => {
                if entry != found {
                    return false;
                }
            }
            None => return false,
        }
    }
    other.next().is_none()
}
