// The rows of a root key in memory.
ghost use Rattle.std.specs.Prelude.{◌≡◌, ℕ, ◌+◌, ◌<◌, ◌≤◌, true, [], ◌∷◌, length, is_some, IsTrue, None, IfOk, IfErr, OnOk, OnErr, slice_index_or, slice_set, vec_len, vec_capacity};
ghost use Rattle.std.specs.Option.{option_copied};
ghost use Rattle.std.specs.FinMap.Entries.{is_sorted};
ghost use Rattle.sq_rows.specs.Keys.{key_cmp};
ghost use Rattle.sq_rows.specs.declared.row.RowKey.{RowKey};
ghost use Rattle.sq_rows.specs.Values.{RowValue};
ghost use Rattle.sq_rows.specs.RowList.{RowList, root_key, row_at, with_row};
ghost use Rattle.sq_rows.specs.Places.{IsPlace, IsGap};
ghost use Rattle.sq_rows.specs.Edits.{AddsAt, AddsTo, ComesBack};
ghost use Rattle.sq_rows.specs.EntryList.{entries_of, HasRoom, IsListed, IsOne, StandsAlone};
ghost use Rattle.sq_rows.specs.Writes.{with_write, with_writes};
ghost use Rattle.sq_rows.specs.ShortList.{short_items};

use crate::entry_iter::RowIter;
use crate::keyed_entries::{get, insert, map_of, moves_entries, place};
use crate::row::{NotAdded, NotPut, Row, RowKey, RowWrite};
use crate::row_map;
use crate::short_list::ShortList;
use std::alloc::{AllocError, AllocFailed, Global};
use std::collections::BTreeMap;
use std::fmt::{self, Debug, Formatter, Write};
use std::mem::replace;
use std::slice;

/// A list with at least this many rows is turned into a map before a write that would move some of
/// them.
const MAX_MOVED: usize = 128;

/// Rows by rising key. One row alone takes no memory of its own: most root keys have one. Rows are
/// stored in a list until the first write that would move many of them, and after that in a map.
#[derive(Drop)]
pub(crate) enum EntryList {
    One((RowKey, Row)),
    Many(Vec<(RowKey, Row)>),
    Map(BTreeMap<RowKey, Row>),
}

impl EntryList {
    /// Creates an empty list.
    pub(crate) fn new(alloc: Global) -> EntryList
        ensures { entries_of result ≡ [] }
    {
        EntryList::Many(Vec::new(alloc))
    }

    /// Returns the number of rows.
    pub(crate) fn len(&self) -> usize
        ensures { result ≡ length (entries_of self.now) }
    {
        match self {
            EntryList::One(_) => 1,
            EntryList::Many(rows) => rows.len(),
            EntryList::Map(rows) => rows.len(),
        }
    }

    /// Returns an iterator over the rows with their keys, in rising order.
    pub(crate) fn iter(&self) -> RowIter<'_>
        ensures { result ≡ entries_of self.now }
    {
        match self {
            EntryList::One(row) => RowIter::of_list(slice::from_ref(row)),
            EntryList::Many(rows) => RowIter::of_list(rows),
            EntryList::Map(rows) => RowIter::of_map(rows),
        }
    }

    /// Returns the row of `key`; `None` if there is none.
    pub(crate) fn get(&self, key: RowKey) -> Option<&Row>
        requires { is_sorted key_cmp (entries_of self.now) ≡ true }
        ensures { option_copied result ≡ row_at (entries_of self.now) key }
    {
        match self {
            EntryList::One(row) => get(slice::from_ref(row), key),
            EntryList::Many(rows) => get(rows, key),
            EntryList::Map(rows) => rows.get(&key),
        }
    }

    /// Puts `row`, new or in place of the present one. If memory runs out, `row` is returned.
    pub(crate) fn insert(&mut self, key: RowKey, row: Row) -> Result<(), AllocFailed<Row>>
        requires { is_sorted key_cmp (entries_of self.old) ≡ true }
        ensures ok { OnOk result (entries_of self.new ≡ with_row (entries_of self.old) key row) }
        ensures err { OnErr result (entries_of self.new ≡ entries_of self.old) }
        ensures row_returned { IfErr result (λ failed. failed.value ≡ row) }
    {
        if self.moves_many(key, false) && self.grow().is_err() {
            return Err(AllocFailed { value: row });
        }
        match self {
            EntryList::Map(rows) => insert(rows, key, row),
            EntryList::One(_) | EntryList::Many(_) => self.insert_listed(key, row),
        }
    }

    /// Puts `row` under a new `key`. If the key has a row, or memory runs out, nothing changes and
    /// `row` is returned.
    pub(crate) fn insert_new(&mut self, key: RowKey, row: Row) -> Result<(), NotPut>
        requires { is_sorted key_cmp (entries_of self.old) ≡ true }
        ensures ok { OnOk result (entries_of self.new ≡ with_row (entries_of self.old) key row) }
        ensures absent { OnOk result (row_at (entries_of self.old) key ≡ None) }
        ensures err { OnErr result (entries_of self.new ≡ entries_of self.old) }
        ensures row_returned { IfErr result (ComesBack (row_at (entries_of self.old) key) row) }
    {
        if let EntryList::Map(rows) = self {
            return row_map::insert_new(rows, key, row);
        }
        match self.place(key) {
            Ok(_) => Err(NotPut::Repeated(row)),
            Err(at) => match self.insert_at(at, key, row) {
                Ok(()) => Ok(()),
                Err(failed) => Err(NotPut::Memory(failed.value)),
            },
        }
    }

    /// Puts `row` and returns the one that `key` had. If memory runs out, `row` is returned.
    pub(crate) fn replace(&mut self, key: RowKey, row: Row) -> Result<Option<Row>, AllocFailed<Row>>
        requires { is_sorted key_cmp (entries_of self.old) ≡ true }
        ensures ok { OnOk result (entries_of self.new ≡ with_row (entries_of self.old) key row) }
        ensures old { IfOk result (λ old. old ≡ row_at (entries_of self.old) key) }
        ensures err { OnErr result (entries_of self.new ≡ entries_of self.old) }
        ensures row_returned { IfErr result (λ failed. failed.value ≡ row) }
    {
        if let EntryList::Map(rows) = self {
            return row_map::replace(rows, key, row);
        }
        match self.place(key) {
            Ok(at) => Ok(Some(self.replace_at(at, row))),
            Err(at) => {
                self.insert_at(at, key, row)?;
                Ok(None)
            }
        }
    }

    /// Adds `by` to the number of the row of `key` and returns the sum. If there is no row, or the
    /// sum exceeds an `i64`, nothing changes.
    pub(crate) fn add(&mut self, key: RowKey, by: i64) -> Result<i64, NotAdded>
        requires { is_sorted key_cmp (entries_of self.old) ≡ true }
        ensures { AddsTo (entries_of self.old) key by (row_at (entries_of self.old) key)
            (entries_of self.new) result }
    {
        if let EntryList::Map(rows) = self {
            return row_map::add(rows, key, by);
        }
        match self.place(key) {
            Ok(at) => self.add_at(at, by).ok_or(NotAdded::Range),
            Err(_) => Err(NotAdded::Absent),
        }
    }

    /// Returns whether there is a root row, which is then the first.
    pub(crate) fn has_root(&self) -> bool
        requires { is_sorted key_cmp (entries_of self.now) ≡ true }
        ensures { result ≡ is_some (row_at (entries_of self.now) root_key) }
    {
        match self {
            EntryList::One((key, _)) => *key == RowKey::ROOT,
            EntryList::Many(rows) => match rows.first() {
                Some((key, _)) => *key == RowKey::ROOT,
                None => false,
            },
            EntryList::Map(rows) => match rows.first_key_value() {
                Some((key, _)) => *key == RowKey::ROOT,
                None => false,
            },
        }
    }

    // Returns the place of the row of `key` in a list, or else the place where it belongs.
    fn place(&self, key: RowKey) -> Result<usize, usize>
        requires rising { is_sorted key_cmp (entries_of self.now) ≡ true }
        requires listed { IsListed self.now }
        ensures { IsPlace key_cmp (entries_of self.now) key result }
    {
        match self {
            EntryList::One(row) => place(slice::from_ref(row), key),
            EntryList::Many(rows) => place(rows, key),
            EntryList::Map(_) => unreachable!(),
        }
    }

    // Puts `row` under a new `key`, which belongs at `at` in a list.
    fn insert_at(&mut self, at: usize, key: RowKey, row: Row) -> Result<(), AllocFailed<Row>>
        requires rising { is_sorted key_cmp (entries_of self.old) ≡ true }
        requires gap { IsGap key_cmp (entries_of self.old) key at }
        ensures ok { OnOk result (entries_of self.new ≡ with_row (entries_of self.old) key row) }
        ensures err { OnErr result (entries_of self.new ≡ entries_of self.old) }
        ensures row_returned { IfErr result (λ failed. failed.value ≡ row) }
    {
        match self {
            EntryList::Many(rows) if at > 0 && (at == rows.len() || rows.len() < MAX_MOVED) => {
                insert_at(rows, at, key, row)
            }
            _ => self.insert(key, row),
        }
    }

    // Replaces the row at `at` in a list and returns the old one.
    fn replace_at(&mut self, at: usize, row: Row) -> Row
        requires listed { IsListed self.old }
        requires within { at < length (entries_of self.old) }
        ensures rows { (d : RowKey × RowValue) → entries_of self.new ≡ slice_set
            (entries_of self.old) at ((slice_index_or (entries_of self.old) at d).0, row) }
        ensures old { (d : RowKey × RowValue) →
            result ≡ (slice_index_or (entries_of self.old) at d).1 }
    {
        match self {
            EntryList::One((_, old)) => replace(old, row),
            EntryList::Many(rows) => replace(&mut rows[at].1, row),
            EntryList::Map(_) => unreachable!(),
        }
    }

    // Adds `by` to the number of the row at `at` in a list and returns the sum; `None` if it
    // exceeds an `i64`.
    fn add_at(&mut self, at: usize, by: i64) -> Option<i64>
        requires listed { IsListed self.old }
        requires within { at < length (entries_of self.old) }
        ensures { (d : RowKey × RowValue) → AddsAt (entries_of self.old) at
            (slice_index_or (entries_of self.old) at d) by (entries_of self.new) result }
    {
        match self {
            EntryList::One((_, row)) => row.add(by),
            EntryList::Many(rows) => rows[at].1.add(by),
            EntryList::Map(_) => unreachable!(),
        }
    }

    // Puts a row into a list.
    fn insert_listed(&mut self, key: RowKey, row: Row) -> Result<(), AllocFailed<Row>>
        requires rising { is_sorted key_cmp (entries_of self.old) ≡ true }
        requires listed { IsListed self.old }
        ensures ok { OnOk result (entries_of self.new ≡ with_row (entries_of self.old) key row) }
        ensures err { OnErr result (entries_of self.new ≡ entries_of self.old) }
        ensures row_returned { IfErr result (λ failed. failed.value ≡ row) }
    {
        if self.stands_alone(key) {
            self.set(key, Some(row));
            return Ok(());
        }
        if self.reserve(1).is_err() {
            return Err(AllocFailed { value: row });
        }
        self.write(key, Some(row));
        Ok(())
    }

    /// Performs `writes` in their order, or none of them if memory runs out.
    pub(crate) fn write_all(&mut self, writes: ShortList<RowWrite>) -> Result<(), AllocError>
        requires { is_sorted key_cmp (entries_of self.old) ≡ true }
        ensures ok { OnOk result (entries_of self.new
            ≡ with_writes (entries_of self.old) (short_items writes)) }
        ensures err { OnErr result (entries_of self.new ≡ entries_of self.old) }
    {
        match writes {
            ShortList::One((key, row)) => self.write_one(key, row),
            ShortList::Many(writes) => self.write_many(writes),
        }
    }

    // Performs one write. If memory runs out, nothing changes.
    fn write_one(&mut self, key: RowKey, row: Option<Row>) -> Result<(), AllocError>
        requires { is_sorted key_cmp (entries_of self.old) ≡ true }
        ensures ok { OnOk result (entries_of self.new ≡ with_write (entries_of self.old) key row) }
        ensures err { OnErr result (entries_of self.new ≡ entries_of self.old) }
    {
        if self.moves_many(key, row.is_none()) {
            self.grow()?;
        }
        match self {
            EntryList::Map(rows) => row_map::write(rows, key, row),
            EntryList::One(_) | EntryList::Many(_) => self.write_one_listed(key, row),
        }
    }

    // Performs `writes` in their order, or none of them if memory runs out.
    fn write_many(&mut self, mut writes: Vec<RowWrite>) -> Result<(), AllocError>
        requires { is_sorted key_cmp (entries_of self.old) ≡ true }
        ensures ok { OnOk result (entries_of self.new
            ≡ with_writes (entries_of self.old) writes.items) }
        ensures err { OnErr result (entries_of self.new ≡ entries_of self.old) }
    {
        if self.one_moves_many(&writes) {
            self.grow()?;
        }
        match self {
            EntryList::Map(rows) => row_map::write_all(rows, &mut writes),
            EntryList::One(_) | EntryList::Many(_) => self.write_listed(writes),
        }
    }

    // Performs `writes` in a list, or none of them if memory runs out.
    fn write_listed(&mut self, writes: Vec<RowWrite>) -> Result<(), AllocError>
        requires rising { is_sorted key_cmp (entries_of self.old) ≡ true }
        requires listed { IsListed self.old }
        ensures ok { OnOk result (entries_of self.new
            ≡ with_writes (entries_of self.old) writes.items) }
        ensures err { OnErr result (entries_of self.new ≡ entries_of self.old) }
    {
        self.reserve(writes.len())?;
        for (key, row) in writes {
            self.write(key, row);
        }
        Ok(())
    }

    // Performs one write in a list. If memory runs out, nothing changes.
    fn write_one_listed(&mut self, key: RowKey, row: Option<Row>) -> Result<(), AllocError>
        requires rising { is_sorted key_cmp (entries_of self.old) ≡ true }
        requires listed { IsListed self.old }
        ensures ok { OnOk result (entries_of self.new ≡ with_write (entries_of self.old) key row) }
        ensures err { OnErr result (entries_of self.new ≡ entries_of self.old) }
    {
        if self.stands_alone(key) {
            self.set(key, row);
        } else {
            self.reserve(1)?;
            self.write(key, row);
        }
        Ok(())
    }

    /// Returns the first row.
    pub(crate) fn into_first(self) -> Row
        requires { 0 < length (entries_of self) }
        ensures { (key : RowKey) × (rest : RowList) × (entries_of self ≡ (key, result) ∷ rest) }
    {
        match self {
            EntryList::One((_, row)) => row,
            EntryList::Many(mut rows) => rows.remove(0).1,
            EntryList::Map(mut rows) => {
                let Some((_, row)) = rows.pop_first() else {
                    unreachable!()
                };
                row
            }
        }
    }

    // Returns whether a write of `key` moves rows of a list that has many.
    fn moves_many(&self, key: RowKey, removes: bool) -> bool {
        match self {
            EntryList::Many(rows) => rows.len() >= MAX_MOVED && moves_entries(rows, key, removes),
            EntryList::One(_) | EntryList::Map(_) => false,
        }
    }

    // Returns whether one of `writes` moves rows of a list that has many.
    fn one_moves_many(&self, writes: &[RowWrite]) -> bool {
        match self {
            EntryList::Many(rows) if rows.len() >= MAX_MOVED => writes
                .iter()
                .any(|(key, row)| moves_entries(rows, *key, row.is_none())),
            _ => false,
        }
    }

    // Moves the rows of a list into a map.
    fn grow(&mut self) -> Result<(), AllocError>
        requires { is_sorted key_cmp (entries_of self.old) ≡ true }
        ensures { entries_of self.new ≡ entries_of self.old }
    {
        if let EntryList::Many(rows) = self {
            *self = EntryList::Map(map_of(*rows.allocator(), rows)?);
        }
        Ok(())
    }

    // Returns true if a list has no row except that of `key`.
    fn stands_alone(&self, key: RowKey) -> bool
        ensures { IsTrue result → StandsAlone (entries_of self.now) key }
    {
        match self {
            EntryList::One((own, _)) => *own == key,
            EntryList::Many(rows) => rows.is_empty(),
            EntryList::Map(_) => false,
        }
    }

    // Performs a write of `key`; it takes no memory, since there is no other row.
    fn set(&mut self, key: RowKey, row: Option<Row>)
        requires alone { StandsAlone (entries_of self.old) key }
        requires listed { IsListed self.old }
        ensures { entries_of self.new ≡ with_write (entries_of self.old) key row }
    {
        *self = match row {
            Some(row) => EntryList::One((key, row)),
            None => EntryList::new(self.alloc()),
        };
    }

    fn alloc(&self) -> Global
        requires { IsListed self.now }
    {
        match self {
            EntryList::One((_, row)) => row.alloc(),
            EntryList::Many(rows) => *rows.allocator(),
            EntryList::Map(_) => unreachable!(),
        }
    }

    // Reserves room for `more` rows in a list.
    fn reserve(&mut self, more: usize) -> Result<(), AllocError>
        requires { IsListed self.old }
        ensures rows { entries_of self.new ≡ entries_of self.old }
        ensures room { OnOk result (HasRoom self.new more) }
    {
        match self {
            EntryList::One(_) => self.spread(more),
            EntryList::Many(rows) => reserve(rows, more),
            EntryList::Map(_) => unreachable!(),
        }
    }

    // Moves the only row into a list with room for `more` rows.
    fn spread(&mut self, more: usize) -> Result<(), AllocError>
        requires { IsOne self.old }
        ensures rows { entries_of self.new ≡ entries_of self.old }
        ensures room { OnOk result (HasRoom self.new more) }
    {
        let alloc = self.alloc();
        let count = more.checked_add(1).ok_or(AllocError)?;
        let mut rows = Vec::with_capacity(alloc, count)?;
        let EntryList::One(row) = replace(self, EntryList::new(alloc)) else {
            unreachable!()
        };
        rows.push_reserved(row);
        *self = EntryList::Many(rows);
        Ok(())
    }

    // Performs a write for which there is room.
    fn write(&mut self, key: RowKey, row: Option<Row>)
        requires rising { is_sorted key_cmp (entries_of self.old) ≡ true }
        requires room { HasRoom self.old 1 }
        ensures rows { entries_of self.new ≡ with_write (entries_of self.old) key row }
        ensures room { (more : ℕ) → HasRoom self.old (more + 1) → HasRoom self.new more }
    {
        match self {
            EntryList::Many(rows) => write(rows, key, row),
            EntryList::One(_) | EntryList::Map(_) => unreachable!(),
        }
    }
}

impl Clone for EntryList {
    ghost is_clone = { λ list copy. entries_of copy ≡ entries_of list };

    fn clone(&self) -> Result<EntryList, AllocError> {
        match self {
            EntryList::One((key, row)) => Ok(EntryList::One((*key, row.clone()?))),
            EntryList::Many(rows) => Ok(EntryList::Many(rows.clone()?)),
            EntryList::Map(rows) => Ok(EntryList::Map(rows.clone()?)),
        }
    }
}

impl Debug for EntryList {
    fn fmt<W: Write>(&self, f: &mut Formatter<W>) -> fmt::Result {
        f.debug_list().entries(self.iter()).finish()
    }
}

// Reserves room for `more` rows. An empty list gets no extra room, since most root keys have few
// rows.
fn reserve(rows: &mut Vec<(RowKey, Row)>, more: usize) -> Result<(), AllocError>
    ensures items { rows.new.items ≡ rows.old.items }
    ensures len { vec_len rows.new ≡ vec_len rows.old }
    ensures room { OnOk result (vec_len rows.new + more ≤ vec_capacity rows.new) }
{
    if rows.is_empty() {
        rows.reserve_exact(more)
    } else {
        rows.reserve(more)
    }
}

// Puts `row` under a new `key`, which belongs at `at`.
fn insert_at(
    rows: &mut Vec<(RowKey, Row)>,
    at: usize,
    key: RowKey,
    row: Row,
) -> Result<(), AllocFailed<Row>>
    requires { IsGap key_cmp rows.old.items key at }
    ensures ok { OnOk result (rows.new.items ≡ with_row rows.old.items key row) }
    ensures err { OnErr result (rows.new.items ≡ rows.old.items) }
    ensures row_returned { IfErr result (λ failed. failed.value ≡ row) }
{
    match rows.insert(at, (key, row)) {
        Ok(()) => Ok(()),
        Err(failed) => Err(AllocFailed {
            value: failed.value.1,
        }),
    }
}

// Performs a write for which there is room.
fn write(rows: &mut Vec<(RowKey, Row)>, key: RowKey, row: Option<Row>)
    requires rising { is_sorted key_cmp rows.old.items ≡ true }
    requires room { vec_len rows.old < vec_capacity rows.old }
    ensures rows { rows.new.items ≡ with_write rows.old.items key row }
    ensures room { vec_capacity rows.new ≡ vec_capacity rows.old }
    ensures len { vec_len rows.new ≤ vec_len rows.old + 1 }
{
    match (place(rows, key), row) {
        (Ok(at), Some(row)) => rows[at].1 = row,
        (Ok(at), None) => {
            rows.remove(at);
        }
        (Err(at), Some(row)) => {
            let Ok(()) = rows.insert(at, (key, row)) else {
                unreachable!()
            };
        }
        (Err(_), None) => {}
    }
}
