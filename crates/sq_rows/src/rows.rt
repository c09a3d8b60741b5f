// The rows of one root key.
ghost use Rattle.std.specs.Prelude.{◌≡◌, ◌+◌, ◌*◌, ◌^◌, ◌<◌, ◌≤◌, ◌==◌, true, [], ◌∷◌, length, is_some, None, OnOk, OnErr, IfOk, IfErr, IfSome};
ghost use Rattle.std.specs.Option.{option_copied};
ghost use Rattle.std.specs.List.{AllPass};
ghost use Rattle.sq_rows.specs.declared.row.RowKey.{RowKey};
ghost use Rattle.sq_rows.specs.declared.row.TheConstants.{MAX_NOTE};
ghost use Rattle.sq_rows.specs.RowList.{RowList, root_key, row_at, with_row, without_row};
ghost use Rattle.sq_rows.specs.Edits.{AddsTo, ComesBack};
ghost use Rattle.sq_rows.specs.Sizes.{rows_size};
ghost use Rattle.sq_rows.specs.Rows.{IsRowList};
ghost use Rattle.sq_rows.specs.Writes.{count_of_row, size_of_row, is_write, with_write, with_writes};
ghost use Rattle.sq_rows.specs.ShortList.{short_items};

use crate::entry_iter::{RowIter, are_equal};
use crate::entry_list::EntryList;
use crate::row::{NotAdded, NotPut, Row, RowKey, RowWrite};
use crate::short_list::ShortList;
use std::alloc::{AllocError, AllocFailed, Global};
use std::marker::Model;

/// The rows of one root key, by rising key. To a contract they are the list of keys with their
/// rows.
#[derive(Debug, Drop)]
pub struct Rows {
    rows: EntryList,
    size: u64,
}

impl Model for Rows {
    ghost use Rattle.std.specs.Prelude.{◌≡◌, List};
    ghost use Rattle.sq_rows.specs.Values.{RowValue};
    ghost use Rattle.sq_rows.specs.declared.row.RowKey.{RowKey};
    ghost use Rattle.sq_rows.specs.EntryList.{entries_of};
    ghost use Rattle.sq_rows.specs.Sizes.{rows_size};
    ghost use Rattle.sq_rows.specs.Rows.{IsRowList};

    ghost Value = { List (RowKey × RowValue) };

    ghost view = { λ r. entries_of r.rows };

    ghost invariant = { λ r. IsRowList (entries_of r.rows)
        × (r.size ≡ rows_size (entries_of r.rows)) };
}

impl Rows {
    /// Creates an empty list.
    pub fn new(alloc: Global) -> Rows
        ensures { result ≡ [] }
    {
        Rows {
            rows: EntryList::new(alloc),
            size: 32,
        }
    }

    /// Returns the number of rows.
    pub fn len(&self) -> usize
        ensures count { result ≡ length self.now }
        ensures sound { IsRowList self.now }
    {
        self.rows.len()
    }

    /// Returns true if there are no rows.
    pub fn is_empty(&self) -> bool
        ensures { result ≡ (length self.now == 0) }
    {
        self.rows.len() == 0
    }

    /// Returns an iterator over the rows with their keys, in rising order.
    pub fn iter(&self) -> RowIter<'_>
        ensures all { result ≡ self.now }
        ensures sound { IsRowList self.now }
    {
        self.rows.iter()
    }

    /// Returns the row of `key`; `None` if there is none.
    pub fn get(&self, key: RowKey) -> Option<&Row>
        ensures { option_copied result ≡ row_at self.now key }
    {
        self.rows.get(key)
    }

    /// Returns the size in bytes of a family with these rows: 32, plus 24 and the length of its
    /// note for each row.
    pub fn size(&self) -> u64
        ensures { result ≡ rows_size self.now }
    {
        self.size
    }

    /// Puts `row`, new or in place of the present one. If memory runs out, nothing changes and
    /// `row` is returned.
    pub fn insert(&mut self, key: RowKey, row: Row) -> Result<(), AllocFailed<Row>>
        requires { length row.note ≤ MAX_NOTE }
        ensures ok { OnOk result (self.new ≡ with_row self.old key row) }
        ensures err { OnErr result (self.new ≡ self.old) }
        ensures row_returned { IfErr result (λ failed. failed.value ≡ row) }
    {
        let added = row.size();
        let old = self.rows.replace(key, row)?;
        let (_, old_size) = weight(old.as_ref());
        self.size = self.size + added - old_size;
        Ok(())
    }

    /// Puts `row` under a new `key`. If the key has a row, or memory runs out, nothing changes and
    /// `row` is returned.
    pub fn insert_new(&mut self, key: RowKey, row: Row) -> Result<(), NotPut>
        requires { length row.note ≤ MAX_NOTE }
        ensures ok { OnOk result (self.new ≡ with_row self.old key row) }
        ensures absent { OnOk result (row_at self.old key ≡ None) }
        ensures err { OnErr result (self.new ≡ self.old) }
        ensures row_returned { IfErr result (ComesBack (row_at self.old key) row) }
    {
        let added = row.size();
        self.rows.insert_new(key, row)?;
        self.size += added;
        Ok(())
    }

    /// Adds `by` to the number of the row of `key` and returns the sum. If there is no row, or the
    /// sum exceeds an `i64`, nothing changes.
    pub fn add(&mut self, key: RowKey, by: i64) -> Result<i64, NotAdded>
        ensures { AddsTo self.old key by (row_at self.old key) self.new result }
    {
        self.rows.add(key, by)
    }

    /// Removes the row of `key`, if there is one. If memory runs out, nothing changes.
    pub fn remove(&mut self, key: RowKey) -> Result<(), AllocError>
        ensures ok { OnOk result (self.new ≡ without_row self.old key) }
        ensures err { OnErr result (self.new ≡ self.old) }
    {
        let (_, old_size) = weight(self.get(key));
        let size = self.size - old_size;
        self.write_all(ShortList::One((key, None)), size)
    }

    /// Returns whether there is a root row.
    pub fn has_root(&self) -> bool
        ensures { result ≡ is_some (row_at self.now root_key) }
    {
        self.rows.has_root()
    }

    /// Returns the first row.
    pub fn into_first(self) -> Row
        requires { 0 < length self }
        ensures { (key : RowKey) × (rest : RowList) × (self ≡ (key, result) ∷ rest) }
    {
        let Rows { rows, size: _ } = self;
        rows.into_first()
    }

    /// Performs `writes` in their order, or none of them if memory runs out. `size` is the size in
    /// bytes of a family with the rows afterwards.
    pub fn write_all(&mut self, writes: ShortList<RowWrite>, size: u64) -> Result<(), AllocError>
        requires writes { AllPass is_write (short_items writes) }
        requires size { size ≡ rows_size (with_writes self.old (short_items writes)) }
        ensures ok { OnOk result (self.new ≡ with_writes self.old (short_items writes)) }
        ensures err { OnErr result (self.new ≡ self.old) }
    {
        self.rows.write_all(writes)?;
        self.size = size;
        Ok(())
    }
}

impl PartialEq for Rows {
    ghost use Rattle.std.specs.Cmp.{and_per, on_per};
    ghost use Rattle.std.specs.Cmp.Lexicographic.{lists_per};
    ghost use Rattle.sq_rows.specs.contracts.row.RowKeyPartialEq.TheImpl.Laws as key;
    ghost use Rattle.sq_rows.specs.contracts.row.RowPartialEq.TheImpl.Laws as row;
    ghost use Rattle.sq_rows.specs.Equal.{rows_eq};

    ghost eq = { rows_eq };

    ghost laws = { lists_per (and_per (on_per (λ entry. entry.0) key.laws-law)
        (on_per (λ entry. entry.1) row.laws-law)) };

    fn eq(&self, other: &Rows) -> bool {
        are_equal(self.iter(), other.iter())
    }
}

impl Eq for Rows {
    ghost use Rattle.std.specs.Cmp.{and_equiv, on_equiv};
    ghost use Rattle.std.specs.Cmp.Lexicographic.{lists_equiv};
    ghost use Rattle.sq_rows.specs.contracts.row.RowKeyEq.TheImpl.Laws as key;
    ghost use Rattle.sq_rows.specs.contracts.row.RowEq.TheImpl.Laws as row;

    ghost laws = { lists_equiv (and_equiv (on_equiv (λ entry. entry.0) key.laws-law)
        (on_equiv (λ entry. entry.1) row.laws-law)) };
}

impl Clone for Rows {
    ghost is_clone = { λ rows copy. copy ≡ rows };

    fn clone(&self) -> Result<Rows, AllocError> {
        Ok(Rows {
            rows: self.rows.clone()?,
            size: self.size,
        })
    }
}

/// Returns how many rows `row` is, 0 or 1, and its size in bytes.
pub fn weight(row: Option<&Row>) -> (usize, u64)
    ensures count { result.0 ≡ count_of_row (option_copied row.entry) }
    ensures size { result.1 ≡ size_of_row (option_copied row.entry) }
{
    match row {
        Some(row) => (1, row.size()),
        None => (0, 0),
    }
}
