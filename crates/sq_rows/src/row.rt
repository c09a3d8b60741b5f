// Rows, by table and sub key.
ghost use Rattle.std.specs.Prelude.{◌≡◌, ◌+ℤ◌, IfOk, IfSome, IfNone, SomeIff, FitsSigned};
ghost use Rattle.std.specs.Int.{w64};

use std::alloc::{AllocError, Global};
use std::cmp::Ordering;
use std::marker::Model;

/// The most bytes of a note.
pub const MAX_NOTE: usize = 255;

/// The place of a row within its root key. Table 0 is the root table; its only sub key is 0.
#[derive(Clone, Copy, Debug, PartialEq, Eq, PartialOrd)]
pub struct RowKey {
    /// The table, from 0.
    pub table: u8,
    /// The sub key within the table.
    pub sub: u32,
}

impl RowKey {
    /// The key of the root row.
    pub const ROOT: RowKey = RowKey { table: 0, sub: 0 };
}

/// Why a row wasn't put under a new key, with the row.
#[derive(Drop)]
pub enum NotPut {
    /// The key has a row already.
    Repeated(Row),
    /// Memory ran out.
    Memory(Row),
}

/// Why nothing was added to the number of a row.
#[derive(Clone, Copy)]
pub enum NotAdded {
    /// There is no such row.
    Absent,
    /// The sum exceeds an `i64`.
    Range,
}

/// A write of a key: its new row, or `None` to remove it.
pub type RowWrite = (RowKey, Option<Row>);

impl Ord for RowKey {
    ghost use Rattle.std.specs.Cmp.Rules.{comparing};
    ghost use Rattle.std.proofs.Common.{rules};
    ghost use Rattle.sq_rows.specs.Keys.{key_cmp};

    ghost cmp = { key_cmp };

    ghost total = { Prim.search (comparing, rules) };

    ghost matches_partial_cmp = { Prim.search (comparing, rules) };

    ghost matches_eq = { Prim.search (comparing, rules) };

    // Tests first whether this key is greater, as it is at most keys of a search; a derived
    // comparison compiles to more tests.
    fn cmp(&self, other: &RowKey) -> Ordering {
        if self.table > other.table || self.table == other.table && self.sub > other.sub {
            Ordering::Greater
        } else if self == other {
            Ordering::Equal
        } else {
            Ordering::Less
        }
    }
}

/// A row: a number and a note of any length (a schema refuses long ones). To a contract it is a
/// `RowValue`.
#[derive(Debug, Drop)]
pub struct Row {
    number: i64,
    note: Vec<u8>,
}

impl Model for Row {
    ghost use Rattle.sq_rows.specs.Values.{RowValue};

    ghost Value = { RowValue };

    ghost view = { λ r. record { number = r.number; note = r.note.items } };
}

impl Row {
    pub fn new(number: i64, note: Vec<u8>) -> Row
        ensures number { result.number ≡ number }
        ensures note { result.note ≡ note.items }
    {
        Row { number, note }
    }

    pub fn number(&self) -> i64
        ensures { result ≡ self.now.number }
    {
        self.number
    }

    pub fn note(&self) -> &[u8]
        ensures { result.now ≡ self.now.note }
    {
        &self.note
    }

    /// Returns the note, uncopied.
    pub fn into_note(self) -> Vec<u8>
        ensures { result.items ≡ self.note }
    {
        self.note
    }

    /// Returns a row with this `number` and a copy of the note.
    pub fn with_number(&self, number: i64) -> Result<Row, AllocError>
        ensures { IfOk result (λ row. row ≡ record { number = number; note = self.now.note }) }
    {
        Ok(Row {
            number,
            note: self.note.clone()?,
        })
    }
}

impl Row {
    ghost use Rattle.sq_rows.specs.Sizes.{row_size};
    ghost use Rattle.sq_rows.specs.Edits.{with_number};

    // Returns the allocator of the note.
    pub(crate) fn alloc(&self) -> Global {
        *self.note.allocator()
    }

    // Adds `by` to the number and returns the sum; `None` if it exceeds an `i64`.
    pub(crate) fn add(&mut self, by: i64) -> Option<i64>
        ensures sum { SomeIff result (FitsSigned w64 (self.old.number +ℤ by))
            (self.old.number +ℤ by) }
        ensures some { IfSome result (λ sum. self.new ≡ with_number self.old sum) }
        ensures none { IfNone result (self.new ≡ self.old) }
    {
        let number = self.number.checked_add(by)?;
        self.number = number;
        Some(number)
    }

    // Returns the bytes that the row adds to its family's size.
    pub(crate) fn size(&self) -> u64
        ensures { result ≡ row_size self.now }
    {
        24 + self.note.len() as u64
    }
}

impl PartialEq for Row {
    ghost use Rattle.std.specs.Cmp.Rules.{comparing};
    ghost use Rattle.std.proofs.Common.{rules};
    ghost use Rattle.sq_rows.specs.Equal.{row_eq};

    ghost eq = { row_eq };

    ghost laws = { Prim.search (comparing, rules) };

    fn eq(&self, other: &Row) -> bool {
        self.number == other.number && self.note == other.note
    }
}

impl Eq for Row {
    ghost use Rattle.std.specs.Cmp.Rules.{comparing};
    ghost use Rattle.std.proofs.Common.{rules};

    ghost laws = { Prim.search (comparing, rules) };
}

impl Clone for Row {
    ghost is_clone = { λ row copy. copy ≡ row };

    fn clone(&self) -> Result<Row, AllocError> {
        Ok(Row {
            number: self.number,
            note: self.note.clone()?,
        })
    }
}
