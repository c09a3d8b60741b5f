// The tables of a database, and the rows that they may hold.
ghost use Rattle.std.specs.Prelude.{◌≡◌, ◌≤◌, None, OnOk};
ghost use Rattle.std.specs.Option.{SomeIff};
ghost use Rattle.std.specs.Result.{result_err};
ghost use Rattle.sq_schema.specs.declared.schema.TheConstants.{MAX_TABLES};
ghost use Rattle.sq_schema.specs.Refusals.{key_fault, row_fault};

use crate::fault::TxnFault;
use sq_rows::{MAX_NOTE, Row, RowKey};
use std::marker::Model;

/// The most tables that a schema has.
pub const MAX_TABLES: u8 = 8;

/// The tables of a database: 1 to [`MAX_TABLES`], numbered from 0. To a contract it is their count.
#[derive(Clone, Copy, Debug, PartialEq, Eq)]
pub struct Schema {
    tables: u8,
}

impl Model for Schema {
    ghost use Rattle.std.specs.Prelude.{ℕ, ◌≤◌};
    ghost use Rattle.sq_schema.specs.declared.schema.TheConstants.{MAX_TABLES};

    ghost Value = { ℕ };

    ghost view = { λ s. s.tables };

    ghost invariant = { λ s. (1 ≤ s.tables) × (s.tables ≤ MAX_TABLES) };

    ghost inverse = { λ n. record { tables = n } };
}

impl Schema {
    /// Returns the schema of `tables` tables; `None` unless `tables` is from 1 to [`MAX_TABLES`].
    pub fn new(tables: u8) -> Option<Schema>
        ensures { SomeIff result ((1 ≤ tables) × (tables ≤ MAX_TABLES)) tables }
    {
        if (1..=MAX_TABLES).contains(&tables) {
            Some(Schema { tables })
        } else {
            None
        }
    }

    /// Returns the schema of [`MAX_TABLES`] tables.
    pub fn largest() -> Schema
        ensures { result ≡ MAX_TABLES }
    {
        Schema { tables: MAX_TABLES }
    }

    /// Returns the number of tables, 1 to [`MAX_TABLES`].
    pub fn tables(self) -> u8
        ensures count { result ≡ self }
        ensures some { 1 ≤ result }
        ensures most { result ≤ MAX_TABLES }
    {
        self.tables
    }

    /// Refuses, in this order: a row whose table isn't in the schema, a row of the root table whose
    /// sub key isn't 0, and a row whose note has over [`MAX_NOTE`] bytes.
    pub fn check_row(self, key: RowKey, row: &Row) -> Result<(), TxnFault>
        ensures fault { result_err result ≡ row_fault self key row.now }

        // A row that this schema allows is allowed by one of [`MAX_TABLES`] tables.
        ensures widest { OnOk result (row_fault MAX_TABLES key row.now ≡ None) }
    {
        check_row(self.tables, key, row)
    }
}

// Refuses a key that doesn't fit a schema of `tables` tables.
pub(crate) fn check_key(tables: u8, key: RowKey) -> Result<(), TxnFault>
    ensures { result_err result ≡ key_fault tables key }
{
    if key.table >= tables {
        return Err(TxnFault::BadTable);
    }
    if key.table == 0 && key.sub != 0 {
        return Err(TxnFault::BadSub);
    }
    Ok(())
}

// Refuses a key that doesn't fit, and then a row whose note is too long.
pub(crate) fn check_row(tables: u8, key: RowKey, row: &Row) -> Result<(), TxnFault>
    ensures { result_err result ≡ row_fault tables key row.now }
{
    check_key(tables, key)?;
    if row.note().len() > MAX_NOTE {
        return Err(TxnFault::BadNote);
    }
    Ok(())
}
