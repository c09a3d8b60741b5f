// Tables without partitions.
ghost use Rattle.std.specs.Prelude.{◌≡◌, ◌==◌, ◌++◌, ◌∷◌, nat_le, nat_lt, ℕ, true, [], None, length, filter, MatchResult, IfErr, IfSome, IfNone, IsSome, OnOk, OnErr};
ghost use Rattle.std.specs.List.{AllPass};
ghost use Rattle.std.specs.Option.{option_copied};
ghost use Rattle.std.specs.Ordering.{nat_cmp};
ghost use Rattle.std.specs.FinMap.Entries.{find, is_sorted};
ghost use Rattle.sq_schema.specs.declared.root.TheConstants.{ROOT_END};
ghost use Rattle.sq_schema.specs.declared.schema.TheConstants.{MAX_TABLES};
ghost use Rattle.sq_schema.specs.Effect.{replay, table_after};
ghost use Rattle.sq_schema.specs.Refusals.{row_fault};
ghost use Rattle.sq_rows.specs.Rows.{is_rooted};
ghost use Rattle.sq_schema.specs.RootList.{IsNotExtended};
ghost use Rattle.sq_schema.specs.Table.{IsTable, rows_in, is_opening, row_given_fault, RefusesBy, with_given, with_rows};

use crate::fault::RowFault;
use crate::root::Root;
use crate::root_list::{NotExtended, RootList};
use crate::txn::Txn;
use sq_rows::{EntryIter, Row, RowKey, Rows};
use std::alloc::{AllocError, AllocFailed, Global};
use std::collections::BTreeMap;
use std::marker::Model;

/// The rows of a database by root key, in one table without partitions. To a contract it is the
/// list of the root keys that have rows, in rising order, each with its rows.
#[derive(Debug, Drop)]
pub struct Table {
    rows: RootList,
    alloc: Global,
}

impl Model for Table {
    ghost use Rattle.std.specs.Prelude.{ℕ, List};
    ghost use Rattle.sq_rows.specs.Values.{RowValue};
    ghost use Rattle.sq_rows.specs.declared.row.RowKey.{RowKey};
    ghost use Rattle.sq_schema.specs.RootList.{table_of};
    ghost use Rattle.sq_schema.specs.Table.{IsTable};

    ghost Value = { List (ℕ × List (RowKey × RowValue)) };

    ghost view = { λ t. table_of t.rows };

    ghost invariant = { λ t. IsTable (table_of t.rows) };
}

impl Table {
    /// Creates an empty table.
    pub fn new(alloc: Global) -> Table
        ensures { result ≡ [] }
    {
        Table {
            rows: RootList::new(alloc),
            alloc,
        }
    }

    /// Returns the rows of `root`; `None` if it has no rows.
    pub fn rows(&self, root: Root) -> Option<&Rows>
        ensures rows { option_copied result ≡ find nat_cmp root self.now }
        ensures opening { IfSome result (λ rows. is_opening rows.now ≡ true) }
    {
        self.rows.get(root)
    }

    /// Returns an iterator over the root keys that have rows, in rising order, each with its rows.
    pub fn iter(&self) -> EntryIter<'_, Root, Rows>
        ensures all { result ≡ self.now }
        ensures rising { is_sorted nat_cmp self.now ≡ true }
        ensures opening { AllPass (λ entry. is_opening entry.1) self.now }
        ensures roots { AllPass (λ entry. nat_lt entry.0 ROOT_END) self.now }
    {
        self.rows.check_roots();
        self.rows.iter()
    }

    /// Returns an iterator over the root keys from `from` on that have rows, in rising order, each
    /// with its rows.
    pub fn iter_from(&self, from: Root) -> EntryIter<'_, Root, Rows>
        ensures { result ≡ filter (λ entry. nat_le from entry.0) self.now }
    {
        self.rows.iter_from(from)
    }

    /// Adds one opening row, which the schema was asked about. If it is refused, nothing changes
    /// and the row is returned.
    pub fn insert(&mut self, root: Root, key: RowKey, row: Row) -> Result<(), (RowFault, Row)>
        requires { row_fault MAX_TABLES key row ≡ None }
        ensures fault { MatchResult result
            (λ _. row_given_fault (rows_in self.old root) key ≡ None)
            (λ refused. RefusesBy (row_given_fault (rows_in self.old root) key) refused.0) }
        ensures ok { OnOk result ((k : ℕ)
            → rows_in self.new k ≡ with_given (rows_in self.old) root key row k) }
        ensures err { OnErr result (self.new ≡ self.old) }
        ensures row_returned { IfErr result (λ refused. refused.1 ≡ row) }
    {
        match self.extend(root, key, row) {
            Ok(()) => Ok(()),
            Err(NotExtended::Refused(fault, row)) => Err((fault, row)),
            Err(NotExtended::NoRows(row)) => self.begin(root, key, row),
        }
    }

    /// Returns why an opening row with `key` would be refused, the first of these: `root` has a row
    /// with this key; the row isn't of the root table, and `root` has no root row. `None` if
    /// neither applies. It takes no memory.
    pub fn fault(&self, root: Root, key: RowKey) -> Option<RowFault>
        ensures { result ≡ row_given_fault (rows_in self.now root) key }
    {
        let rows = self.rows(root);
        if rows.is_some_and(|rows| rows.get(key).is_some()) {
            return Some(RowFault::RowRepeated);
        }
        if key.table != 0 && rows.is_none_or(|rows| rows.get(RowKey::ROOT).is_none()) {
            return Some(RowFault::NoRootRow);
        }
        None
    }

    // Adds the first row of a root key, which has to be its root row.
    fn begin(&mut self, root: Root, key: RowKey, row: Row) -> Result<(), (RowFault, Row)>
        requires row { row_fault MAX_TABLES key row ≡ None }
        requires absent { find nat_cmp root self.old ≡ None }
        ensures fault { MatchResult result (λ _. row_given_fault [] key ≡ None)
            (λ refused. RefusesBy (row_given_fault [] key) refused.0) }
        ensures ok { OnOk result ((k : ℕ)
            → rows_in self.new k ≡ with_given (rows_in self.old) root key row k) }
        ensures err { OnErr result (self.new ≡ self.old) }
        ensures row_returned { IfErr result (λ refused. refused.1 ≡ row) }
    {
        if key.table != 0 {
            return Err((RowFault::NoRootRow, row));
        }
        match self.open(root, key, row) {
            Ok(()) => Ok(()),
            Err(refused) => Err((RowFault::Memory, refused.value)),
        }
    }

    // Adds a row of a root key that has none yet.
    fn open(&mut self, root: Root, key: RowKey, row: Row) -> Result<(), AllocFailed<Row>>
        requires row { row_fault MAX_TABLES key row ≡ None }
        requires given { row_given_fault [] key ≡ None }
        requires absent { find nat_cmp root self.old ≡ None }
        ensures ok { OnOk result ((k : ℕ)
            → rows_in self.new k ≡ with_given (rows_in self.old) root key row k) }
        ensures err { OnErr result (self.new ≡ self.old) }
        ensures row_returned { IfErr result (λ refused. refused.value ≡ row) }
    {
        let mut rows = Rows::new(self.alloc);
        rows.insert(key, row)?;
        if let Err(refused) = self.rows.put(root, rows) {
            return Err(AllocFailed {
                value: refused.value.into_first(),
            });
        }
        Ok(())
    }

    // Adds a row of a root key that has rows already.
    fn extend(&mut self, root: Root, key: RowKey, row: Row) -> Result<(), NotExtended>
        requires { row_fault MAX_TABLES key row ≡ None }
        ensures given { OnOk result (row_given_fault (rows_in self.old root) key ≡ None) }
        ensures ok { OnOk result ((k : ℕ)
            → rows_in self.new k ≡ with_given (rows_in self.old) root key row k) }
        ensures err { OnErr result (self.new ≡ self.old) }
        ensures row_returned { IfErr result (IsNotExtended (find nat_cmp root self.old) key row) }
    {
        self.rows.put_row(root, key, row)
    }

    /// Sets the rows of `root`, replacing any that it has. `rows` aren't empty, and have rows of
    /// other tables only under the root row. If memory runs out, nothing changes and `rows` are
    /// returned.
    pub fn set(&mut self, root: Root, rows: Rows) -> Result<(), AllocFailed<Rows>>
        requires { is_opening rows ≡ true }
        ensures ok { OnOk result ((k : ℕ)
            → rows_in self.new k ≡ with_rows (rows_in self.old) root rows k) }
        ensures err { OnErr result (self.new ≡ self.old) }
        ensures rows_returned { IfErr result (λ refused. refused.value ≡ rows) }
    {
        self.rows.put(root, rows)?;
        Ok(())
    }

    /// Removes the greatest root key that has rows, and returns it with them; `None` if there is
    /// none. It takes no memory.
    pub fn pop(&mut self) -> Option<(Root, Rows)>
        ensures last { IfSome result (λ entry. self.old ≡ self.new ++ entry ∷ []) }
        ensures opening { IfSome result (λ entry. is_opening entry.1 ≡ true) }
        ensures none { IfNone result (self.old ≡ []) }
    {
        self.rows.pop()
    }

    /// Returns the number of root keys that have rows.
    pub fn len(&self) -> usize
        ensures { result ≡ length self.now }
    {
        self.rows.len()
    }

    /// Returns true if no root key has rows.
    pub fn is_empty(&self) -> bool
        ensures { result ≡ (length self.now == 0) }
    {
        self.len() == 0
    }

    /// Runs `txns` one after another, each on the rows of its root key. It copies all rows first,
    /// so that nothing changes if memory runs out.
    pub fn replay(&mut self, txns: &[Txn]) -> Result<(), AllocError>
        ensures ok { OnOk result ((k : ℕ)
            → rows_in self.new k ≡ replay (rows_in self.old) txns.now k) }
        ensures err { OnErr result (self.new ≡ self.old) }
    {
        let mut rows = self.rows.to_map()?;
        for txn in txns {
            run(self.alloc, &mut rows, txn)?;
        }
        self.rows = RootList::Mapped(rows);
        Ok(())
    }
}

// Runs one transaction. If memory runs out, the rows of its root key are lost.
fn run(alloc: Global, table: &mut BTreeMap<Root, Rows>, txn: &Txn) -> Result<(), AllocError>
    requires { IsTable table.old.entries }
    ensures ok { OnOk result ((k : ℕ)
        → rows_in table.new.entries k ≡ table_after (rows_in table.old.entries) txn.now k) }
    ensures table { OnOk result (IsTable table.new.entries) }
{
    let root = txn.root();
    let mut rows = table.remove(&root).unwrap_or(Rows::new(alloc));
    txn.run_on(alloc, &mut rows)?;
    if !rows.is_empty() {
        drop(table.insert(root, rows)?);
    } else {
        drop(rows);
    }
    Ok(())
}

impl Clone for Table {
    ghost is_clone = { λ table copy. copy ≡ table };

    fn clone(&self) -> Result<Table, AllocError> {
        Ok(Table {
            rows: self.rows.clone()?,
            alloc: self.alloc,
        })
    }
}
