// The rows of a database in memory, by root key.
ghost use Rattle.std.specs.Prelude.{◌≡◌, ◌≤◌, ◌==◌, ◌&&◌, ◌++◌, ◌∷◌, not, true, nat_le, nat_lt, [], length, filter, is_some, Some, None, IfOk, IfErr, IfSome, IfNone, OnOk, OnErr};
ghost use Rattle.std.specs.List.{AllPass};
ghost use Rattle.std.specs.Option.{option_copied};
ghost use Rattle.std.specs.Ordering.{nat_cmp};
ghost use Rattle.std.specs.FinMap.Entries.{find, put, is_sorted};
ghost use Rattle.sq_schema.specs.declared.root.TheConstants.{ROOT_END};
ghost use Rattle.sq_rows.specs.declared.row.TheConstants.{MAX_NOTE};
ghost use Rattle.sq_rows.specs.RowList.{root_key, row_at, with_row};
ghost use Rattle.sq_schema.specs.RootList.{table_of, IsNotExtended};
ghost use Rattle.sq_schema.specs.Table.{rows_in, row_given_fault};

use crate::fault::RowFault;
use crate::root::Root;
use sq_rows::keyed_entries::{get, insert, map_of, moves_entries, place};
use sq_rows::{EntryIter, NotPut, Row, RowKey, Rows};
use std::alloc::{AllocError, AllocFailed, Global};
use std::collections::BTreeMap;

/// Root keys with their rows, in rising order. They are stored in a list as long as they arrive in
/// this order, and after that in a map.
#[derive(Debug, Drop)]
pub(crate) enum RootList {
    Listed(Vec<(Root, Rows)>),
    Mapped(BTreeMap<Root, Rows>),
}

/// Why an opening row wasn't taken, with the row.
#[derive(Drop)]
pub(crate) enum NotExtended {
    /// Its root key has no rows.
    NoRows(Row),
    Refused(RowFault, Row),
}

impl RootList {
    /// Creates an empty list.
    pub(crate) fn new(alloc: Global) -> RootList
        ensures { table_of result ≡ [] }
    {
        RootList::Listed(Vec::new(alloc))
    }

    /// Returns the number of root keys.
    pub(crate) fn len(&self) -> usize
        ensures { result ≡ length (table_of self.now) }
    {
        match self {
            RootList::Listed(rows) => rows.len(),
            RootList::Mapped(rows) => rows.len(),
        }
    }

    /// Returns an iterator over the root keys and their rows, in rising order.
    pub(crate) fn iter(&self) -> EntryIter<'_, Root, Rows>
        ensures { result ≡ table_of self.now }
    {
        match self {
            RootList::Listed(rows) => EntryIter::of_list(rows),
            RootList::Mapped(rows) => EntryIter::of_map(rows),
        }
    }

    /// Looks at the greatest root key, which is below [`ROOT_END`]; so all others are, too.
    pub(crate) fn check_roots(&self)
        requires { is_sorted nat_cmp (table_of self.now) ≡ true }
        ensures { AllPass (λ entry. nat_lt entry.0 ROOT_END) (table_of self.now) }
    {
        match self {
            RootList::Listed(rows) => {
                if let Some((root, _)) = rows.last() {
                    let _ = root.number();
                }
            }
            RootList::Mapped(rows) => {
                if let Some((root, _)) = rows.last_key_value() {
                    let _ = root.number();
                }
            }
        }
    }

    /// Returns an iterator over the root keys from `from` on and their rows, in rising order.
    pub(crate) fn iter_from(&self, from: Root) -> EntryIter<'_, Root, Rows>
        requires { is_sorted nat_cmp (table_of self.now) ≡ true }
        ensures { result ≡ filter (λ entry. nat_le from entry.0) (table_of self.now) }
    {
        match self {
            RootList::Listed(rows) => {
                let list = rows.as_slice();
                let at = list.partition_point(
                    |entry: &(Root, Rows)| -> bool
                        ensures { result ≡ nat_lt entry.now.0 from }
                    { entry.0 < from },
                );
                EntryIter::of_list(&list[at..])
            }
            RootList::Mapped(rows) => EntryIter::of_range(rows.range(from..)),
        }
    }

    /// Returns the rows of `root`; `None` if it has none.
    pub(crate) fn get(&self, root: Root) -> Option<&Rows>
        requires { is_sorted nat_cmp (table_of self.now) ≡ true }
        ensures { option_copied result ≡ find nat_cmp root (table_of self.now) }
    {
        match self {
            RootList::Listed(rows) => get(rows, root),
            RootList::Mapped(rows) => rows.get(&root),
        }
    }

    /// Sets the rows of `root`, replacing any that it has. If memory runs out, `rows` are returned.
    pub(crate) fn put(&mut self, root: Root, rows: Rows) -> Result<(), AllocFailed<Rows>>
        requires { is_sorted nat_cmp (table_of self.old) ≡ true }
        ensures ok { OnOk result (table_of self.new ≡ put nat_cmp root rows (table_of self.old)) }
        ensures err { OnErr result (table_of self.new ≡ table_of self.old) }
        ensures rows_returned { IfErr result (λ failed. failed.value ≡ rows) }
    {
        if self.goes_between(root) && self.spread().is_err() {
            return Err(AllocFailed { value: rows });
        }
        match self {
            RootList::Listed(list) => put(list, root, rows),
            RootList::Mapped(map) => insert(map, root, rows),
        }
    }

    /// Adds an opening row of `root`, which has some already. If it is refused, nothing changes.
    pub(crate) fn put_row(&mut self, root: Root, key: RowKey, row: Row) -> Result<(), NotExtended>
        requires rising { is_sorted nat_cmp (table_of self.old) ≡ true }
        requires note { length row.note ≤ MAX_NOTE }
        ensures given { OnOk result
            (row_given_fault (rows_in (table_of self.old) root) key ≡ None) }
        ensures ok { OnOk result (table_of self.new
            ≡ put nat_cmp root (with_row (rows_in (table_of self.old) root) key row)
            (table_of self.old)) }
        ensures err { OnErr result (table_of self.new ≡ table_of self.old) }
        ensures row_returned { IfErr result
            (IsNotExtended (find nat_cmp root (table_of self.old)) key row) }
    {
        match self {
            RootList::Listed(list) => match place(list, root) {
                Ok(at) => take(&mut list[at].1, key, row),
                Err(_) => Err(NotExtended::NoRows(row)),
            },
            RootList::Mapped(map) => match map.get_mut(&root) {
                Some(rows) => take(rows, key, row),
                None => Err(NotExtended::NoRows(row)),
            },
        }
    }

    /// Removes the greatest root key and returns it with its rows; `None` if there is none.
    pub(crate) fn pop(&mut self) -> Option<(Root, Rows)>
        ensures last { IfSome result (λ entry.
            table_of self.old ≡ table_of self.new ++ entry ∷ []) }
        ensures none { IfNone result (table_of self.old ≡ []) }
        ensures kept { IfNone result (table_of self.new ≡ table_of self.old) }
    {
        match self {
            RootList::Listed(rows) => rows.pop(),
            RootList::Mapped(rows) => rows.pop_last(),
        }
    }

    /// Returns a map with clones of the rows.
    pub(crate) fn to_map(&self) -> Result<BTreeMap<Root, Rows>, AllocError>
        requires { is_sorted nat_cmp (table_of self.now) ≡ true }
        ensures { IfOk result (λ map. map.entries ≡ table_of self.now) }
    {
        match self {
            RootList::Listed(rows) => map_of(*rows.allocator(), rows),
            RootList::Mapped(rows) => rows.clone(),
        }
    }

    // Returns whether `root` is new to a list and belongs before another root key.
    fn goes_between(&self, root: Root) -> bool {
        match self {
            RootList::Listed(rows) => moves_entries(rows, root, false),
            RootList::Mapped(_) => false,
        }
    }

    // Moves the rows of a list into a map.
    fn spread(&mut self) -> Result<(), AllocError>
        requires { is_sorted nat_cmp (table_of self.old) ≡ true }
        ensures { table_of self.new ≡ table_of self.old }
    {
        *self = RootList::Mapped(self.to_map()?);
        Ok(())
    }
}

impl Clone for RootList {
    ghost is_clone = { λ list copy. table_of copy ≡ table_of list };

    fn clone(&self) -> Result<RootList, AllocError> {
        match self {
            RootList::Listed(rows) => Ok(RootList::Listed(rows.clone()?)),
            RootList::Mapped(rows) => Ok(RootList::Mapped(rows.clone()?)),
        }
    }
}

// Adds an opening row to the rows of its root key.
fn take(rows: &mut Rows, key: RowKey, row: Row) -> Result<(), NotExtended>
    requires { length row.note ≤ MAX_NOTE }
    ensures given { OnOk result (row_given_fault rows.old key ≡ None) }
    ensures ok { OnOk result (rows.new ≡ with_row rows.old key row) }
    ensures err { OnErr result (rows.new ≡ rows.old) }
    ensures row_returned { IfErr result (IsNotExtended (Some rows.old) key row) }
{
    if lacks_root(rows, key) {
        return Err(NotExtended::Refused(RowFault::NoRootRow, row));
    }
    match rows.insert_new(key, row) {
        Ok(()) => Ok(()),
        Err(NotPut::Repeated(row)) => Err(NotExtended::Refused(RowFault::RowRepeated, row)),
        Err(NotPut::Memory(row)) => Err(NotExtended::Refused(RowFault::Memory, row)),
    }
}

// Returns whether a new row with `key` needs a root row that is missing.
fn lacks_root(rows: &Rows, key: RowKey) -> bool
    ensures { result ≡ (not (key.table == 0) && not (is_some (row_at rows.now root_key))
        && not (is_some (row_at rows.now key))) }
{
    key.table != 0 && !rows.has_root() && rows.get(key).is_none()
}

// Sets the rows of `root` in a list.
fn put(list: &mut Vec<(Root, Rows)>, root: Root, rows: Rows) -> Result<(), AllocFailed<Rows>>
    requires { is_sorted nat_cmp list.old.items ≡ true }
    ensures ok { OnOk result (list.new.items ≡ put nat_cmp root rows list.old.items) }
    ensures err { OnErr result (list.new.items ≡ list.old.items) }
    ensures rows_returned { IfErr result (λ failed. failed.value ≡ rows) }
{
    match place(list, root) {
        Ok(at) => {
            list[at].1 = rows;
            Ok(())
        }
        Err(at) => match list.insert(at, (root, rows)) {
            Ok(()) => Ok(()),
            Err(failed) => Err(AllocFailed {
                value: failed.value.1,
            }),
        },
    }
}
