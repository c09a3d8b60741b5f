// Rows in a map by key, used when there are many.
ghost use Rattle.std.specs.Prelude.{◌≡◌, true, Some, None, IfOk, IfErr, OnOk, OnErr, IsSome, is_some};
ghost use Rattle.std.specs.FinMap.Entries.{is_sorted};
ghost use Rattle.sq_rows.specs.RowList.{row_at, with_row};
ghost use Rattle.sq_rows.specs.Edits.{AddsTo, ComesBack};
ghost use Rattle.sq_rows.specs.Keys.{key_cmp};
ghost use Rattle.sq_rows.specs.Writes.{last_write, with_write, with_writes};

use crate::row::{NotAdded, NotPut, Row, RowKey, RowWrite};
use std::alloc::{AllocError, AllocFailed};
use std::collections::BTreeMap;

/// Performs `writes` in their order, or none of them if memory runs out. A row is removed only
/// after the later writes succeeded, since putting it back would take memory.
pub(crate) fn write_all(
    rows: &mut BTreeMap<RowKey, Row>,
    writes: &mut [RowWrite],
) -> Result<(), AllocError>
    requires { is_sorted key_cmp rows.old.entries ≡ true }
    ensures ok { OnOk result (rows.new.entries ≡ with_writes rows.old.entries writes.old) }
    ensures err { OnErr result (rows.new.entries ≡ rows.old.entries) }
{
    let Some((first, rest)) = writes.split_first_mut() else {
        return Ok(());
    };
    let key = first.0;
    if let Some(row) = first.1.take() {
        let old = rows.insert(key, row)?;
        if let Err(error) = write_all(rows, rest) {
            put_back(rows, key, old);
            return Err(error);
        }
        return Ok(());
    }
    let is_last = !is_written(rest, key);
    write_all(rows, rest)?;
    if is_last {
        rows.remove(&key);
    }
    Ok(())
}

/// Performs one write. If memory runs out, nothing changes.
pub(crate) fn write(
    rows: &mut BTreeMap<RowKey, Row>,
    key: RowKey,
    row: Option<Row>,
) -> Result<(), AllocError>
    requires { is_sorted key_cmp rows.old.entries ≡ true }
    ensures ok { OnOk result (rows.new.entries ≡ with_write rows.old.entries key row) }
    ensures err { OnErr result (rows.new.entries ≡ rows.old.entries) }
{
    match row {
        Some(row) => {
            rows.insert(key, row)?;
        }
        None => {
            rows.remove(&key);
        }
    }
    Ok(())
}

/// Puts `row` under a new `key`. If the key has a row, or memory runs out, nothing changes and
/// `row` is returned.
pub(crate) fn insert_new(
    rows: &mut BTreeMap<RowKey, Row>,
    key: RowKey,
    row: Row,
) -> Result<(), NotPut>
    requires { is_sorted key_cmp rows.old.entries ≡ true }
    ensures ok { OnOk result (rows.new.entries ≡ with_row rows.old.entries key row) }
    ensures absent { OnOk result (row_at rows.old.entries key ≡ None) }
    ensures err { OnErr result (rows.new.entries ≡ rows.old.entries) }
    ensures row_returned { IfErr result (ComesBack (row_at rows.old.entries key) row) }
{
    match rows.insert(key, row) {
        Ok(None) => Ok(()),
        Ok(Some(old)) => Err(NotPut::Repeated(give_back(rows, key, old))),
        Err(failed) => Err(NotPut::Memory(failed.value.1)),
    }
}

// Puts the `old` row of `key` back and returns the present one; it takes no memory, since it
// replaces a row.
fn give_back(rows: &mut BTreeMap<RowKey, Row>, key: RowKey, old: Row) -> Row
    requires rising { is_sorted key_cmp rows.old.entries ≡ true }
    requires stands { IsSome (row_at rows.old.entries key) }
    ensures rows { rows.new.entries ≡ with_row rows.old.entries key old }
    ensures row { Some result ≡ row_at rows.old.entries key }
{
    let Ok(Some(row)) = rows.insert(key, old) else {
        unreachable!()
    };
    row
}

/// Puts `row` and returns the one that `key` had. If memory runs out, `row` is returned.
pub(crate) fn replace(
    rows: &mut BTreeMap<RowKey, Row>,
    key: RowKey,
    row: Row,
) -> Result<Option<Row>, AllocFailed<Row>>
    ensures ok { OnOk result (rows.new.entries ≡ with_row rows.old.entries key row) }
    ensures old { IfOk result (λ old. old ≡ row_at rows.old.entries key) }
    ensures err { OnErr result (rows.new.entries ≡ rows.old.entries) }
    ensures row_returned { IfErr result (λ failed. failed.value ≡ row) }
{
    match rows.insert(key, row) {
        Ok(old) => Ok(old),
        Err(failed) => Err(AllocFailed {
            value: failed.value.1,
        }),
    }
}

/// Adds `by` to the number of the row of `key` and returns the sum. If there is no row, or the sum
/// exceeds an `i64`, nothing changes.
pub(crate) fn add(rows: &mut BTreeMap<RowKey, Row>, key: RowKey, by: i64) -> Result<i64, NotAdded>
    requires { is_sorted key_cmp rows.old.entries ≡ true }
    ensures { AddsTo rows.old.entries key by (row_at rows.old.entries key)
        rows.new.entries result }
{
    match rows.get_mut(&key) {
        Some(row) => row.add(by).ok_or(NotAdded::Range),
        None => Err(NotAdded::Absent),
    }
}

// Restores the row that `key` had, or that it had none; it takes no memory, since `key` has a row
// now.
fn put_back(rows: &mut BTreeMap<RowKey, Row>, key: RowKey, old: Option<Row>)
    requires rising { is_sorted key_cmp rows.old.entries ≡ true }
    requires stands { IsSome (row_at rows.old.entries key) }
    ensures { rows.new.entries ≡ with_write rows.old.entries key old }
{
    let Some(row) = old else {
        rows.remove(&key);
        return;
    };
    let Ok(_) = rows.insert(key, row) else {
        unreachable!()
    };
}

fn is_written(writes: &[RowWrite], key: RowKey) -> bool
    ensures { result ≡ is_some (last_write writes.now key) }
{
    writes.iter().rev().find(|write| write.0 == key).is_some()
}
