// A table of the rows in stores.
ghost use Rattle.std.specs.Prelude.{◌≡◌, ℕ, ◌≤◌, [], IfOk, OnOk};
ghost use Rattle.std.specs.FinMap.{get};
ghost use Rattle.sq_gather.specs.Prelude.{ROOT_END, rows_in};
ghost use Rattle.sq_audit.specs.Rows.{rows_with, rows_beside, rows_among};

use crate::stored::next_family;
use sq_gather::{Family, SlabStore, Table};
use std::alloc::{AllocError, Global};

/// Returns the table of the rows that the families in `stores` have.
pub(crate) fn table_of(alloc: Global, stores: &[SlabStore]) -> Result<Table, AllocError>
    ensures rows { IfOk result (λ table. (root : ℕ)
        → rows_in table root ≡ rows_among [] stores.now root) }
    ensures bound { IfOk result (λ table. (root : ℕ) → ROOT_END ≤ root → rows_in table root ≡ []) }
{
    let mut table = Table::new(alloc);
    for store in stores {
        add_store(&mut table, store)?;
    }
    Ok(table)
}

// Adds the rows of the families in `store`.
fn add_store(table: &mut Table, store: &SlabStore) -> Result<(), AllocError>
    ensures rows { OnOk result ((root : ℕ)
        → rows_in table.new root ≡ rows_with (rows_in table.old root) (get store.now root)) }
    ensures bound { OnOk result ((root : ℕ) → ROOT_END ≤ root
        → rows_in table.new root ≡ rows_in table.old root) }
{
    let mut at = 0;
    while let Some((family, next)) = next_family(store, at) {
        add_family(table, family)?;
        at = next;
    }
    Ok(())
}

// Adds the rows of `family`, if it has any.
fn add_family(table: &mut Table, family: &Family) -> Result<(), AllocError>
    ensures { OnOk result ((root : ℕ)
        → rows_in table.new root ≡ rows_beside (rows_in table.old) family.now root) }
{
    let rows = family.rows();
    if !rows.is_empty() {
        table.set(family.root(), rows.clone()?)?;
    }
    Ok(())
}
