// The parts of an opening, and their faults.
ghost use Rattle.std.specs.Prelude.{◌≡◌, ◌≤◌, ℕ, true, None, MatchResult, IfOk, IfErr, OnOk, OnErr};
ghost use Rattle.std.specs.List.{AllPass};
ghost use Rattle.std.specs.Ordering.{nat_cmp};
ghost use Rattle.std.specs.Result.{result_err};
ghost use Rattle.std.specs.FinMap.Entries.{is_sorted};
ghost use Rattle.sq_schema.specs.declared.schema.TheConstants.{MAX_TABLES};
ghost use Rattle.sq_schema.specs.Prelude.{rows_in, is_opening};
ghost use Rattle.sq_plan.specs.PlanValue.{IsPlan};
ghost use Rattle.sq_moves.specs.Between.{recon_of, IsReconOf};
ghost use Rattle.sq_moves.specs.Given.{value_of, no_rows, with_one, given_rows, IsTableOf};
ghost use Rattle.sq_moves.specs.Refused.{HasFitSizes, config_fault, given_fault, rows_fault, first_fault, opening_fault, MayRefuse, MayRefuseOpening};

use crate::opening::{Config, GivenRow, MAX_CAPACITY, MAX_LIMIT, MIN_LIMIT};
use crate::opening_fault::OpeningFault;
use crate::recon::Recon;
use sq_plan::Plan;
use sq_schema::Table;
use std::alloc::Global;

/// Returns what moves between the plans, and the table of the opening rows. No memory is taken
/// before the plans, the sizes and the first row have been checked.
pub(crate) fn moves_and_table(
    alloc: Global,
    tables: u8,
    old: &Plan,
    new: &Plan,
    config: Config,
    rows: &[GivenRow],
) -> Result<(Recon, Table), OpeningFault>
    requires { tables ≤ MAX_TABLES }
    ensures fault { MatchResult result
        (λ _. opening_fault tables old.now new.now config rows.now ≡ None)
        (MayRefuseOpening tables old.now new.now config rows.now) }
    ensures recon { IfOk result (λ parts. (parts.0 ≡ recon_of old.now new.now config.width)
        × IsReconOf old.now new.now config.width parts.0) }
    ensures table { IfOk result (λ parts. IsTableOf rows.now parts.1) }
    ensures sizes { OnOk result (HasFitSizes config) }
    ensures plans { IsPlan old.now × IsPlan new.now }
{
    check(old, new, config)?;
    let table = table_of(alloc, tables, rows)?;
    let recon = Recon::between(alloc, old, new, config.width)?;
    Ok((recon, table))
}

/// Returns what moves between the plans, if it can be run with the sizes of `config`. No memory is
/// taken before the plans and the sizes have been checked.
pub(crate) fn moves(
    alloc: Global,
    old: &Plan,
    new: &Plan,
    config: Config,
) -> Result<Recon, OpeningFault>
    ensures fault { let fault = config_fault old.now new.now config in
        MatchResult result (λ _. fault ≡ None) (MayRefuse fault fault) }
    ensures recon { IfOk result (λ recon. (recon ≡ recon_of old.now new.now config.width)
        × IsReconOf old.now new.now config.width recon) }
    ensures sizes { OnOk result (HasFitSizes config) }
    ensures plans { IsPlan old.now × IsPlan new.now }
{
    check(old, new, config)?;
    Ok(Recon::between(alloc, old, new, config.width)?)
}

// Refuses plans without a reconfiguration, and then sizes out of range.
fn check(old: &Plan, new: &Plan, config: Config) -> Result<(), OpeningFault>
    ensures fault { result_err result ≡ config_fault old.now new.now config }
    ensures sizes { OnOk result (HasFitSizes config) }
    ensures plans { IsPlan old.now × IsPlan new.now }
{
    if let Some(fault) = Recon::fault(old, new, config.width) {
        return Err(fault.into());
    }
    if !(MIN_LIMIT..=MAX_LIMIT).contains(&config.limit) {
        return Err(OpeningFault::Limit);
    }
    if !(1..=MAX_CAPACITY).contains(&config.capacity) {
        return Err(OpeningFault::Capacity);
    }
    Ok(())
}

// Adds `rows` one after another to a new table.
fn table_of(alloc: Global, tables: u8, rows: &[GivenRow]) -> Result<Table, OpeningFault>
    requires { tables ≤ MAX_TABLES }
    ensures fault { MatchResult result
        (λ _. rows_fault tables no_rows 0 rows.now ≡ None)
        (MayRefuse (first_fault tables no_rows 0 rows.now) (rows_fault tables no_rows 0 rows.now)) }
    ensures table { IfOk result (IsTableOf rows.now) }
{
    let mut table = Table::new(alloc);
    for (at, given) in rows.iter().enumerate() {
        take(&mut table, tables, at, given)?;
    }
    // Called for what it ensures: the root keys of the table rise, and each has rows.
    let _ = table.iter();
    Ok(table)
}

// Adds the row with the number `at` to `table`. No memory is taken before the row has been checked.
fn take(table: &mut Table, tables: u8, at: usize, given: &GivenRow) -> Result<(), OpeningFault>
    requires { tables ≤ MAX_TABLES }
    ensures fault { let fault = given_fault tables (rows_in table.old) at (value_of given.now) in
        MatchResult result (λ _. fault ≡ None) (MayRefuse fault fault) }
    ensures ok { OnOk result ((root : ℕ)
        → rows_in table.new root ≡ with_one (rows_in table.old) (value_of given.now) root) }
{
    let root = match given.root(tables) {
        Ok(root) => root,
        Err(fault) => return Err(OpeningFault::Row(at, fault)),
    };
    if let Some(fault) = table.fault(root, given.key()) {
        return Err(OpeningFault::of_row(at, fault));
    }
    let Ok(row) = given.row() else {
        return Err(OpeningFault::Memory);
    };
    if let Err((fault, _)) = table.insert(root, given.key(), row) {
        return Err(OpeningFault::of_row(at, fault));
    }
    Ok(())
}

/// Moves the row with the number `at` into `table`, with its note uncopied. If it is refused,
/// nothing changes and the row is returned.
pub(crate) fn take_over(
    table: &mut Table,
    tables: u8,
    at: usize,
    given: GivenRow,
) -> Result<(), (OpeningFault, GivenRow)>
    requires { tables ≤ MAX_TABLES }
    ensures fault { let fault = given_fault tables (rows_in table.old) at (value_of given) in
        MatchResult result (λ _. fault ≡ None) (λ refused. MayRefuse fault fault refused.0) }
    ensures ok { OnOk result ((root : ℕ)
        → rows_in table.new root ≡ with_one (rows_in table.old) (value_of given) root) }
    ensures err { OnErr result (table.new ≡ table.old) }
    ensures row_returned { IfErr result (λ refused. value_of refused.1 ≡ value_of given) }
{
    let root = match given.root(tables) {
        Ok(root) => root,
        Err(fault) => return Err((OpeningFault::Row(at, fault), given)),
    };
    let key = given.key();
    match table.insert(root, key, given.into_row()) {
        Ok(()) => Ok(()),
        Err((fault, row)) => Err((
            OpeningFault::of_row(at, fault),
            GivenRow::of(root, key, row),
        )),
    }
}
