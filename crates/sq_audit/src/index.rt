// Checks over all families sorted by root key: each root key of a table has a family, and in one
// place only.
ghost use Rattle.std.specs.Prelude.{◌≡◌, length, nat_lt};
ghost use Rattle.std.specs.Bool.{Decides};
ghost use Rattle.sq_gather.specs.Prelude.{rows_in};
ghost use Rattle.sq_audit.specs.Located.{entry_of, entries_in, AreByRoot};
ghost use Rattle.sq_audit.specs.Index.{HasFamily, HaveFamilies, Agree, AgreeOnSpots, HasRows};

use crate::located::Located;
use sq_gather::{Family, Root, Table};

/// Returns true if each root key of `table` has a family in `all`, which is sorted by root key.
pub(crate) fn have_families(table: &Table, all: &[Located]) -> bool
    requires { AreByRoot (entries_in all.now) }
    ensures { Decides result (HaveFamilies table.now (entries_in all.now)) }
{
    for (root, _) in table.iter() {
        if !has_family(all, *root) {
            return false;
        }
    }
    true
}

/// Returns true if `root` has a family in `all`, which is sorted by root key.
pub(crate) fn has_family(all: &[Located], root: Root) -> bool
    requires { AreByRoot (entries_in all.now) }
    ensures { Decides result (HasFamily (entries_in all.now) root) }
{
    let count = all.partition_point(
        |located: &Located| -> bool
            ensures { result ≡ nat_lt located.now.family.now.root root }
        { located.family.root() < root },
    );
    match all.get(count) {
        Some(located) => located.family.root() == root,
        None => false,
    }
}

/// Returns true if all families of a root key in `all`, which is sorted by root key, are at the
/// same site.
pub(crate) fn stand_once(all: &[Located]) -> bool
    requires { AreByRoot (entries_in all.now) }
    ensures { Decides result (AgreeOnSpots (entries_in all.now)) }
{
    for at in 1..all.len() {
        if !agree(&all[at - 1], &all[at]) {
            return false;
        }
    }
    true
}

// Returns true if two families are at the same site or differ in their root keys.
fn agree(one: &Located, other: &Located) -> bool
    ensures { Decides result (Agree (entry_of one.now) (entry_of other.now)) }
{
    if one.family.root() == other.family.root() {
        one.site == other.site
    } else {
        true
    }
}

/// Returns true if `family` has a log, or the rows that `table` has for its root key.
pub(crate) fn may_start(table: &Table, family: &Family) -> bool
    ensures { Decides result (length family.now.log ≡ 0 → HasRows (rows_in table.now) family.now) }
{
    if family.position() != 0 {
        return true;
    }
    has_rows(table, family)
}

// Returns true if `family` has the rows that `table` has for its root key.
fn has_rows(table: &Table, family: &Family) -> bool
    ensures { Decides result (HasRows (rows_in table.now) family.now) }
{
    match table.rows(family.root()) {
        Some(rows) => family.rows() == rows,
        None => family.rows().is_empty(),
    }
}
