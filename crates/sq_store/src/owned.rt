// The root keys of a table that one partition owns.
ghost use Rattle.std.specs.Prelude.{◌≡◌, ℕ, true, false, nat_le, length};
ghost use Rattle.std.specs.Iterator.{at_most};
ghost use Rattle.std.specs.List.{AllPass};
ghost use Rattle.std.specs.Map.Iter.{TakesFirst, deref_pair};
ghost use Rattle.std.specs.Ordering.{nat_cmp};
ghost use Rattle.std.specs.FinMap.Entries.{is_sorted};
ghost use Rattle.sq_schema.specs.Table.{is_opening};
ghost use Rattle.sq_plan.specs.PlanValue.{holds, owner};
ghost use Rattle.sq_store.specs.Opened.{owned_entries, IsOwned};

use sq_plan::{PartId, Plan, PlanRange};
use sq_schema::{EntryIter, Root, Rows, Table};
use std::marker::Model;

/// An iterator over the root keys of a table that a partition owns, in rising order. One search
/// skips all keys of a range of another partition. To a contract it is the list of the root keys
/// that are left, with their rows.
#[derive(Drop)]
pub struct OwnedEntries<'a> {
    plan: &'a Plan,
    part: PartId,
    table: &'a Table,
    range: PlanRange,
    left: EntryIter<'a, Root, Rows>,
}

impl<'a> Model for OwnedEntries<'a> {
    ghost use Rattle.std.specs.Prelude.{◌≡◌, nat_lt, true};
    ghost use Rattle.std.specs.List.{AllPass};
    ghost use Rattle.std.specs.Ordering.{nat_cmp};
    ghost use Rattle.std.specs.FinMap.Entries.{is_sorted};
    ghost use Rattle.sq_schema.specs.declared.root.TheConstants.{ROOT_END};
    ghost use Rattle.sq_schema.specs.Table.{TableValue};
    ghost use Rattle.sq_store.specs.Opened.{owned_entries, IsOwned, IsSuffix};

    ghost Value = { TableValue };

    ghost view = { λ o. owned_entries o.plan.now o.part o.left };

    ghost invariant = { λ o. IsOwned o.plan.now o.range × IsSuffix o.left o.table.now
        × (is_sorted nat_cmp o.table.now ≡ true)
        × AllPass (λ entry. nat_lt entry.0 ROOT_END) o.table.now };
}

impl<'a> OwnedEntries<'a> {
    /// Returns an iterator over the root keys of `table` that `part` owns.
    pub fn new(plan: &'a Plan, part: PartId, table: &'a Table) -> OwnedEntries<'a>
        ensures all { result ≡ owned_entries plan.now part table.now }
        ensures rising { is_sorted nat_cmp table.now ≡ true }
        ensures opening { AllPass (λ entry. is_opening entry.1) table.now }
    {
        OwnedEntries {
            plan,
            part,
            table,
            range: no_root_keys(part),
            left: table.iter(),
        }
    }
}

impl<'a> Iterator for OwnedEntries<'a> {
    type Item = (&'a Root, &'a Rows);

    ghost next_gives = { TakesFirst deref_pair };

    ghost remaining = { λ entries. at_most (length entries) };

    #[inline]
    fn next(&mut self) -> Option<(&'a Root, &'a Rows)> {
        while let Some((root, rows)) = self.left.next() {
            self.range = range_of(self.plan, self.range, *root);
            if self.range.owner == self.part {
                return Some((root, rows));
            }
            // The last range ends past all root keys, so that none is left after it.
            let next = Root::new(self.range.hi)?;
            self.left = self.table.iter_from(next);
        }
        None
    }
}

// Returns a range that holds no root key.
fn no_root_keys(owner: PartId) -> PlanRange
    ensures { (key : ℕ) → holds result key ≡ false }
{
    PlanRange {
        lo: 0,
        hi: 0,
        owner,
    }
}

// Returns the range of `plan` that holds `root`: the given `range`, or one that is looked up.
fn range_of(plan: &Plan, range: PlanRange, root: Root) -> PlanRange
    requires { IsOwned plan.now range }
    ensures owned { IsOwned plan.now result }
    ensures held { holds result root ≡ true }
    ensures owner { result.owner ≡ owner plan.now root }
{
    let key = root.number();
    if range.lo <= key && key < range.hi {
        return range;
    }
    let ranges = plan.ranges();
    let at = ranges.partition_point(
        |range: &PlanRange| -> bool
            ensures { result ≡ nat_le range.now.hi key }
        { range.hi <= key },
    );
    ranges[at]
}
