// Merges two lists of families.
ghost use Rattle.std.specs.Prelude.{◌≡◌, ◌+◌, ◌++◌, ◌≤◌, length, vec_len, vec_capacity, IsTrue};
ghost use Rattle.sq_store.specs.StoreValue.{with_families, has_none_of};
ghost use Rattle.sq_store.specs.Listed.{roots_rise, store_of};
ghost use Rattle.sq_store.specs.Merging.{is_first_next, TakesNext};

use sq_schema::Family;
use std::collections::VecDeque;

// Appends the families of two rising lists, which share no root key, to `into`, which has room for
// them.
pub(crate) fn merge(into: &mut Vec<Family>, mut left: VecDeque<Family>, mut right: VecDeque<Family>)
    requires left { IsTrue (roots_rise (into.old.items ++ left.items)) }
    requires right { IsTrue (roots_rise (into.old.items ++ right.items)) }
    requires absent { IsTrue (has_none_of (store_of (into.old.items ++ left.items)) right.items) }
    requires room { vec_len into.old +
        (length left.items + length right.items) ≤ vec_capacity into.old }
    ensures rising { IsTrue (roots_rise into.new.items) }
    ensures all { store_of into.new.items
        ≡ with_families (store_of (into.old.items ++ left.items)) right.items }
{
    while let Some(family) = next(&mut left, &mut right) {
        into.push_reserved(family);
    }
}

// Takes the family with the lesser root key off the front of one of the two lists.
fn next(left: &mut VecDeque<Family>, right: &mut VecDeque<Family>) -> Option<Family>
    ensures { TakesNext (is_first_next left.old.items right.old.items)
        left.old.items right.old.items result left.new.items right.new.items }
{
    if comes_first(left, right) {
        left.pop_front()
    } else {
        right.pop_front()
    }
}

// Returns true if the next family is on the left.
fn comes_first(left: &VecDeque<Family>, right: &VecDeque<Family>) -> bool
    ensures { result ≡ is_first_next left.now.items right.now.items }
{
    match (left.front(), right.front()) {
        (Some(family), Some(other)) => family.root() < other.root(),
        (family, _) => family.is_some(),
    }
}
