//! Families in a slice, by rising root key.
ghost use Rattle.std.specs.Prelude.{◌≡◌, ◌+◌, ◌++◌, ◌∷◌, ◌<◌, ◌≤◌, [], nat_lt, vec_len, vec_capacity, slice_range, take, drop, IsTrue, IfOk, OnOk, OnErr, All};
ghost use Rattle.std.specs.List.Sorted.{IsPermutation, IsNonDecreasingBy};
ghost use Rattle.sq_store.specs.InOrder.{AreKeyed};
ghost use Rattle.sq_store.specs.Listed.{roots_rise, IsRootPlace, IsStart};
ghost use Rattle.sq_store.specs.Counting.{chunk_count as count_of, root_after};

use sq_schema::{Family, ROOT_END, Root};
use std::alloc::AllocError;

/// Returns the place of the family of `root`, or else the place where it belongs.
pub fn place(families: &[Family], root: Root) -> Result<usize, usize>
    requires { IsTrue (roots_rise families.now) }
    ensures { IsRootPlace families.now root result }
{
    families.binary_search_by_key(&root, |family| family.root())
}

/// Counts the families whose root key is below `key`.
pub fn start(families: &[Family], key: u64) -> usize
    requires { IsTrue (roots_rise families.now) }
    ensures { IsStart families.now key result }
{
    families.partition_point(
        |family: &Family| -> bool
            ensures { result ≡ nat_lt family.now.root key }
        { family.root().number() < key },
    )
}

// Returns how many families a chunk takes: the first, and then as many as fit with it into `limit`
// bytes.
pub(crate) fn chunk_count(families: &[Family], limit: u64) -> usize
    ensures { result ≡ count_of limit families.now }
{
    let Some((first, rest)) = families.split_first() else {
        return 0;
    };
    let mut room = limit.saturating_sub(first.size());
    for (at, family) in rest.iter().enumerate() {
        match room.checked_sub(family.size()) {
            Some(left) => room = left,
            None => return at + 1,
        }
    }
    families.len()
}

// Returns the root key of the family at `at`, or `bound` if there is none.
pub(crate) fn root_at(families: &[Family], at: usize, bound: u64) -> u64
    ensures { result ≡ root_after bound families.now at }
{
    match families.get(at) {
        Some(family) => family.root().number(),
        None => bound,
    }
}

// Takes `count` families out, from place `first` on. If memory runs out, all families stay.
pub(crate) fn take_out(
    families: &mut Vec<Family>,
    first: usize,
    count: usize,
) -> Result<Vec<Family>, AllocError>
    requires { first + count ≤ vec_len families.old }
    ensures taken { IfOk result (λ taken. taken.items
        ≡ slice_range families.old.items first (first + count)) }
    ensures left { OnOk result (families.new.items
        ≡ take first families.old.items ++ drop (first + count) families.old.items) }
    ensures err { OnErr result (families.new.items ≡ families.old.items) }
    ensures keyed { IfOk result (λ taken. AreKeyed taken.items) }
{
    let mut taken = Vec::with_capacity(*families.allocator(), count)?;
    for family in families.drain(first..first + count) {
        put_last(&mut taken, family);
    }
    Ok(taken)
}

/// Appends `family` to `families`, which have room for it. Its log is of its own root key.
pub fn put_last(families: &mut Vec<Family>, family: Family)
    requires { vec_len families.old < vec_capacity families.old }
    ensures items { families.new.items ≡ families.old.items ++ family ∷ [] }
    ensures capacity { vec_capacity families.new ≡ vec_capacity families.old }
    ensures keyed { AreKeyed families.old.items → AreKeyed families.new.items }
{
    // For the proof alone: the log is of the family's root key.
    let _ = family.position();
    families.push_reserved(family);
}

// Returns the least root key of `families`; if there are none, the bound of all root keys.
pub(crate) fn least_root(families: &[Family]) -> u64
    ensures { All (λ family. result ≤ family.root) families.now }
{
    families
        .iter()
        .map(|family| family.root().number())
        .min()
        .unwrap_or(ROOT_END)
}

// Sorts `families` by root key.
pub(crate) fn sorted(mut families: Vec<Family>) -> Vec<Family>
    ensures permutation { IsPermutation families.items result.items }
    ensures sorted { IsNonDecreasingBy (λ family. family.root) result.items }
{
    families.sort_unstable_by_key(Family::root);
    families
}
