// The index of waiting transactions by root key.
ghost use Rattle.std.specs.Prelude.{◌≡◌, ◌≤◌, ℕ, true, false, ◌||◌, ◌&&◌, not, IfOk, OnOk, OnErr};
ghost use Rattle.sq_exec.specs.Index.{has_entry, is_among, SetsEntry, HasSameEntries, FirstOf, AddsBetween, HasAllBetween, LackBetween};

use crate::entry::IndexEntry;
use crate::numbers::Numbers;
use std::alloc::{AllocError, Global};
use std::collections::BTreeSet;

/// Enters an arrival number under its root key and, if it is due, among the due ones. If memory
/// runs out, both stay as they were.
pub(crate) fn enter(
    by_root: &mut BTreeSet<IndexEntry>,
    due: &mut Numbers,
    root: u64,
    number: u64,
    is_due: bool,
) -> Result<(), AllocError>
    requires new { has_entry by_root.old root number ≡ false }
    requires not_due { is_among due.old number ≡ false }
    ensures ok { OnOk result (SetsEntry root number true is_due by_root.old due.old by_root.new
        due.new) }
    ensures err { OnErr result (HasSameEntries by_root.old due.old by_root.new due.new) }
{
    by_root.insert(IndexEntry { root, number })?;
    if !is_due {
        return Ok(());
    }
    match due.put(number) {
        Ok(()) => Ok(()),
        Err(_) => {
            by_root.remove(&IndexEntry { root, number });
            Err(AllocError)
        }
    }
}

/// Removes an arrival number.
pub(crate) fn strike(by_root: &mut BTreeSet<IndexEntry>, due: &mut Numbers, root: u64, number: u64)
    ensures { SetsEntry root number false false by_root.old due.old by_root.new due.new }
{
    by_root.remove(&IndexEntry { root, number });
    due.remove(number);
}

/// Returns the least arrival number of a root key; `None` if it has none.
pub(crate) fn first_of(by_root: &BTreeSet<IndexEntry>, root: u64) -> Option<u64>
    requires { root ≤ 4294967295 }
    ensures { FirstOf by_root.now root result }
{
    let first = IndexEntry { root, number: 0 };
    let end = IndexEntry {
        root: root + 1,
        number: 0,
    };
    let entry = by_root.range(first..end).next()?;
    Some(entry.number)
}

/// Adds the arrival numbers of all root keys from `lo` on and below `hi` to `numbers`. If memory
/// runs out, `numbers` are the same as before.
pub(crate) fn add_between(
    alloc: Global,
    by_root: &BTreeSet<IndexEntry>,
    lo: u64,
    hi: u64,
    numbers: &mut Numbers,
) -> Result<(), AllocError>
    ensures adds { AddsBetween by_root.now lo hi numbers.old numbers.new }
    ensures ok { OnOk result (HasAllBetween by_root.now lo hi numbers.new) }
    ensures err { OnErr result
        ((number : ℕ) → is_among numbers.new number ≡ is_among numbers.old number) }
{
    let mut lacking = lacking_between(alloc, by_root, lo, hi, numbers)?;
    // In rising order, each number above those already there is appended at the end.
    lacking.sort_unstable();
    add_all(numbers, &lacking)
}

// Returns the arrival numbers of all root keys from `lo` on and below `hi` that `numbers` lack.
fn lacking_between(
    alloc: Global,
    by_root: &BTreeSet<IndexEntry>,
    lo: u64,
    hi: u64,
    numbers: &Numbers,
) -> Result<Vec<u64>, AllocError>
    ensures { IfOk result (λ lacking. LackBetween by_root.now lo hi numbers.now lacking.items) }
{
    let mut lacking = Vec::new(alloc);
    if hi <= lo {
        return Ok(lacking);
    }
    let first = IndexEntry {
        root: lo,
        number: 0,
    };
    let end = IndexEntry {
        root: hi,
        number: 0,
    };
    for entry in by_root.range(first..end) {
        if numbers.has(entry.number) {
            continue;
        }
        lacking.push(entry.number)?;
    }
    Ok(lacking)
}

// Adds arrival numbers to `numbers`, which have none of them. If memory runs out, `numbers` are the
// same as before.
fn add_all(numbers: &mut Numbers, lacking: &[u64]) -> Result<(), AllocError>
    requires { (number : ℕ) → is_among lacking.now number ≡ true
        → is_among numbers.old number ≡ false }
    ensures ok { OnOk result ((number : ℕ) → is_among numbers.new number
        ≡ (is_among numbers.old number || is_among lacking.now number)) }
    ensures err { OnErr result
        ((number : ℕ) → is_among numbers.new number ≡ is_among numbers.old number) }
{
    for (at, number) in lacking.iter().enumerate() {
        if numbers.put(*number).is_err() {
            remove_all(numbers, &lacking[..at]);
            return Err(AllocError);
        }
    }
    Ok(())
}

// Removes arrival numbers from `numbers`.
fn remove_all(numbers: &mut Numbers, gone: &[u64])
    ensures { (number : ℕ) → is_among numbers.new number
        ≡ (is_among numbers.old number && not (is_among gone.now number)) }
{
    for number in gone {
        numbers.remove(*number);
    }
}
