// The families of one run.
ghost use Rattle.std.specs.Prelude.{◌≡◌, ◌+◌, ◌-◌, ◌++◌, ◌<◌, ◌≤◌, ◌↔◌, ℕ, [], length, take, drop, get_or, slice_range, vec_len, vec_capacity, None, IfOk, IfErr, OnOk, OnErr, IsErrOf, IsTrue};
ghost use Rattle.std.specs.FinMap.{get, insert as insert_at_key};
ghost use Rattle.sq_schema.specs.Prelude.{FamilyValue};
ghost use Rattle.sq_schema.specs.declared.family.TheConstants.{MAX_LOG};
ghost use Rattle.sq_store.specs.StoreValue.{log_length, store_reply, store_after};
ghost use Rattle.sq_store.specs.InOrder.{are_within, AreKeyed};
ghost use Rattle.sq_store.specs.Listed.{roots_rise, store_of, IsRootAt};
ghost use Rattle.sq_store.specs.Runs.{between as families_between, outside};

use crate::sorted::{put_last, start};
use sq_schema::{ApplyFault, Family, Reply, Root, Txn};
use std::alloc::AllocError;
use std::mem;

// Inserts `family`. If memory runs out, it is returned.
pub(crate) fn insert(families: &mut Vec<Family>, family: Family) -> Result<(), Family>
    requires rise { IsTrue (roots_rise families.old.items) }
    requires absent { get (store_of families.old.items) family.root ≡ None }
    ensures ok { OnOk result (store_of families.new.items
        ≡ insert_at_key (store_of families.old.items) family.root family) }
    ensures within { (lo hi : ℕ) → IsTrue (are_within lo hi families.old.items)
        → lo ≤ family.root → family.root < hi → IsTrue (are_within lo hi families.new.items) }
    ensures family_returned { IfErr result (λ back. back ≡ family) }
    ensures err { OnErr result (families.new.items ≡ families.old.items) }
{
    if families.reserve(1).is_err() {
        return Err(family);
    }
    let at = start(families, family.root().number());
    let Ok(()) = families.insert(at, family) else {
        unreachable!()
    };
    Ok(())
}

// Runs `txn` on the family of its root key, which is at `at`.
pub(crate) fn apply(families: &mut Vec<Family>, at: usize, txn: &Txn) -> Result<Reply, ApplyFault>
    requires rise { IsTrue (roots_rise families.old.items) }
    requires here { IsRootAt families.old.items txn.now.root at }
    ensures full { IsErrOf result ApplyFault.LogFull
        ↔ (MAX_LOG ≤ log_length (store_of families.old.items) txn.now.root) }
    ensures reply { IfOk result (λ reply.
        reply ≡ store_reply (store_of families.old.items) txn.now) }
    ensures families { IfOk result (λ reply. store_of families.new.items
        ≡ store_after (store_of families.old.items) txn.now reply) }
    ensures within { (lo hi : ℕ) → IsTrue (are_within lo hi families.old.items)
        → IsTrue (are_within lo hi families.new.items) }
    ensures err { OnErr result (families.new.items ≡ families.old.items) }
{
    families[at].apply(txn)
}

// Returns the families with root keys from `lo` on and below `hi`.
pub(crate) fn between(families: &[Family], lo: u64, hi: u64) -> &[Family]
    requires bounds { lo ≤ hi }
    requires rise { IsTrue (roots_rise families.now) }
    ensures { result.now ≡ families_between lo hi families.now }
{
    let first = start(families, lo);
    let last = start(families, hi);
    &families[first..last]
}

// Moves the families from `lo` on and below `hi` to the end of `taken`, which has room for them.
pub(crate) fn take_between(families: &mut Vec<Family>, lo: u64, hi: u64, taken: &mut Vec<Family>)
    requires bounds { lo ≤ hi }
    requires rise { IsTrue (roots_rise families.old.items) }
    requires room { vec_len taken.old + length (families_between lo hi families.old.items)
        ≤ vec_capacity taken.old }
    ensures taken { taken.new.items
        ≡ taken.old.items ++ families_between lo hi families.old.items }
    ensures left { families.new.items ≡ outside lo hi families.old.items }
    ensures freed { families.new.items ≡ [] → vec_capacity families.new ≡ 0 }
    ensures capacity { vec_capacity taken.old ≤ vec_capacity taken.new }
    ensures keyed { AreKeyed taken.old.items → AreKeyed taken.new.items }
{
    let first = start(families, lo);
    let last = start(families, hi);
    move_range(families, first, last, taken);
}

// Moves the families from place `first` on and before `last` to the end of `taken`, which has room
// for them. If these are all, their memory is freed.
fn move_range(families: &mut Vec<Family>, first: usize, last: usize, taken: &mut Vec<Family>)
    requires rise { first ≤ last }
    requires within { last ≤ vec_len families.old }
    requires room { vec_len taken.old + (last - first) ≤ vec_capacity taken.old }
    ensures taken { taken.new.items
        ≡ taken.old.items ++ slice_range families.old.items first last }
    ensures left { families.new.items
        ≡ take first families.old.items ++ drop last families.old.items }
    ensures freed { families.new.items ≡ [] → vec_capacity families.new ≡ 0 }
    ensures capacity { vec_capacity taken.old ≤ vec_capacity taken.new }
    ensures keyed { AreKeyed taken.old.items → AreKeyed taken.new.items }
{
    if last - first == families.len() {
        move_all(families, taken);
    } else {
        move_some(families, first, last, taken);
    }
}

// Moves all families to the end of `taken`, which has room for them, and frees their memory.
fn move_all(families: &mut Vec<Family>, taken: &mut Vec<Family>)
    requires { vec_len taken.old + vec_len families.old ≤ vec_capacity taken.old }
    ensures taken { taken.new.items ≡ taken.old.items ++ families.old.items }
    ensures left { families.new.items ≡ [] }
    ensures freed { vec_capacity families.new ≡ 0 }
    ensures capacity { vec_capacity taken.old ≤ vec_capacity taken.new }
    ensures keyed { AreKeyed taken.old.items → AreKeyed taken.new.items }
{
    are_keyed(families);
    let Ok(()) = taken.append(families) else {
        unreachable!()
    };
    *families = Vec::new(*families.allocator());
}

// Called for what it ensures: each family's log has its own root key.
fn are_keyed(families: &[Family])
    ensures { AreKeyed families.now }
{
    for family in families {
        let _ = family.position();
    }
}

// Moves the families from place `first` on and before `last`, one by one.
fn move_some(families: &mut Vec<Family>, first: usize, last: usize, taken: &mut Vec<Family>)
    requires rise { first ≤ last }
    requires within { last ≤ vec_len families.old }
    requires room { vec_len taken.old + (last - first) ≤ vec_capacity taken.old }
    ensures taken { taken.new.items
        ≡ taken.old.items ++ slice_range families.old.items first last }
    ensures left { families.new.items
        ≡ take first families.old.items ++ drop last families.old.items }
    ensures capacity { vec_capacity taken.old ≤ vec_capacity taken.new }
    ensures keyed { AreKeyed taken.old.items → AreKeyed taken.new.items }
{
    for family in families.drain(first..last) {
        put_last(taken, family);
    }
}

// Cuts off the families from `place` on and returns them, with the first of their root keys. If
// memory runs out, nothing changes.
pub(crate) fn cut_off(
    families: &mut Vec<Family>,
    place: usize,
) -> Result<(Root, Vec<Family>), AllocError>
    requires { place < vec_len families.old }
    ensures first { (d : FamilyValue)
        → IfOk result (λ cut. cut.0 ≡ (get_or families.old.items place d).root) }
    ensures cut { IfOk result (λ cut. cut.1.items ≡ drop place families.old.items) }
    ensures left { OnOk result (families.new.items ≡ take place families.old.items) }
    ensures err { OnErr result (families.new.items ≡ families.old.items) }
{
    let root = families[place].root();
    let back = families.split_off(place)?;
    Ok((root, back))
}

// Takes out the families from `lo` on and below `hi`. If memory runs out, nothing changes.
pub(crate) fn detach(
    families: &mut Vec<Family>,
    lo: u64,
    hi: u64,
) -> Result<Vec<Family>, AllocError>
    requires bounds { lo ≤ hi }
    requires rise { IsTrue (roots_rise families.old.items) }
    ensures taken { IfOk result (λ taken.
        taken.items ≡ families_between lo hi families.old.items) }
    ensures left { OnOk result (families.new.items ≡ outside lo hi families.old.items) }
    ensures keyed { IfOk result (λ taken. AreKeyed taken.items) }
    ensures err { OnErr result (families.new.items ≡ families.old.items) }
{
    let first = start(families, lo);
    let last = start(families, hi);
    let taken = cut_out(families, first, last)?;
    are_keyed(&taken);
    Ok(taken)
}

// Takes out the families from place `first` on and before `last`. If memory runs out, nothing
// changes.
fn cut_out(families: &mut Vec<Family>, first: usize, last: usize) -> Result<Vec<Family>, AllocError>
    requires rise { first ≤ last }
    requires within { last ≤ vec_len families.old }
    ensures taken { IfOk result (λ taken.
        taken.items ≡ slice_range families.old.items first last) }
    ensures left { OnOk result (families.new.items
        ≡ take first families.old.items ++ drop last families.old.items) }
    ensures err { OnErr result (families.new.items ≡ families.old.items) }
{
    let mut behind = families.split_off(last)?;
    if first == 0 {
        mem::swap(families, &mut behind);
        return Ok(behind);
    }
    let taken = families.split_off(first);
    let Ok(()) = families.append(&mut behind) else {
        unreachable!()
    };
    taken
}
