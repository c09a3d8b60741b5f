// Transactions that are numbered as they arrive, in slots.
ghost use Rattle.std.specs.Prelude.{◌≡◌, ◌∷◌, ◌++◌, ◌+◌, ◌<◌, ℕ, nat_le, nat_lt, [], length, find, is_some, option_copied, option_map, OnOk, OnErr, IfErr};
ghost use Rattle.std.specs.List.{position_or_len};
ghost use Rattle.std.specs.List.Sorted.{IsStrictlySortedBy};
ghost use Rattle.std.specs.Ordering.{nat_cmp};
ghost use Rattle.std.specs.Map.{remove_entry};
ghost use Rattle.std.specs.BTreeMap.{is_at};
ghost use Rattle.sq_schema.specs.Prelude.{TxnValue};
ghost use Rattle.sq_exec.specs.Waiting.{no_number};
ghost use Rattle.sq_exec.specs.Slots.{SlotsValue, AreRising, slot_entries, numbers_in, value_at};

use sq_schema::Txn;
use std::alloc::{AllocFailed, Global};
use std::collections::VecDeque;
use std::marker::Model;

/// Transactions that are numbered as they arrive. To a contract they are a `SlotsValue`.
#[derive(Debug, Drop)]
pub(crate) struct Slots {
    slots: VecDeque<Slot>,
    filled: usize,
    next: u64,
}

// The most slots that are kept even if they are empty.
const FEW: usize = 32;

// A number, and its transaction until that is removed.
#[derive(Debug, Drop)]
struct Slot {
    number: u64,
    txn: Option<Txn>,
}

impl Model for Slots {
    ghost use Rattle.sq_exec.specs.Slots.{SlotsValue, slot_entries, AreSlots};

    ghost Value = { SlotsValue };

    ghost view = { λ s. record { entries = slot_entries s.slots.items; next = s.next } };

    ghost invariant = { λ s. AreSlots s.slots.items s.filled s.next };
}

impl Slots {
    /// Creates an empty list; the first transaction gets the number `next`.
    pub(crate) fn new(alloc: Global, next: u64) -> Slots
        ensures { result ≡ record { entries = []; next = next } }
    {
        Slots {
            slots: VecDeque::new(alloc),
            filled: 0,
            next,
        }
    }

    /// Returns the number of transactions.
    pub(crate) fn len(&self) -> usize
        ensures count { result ≡ length self.now.entries }
        ensures small { result < no_number }
    {
        self.filled
    }

    /// Returns the number that the next transaction gets.
    pub(crate) fn next(&self) -> u64
        ensures { result ≡ self.now.next }
    {
        self.next
    }

    /// Returns the transaction with this `number`; `None` if there is none.
    pub(crate) fn get(&self, number: u64) -> Option<&Txn>
        ensures { option_copied result ≡ value_at self.now.entries number }
    {
        let Some(slot) = self.slots.get(place_in(&self.slots, number)) else {
            return None;
        };
        if slot.number != number {
            return None;
        }
        slot.txn.as_ref()
    }

    /// Returns the first transaction whose number is `from` or more, with its number; `None` if
    /// there is none.
    pub(crate) fn first_from(&self, from: u64) -> Option<(u64, &Txn)>
        ensures { option_map {U = ℕ × TxnValue} (λ found. (found.0, found.1.now)) result
            ≡ find (λ entry. nat_le from entry.0) self.now.entries }
    {
        let mut at = place_in(&self.slots, from);
        while let Some(slot) = self.slots.get(at) {
            if let Some(txn) = &slot.txn {
                return Some((slot.number, txn));
            }
            at += 1;
        }
        None
    }

    /// Adds `txn` under the next number. If memory runs out, nothing changes and `txn` is returned.
    pub(crate) fn push(&mut self, txn: Txn) -> Result<(), AllocFailed<Txn>>
        requires { self.old.next < no_number }
        ensures ok { OnOk result (self.new ≡ record {
          entries = self.old.entries ++ (self.old.next, txn) ∷ [];
          next = self.old.next + 1;
        }) }
        ensures err { OnErr result (self.new ≡ self.old) }
        ensures txn_returned { IfErr result (λ refused. refused.value ≡ txn) }
    {
        let slot = Slot {
            number: self.next,
            txn: Some(txn),
        };
        match self.slots.push_back(slot) {
            Ok(()) => {
                self.filled += 1;
                self.next += 1;
                Ok(())
            }
            Err(refused) => {
                let Some(txn) = refused.value.txn else {
                    unreachable!()
                };
                Err(AllocFailed { value: txn })
            }
        }
    }

    /// Removes the transaction with this `number` and returns it; `None` if there is none.
    pub(crate) fn remove(&mut self, number: u64) -> Option<Txn>
        ensures txn { result ≡ value_at self.old.entries number }
        ensures rest { self.new ≡ record self.old {
          entries = remove_entry (is_at (nat_cmp number)) self.old.entries;
        } }
    {
        let txn = empty(&mut self.slots, number)?;
        self.filled -= 1;
        drop_front(&mut self.slots);
        drop_empty(&mut self.slots, self.filled);
        Some(txn)
    }
}

// Counts the slots whose number is below `number`.
fn place_in(slots: &VecDeque<Slot>, number: u64) -> usize
    requires { IsStrictlySortedBy nat_cmp (numbers_in slots.now.items) }
    ensures { result ≡ position_or_len (λ slot. nat_le number slot.number) slots.now.items }
{
    let Some(first) = slots.front() else {
        return 0;
    };
    if number <= first.number {
        return 0;
    }
    // This is its place if no slot before it was dropped.
    let guess = (number - first.number) as usize;
    if let Some(slot) = slots.get(guess) {
        if slot.number == number {
            return guess;
        }
    }
    slots.partition_point(
        |slot: &Slot| -> bool
            ensures { result ≡ nat_lt slot.now.number number }
        { slot.number < number },
    )
}

// Takes the transaction with this `number` out of its slot.
fn empty(slots: &mut VecDeque<Slot>, number: u64) -> Option<Txn>
    requires { IsStrictlySortedBy nat_cmp (numbers_in slots.old.items) }
    ensures txn { result ≡ value_at (slot_entries slots.old.items) number }
    ensures rest { slot_entries slots.new.items
        ≡ remove_entry (is_at (nat_cmp number)) (slot_entries slots.old.items) }
    ensures numbers { numbers_in slots.new.items ≡ numbers_in slots.old.items }
{
    let at = place_in(slots, number);
    if at == slots.len() {
        return None;
    }
    if slots[at].number != number {
        return None;
    }
    slots[at].txn.take()
}

// Drops the empty slots at the front.
fn drop_front(slots: &mut VecDeque<Slot>)
    ensures entries { slot_entries slots.new.items ≡ slot_entries slots.old.items }
    ensures rise { (next : ℕ) → AreRising next slots.old.items → AreRising next slots.new.items }
{
    while let Some(slot) = slots.front() {
        if slot.txn.is_some() {
            return;
        }
        slots.pop_front();
    }
}

// Drops all empty slots if there are many slots and fewer than half are filled.
fn drop_empty(slots: &mut VecDeque<Slot>, filled: usize)
    ensures entries { slot_entries slots.new.items ≡ slot_entries slots.old.items }
    ensures rise { (next : ℕ) → AreRising next slots.old.items → AreRising next slots.new.items }
{
    if slots.len() <= FEW || filled >= slots.len() / 2 {
        return;
    }
    slots.retain(
        |slot: &Slot| -> bool
            ensures { result ≡ is_some slot.now.txn }
        { slot.txn.is_some() },
    );
}
