// Numbers in rising order, found by binary search.
ghost use Rattle.std.specs.Prelude.{◌≡◌, ℕ, false, nat_le, nat_lt, not, ◌==◌, ◌&&◌, ◌||◌, [], find, OnOk, OnErr};
ghost use Rattle.std.specs.List.{position_or_len};
ghost use Rattle.std.specs.List.Sorted.{IsStrictlySortedBy};
ghost use Rattle.std.specs.Ordering.{nat_cmp};
ghost use Rattle.sq_exec.specs.Index.{is_among};

use std::alloc::{AllocError, Global};
use std::collections::VecDeque;
use std::marker::Model;

/// Numbers in rising order. To a contract they are the list.
#[derive(Debug, Drop)]
pub(crate) struct Numbers {
    list: VecDeque<u64>,
}

impl Model for Numbers {
    ghost use Rattle.std.specs.Prelude.{ℕ, List};
    ghost use Rattle.std.specs.List.Sorted.{IsStrictlySortedBy};
    ghost use Rattle.std.specs.Ordering.{nat_cmp};

    ghost Value = { List ℕ };

    ghost view = { λ n. n.list.items };

    ghost invariant = { λ n. IsStrictlySortedBy nat_cmp n.list.items };
}

impl Numbers {
    /// Creates an empty list.
    pub(crate) fn new(alloc: Global) -> Numbers
        ensures { result ≡ [] }
    {
        Numbers {
            list: VecDeque::new(alloc),
        }
    }

    /// Returns true if `number` is in the list.
    pub(crate) fn has(&self, number: u64) -> bool
        ensures { result ≡ is_among self.now number }
    {
        match self.list.get(place_in(&self.list, number)) {
            Some(first) => number == *first,
            None => false,
        }
    }

    /// Returns the first number that is `from` or more; `None` if there is none.
    pub(crate) fn first_from(&self, from: u64) -> Option<u64>
        ensures first { result ≡ find (λ n. nat_le from n) self.now }
        ensures rise { IsStrictlySortedBy nat_cmp self.now }
    {
        match self.list.get(place_in(&self.list, from)) {
            Some(first) => Some(*first),
            None => None,
        }
    }

    /// Adds `number`. If memory runs out, nothing changes.
    pub(crate) fn put(&mut self, number: u64) -> Result<(), AllocError>
        ensures ok { OnOk result ((n : ℕ) → is_among self.new n
            ≡ ((n == number) || is_among self.old n)) }
        ensures err { OnErr result (self.new ≡ self.old) }
    {
        if self.has(number) {
            return Ok(());
        }
        insert(&mut self.list, number)
    }

    /// Removes `number`, if it is there.
    pub(crate) fn remove(&mut self, number: u64)
        ensures { (n : ℕ) → is_among self.new n ≡ (is_among self.old n && not (n == number)) }
    {
        let at = place_in(&self.list, number);
        let Some(first) = self.list.get(at) else {
            return;
        };
        if *first != number {
            return;
        }
        if at == 0 {
            self.list.pop_front();
            return;
        }
        self.list.remove(at);
    }

    /// Removes all numbers.
    pub(crate) fn clear(&mut self)
        ensures { self.new ≡ [] }
    {
        self.list.clear();
    }
}

// Counts the numbers below `number`.
fn place_in(list: &VecDeque<u64>, number: u64) -> usize
    requires { IsStrictlySortedBy nat_cmp list.now.items }
    ensures { result ≡ position_or_len (λ n. nat_le number n) list.now.items }
{
    let Some(last) = list.back() else {
        return 0;
    };
    if *last < number {
        return list.len();
    }
    let Some(first) = list.front() else {
        return 0;
    };
    if number <= *first {
        return 0;
    }
    list.partition_point(
        |other: &u64| -> bool
            ensures { result ≡ nat_lt other.now number }
        { *other < number },
    )
}

// Inserts `number`, which isn't there yet. If memory runs out, nothing changes.
fn insert(list: &mut VecDeque<u64>, number: u64) -> Result<(), AllocError>
    requires rise { IsStrictlySortedBy nat_cmp list.old.items }
    requires new { is_among list.old.items number ≡ false }
    ensures rise { IsStrictlySortedBy nat_cmp list.new.items }
    ensures ok { OnOk result ((n : ℕ) → is_among list.new.items n
        ≡ ((n == number) || is_among list.old.items n)) }
    ensures err { OnErr result (list.new.items ≡ list.old.items) }
{
    let at = place_in(list, number);
    match list.insert(at, number) {
        Ok(()) => Ok(()),
        Err(_) => Err(AllocError),
    }
}
