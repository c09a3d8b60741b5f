// Waiting transactions by arrival number, with an index by root key and the numbers of those that
// are due.
ghost use Rattle.std.specs.Prelude.{◌≡◌, ◌==◌, ◌<◌, ℕ, true, [], Some, length, drop, find, slice_get, option_map, IsSome, IfSome, OnOk, OnErr, IfOk, IfErr};
ghost use Rattle.std.specs.List.{list_any};
ghost use Rattle.std.specs.List.Sorted.{IsStrictlyIncreasing};
ghost use Rattle.sq_schema.specs.Prelude.{TxnValue};
ghost use Rattle.sq_exec.specs.Index.{is_between};
ghost use Rattle.sq_exec.specs.Waiting.{WaitingValue, numbers_of, is_on, is_numbered, is_due_from, txn_at, without, numbered_anew, no_number, with_a_number_left, with_last, with_due};

use crate::entry::IndexEntry;
use crate::index::{add_between, enter, first_of, strike};
use crate::numbers::Numbers;
use crate::slots::Slots;
use sq_schema::{Root, Txn};
use std::alloc::{AllocError, AllocFailed, Global};
use std::collections::BTreeSet;
use std::marker::Model;

/// Waiting transactions, in their order of arrival. Each has an arrival number, and the numbers
/// rise in that order. Only due transactions are candidates to be resumed: all with numbers below a
/// bound are due, and others one by one. To a contract it is a `WaitingValue`.
#[derive(Debug, Drop)]
pub struct Waiting {
    alloc: Global,
    txns: Slots,
    by_root: BTreeSet<IndexEntry>,
    due_below: u64,
    due: Numbers,
}

impl Model for Waiting {
    ghost use Rattle.sq_exec.specs.Waiting.{WaitingValue};
    ghost use Rattle.sq_exec.specs.Indexed.{is_due_in, arrivals_of, IsIndexed};

    ghost Value = { WaitingValue };

    ghost view = { λ w. record {
      arrivals = arrivals_of w.txns.entries (is_due_in w.due_below w.due);
      next = w.txns.next;
    } };

    ghost invariant = { λ w. IsIndexed w.txns.entries w.by_root w.due w.due_below w.txns.next };
}

impl Waiting {
    /// Creates an empty list; the first transaction gets the arrival number `next`.
    pub fn new(alloc: Global, next: u64) -> Waiting
        ensures { result ≡ record { arrivals = []; next = next } }
    {
        Waiting {
            alloc,
            txns: Slots::new(alloc, next),
            by_root: BTreeSet::new(alloc),
            due_below: 0,
            due: Numbers::new(alloc),
        }
    }

    /// Returns the number of waiting transactions.
    pub fn len(&self) -> usize
        ensures { result ≡ length self.now.arrivals }
    {
        self.txns.len()
    }

    /// Returns true if no transaction waits.
    pub fn is_empty(&self) -> bool
        ensures { result ≡ (length self.now.arrivals == 0) }
    {
        self.len() == 0
    }

    /// Returns the arrival number of the first transaction that waits for `root`; `None` if none
    /// waits.
    pub fn arrival(&self, root: Root) -> Option<u64>
        ensures number { result ≡ option_map (λ a. a.number) (find (is_on root) self.now.arrivals) }
        ensures rises { IsStrictlyIncreasing (numbers_of self.now.arrivals) }
    {
        first_of(&self.by_root, root.number())
    }

    /// Returns true if a transaction waits for `root`.
    pub fn waits_for(&self, root: Root) -> bool
        ensures { result ≡ list_any (is_on root) self.now.arrivals }
    {
        !self.is_empty() && self.arrival(root).is_some()
    }

    /// Returns the first due transaction whose arrival number is `from` or more, with its number;
    /// `None` if there is none.
    pub fn next_due(&self, from: u64) -> Option<(u64, &Txn)>
        ensures due { option_map {U = ℕ × TxnValue} (λ found. (found.0, found.1.now)) result
            ≡ option_map {U = ℕ × TxnValue} (λ a. (a.number, a.txn))
            (find (is_due_from from) self.now.arrivals) }
        ensures below { IfSome result (λ found. found.0 < no_number) }
        ensures rises { IsStrictlyIncreasing (numbers_of self.now.arrivals) }
    {
        if from < self.due_below {
            let (first, txn) = self.txns.first_from(from)?;
            if first < self.due_below {
                return Some((first, txn));
            }
        }
        let number = self.due.first_from(from)?;
        match self.txns.get(number) {
            Some(txn) => Some((number, txn)),
            None => None,
        }
    }

    /// Returns the transaction with this arrival `number`.
    pub fn txn(&self, number: u64) -> &Txn
        requires { IsSome (txn_at self.now.arrivals number) }
        ensures txn { Some result.now ≡ txn_at self.now.arrivals number }
        ensures rises { IsStrictlyIncreasing (numbers_of self.now.arrivals) }
    {
        match self.txns.get(number) {
            Some(txn) => txn,
            None => unreachable!(),
        }
    }

    /// Removes the transaction with this arrival `number` and returns it. The others keep their
    /// numbers.
    pub fn remove(&mut self, number: u64) -> Txn
        requires { IsSome (txn_at self.old.arrivals number) }
        ensures txn { Some result ≡ txn_at self.old.arrivals number }
        ensures rest { self.new ≡ record self.old { arrivals = without number self.old.arrivals } }
    {
        let Some(txn) = self.txns.remove(number) else {
            unreachable!()
        };
        let root = txn.root().number();
        strike(&mut self.by_root, &mut self.due, root, number);
        txn
    }

    /// Adds `txn` after all others, with the next arrival number. If no number is left, all are
    /// first renumbered from 0. If memory runs out, nothing changes and `txn` is returned.
    pub fn push(&mut self, txn: Txn, is_due: bool) -> Result<(), AllocFailed<Txn>>
        ensures ok { OnOk result (self.new ≡ with_last (with_a_number_left self.old) txn is_due) }
        ensures err { OnErr result (self.new ≡ self.old) }
        ensures txn_returned { IfErr result (λ refused. refused.value ≡ txn) }
    {
        if self.txns.next() < u64::MAX {
            return self.add(txn, is_due);
        }
        let Ok(mut anew) = self.numbered_anew() else {
            return Err(AllocFailed { value: txn });
        };
        anew.add(txn, is_due)?;
        *self = anew;
        Ok(())
    }

    /// Makes all transactions due that wait for root keys from `lo` on and below `hi`. If memory
    /// runs out, nothing changes.
    pub fn make_due(&mut self, lo: u64, hi: u64) -> Result<(), AllocError>
        ensures ok { OnOk result (self.new ≡ with_due (λ a. is_between lo hi a.txn.root) self.old) }
        ensures err { OnErr result (self.new ≡ self.old) }
    {
        add_between(self.alloc, &self.by_root, lo, hi, &mut self.due)
    }

    /// Makes all transactions due. It takes no memory.
    pub fn make_all_due(&mut self)
        ensures { self.new ≡ with_due (λ _. true) self.old }
    {
        self.due_below = self.txns.next();
        // The bound now covers all of them.
        self.due.clear();
    }

    // Adds `txn` after all others, with the next arrival number.
    fn add(&mut self, txn: Txn, is_due: bool) -> Result<(), AllocFailed<Txn>>
        requires { self.old.next < no_number }
        ensures ok { OnOk result (self.new ≡ with_last self.old txn is_due) }
        ensures err { OnErr result (self.new ≡ self.old) }
        ensures txn_returned { IfErr result (λ refused. refused.value ≡ txn) }
    {
        let number = self.txns.next();
        let root = txn.root().number();
        if enter(&mut self.by_root, &mut self.due, root, number, is_due).is_err() {
            return Err(AllocFailed { value: txn });
        }
        match self.txns.push(txn) {
            Ok(()) => Ok(()),
            Err(refused) => {
                strike(&mut self.by_root, &mut self.due, root, number);
                Err(refused)
            }
        }
    }

    // Returns the same transactions with arrival numbers from 0 on.
    fn numbered_anew(&self) -> Result<Waiting, AllocError>
        ensures anew { IfOk result (λ anew. anew ≡ numbered_anew self.now) }
        ensures left { IfOk result (λ anew. anew.next < no_number) }
    {
        // Called for what it ensures: there are fewer transactions than numbers.
        let _ = self.txns.len();
        let mut anew = Waiting::new(self.alloc, 0);
        let mut from = 0;
        while let Some((number, txn)) = self.txns.first_from(from) {
            let is_due = number < self.due_below || self.due.has(number);
            anew.add(txn.clone()?, is_due)?;
            from = number + 1;
        }
        Ok(anew)
    }
}
