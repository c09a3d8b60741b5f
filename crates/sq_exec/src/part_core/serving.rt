// Transactions at a partition.
ghost use Rattle.std.specs.Prelude.{◌≡◌, ◌||◌, true, false, length, Some, option_map, unwrap_or, IfOk, IfErr, OnOk, OnErr, IsErrOf, ◌↔◌, MatchResult, IsTrue};
ghost use Rattle.std.specs.List.Sorted.{IsStrictlyIncreasing};
ghost use Rattle.sq_store.specs.Prelude.{log_length};
ghost use Rattle.sq_exec.specs.Location.{location, is_coming_here, is_coming_from, route, route_from, waits_for};
ghost use Rattle.sq_exec.specs.Serving.{is_stuck, is_at_end, served, must_wait, submit_refusal, submit_takes_memory, is_ready_here, stays_by, graver, first_ready_here, resume_refusal, resume_takes_memory, IsMadeToWait, IsTaken, IsResumed};
ghost use Rattle.sq_exec.specs.Numbering.{numbered, arrival_number, IsFirstReady, TakesNumber};

use crate::fault::{ResumeFault, SubmitFault};
use crate::location::Location;
use crate::outcome::{Outcome, Resumed};
use crate::part_core::PartCore;
use crate::run::is_loaded;
use sq_moves::MAX_WAITING;
use sq_plan::PartId;
use sq_schema::{ApplyFault, MAX_LOG, Root, Txn};
use sq_store::FamilyStore;

impl<S: FamilyStore> PartCore<S> {
    /// Submits `txn`. It waits if a transaction on its root key waits already, or if its rows are
    /// coming here and aren't loaded yet: refused with [`SubmitFault::WaitFull`] if [`MAX_WAITING`]
    /// wait. Otherwise it runs if its root key is here, refused with [`SubmitFault::LogFull`] if
    /// the log of the key is full; if the key isn't here, `txn` is forwarded. A refusal changes
    /// nothing.
    pub fn submit(&mut self, txn: &Txn) -> Result<Outcome, SubmitFault>
        ensures refused { MatchResult result
            (λ _. submit_refusal self.old.core txn.now ≡ None)
            (λ fault. fault ≡ unwrap_or (submit_refusal self.old.core txn.now) SubmitFault.Memory) }
        ensures memory { result ≡ Err SubmitFault.Memory
            → IsTrue (submit_takes_memory self.old.core txn.now) }
        ensures ok { IfOk result (λ outcome. IsTaken
            (must_wait self.old.core txn.now.root) self.old.core txn.now outcome self.new.core) }
        ensures err { OnErr result (self.new.core ≡ self.old.core) }
        ensures numbered { IfOk result (λ outcome. self.new.numbering
            ≡ numbered outcome self.old.numbering) }
        ensures same_numbers { OnErr result (self.new.numbering ≡ self.old.numbering) }
        ensures room { self.new.has_room ≡ self.old.has_room }
    {
        let root = txn.root();
        let found = self.location(root);
        if self.is_coming(&found) || self.waits_for(root) {
            return self.wait(txn, &found);
        }
        let who = self.route(root, &found);
        if self.refuses(root, who) {
            return Err(SubmitFault::LogFull);
        }
        match serve(&mut self.store, self.part, who, txn) {
            Ok(outcome) => Ok(outcome),
            Err(ApplyFault::LogFull) => Err(SubmitFault::LogFull),
            Err(ApplyFault::Memory) => Err(SubmitFault::Memory),
        }
    }

    /// Resumes the first waiting transaction whose rows aren't still to come here and, if it runs
    /// here, whose root key has a log that isn't full. Refused with [`ResumeFault::NoneReady`] if
    /// the rows of all are still to come, and with [`ResumeFault::LogFull`] if the logs of all
    /// others are full. A refusal changes nothing.
    pub fn resume(&mut self) -> Result<Resumed, ResumeFault>
        ensures refused { MatchResult result
            (λ _. resume_refusal self.old.core ≡ None)
            (λ fault. fault ≡ unwrap_or (resume_refusal self.old.core) ResumeFault.Memory) }
        ensures memory { result ≡ Err ResumeFault.Memory
            → IsTrue (resume_takes_memory self.old.core) }
        ensures ok { IfOk result (λ resumed. IsResumed self.old.core resumed self.new.core) }
        ensures err { OnErr result (self.new.core ≡ self.old.core) }
        ensures number { OnOk result (TakesNumber self.old self.new) }
        ensures same_numbers { OnErr result (self.new.numbering ≡ self.old.numbering) }
        ensures room { self.new.has_room ≡ self.old.has_room }
    {
        let (number, who) = self.first_ready()?;
        let Ok(outcome) = serve(&mut self.store, self.part, who, self.waiting.txn(number)) else {
            return Err(ResumeFault::Memory);
        };
        let txn = self.waiting.remove(number);
        Ok(Resumed { txn, outcome })
    }

    /// Returns the least arrival number of the transactions that wait for `root`; `None` if none
    /// waits. Arrival numbers rise in the order of arrival.
    pub fn arrival(&self, root: Root) -> Option<u64>
        ensures number { result ≡ arrival_number self.now root }
        ensures rises { IsStrictlyIncreasing self.now.numbering.numbers }
        ensures each { length self.now.numbering.numbers ≡ length self.now.core.waiting }
    {
        self.waiting.arrival(root)
    }

    /// Returns the length of the log of `root`: how many transactions on it committed, here and
    /// where it came from, since the log was last folded. 0 if `root` has no family here.
    pub fn position(&self, root: Root) -> u64
        ensures { result ≡ log_length self.now.core.store root }
    {
        match self.store.get(root) {
            Some(family) => family.position(),
            None => 0,
        }
    }

    // Returns the location of `root`, if it moves.
    fn location(&self, root: Root) -> Option<Location>
        ensures { result ≡ location self.now.core root }
    {
        let (seg, leaf) = self.recon.find(root)?;
        let at = seg.number() as usize;
        let segment = self.recon.segments()[at];
        Some(Location {
            seg,
            leaf,
            src: segment.src,
            dst: segment.dst,
            stage: self.recon.stage_of(seg),
            given_up: self.given_up[at].has(leaf),
            loaded: is_loaded(&self.loaded[at], root),
        })
    }

    // Returns true if a root key at `found` is coming here and isn't loaded yet.
    fn is_coming(&self, found: &Option<Location>) -> bool
        ensures { result ≡ is_coming_from self.now.core found.now }
    {
        match found {
            Some(at) => self.started && at.stage == self.stage && at.dst == self.part && !at.loaded,
            None => false,
        }
    }

    // Returns the partition that transactions on `root` go to, as far as this partition can know.
    fn route(&self, root: Root, found: &Option<Location>) -> PartId
        ensures { result ≡ route_from self.now.core root found.now }
    {
        let Some(at) = found else {
            return self.plan.owner(root);
        };
        if at.stage < self.stage {
            return at.dst;
        }
        let has_left = at.src == self.part && at.given_up;
        let has_come = at.src != self.part && at.dst == self.part && at.loaded;
        if has_left || has_come { at.dst } else { at.src }
    }

    // Returns true if transactions on `root`, which go to `who`, would run here on a log that is
    // full.
    fn is_stuck(&self, root: Root, who: PartId) -> bool
        requires { who ≡ route self.now.core root }
        ensures { result ≡ is_stuck self.now.core root }
    {
        who == self.part && self.position(root) >= self.log_limit
    }

    // Returns the same, or false if the limit is the greatest: then the store itself refuses, and
    // the log is looked for once.
    fn refuses(&self, root: Root, who: PartId) -> bool
        requires { who ≡ route self.now.core root }
        ensures { is_stuck self.now.core root
            ≡ (result || is_at_end self.now.core.part who self.now.core.store root) }
    {
        if self.log_limit == MAX_LOG {
            return false;
        }
        self.is_stuck(root, who)
    }

    // Returns true if a transaction on `root` waits.
    fn waits_for(&self, root: Root) -> bool
        ensures { result ≡ waits_for self.now.core root }
    {
        self.waiting.waits_for(root)
    }

    // Lets `txn` wait after all others.
    fn wait(&mut self, txn: &Txn, found: &Option<Location>) -> Result<Outcome, SubmitFault>
        requires waits { must_wait self.old.core txn.now.root ≡ true }
        requires located { found.now ≡ location self.old.core txn.now.root }
        ensures refused { MatchResult result
            (λ _. submit_refusal self.old.core txn.now ≡ None)
            (λ fault. fault ≡ unwrap_or (submit_refusal self.old.core txn.now) SubmitFault.Memory) }
        ensures ok { IfOk result
            (λ outcome. IsMadeToWait self.old.core txn.now outcome self.new.core) }
        ensures err { OnErr result (self.new.core ≡ self.old.core) }
        ensures numbered { IfOk result (λ outcome. self.new.numbering
            ≡ numbered outcome self.old.numbering) }
        ensures same_numbers { OnErr result (self.new.numbering ≡ self.old.numbering) }
        ensures room { self.new.has_room ≡ self.old.has_room }
    {
        if self.waiting.len() >= MAX_WAITING {
            return Err(SubmitFault::WaitFull);
        }
        let Some(at) = found else { unreachable!() };
        let Ok(entry) = txn.clone() else {
            return Err(SubmitFault::Memory);
        };
        let is_due = !self.is_coming(found);
        let Ok(()) = self.waiting.push(entry, is_due) else {
            return Err(SubmitFault::Memory);
        };
        Ok(Outcome::Waits(at.seg, at.leaf))
    }

    // Returns where a waiting transaction goes, or why it has to stay.
    fn destination(&self, txn: &Txn) -> Result<PartId, ResumeFault>
        ensures ready { IfOk result (λ _. is_ready_here self.now.core txn.now ≡ true) }
        ensures goes { IfOk result (λ who. who ≡ route self.now.core txn.now.root) }
        ensures stays { IfErr result (λ _. is_ready_here self.now.core txn.now ≡ false) }
        ensures why { IfErr result (λ fault. fault
            ≡ stays_by (is_coming_here self.now.core txn.now.root)) }
    {
        let root = txn.root();
        let found = self.location(root);
        if self.is_coming(&found) {
            return Err(ResumeFault::NoneReady);
        }
        let who = self.route(root, &found);
        if self.is_stuck(root, who) {
            return Err(ResumeFault::LogFull);
        }
        Ok(who)
    }

    // Returns the arrival number of the first waiting transaction that can go, and where it goes;
    // or why all have to stay.
    fn first_ready(&self) -> Result<(u64, PartId), ResumeFault>
        ensures ok { IfOk result (λ ready. IsFirstReady self.now ready.0) }
        ensures goes { IfOk result (λ ready. option_map (λ txn. route self.now.core txn.root)
            (first_ready_here self.now.core) ≡ Some ready.1) }
        ensures err { IfErr result (λ fault. Some fault ≡ resume_refusal self.now.core) }
    {
        let mut fault = ResumeFault::NoneReady;
        let mut from = 0;
        while let Some((number, txn)) = self.waiting.next_due(from) {
            match self.destination(txn) {
                Ok(who) => return Ok((number, who)),
                Err(other) => fault = graver(fault, other),
            }
            from = number + 1;
        }
        Err(fault)
    }
}

// Returns the graver of two reasons not to resume: a full log outweighs absent rows.
fn graver(fault: ResumeFault, other: ResumeFault) -> ResumeFault
    ensures { result ≡ graver fault other }
{
    match other {
        ResumeFault::NoneReady => fault,
        _ => other,
    }
}

// Serves at `here` a transaction that belongs to `who`: runs it if these are the same, and forwards
// it if not.
fn serve<S: FamilyStore>(
    store: &mut S,
    here: PartId,
    who: PartId,
    txn: &Txn,
) -> Result<Outcome, ApplyFault>
    ensures full { IsErrOf result ApplyFault.LogFull
        ↔ IsTrue (is_at_end here who (S.contents store.old) txn.now.root) }
    ensures runs { OnErr result (who ≡ here) }
    ensures outcome { IfOk result (λ outcome. outcome
        ≡ (served here who (S.contents store.old) txn.now).0) }
    ensures store { IfOk result (λ _. S.contents store.new
        ≡ (served here who (S.contents store.old) txn.now).1) }
    ensures err { OnErr result (S.contents store.new ≡ S.contents store.old) }
{
    if who == here {
        Ok(Outcome::Done(store.apply(txn)?))
    } else {
        Ok(Outcome::Moved(who))
    }
}
