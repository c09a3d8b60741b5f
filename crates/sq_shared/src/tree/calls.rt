// Steps on one node.
ghost use Rattle.std.specs.Prelude.{◌≡◌, ◌≢◌, ◌+◌, ◌≤◌, true, false, IsTrue, MatchBool, MatchResult};
ghost use Rattle.sq_moves.specs.Prelude.{is_leaf, before};
ghost use Rattle.sq_moves.specs.declared.status.Status.TheVariants.{Free, Split, Claimed, Partial, Complete};
ghost use Rattle.sq_shared.specs.View.{entries};
ghost use Rattle.sq_shared.specs.Plays.{MayBring, Found, Won};
ghost use Rattle.sq_shared.specs.Calls.{FoundLive, FoundNotLive, WonLive, SplitRefused, ClaimRefused, BeginRefused, CompleteRefused};
ghost use Rattle.sq_shared.specs.Seat.{IsSameSeat};

use super::{StatusTree, TreeSeat};
use crate::rule::{Advance, Look};
use sq_moves::{BeginFault, ClaimFault, CompleteFault, NodeId, SplitFault, Status};

impl StatusTree {
    /// Returns the status of `node`.
    pub fn look(&self, seat: &mut TreeSeat, node: NodeId) -> Status
        requires tree { seat.old.tree ≡ self.now }
        ensures seat { IsSameSeat seat.old seat.new }
        ensures found { Found seat.old.view node result seat.new.view }
    {
        let word = self.table.shared.load::<Look>(&mut seat.seat, node.index());
        Status::from_word(word)
    }

    // Brings `node` from status `old` to the next one, `new`, or returns the status that it found
    // there.
    pub(super) fn advance(
        &self,
        seat: &mut TreeSeat,
        node: NodeId,
        old: Status,
        new: Status,
    ) -> Result<(), Status>
        requires tree { seat.old.tree ≡ self.now }
        requires step { (old ≡ before new) × MayBring seat.old.view node new }
        ensures seat { IsSameSeat seat.old seat.new }
        ensures step { MatchResult result
            (λ _. Won seat.old.view node new seat.new.view)
            (λ found. (found ≢ old) × Found seat.old.view node found seat.new.view) }
    {
        let at = node.index();
        let expected = old.word();
        let shared = &self.table.shared;
        let found = shared.compare_exchange::<Advance>(&mut seat.seat, at, expected, new.word());
        if found != expected {
            return Err(Status::from_word(found));
        }
        Ok(())
    }

    // Returns true if `node` is live: it is node 1, or its parent is found split.
    fn finds_live(&self, seat: &mut TreeSeat, node: NodeId) -> bool
        requires tree { seat.old.tree ≡ self.now }
        ensures seat { IsSameSeat seat.old seat.new }
        ensures found { MatchBool result
            (FoundLive seat.old.view node seat.new.view)
            (FoundNotLive seat.old.view node seat.new.view) }
    {
        node == NodeId::WHOLE || self.look(seat, node.parent()).is_split()
    }

    /// Splits a free node, in at most two steps: a look at the parent, and one exchange.
    ///
    /// It fails, in this order, if the node is a leaf, if the parent isn't split, and if the node
    /// isn't free. At a leaf it looks at nothing.
    pub fn split(&self, seat: &mut TreeSeat, node: NodeId) -> Result<(), SplitFault>
        requires tree { seat.old.tree ≡ self.now }
        ensures seat { IsSameSeat seat.old seat.new }
        ensures split { MatchResult result
            (λ _. (is_leaf node ≡ false) × WonLive seat.old.view node Split seat.new.view)
            (SplitRefused node seat.old.view seat.new.view) }
        ensures entries { entries seat.new.view ≤ entries seat.old.view + 2 }
    {
        if node.is_leaf() {
            return Err(SplitFault::IsLeaf);
        }
        if !self.finds_live(seat, node) {
            return Err(SplitFault::NotLive);
        }
        self.advance(seat, node, Status::Free, Status::Split)
            .map_err(SplitFault::NotFree)
    }

    /// Claims a free node for `pull`, in at most two steps: a look at the parent, and one exchange.
    ///
    /// It fails, in this order, if the parent isn't split, and if the node isn't free.
    pub fn claim(&self, seat: &mut TreeSeat, node: NodeId, pull: u32) -> Result<(), ClaimFault>
        requires tree { seat.old.tree ≡ self.now }
        ensures seat { IsSameSeat seat.old seat.new }
        ensures claim { MatchResult result
            (λ _. WonLive seat.old.view node (Claimed pull) seat.new.view)
            (ClaimRefused node seat.old.view seat.new.view) }
        ensures entries { entries seat.new.view ≤ entries seat.old.view + 2 }
    {
        if !self.finds_live(seat, node) {
            return Err(ClaimFault::NotLive);
        }
        self.advance(seat, node, Status::Free, Status::Claimed(pull))
            .map_err(ClaimFault::NotFree)
    }

    /// Begins a node that `pull` claimed, by one exchange.
    ///
    /// It fails if the node isn't claimed, or another pull claimed it.
    pub fn begin(&self, seat: &mut TreeSeat, node: NodeId, pull: u32) -> Result<(), BeginFault>
        requires tree { seat.old.tree ≡ self.now }
        ensures seat { IsSameSeat seat.old seat.new }
        ensures begin { MatchResult result
            (λ _. Won seat.old.view node (Partial pull) seat.new.view)
            (BeginRefused node pull seat.old.view seat.new.view) }
        ensures entries { entries seat.new.view ≤ entries seat.old.view + 1 }
    {
        match self.advance(seat, node, Status::Claimed(pull), Status::Partial(pull)) {
            Ok(()) => Ok(()),
            Err(Status::Claimed(_)) => Err(BeginFault::WrongPull),
            Err(found) => Err(BeginFault::NotClaimed(found)),
        }
    }

    /// Completes a node that `pull` began, by one exchange.
    ///
    /// It fails if the node isn't partial, or another pull began it.
    pub fn complete(
        &self,
        seat: &mut TreeSeat,
        node: NodeId,
        pull: u32,
    ) -> Result<(), CompleteFault>
        requires tree { seat.old.tree ≡ self.now }
        ensures seat { IsSameSeat seat.old seat.new }
        ensures complete { MatchResult result
            (λ _. Won seat.old.view node (Complete pull) seat.new.view)
            (CompleteRefused node pull seat.old.view seat.new.view) }
        ensures entries { entries seat.new.view ≤ entries seat.old.view + 1 }
    {
        match self.advance(seat, node, Status::Partial(pull), Status::Complete(pull)) {
            Ok(()) => Ok(()),
            Err(Status::Partial(_)) => Err(CompleteFault::WrongPull),
            Err(found) => Err(CompleteFault::NotPartial(found)),
        }
    }
}
