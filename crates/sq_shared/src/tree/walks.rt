// Claims that visit several nodes.
ghost use Rattle.std.specs.Prelude.{◌≡◌, ◌≢◌, ℕ, ◌+◌, ◌<◌, ◌≤◌, ◌⊎◌, IsTrue, MatchResult};
ghost use Rattle.sq_moves.specs.declared.status.Status.TheVariants.{Split};
ghost use Rattle.sq_moves.specs.declared.node.TheConstants.{LEAVES};
ghost use Rattle.sq_moves.specs.Prelude.{parent};
ghost use Rattle.sq_shared.specs.View.{entries};
ghost use Rattle.sq_shared.specs.Plays.{KnowsSplit, Found, Won};
ghost use Rattle.sq_shared.specs.Seat.{IsSameSeat};

use super::{StatusTree, TreeSeat};
use sq_moves::{Leaf, NodeId, Status};

/// The outcome of a claim of a leaf.
#[derive(Clone, Copy, Debug, PartialEq, Eq)]
pub enum LeafClaim {
    /// The leaf's node was claimed; this is the node.
    Claimed(NodeId),
    /// A pull has the leaf already. This is the node that was found, with its status: the leaf's
    /// own node or one above it, claimed or further.
    Held(NodeId, Status),
}

impl StatusTree {
    ghost use Rattle.sq_shared.specs.Walks.{is_taken, WalkedLeaf, Searched, ClaimedOnly, claims_of_walk, claims_of_search};

    // Splits an inner node whose parent is split, or finds it split. Any other status is returned
    // as an `Err`.
    fn pass(&self, seat: &mut TreeSeat, node: NodeId) -> Result<(), Status>
        requires tree { seat.old.tree ≡ self.now }
        requires inner { node < LEAVES }
        requires live { 1 < node → KnowsSplit seat.old.view (parent node) }
        ensures seat { IsSameSeat seat.old seat.new }
        ensures passed { MatchResult result
            (λ _. Won seat.old.view node Split seat.new.view ⊎ Found seat.old.view node Split
            seat.new.view)
            (λ found. IsTrue (is_taken found) × Found seat.old.view node found seat.new.view) }
    {
        match self.advance(seat, node, Status::Free, Status::Split) {
            Ok(()) | Err(Status::Split) => Ok(()),
            Err(found) => Err(found),
        }
    }

    /// Claims the leaf's node, and splits the free nodes above it, in at most six steps, from node
    /// 1 downward.
    pub fn claim_leaf(&self, seat: &mut TreeSeat, leaf: Leaf, pull: u32) -> LeafClaim
        requires tree { seat.old.tree ≡ self.now }
        ensures seat { IsSameSeat seat.old seat.new }
        ensures walk { WalkedLeaf leaf pull seat.old.view seat.new.view result }
        ensures claims { ClaimedOnly seat.old.view (claims_of_walk pull result) seat.new.view }
        ensures entries { entries seat.new.view ≤ entries seat.old.view + 6 }
    {
        let own = leaf.node();
        for levels in (1..=5).rev() {
            let node = leaf.node_above(levels);
            if let Err(found) = self.pass(seat, node) {
                return LeafClaim::Held(node, found);
            }
        }
        match self.advance(seat, own, Status::Free, Status::Claimed(pull)) {
            Ok(()) => LeafClaim::Claimed(own),
            Err(found) => LeafClaim::Held(own, found),
        }
    }

    /// Claims and returns the first free node, from node 1 downward and in order of the leaves, or
    /// `None` if each leaf has a pull. It takes at most 63 steps.
    pub fn claim_any(&self, seat: &mut TreeSeat, pull: u32) -> Option<NodeId>
        requires tree { seat.old.tree ≡ self.now }
        ensures seat { IsSameSeat seat.old seat.new }
        ensures search { Searched 1 pull seat.old.view seat.new.view result }
        ensures claims { ClaimedOnly seat.old.view (claims_of_search pull result) seat.new.view }
        ensures entries { entries seat.new.view ≤ entries seat.old.view + 63 }
    {
        self.claim_under(seat, NodeId::WHOLE, pull)
    }

    // Does the same from a live node downward.
    fn claim_under(&self, seat: &mut TreeSeat, node: NodeId, pull: u32) -> Option<NodeId>
        requires tree { seat.old.tree ≡ self.now }
        requires live { 1 < node → KnowsSplit seat.old.view (parent node) }
        ensures seat { IsSameSeat seat.old seat.new }
        ensures search { Searched node pull seat.old.view seat.new.view result }
    {
        match self.advance(seat, node, Status::Free, Status::Claimed(pull)) {
            Ok(()) => Some(node),
            Err(Status::Split) => match self.claim_under(seat, node.low_half(), pull) {
                Some(claimed) => Some(claimed),
                None => self.claim_under(seat, node.high_half(), pull),
            },
            Err(_) => None,
        }
    }
}
