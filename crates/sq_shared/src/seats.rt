// Claims through the seat of a segment, among the seats of an owner.
ghost use Rattle.std.specs.Prelude.{◌<◌, length};
ghost use Rattle.sq_shared.specs.Seats.{AreSeatsOf, StepsAt, ClaimsLeaf, ClaimsAny, TriesSplit, OnlyClaimed};

use crate::tree::{LeafClaim, StatusTree, TreeSeat};
use sq_moves::{Leaf, NodeId, SegId};

/// Claims the node of `leaf` in segment `seg` for `pull`.
pub(crate) fn claim_leaf(
    trees: &[StatusTree],
    seats: &mut Vec<TreeSeat>,
    seg: SegId,
    leaf: Leaf,
    pull: u32,
) -> LeafClaim
    requires seats { AreSeatsOf trees.now seats.old.items }
    requires segment { seg < length trees.now }
    ensures steps { StepsAt seg (ClaimsLeaf leaf pull result) seats.old.items seats.new.items }
    ensures seats { AreSeatsOf trees.now seats.new.items }
    ensures work { OnlyClaimed seats.old.items seats.new.items }
{
    let at = seg.index();
    trees[at].claim_leaf(&mut seats[at], leaf, pull)
}

/// Claims any free node of segment `seg` for `pull`.
pub(crate) fn claim_any(
    trees: &[StatusTree],
    seats: &mut Vec<TreeSeat>,
    seg: SegId,
    pull: u32,
) -> Option<NodeId>
    requires seats { AreSeatsOf trees.now seats.old.items }
    requires segment { seg < length trees.now }
    ensures steps { StepsAt seg (ClaimsAny pull result) seats.old.items seats.new.items }
    ensures seats { AreSeatsOf trees.now seats.new.items }
    ensures work { OnlyClaimed seats.old.items seats.new.items }
{
    let at = seg.index();
    trees[at].claim_any(&mut seats[at], pull)
}

/// Splits `node` of segment `seg` if it is free and not a leaf, and its parent is split.
pub(crate) fn split(trees: &[StatusTree], seats: &mut Vec<TreeSeat>, seg: SegId, node: NodeId)
    requires seats { AreSeatsOf trees.now seats.old.items }
    requires segment { seg < length trees.now }
    ensures steps { StepsAt seg (TriesSplit node) seats.old.items seats.new.items }
    ensures seats { AreSeatsOf trees.now seats.new.items }
    ensures work { OnlyClaimed seats.old.items seats.new.items }
{
    let at = seg.index();
    let _ = trees[at].split(&mut seats[at], node);
}
