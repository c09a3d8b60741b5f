// The steps of a node on trees.
ghost use Rattle.std.specs.Prelude.{◌≡◌, ℕ, ◌<◌, true, length, Contains, MatchBool, MatchOption, IfSome};
ghost use Rattle.sq_moves.specs.declared.status.Status.TheVariants.{Partial};
ghost use Rattle.sq_shared.specs.Plays.{Won};
ghost use Rattle.sq_exec.specs.Prelude.{begun_core};
ghost use Rattle.sq_shared.specs.Seats.{AreSeatsOf, StepsAt};
ghost use Rattle.sq_node.specs.NodeState.{IsNodeOf};
ghost use Rattle.sq_node.specs.Holds.{DoesAndKeeps};
ghost use Rattle.sq_node.specs.Looks.{OnlyLooked, CompletesOne, CompletesNone};
ghost use Rattle.sq_node.specs.Steps.{IsOutward, RequestStep, CompleteStep};

use super::Node;
use super::turn::see_complete_at;
use crate::fabric::Fabric;
use crate::stepped::Stepped;
use sq_exec::PartCore;
use sq_moves::{NodeId, SegId, Status};
use sq_shared::{Request, StatusTree, TreeSeat};
use sq_store::SlabStore;
use std::sync::Wait;

impl Node {
    /// Takes a request, and begins the node that it names. A request is dropped if its segment
    /// doesn't leave this partition in the running stage, its node doesn't exist, or the node isn't
    /// claimed for its pull.
    pub fn step_request<R: Wait>(&mut self, rt: &R, fabric: &Fabric) -> Stepped
        requires { IsNodeOf fabric.now self.old }
        ensures { DoesAndKeeps fabric.now RequestStep self.old result self.new }
    {
        if self.core.reserve_begin().is_err() {
            return Stepped::Memory;
        }
        let Some(request) = fabric.take_request(rt, self.core.part()) else {
            return Stepped::Nothing;
        };
        let Some(named) = self.named(fabric, request) else {
            return Stepped::Nothing;
        };
        if begin(
            &mut self.core,
            fabric.trees(),
            &mut self.seats,
            named,
            request.pull,
        ) {
            return Stepped::Did;
        }
        Stepped::Nothing
    }

    // Returns the node that `request` names, unless its segment doesn't leave this partition in the
    // running stage, or is complete.
    fn named(&self, fabric: &Fabric, request: Request) -> Option<TreeNode>
        requires { IsNodeOf fabric.now self.now }
        ensures { IfSome result (λ named. IsOutward self.now.core named.seg named.node) }
    {
        let seg = SegId::new(request.seg)?;
        let node = NodeId::new(request.node)?;
        let segment = fabric.recon().segments().get(seg.index())?;
        let runs = fabric.recon().stage_of(seg) == fabric.stage();
        if segment.src == self.core.part() && runs && !self.is_complete(seg) {
            Some(TreeNode { seg, node })
        } else {
            None
        }
    }

    // Returns true if node 1 of segment `seg` was seen to read complete.
    fn is_complete(&self, seg: SegId) -> bool {
        self.complete.get(seg.index()).copied().unwrap_or(false)
    }

    /// Completes a node whose last chunk was loaded, and looks whether that completes its segment.
    pub fn step_complete(&mut self, fabric: &Fabric) -> Stepped
        requires { IsNodeOf fabric.now self.old }
        ensures { DoesAndKeeps fabric.now CompleteStep self.old result self.new }
    {
        let trees = fabric.trees();
        let Some(seg) = complete_first(trees, &mut self.seats, &mut self.to_complete) else {
            return Stepped::Nothing;
        };
        self.completes_segment = see_complete_at(
            trees,
            &mut self.seats,
            &mut self.complete,
            seg.index(),
        );
        Stepped::Did
    }

    /// Returns true if the tree node that it completed last was the last of its segment, which is
    /// now complete.
    pub fn completes_segment(&self) -> bool {
        self.completes_segment
    }
}

// A node of the tree of a segment.
#[derive(Clone, Copy, Debug)]
struct TreeNode {
    seg: SegId,
    node: NodeId,
}

// Begins the node at `at` if it is claimed for `pull`, and gives its keys up.
fn begin(
    core: &mut PartCore<SlabStore>,
    trees: &[StatusTree],
    seats: &mut Vec<TreeSeat>,
    at: TreeNode,
    pull: u32,
) -> bool
    requires room { core.old.has_room ≡ true }
    requires exists { at.seg < length core.old.core.recon.segments }
    requires seats { AreSeatsOf trees.now seats.old.items }
    requires segment { at.seg < length trees.now }
    ensures step { MatchBool result
        (StepsAt at.seg (λ v w. Won v at.node (Partial pull) w) seats.old.items seats.new.items)
        (StepsAt at.seg OnlyLooked seats.old.items seats.new.items) }
    ensures core { MatchBool result
        (core.new.core ≡ begun_core core.old.core at.seg at.node pull)
        (core.new.core ≡ core.old.core) }
{
    if !begin_at(trees, seats, &at, pull) {
        return false;
    }
    core.begun(at.seg, at.node, pull);
    true
}

// Begins the node at `at` in the tree of its segment, if it is claimed for `pull`.
fn begin_at(trees: &[StatusTree], seats: &mut Vec<TreeSeat>, at: &TreeNode, pull: u32) -> bool
    requires seats { AreSeatsOf trees.now seats.old.items }
    requires segment { at.now.seg < length trees.now }
    ensures seats { AreSeatsOf trees.now seats.new.items }
    ensures step { MatchBool result
        (StepsAt at.now.seg (λ v w. Won v at.now.node (Partial pull) w) seats.old.items
        seats.new.items)
        (StepsAt at.now.seg OnlyLooked seats.old.items seats.new.items) }
{
    let index = at.seg.index();
    trees[index].begin(&mut seats[index], at.node, pull).is_ok()
}

// Completes the first of `nodes` that is partial, removes it from the list, and returns its
// segment.
fn complete_first(
    trees: &[StatusTree],
    seats: &mut Vec<TreeSeat>,
    nodes: &mut Vec<(SegId, NodeId)>,
) -> Option<SegId>
    requires seats { AreSeatsOf trees.now seats.old.items }
    requires nodes { (seg n : ℕ) → Contains nodes.old.items (seg, n) → seg < length trees.now }
    ensures { MatchOption result
        (CompletesNone seats.old.items nodes.old.items seats.new.items nodes.new.items)
        (λ seg. CompletesOne seats.old.items nodes.old.items seg seats.new.items nodes.new.items) }
{
    for at in 0..nodes.len() {
        let (seg, node) = nodes[at];
        let tree = &trees[seg.index()];
        let seat = &mut seats[seg.index()];
        let Status::Partial(pull) = tree.look(seat, node) else {
            continue;
        };
        if tree.complete(seat, node, pull).is_ok() {
            nodes.remove(at);
            return Some(seg);
        }
    }
    None
}
