// A split tree of a single thread.
ghost use Rattle.std.specs.Prelude.{◌≡◌, ◌↔◌, ℕ, ◌<◌, ◌≤◌, ◌-◌, ◌^◌, ◌*◌, true, false, IsTrue, List, length, is_ok, if◌then◌else◌};
ghost use Rattle.sq_moves.specs.declared.status.Status.{Status};
ghost use Rattle.sq_moves.specs.declared.node.TheConstants.{LEAVES};
ghost use Rattle.sq_moves.specs.Node.{is_node, is_leaf};
ghost use Rattle.sq_moves.specs.Status.{is_free, is_split, is_complete, is_live, reading, reading_within, covering, live_within};
ghost use Rattle.sq_moves.specs.Tree.{status_at, with_status, IsGrown, IsReading, IsCovering};
ghost use Rattle.sq_moves.specs.Answer.{split_answer, claim_answer, begin_answer, complete_answer};

use crate::node::{Leaf, NODES, NodeId};
use crate::status::{Reading, Status};
use crate::tree_fault::{BeginFault, ClaimFault, CompleteFault, SplitFault};
use std::marker::Model;

/// The split tree of one segment: the status of each node. It takes no memory of its own.
#[derive(Debug, Drop)]
pub struct PlainTree {
    statuses: [Status; NODES],
}

impl Model for PlainTree {
    ghost Value = { List Status };

    ghost view = { λ tree. tree.statuses };

    ghost invariant = { λ tree. IsGrown (status_at tree.statuses) };
}

impl PlainTree {
    /// Creates a tree with all nodes free.
    pub fn new() -> Self
        ensures free { (n : ℕ) → status_at result n ≡ Status.Free }
        ensures nodes { length result ≡ NODES }
    {
        PlainTree {
            statuses: [Status::Free; NODES],
        }
    }

    /// Returns the status of `node`.
    pub fn status(&self, node: NodeId) -> Status
        ensures status { result ≡ status_at self.now node }
        ensures grown { IsGrown (status_at self.now) }
    {
        self.statuses[node.index()]
    }

    /// Splits a free `node`, so that its halves are live. Refused, in this order: a leaf, a node
    /// that isn't live, and a node that isn't free. A refusal changes nothing.
    pub fn split(&mut self, node: NodeId) -> Result<(), SplitFault>
        ensures answer { result ≡ split_answer (status_at self.old) node }
        ensures after { self.new ≡
            (if is_ok result then with_status self.old node Status.Split else self.old) }
    {
        if node.is_leaf() {
            return Err(SplitFault::IsLeaf);
        }
        if !self.is_live(node) {
            return Err(SplitFault::NotLive);
        }
        match self.status(node) {
            Status::Free => {
                self.set(node, Status::Split);
                Ok(())
            }
            found => Err(SplitFault::NotFree(found)),
        }
    }

    /// Claims a free `node` for `pull`. Refused, in this order: a node that isn't live, and a node
    /// that isn't free. A refusal changes nothing.
    pub fn claim(&mut self, node: NodeId, pull: u32) -> Result<(), ClaimFault>
        ensures answer { result ≡ claim_answer (status_at self.old) node pull }
        ensures after { self.new ≡ (if is_ok result then with_status self.old node
            (Status.Claimed pull) else self.old) }
    {
        if !self.is_live(node) {
            return Err(ClaimFault::NotLive);
        }
        match self.status(node) {
            Status::Free => {
                self.set(node, Status::Claimed(pull));
                Ok(())
            }
            found => Err(ClaimFault::NotFree(found)),
        }
    }

    /// Gives `node` up to `pull`, which claimed it: the node becomes partial. Refused, in this
    /// order: a node that isn't claimed, and a node that another pull claimed. A refusal changes
    /// nothing.
    pub fn begin(&mut self, node: NodeId, pull: u32) -> Result<(), BeginFault>
        ensures answer { result ≡ begin_answer (status_at self.old) node pull }
        ensures after { self.new ≡ (if is_ok result then with_status self.old node
            (Status.Partial pull) else self.old) }
    {
        match self.status(node) {
            Status::Claimed(by) if by == pull => {
                self.set(node, Status::Partial(pull));
                Ok(())
            }
            Status::Claimed(_) => Err(BeginFault::WrongPull),
            found => Err(BeginFault::NotClaimed(found)),
        }
    }

    /// Completes `node`, which `pull` began. Refused, in this order: a node that isn't partial, and
    /// a node that another pull began. A refusal changes nothing.
    pub fn complete(&mut self, node: NodeId, pull: u32) -> Result<(), CompleteFault>
        ensures answer { result ≡ complete_answer (status_at self.old) node pull }
        ensures after { self.new ≡ (if is_ok result then with_status self.old node
            (Status.Complete pull) else self.old) }
    {
        match self.status(node) {
            Status::Partial(by) if by == pull => {
                self.set(node, Status::Complete(pull));
                Ok(())
            }
            Status::Partial(_) => Err(CompleteFault::WrongPull),
            found => Err(CompleteFault::NotPartial(found)),
        }
    }

    /// Returns the reading of `node`. A node that isn't live has the reading of the nearest live
    /// node above it.
    pub fn reads(&self, node: NodeId) -> Reading
        ensures reading { result ≡ reading (status_at self.now) node }
        ensures rule { IsReading (status_at self.now) (reading (status_at self.now)) }
    {
        self.reads_live(self.nearest_live(node))
    }

    /// Returns the live node above `leaf` that isn't split.
    pub fn covering(&self, leaf: Leaf) -> NodeId
        ensures covering { result ≡ covering (status_at self.now) leaf }
        ensures only { IsCovering (status_at self.now) leaf result }
    {
        // For the proof alone: the leaf is below 32, so the whole segment covers it.
        let _ = leaf.number();
        let mut node = NodeId::WHOLE;
        while self.status(node).is_split() {
            node = node.half_above(leaf);
        }
        node
    }

    /// Returns true if each row of the segment is at the destination: the reading of node 1 is
    /// [`Reading::Complete`]. This is so exactly if each leaf is covered by a complete node.
    pub fn all_complete(&self) -> bool
        ensures reading { IsTrue result ↔ (reading (status_at self.now) 1 ≡ Reading.Complete) }
        ensures leaves { IsTrue result
            ↔ ((leaf : ℕ) → leaf < LEAVES → IsTrue
            (is_complete (status_at self.now (covering (status_at self.now) leaf)))) }
    {
        self.reads_live(NodeId::WHOLE) == Reading::Complete
    }

    // Returns the reading of a live node, at any search depth that reaches the leaves.
    fn reads_live(&self, node: NodeId) -> Reading
        ensures reading { (depth : ℕ) → 32 ≤ node * 2 ^ depth
            → result ≡ reading_within depth (status_at self.now) node }
        ensures grown { IsGrown (status_at self.now) }
    {
        match self.status(node) {
            Status::Free | Status::Claimed(_) => Reading::NotStarted,
            Status::Partial(_) => Reading::Partial,
            Status::Complete(_) => Reading::Complete,
            Status::Split => self
                .reads_live(node.low_half())
                .with(self.reads_live(node.high_half())),
        }
    }

    // Returns the nearest live node from `node` upward.
    fn nearest_live(&self, node: NodeId) -> NodeId
        ensures node { IsTrue (is_node result) }
        ensures nearest { result ≡ live_within 5 (status_at self.now) node }
    {
        if self.is_live(node) {
            node
        } else {
            self.nearest_live(node.parent())
        }
    }

    // Returns true if `node` is the whole segment or a half of a split node.
    fn is_live(&self, node: NodeId) -> bool
        ensures live { result ≡ is_live (status_at self.now) node }
        ensures node { IsTrue (is_node node) }
    {
        node == NodeId::WHOLE || self.status(node.parent()).is_split()
    }

    // Sets the status of a live node that isn't split.
    fn set(&mut self, node: NodeId, status: Status)
        requires live { is_free (status_at self.old node) ≡ true
            → IsTrue (is_live (status_at self.old) node) }
        requires whole { is_split (status_at self.old node) ≡ false }
        requires leaf { IsTrue (is_leaf node) → is_split status ≡ false }
        ensures { self.new ≡ with_status self.old node status }
    {
        self.statuses[node.index()] = status;
    }
}

impl Default for PlainTree {
    ghost use Rattle.std.specs.Prelude.{◌≡◌, ℕ};
    ghost use Rattle.sq_moves.specs.declared.status.Status.TheVariants.{Free};
    ghost use Rattle.sq_moves.specs.Tree.{status_at};

    ghost is_default = { λ tree. (n : ℕ) → status_at tree n ≡ Free };

    fn default() -> Self {
        PlainTree::new()
    }
}
