// The nodes and the leaves of a segment's split tree.
ghost use Rattle.std.specs.Prelude.{◌≡◌, ◌≢◌, ◌+◌, ◌*◌, ◌<◌, ◌≤◌, IsTrue, false, SomeIff, EachIndex, slice_index, if◌then◌else◌};
ghost use Rattle.sq_moves.specs.Node.{is_node, is_leaf, parent, span, first_leaf, is_above, node_above};

use std::marker::Model;

/// The number of nodes in a tree. They are numbered from 1.
pub const NODES: usize = 63;

/// The number of leaves in a tree. They are numbered from 0, in key order; leaf `i` is node
/// `LEAVES + i`.
pub const LEAVES: u64 = 32;

/// A node of a segment's split tree, by its number from 1. To a contract it is the number.
#[derive(Clone, Copy, Debug, PartialEq, Eq, PartialOrd, Ord)]
pub struct NodeId(u8);

impl Model for NodeId {
    ghost use Rattle.std.specs.Prelude.{ℕ, IsTrue};
    ghost use Rattle.sq_moves.specs.Node.{is_node};

    ghost Value = { ℕ };

    ghost view = { λ node. node.0 };

    ghost invariant = { λ node. IsTrue (is_node node.0) };

    ghost inverse = { λ n. record { 0 = n } };
}

/// A leaf of a segment, by its number from 0. To a contract it is the number.
#[derive(Clone, Copy, Debug, PartialEq, Eq, PartialOrd, Ord)]
pub struct Leaf(u8);

impl Model for Leaf {
    ghost use Rattle.std.specs.Prelude.{ℕ, ◌<◌};
    ghost use Rattle.sq_moves.specs.declared.node.TheConstants.{LEAVES};

    ghost Value = { ℕ };

    ghost view = { λ leaf. leaf.0 };

    ghost invariant = { λ leaf. leaf.0 < LEAVES };

    ghost inverse = { λ n. record { 0 = n } };
}

impl NodeId {
    /// The node that covers the whole segment.
    pub const WHOLE: NodeId = NodeId(1);

    /// Returns all nodes, in the order of their numbers.
    pub fn all() -> [NodeId; NODES]
        ensures { EachIndex result (λ index. slice_index result index ≡ index + 1) }
    {
        let mut nodes = [NodeId::WHOLE; NODES];
        for (index, node) in nodes.iter_mut().enumerate() {
            *node = NodeId(index as u8 + 1);
        }
        nodes
    }

    /// Returns the node with this `number`; `None` unless that is from 1 to 63.
    pub fn new(number: u64) -> Option<NodeId>
        ensures { SomeIff result (IsTrue (is_node number)) number }
    {
        if (1..=NODES as u64).contains(&number) {
            Some(NodeId(number as u8))
        } else {
            None
        }
    }

    /// Returns the number, from 1 to 63.
    pub fn number(self) -> u64
        ensures number { result ≡ self }
        ensures bound { IsTrue (is_node self) }
    {
        u64::from(self.0)
    }

    /// Returns the place of the node in a list of all nodes.
    pub fn index(self) -> usize
        ensures place { result + 1 ≡ self }
        ensures bound { result < NODES }
    {
        usize::from(self.0) - 1
    }

    /// Returns true if the node is a leaf, which has no halves.
    pub fn is_leaf(self) -> bool
        ensures { result ≡ is_leaf self }
    {
        self.number() >= LEAVES
    }

    /// Returns the half with the lower leaves.
    pub fn low_half(self) -> NodeId
        requires { is_leaf self ≡ false }
        ensures half { result ≡ 2 * self }
        ensures node { IsTrue (is_node result) }
    {
        NodeId(2 * self.0)
    }

    /// Returns the half with the higher leaves.
    pub fn high_half(self) -> NodeId
        requires { is_leaf self ≡ false }
        ensures half { result ≡ 2 * self + 1 }
        ensures node { IsTrue (is_node result) }
    {
        NodeId(2 * self.0 + 1)
    }

    /// Returns the half that covers `leaf`, if the node itself covers it.
    pub fn half_above(self, leaf: Leaf) -> NodeId
        requires { is_leaf self ≡ false }
        ensures half { result ≡ (if is_above (2 * self) leaf then 2 * self else 2 * self + 1) }
        ensures node { IsTrue (is_node result) }
    {
        let low = self.low_half();
        if low.is_above(leaf) {
            low
        } else {
            self.high_half()
        }
    }

    /// Returns the node that this one is a half of.
    pub fn parent(self) -> NodeId
        requires { self ≢ 1 }
        ensures parent { result ≡ parent self }
        ensures node { IsTrue (is_node result) }
        ensures inner { is_leaf result ≡ false }
    {
        NodeId(self.0 / 2)
    }

    /// Returns the number of leaves that the node covers.
    pub fn span(self) -> u64
        ensures { result ≡ span self }
    {
        match self.0 {
            1 => 32,
            2..=3 => 16,
            4..=7 => 8,
            8..=15 => 4,
            16..=31 => 2,
            _ => 1,
        }
    }

    /// Returns the first leaf that the node covers.
    pub fn first_leaf(self) -> Leaf
        ensures first { result ≡ first_leaf self }
        ensures within { result + span self ≤ LEAVES }
    {
        Leaf((self.number() * self.span() - LEAVES) as u8)
    }

    /// Returns true if the node covers `leaf`.
    pub fn is_above(self, leaf: Leaf) -> bool
        ensures { result ≡ is_above self leaf }
    {
        let first = self.first_leaf().number();
        (first..first + self.span()).contains(&leaf.number())
    }
}

impl Leaf {
    /// Returns the leaf with this `number`; `None` if that is [`LEAVES`] or more.
    pub fn new(number: u64) -> Option<Leaf>
        ensures { SomeIff result (number < LEAVES) number }
    {
        if number < LEAVES {
            Some(Leaf(number as u8))
        } else {
            None
        }
    }

    /// Returns the number, from 0 to 31.
    pub fn number(self) -> u64
        ensures number { result ≡ self }
        ensures bound { result < LEAVES }
    {
        u64::from(self.0)
    }

    /// Returns the node of this leaf.
    pub fn node(self) -> NodeId
        ensures leaf { result ≡ LEAVES + self }
        ensures node { IsTrue (is_node result) }
    {
        NodeId(LEAVES as u8 + self.0)
    }

    /// Returns the node `levels` levels above the leaf's own. Five levels above it is the whole
    /// segment.
    pub fn node_above(self, levels: u32) -> NodeId
        requires { levels ≤ 5 }
        ensures { result ≡ node_above self levels }
    {
        NodeId((LEAVES as u8 + self.0) >> levels)
    }
}
