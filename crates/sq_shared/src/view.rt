// What a seat knows and has done.
use sq_moves::{NodeId, Status};
use std::collections::LinkedList;

/// What a seat of a tree has done and seen. It exists in contracts and proofs alone: no value of it
/// is created.
pub struct View {
    /// The nodes that the seat split, the newest first.
    pub split: LinkedList<NodeId>,
    /// The nodes that it claimed, each with its pull.
    pub claimed: LinkedList<(NodeId, u32)>,
    /// The nodes that it began, each with its pull.
    pub begun: LinkedList<(NodeId, u32)>,
    /// The nodes that it completed, each with its pull.
    pub completed: LinkedList<(NodeId, u32)>,
    /// The nodes that it looked at, each with the status that it found.
    pub looked: LinkedList<(NodeId, Status)>,
    /// Whether it is the seat that the tree was opened with.
    pub first: bool,
    /// Whether it was joined into the first seat.
    pub spent: bool,
    /// How many seats the first seat shared out.
    pub given: u64,
    /// How many of these were joined into it again.
    pub taken: u64,
}
