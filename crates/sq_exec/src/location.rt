// The locations of root keys that move.
use sq_moves::{Leaf, SegId};
use sq_plan::PartId;

/// The location of a root key that moves, as far as a single partition can know it.
#[derive(Clone, Copy, Debug)]
pub struct Location {
    pub seg: SegId,
    pub leaf: Leaf,
    /// The partition that it leaves.
    pub src: PartId,
    /// The partition that it moves to.
    pub dst: PartId,
    /// The stage in which it moves.
    pub stage: u64,
    /// True if it was given up here.
    pub given_up: bool,
    /// True if it was loaded here.
    pub loaded: bool,
}
