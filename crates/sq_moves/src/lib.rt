//! What a reconfiguration from one plan to another moves: ranges, segments and the extents of their
//! nodes; and the split tree of one segment, 63 nodes, each with a status.
#![tactic(auto)]

mod cut;
mod given;
pub mod laws;
mod node;
mod opening;
mod opening_fault;
mod plain;
mod recon;
mod segment;
mod stage;
mod status;
mod sweep;
mod tree_fault;
mod word;

pub use node::{LEAVES, Leaf, NODES, NodeId};
pub use opening::{
    Config, GivenRow, LOG_LIMIT, MAX_CAPACITY, MAX_LIMIT, MAX_WAITING, MIN_LIMIT, Opening,
    OpeningParts, RefusedOpening, RefusedPlans,
};
pub use opening_fault::{OpeningFault, ReconFault};
pub use plain::PlainTree;
pub use recon::{Extent, Link, MAX_WIDTH, Range, Recon};
pub use segment::{FIRST_SEGMENT_LIMIT, SEGMENT_LIMIT, SegId};
pub use status::{Reading, Status};
pub use tree_fault::{BeginFault, ClaimFault, CompleteFault, SplitFault};
