//! Gathering: after the threads of a run are done, its trees and its links are closed, and what
//! they left is put together.
#![tactic(auto)]

mod ends;
mod gathered;
mod gathering;
pub mod laws;
mod left;
mod link_ends;
mod links;
mod reopened;
mod run;
mod stage_done;
mod trees;

pub use gathered::Gathered;
pub use link_ends::LinkEnds;
pub use links::{ClosedLink, close_link, close_links};
pub use reopened::{move_on, reopen};
pub use run::gather;
pub use sq_moves::{
    Config, Extent, Link, NODES, NodeId, Opening, OpeningFault, Range, Recon, SegId, Status,
};
pub use sq_node::Receipt;
pub use sq_plan::{PartId, Plan};
pub use sq_schema::{Family, Reply, Root, Rows, Schema, Table, Txn};
pub use sq_store::{Chunk, FamilyStore, Note, SlabStore};
pub use stage_done::reads_complete;
pub use trees::close_trees;
