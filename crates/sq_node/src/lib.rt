//! Partitions in threads: the nodes of a run, and what they share. Each step of a node is one step
//! of its partition, of one tree or of one link. There is no lock: only operations on a queue may
//! wait.
#![tactic(auto)]

mod desk;
mod effort;
mod ends;
mod fabric;
mod node;
mod receipt;
mod run_parts;
mod stepped;

pub use desk::Post;
pub use effort::Effort;
pub use ends::{LinkEnd, PartEnd, Receiver, RecvEnd, SendEnd, Sender};
pub use fabric::{Fabric, FabricParts, JOB_PLACES, Unposted, Unresumed};
pub use node::{Node, NodeParts, Turned};
pub use receipt::Receipt;
pub use run_parts::RunParts;
pub use stepped::Stepped;
