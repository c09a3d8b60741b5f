//! One partition: its families, the transactions that wait at it, found by root key, by arrival
//! number, and by whether they are due, and its ends of the links. Also the partitions of an
//! opening, each with the families of the root keys that it owns.
#![tactic(auto)]

mod entry;
mod fault;
mod given_up;
mod index;
pub mod laws;
mod location;
mod numbers;
mod out_link;
mod outcome;
mod part_core;
mod partition;
mod run;
mod slots;
mod waiting;
mod work;

pub use fault::{CutFault, LoadFault, ResumeFault, SubmitFault};
pub use out_link::OutLink;
pub use outcome::{Outcome, Resumed};
pub use part_core::{CoreParts, PartCore};
pub use partition::{fill_partitions, open_blank_partitions, open_store};
pub use waiting::Waiting;
