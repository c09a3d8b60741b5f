//! Partition plans: which partition owns which root keys (Elmore et al., Squall, SIGMOD 2015;
//! H-Store).
#![tactic(auto)]

mod fault;
pub mod laws;
mod part;
mod plan;
mod read;
mod version;
mod write;

pub use fault::PlanFault;
pub use part::PartId;
pub use plan::{FIRST_MAX_PARTS, MAX_PARTS, MAX_RANGES, Plan, PlanRange};
pub use read::JsonRange;
pub use version::{Stages, Version};
