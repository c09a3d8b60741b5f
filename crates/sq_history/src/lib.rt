//! Histories that only proofs read. They take no memory, and their methods do nothing at run time.
#![tactic(auto)]

mod history;
mod kept;

pub use history::History;
pub use kept::Kept;
