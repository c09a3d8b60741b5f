//! What the numbers of faults, refusals and defects mean, and what to do about them.
#![tactic(auto)]

mod table;
mod telling;

pub use table::Entry;
pub use telling::{entries, entry, explain, meaning, write_entries, write_entry};
