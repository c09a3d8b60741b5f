//! Writes what a run leaves: its rows, in the lines of a header, and the answers of its jobs.
#![tactic(auto)]

mod replies;
mod row_lines;
mod standing;

pub use replies::Replies;
pub use standing::{write_gathered_rows, write_stored_rows, write_world_rows};
