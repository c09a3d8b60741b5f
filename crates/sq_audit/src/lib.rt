//! The audit of what a run left: where its families are, and whether they and the receipts are as
//! the run should leave them. Also the fold of logs between stages.
#![tactic(auto)]

mod answered;
mod fits;
mod folded;
mod folding;
mod in_threads;
mod index;
mod job;
pub mod laws;
mod located;
mod notes;
mod passes;
mod placed;
mod posted;
mod spans;
mod statuses;
mod stored;
mod table;
mod tiles;
mod told;
mod verdict;

pub use answered::{copy_answered, count_answered, leave_unanswered, list_ids};
pub use folded::{Folded, Unchanged, Unfolded};
pub use folding::{fold, fold_in_threads};
pub use job::Job;
pub use passes::{audit, audit_in_threads};
pub use verdict::{Defect, Verdict};
