//! The leader of a move as typed states, so that a call in a wrong state can't be written; and the
//! leader of a run in threads: the thread that gathers what each stage left starts the move, and
//! after a stage it hears the reports that the partitions may make, and moves on to the next stage
//! or ends the move.
#![tactic(auto)]

mod fault;
pub mod laws;
mod leader;
mod leading;
mod marks;
mod moving;
mod report;

pub use fault::{FinishFault, NextFault, PrepareFault, ReportFault, StageFault, StartFault};
pub use leader::{Idle, Leader, Preparing, Refused};
pub use leading::{Led, lead_on, start_move};
pub use moving::{Ended, Moving};
pub use report::Report;
