//! Live runs: the jobs of an input are posted to partitions that run in threads while their rows
//! move, stage by stage; what is left is then gathered and audited.
#![tactic(auto)]

mod account;
mod continuing;
mod ending;
mod fault;
mod input;
mod job_list;
mod judging;
pub mod laws;
mod outcome;
mod stages;
mod watch;

pub use ending::LiveEnding;
pub use fault::{JobFault, JobLineFault, LiveFault};
pub use input::live;
pub use job_list::{JobList, MAX_JOBS, read_jobs};
pub use judging::count_commits;
pub use outcome::{LiveOutcome, write_outcome};
pub use sq_audit::Job;
pub use sq_gather::Gathered;
pub use sq_node::Receipt;
pub use stages::RunManner;
pub use watch::Watch;
