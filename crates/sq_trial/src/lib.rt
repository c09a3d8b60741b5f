//! A client of an engine that posts random jobs and judges all that it hears, and lists of deeds
//! that are done with its engine: it runs, it serves the client, it moves to plans in one stage and
//! in several.
#![tactic(auto)]

mod calls;
mod deed;
mod dice;
mod failure;
mod heard;
mod hearing;
mod job_source;
mod plans;
mod random_client;
mod scripts;
mod trial;
mod trying;
mod workload;

pub use deed::{Deed, PlanChoice};
pub use failure::Failure;
pub use heard::Heard;
pub use hearing::Hearing;
pub use job_source::JobSource;
pub use plans::{PARTS, ROOTS, opening_at};
pub use scripts::{any_epochs, any_moves, rounds};
pub use trying::try_engine;
pub use workload::Workload;
