//! The rules of a reconfiguration, as definitions over its history: the list of steps and their
//! answers.
#![tactic(auto)]

mod answer;
pub mod laws;
mod step;

pub use answer::{Answer, Refusal};
pub use step::{Phase, Step};
