//! What a node keeps: a partition, with what its thread did on the trees and links that it shares
//! with others; and that what is gathered of all nodes is placed.
#![tactic(auto)]

pub mod gathered;
pub mod laws;
mod spot;

pub use spot::Spot;
