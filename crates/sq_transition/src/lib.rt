//! What one step does to the state of a world, and the theorem that it keeps the world in accord
//! with its history.
#![tactic(auto)]

pub mod laws;
