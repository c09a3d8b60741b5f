//! Tests of runs in threads: of nodes and pumps, of the workers that drive them, of what is gathered of them and of its
//! audit, and of live runs.
#![tactic(auto)]

#[cfg(test)]
mod tests;
