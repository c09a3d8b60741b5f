//! Tests of the public calls of the libraries: a module for each of them, and what they share.
#![tactic(auto)]

#[cfg(test)]
mod tests;
