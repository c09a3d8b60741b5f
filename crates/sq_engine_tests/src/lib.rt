//! Tests of an engine that lasts: jobs at random come while rows move in one stage and in several.
#![tactic(auto)]

#[cfg(test)]
mod tests;
