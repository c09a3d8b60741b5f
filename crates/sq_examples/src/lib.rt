//! Two small callers of the library: one moves a root key step by step (`world`), and one runs a
//! long-running engine whose rows move to another plan and back (`engine`).
#![tactic(auto)]

pub mod engine;
pub mod world;
