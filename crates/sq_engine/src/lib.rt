//! A long-running engine: it takes and answers jobs while rows move, and performs one move after
//! another.
//!
//! An [`Engine`] runs in epochs. An epoch is one stage of a move, or rest, which is a move of no
//! rows. In it the workers run, and a [`Client`] posts jobs and is given their answers. An engine
//! goes from stage to stage by itself, and after the last stage to rest.
//!
//! What happened in an engine is the list of its [`Event`]s: contracts say which events a call
//! adds, and [`laws`] say what they mean.
#![tactic(auto)]

mod at;
mod back_off;
mod chunk_limit;
mod client;
mod crew;
mod engine;
mod epoch_gate;
mod event;
pub mod laws;
mod meeting;
mod node_bell;
mod nodes_here;
mod open_jobs;
mod posting;
mod rings;
mod serving;
mod stage_progress;
mod stages;
mod telling;

pub use back_off::BackOff;
pub use chunk_limit::ChunkLimit;
pub use client::{Client, Command};
pub use engine::{Engine, NotEnded, NotMoved, NotPosted, Served};
pub use event::Event;
pub use open_jobs::{OpenJobs, PostFault};
pub use serving::EpochEnd;
pub use stage_progress::StageProgress;
