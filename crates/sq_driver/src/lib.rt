//! Workers: each node and each pump of a run in a thread of its own, which takes its turns one
//! after another. A gate is asked before each step, and may end a worker. Workers that lack a
//! thread or memory for too long give up. Each node has a teller, to which each receipt that the
//! node writes is moved; one sends each receipt over a ring to another thread, one collects them. A
//! stage of a run is one value, which is opened or continues from what was gathered, is driven, and
//! is gathered.
#![tactic(auto)]

mod attendance;
mod collector;
mod gate;
mod idleness;
pub mod laws;
mod nodes;
mod pumps;
mod ring;
mod stage_run;
mod teller;
pub mod teller_laws;
mod worker;
mod workers;

pub use attendance::WorkersEnd;
pub use collector::Collector;
pub use gate::{Gate, NodeStep, OpenGate, WorkerEvent, rest};
pub use nodes::drive;
pub use pumps::drive_pump;
pub use ring::RingTeller;
pub use stage_run::StageRun;
pub use teller::{Teller, TellingNode};
pub use workers::run_workers;
