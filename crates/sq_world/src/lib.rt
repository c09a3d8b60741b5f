//! Worlds: the state of a world in memory and what each step does to it; runs of an input from
//! bytes to bytes; what moves between two plans, and the script of a whole move. What the calls of
//! a [`World`] take and return is named here too, so that a caller needs no other crate.
#![tactic(auto)]

mod draft;
mod echo;
mod ending;
mod input;
pub mod laws;
mod listing;
mod move_script;
mod move_step;
mod moves;
mod no_script;
mod queue;
mod script;
pub mod script_laws;
mod state;
mod telling;
mod whole;
mod whole_run;
mod world;

pub use ending::{Ending, RefusedLine, ScriptManner};
pub use input::run;
pub use listing::{list, ranges};
pub use move_script::write_script;
pub use move_step::{MoveStep, write_step};
pub use sq_model::{Answer, Phase, Refusal, Step};
pub use sq_moves::{
    Config, GivenRow, Leaf, NodeId, Opening, OpeningFault, OpeningParts, Reading, RefusedOpening,
    SegId, Status,
};
pub use sq_plan::{PartId, Plan, PlanFault, PlanRange};
pub use sq_schema::{
    Cause, Family, Op, OpAnswer, OpAnswers, Reply, Root, Row, RowKey, Rows, Schema, Txn, TxnFault,
};
pub use sq_store::{Chunk, FamilyStore, Note, SlabStore};
pub use sq_text::WriteFault;
pub use telling::{Telling, Told};
pub use whole_run::run_world;
pub use world::{NotOpened, World};
