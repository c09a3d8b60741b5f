//! Serves an engine behind a pipe: the lines of its input and of its answers; a desk, which hands
//! jobs to the engine, keeps them beside the full queue of their partition, and writes each answer;
//! and the whole, from an opening to the end of the input.
#![tactic(auto)]

mod asking;
mod bell;
mod claiming;
mod closing;
mod control;
mod counted_lines;
mod desk;
mod desk_figures;
pub mod desk_laws;
mod ending;
mod epoch;
mod epochs;
mod faulty_header;
mod faulty_line;
mod feed;
mod feeds;
mod following;
mod line_place;
mod marks;
mod move_queue;
mod moving;
mod outlet;
mod owner;
mod plan_line;
mod plan_text;
mod portions;
mod reading;
mod refused_move;
mod rows;
mod rows_file;
mod serve_answer;
mod serve_fault;
mod serve_line;
mod serve_word;
mod service;
pub mod service_laws;
mod serving;
mod sides;
mod status_json;
mod telling;
mod txn_words;
mod watch;
mod wishes;

pub use bell::Bell;
pub use claiming::Claiming;
pub use control::Control;
pub use counted_lines::{CountedLines, FileLines};
pub use desk::{
    AskedMove, AskedRows, AskedTxn, DeskConfig, JobCounts, MoveProgress, ServeDesk, Wish,
};
pub use desk_figures::DeskFigures;
pub use ending::{InputOutcome, ServeEnding};
pub use faulty_header::{FaultyHeader, HeaderLine};
pub use faulty_line::{FaultyLine, LineRefusal};
pub use feed::{Fed, InputEnd};
pub use following::Following;
pub use line_place::{HeaderFault, LinePlace, LinePlaces, LineSource};
pub use marks::EpochMarks;
pub use move_queue::{MoveQueue, QUEUE_ROOM};
pub use outlet::Outlet;
pub use plan_text::PlanText;
pub use portions::Portions;
pub use refused_move::RefusedMove;
pub use rows::RowsLeft;
pub use rows_file::RowsFile;
pub use serve_answer::ServeAnswer;
pub use serve_fault::ServeFault;
pub use serve_line::{ServeLine, read_serve_line};
pub use serving::{ServeConfig, serve};
pub use sides::{SIDE_ROOM, SideQueues};
pub use watch::{ServeMark, ServeWatch};
