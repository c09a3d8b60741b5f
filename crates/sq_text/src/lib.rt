//! The lines of an input, read from any reader as they arrive, and the text formats of `squall
//! run`: the lines that it reads and the lines that it writes.
#![tactic(auto)]

mod answer_text;
mod buffer;
mod dump;
mod fault;
mod field;
mod header;
mod input_fault;
pub mod laws;
mod located;
mod moves_text;
mod note;
mod number;
mod op;
mod output_fault;
mod reader;
mod row_text;
mod step;
mod text;
mod verb;
mod words;

pub use answer_text::{write_answer, write_fault, write_refused};
pub use buffer::{BLOCK, MAX_UNENDED, place_of};
pub use dump::{write_at, write_end, write_way};
pub use fault::LineFault;
pub use header::{read_header, read_plans, take_rows};
pub use input_fault::InputFault;
pub use located::{InputLine, LocatedFault, Meaning};
pub use moves_text::write_moves;
pub use note::is_note;
pub use number::{signed, unsigned};
pub use output_fault::WriteFault;
pub use reader::{LineReader, MAX_LINES, Next, ReadState};
pub use step::{MAX_LINE, read_step};
pub use verb::OpName;
pub use words::Words;
