// Why an input can't be run.
ghost use Rattle.std.specs.Prelude.{◌≡◌};
ghost use Rattle.sq_text.specs.InputFaults.{input_fault_number};

use crate::fault::LineFault;
use crate::step::MAX_LINE;
use sq_explain::meaning;
use sq_moves::OpeningFault;
use sq_plan::PlanFault;
use sq_schema::OUT_OF_MEMORY;
use thiserror::Error;

/// Why an input can't be run.
#[derive(Clone, Copy, Debug, PartialEq, Eq, Error)]
#[error("{}", meaning(self.number()))]
pub enum InputFault {
    /// A plan of the header is refused.
    Plan(PlanFault),
    /// The plans, sizes or rows of the header are refused.
    Opening(OpeningFault),
    /// A line of the header is missing or malformed (number 121).
    BadHeader,
    /// The input has too many lines, or a line without end (number 122).
    TooLong,
    /// A read failed (number 123).
    ReadFailed,
    /// Memory ran out, at any point.
    Memory,
    /// A line of the header has over [`MAX_LINE`] bytes (number 231, as [`LineFault::TooLong`]).
    #[error("a line of the header has more than {MAX_LINE} bytes")]
    LineTooLong,
}

impl InputFault {
    /// Returns the number that a user sees.
    pub fn number(self) -> u16
        ensures { result ≡ input_fault_number self }
    {
        match self {
            InputFault::Plan(fault) => fault.number(),
            InputFault::Opening(fault) => fault.number(),
            InputFault::BadHeader => 121,
            InputFault::TooLong => 122,
            InputFault::ReadFailed => 123,
            InputFault::Memory => OUT_OF_MEMORY,
            InputFault::LineTooLong => LineFault::TooLong.number(),
        }
    }
}
