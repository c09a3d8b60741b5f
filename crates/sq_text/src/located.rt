// Faults of an input, with their lines.
ghost use Rattle.std.specs.Prelude.{◌≡◌, ◌+◌, ◌<◌, ◌^◌, None, Some};
ghost use Rattle.sq_text.specs.Located.{line_number, located, of_opening};

use crate::input_fault::InputFault;
use crate::reader::MAX_LINES;
use sq_explain::meaning;
use sq_moves::OpeningFault;
use sq_plan::PlanFault;
use std::fmt;
use std::fmt::{Display, Formatter, Write};

/// A line of an input.
#[derive(Clone, Copy, Debug, PartialEq, Eq)]
pub enum InputLine {
    /// The first line, with the old plan.
    Old,
    /// The second line, with the new plan.
    New,
    /// The third line, with the sizes.
    Config,
    /// An opening row, numbered from 0 after the sizes.
    Row(usize),
    /// A line after the header, by its number in the input; the first line of the input is 1.
    Later(u32),
}

impl InputLine {
    /// The line after the last one that an input may have.
    pub const AFTER_THE_LAST: InputLine = InputLine::Later(MAX_LINES + 1);

    /// Returns the line's number in the input; the first line is 1.
    pub fn number(self) -> u64
        ensures { line_number self < 2 ^ 64 → result ≡ line_number self }
    {
        match self {
            InputLine::Old => 1,
            InputLine::New => 2,
            InputLine::Config => 3,
            InputLine::Row(at) => (at as u64).saturating_add(4),
            InputLine::Later(number) => u64::from(number),
        }
    }
}

/// A fault of an input, with its line.
#[derive(Clone, Copy, Debug, PartialEq, Eq)]
pub struct LocatedFault {
    pub fault: InputFault,
    /// The line; `None` if the fault belongs to none, as when memory ran out.
    pub line: Option<InputLine>,
}

impl InputFault {
    /// Returns the fault, located at `line`.
    pub fn at(self, line: InputLine) -> LocatedFault
        ensures { result ≡ located self (Some line) }
    {
        LocatedFault {
            fault: self,
            line: Some(line),
        }
    }

    /// Returns the fault without a line.
    pub fn at_no_line(self) -> LocatedFault
        ensures { result ≡ located self None }
    {
        LocatedFault {
            fault: self,
            line: None,
        }
    }
}

/// Writes the line's number, if there is a line, and then the fault's [`Meaning`].
impl Display for LocatedFault {
    fn fmt<W: Write>(&self, f: &mut Formatter<W>) -> fmt::Result {
        if let Some(line) = self.line {
            write!(f, "line {}: ", line.number())?;
        }
        write!(f, "{}", Meaning(self))
    }
}

/// The number and the meaning of a fault, without its line; a plan is named as the old or the new
/// one.
#[derive(Clone, Copy)]
pub struct Meaning<'a>(pub &'a LocatedFault);

impl Display for Meaning<'_> {
    fn fmt<W: Write>(&self, f: &mut Formatter<W>) -> fmt::Result {
        let fault = self.0.fault;
        write!(f, "fault {}: ", fault.number())?;
        match (self.0.line, fault) {
            (Some(InputLine::Old), InputFault::Plan(fault)) => write!(f, "the old {}", bare(fault)),
            (Some(InputLine::New), InputFault::Plan(fault)) => write!(f, "the new {}", bare(fault)),
            _ => write!(f, "{fault}"),
        }
    }
}

// Returns the meaning of a plan's fault without its leading article.
fn bare(fault: PlanFault) -> &'static str {
    let text = meaning(fault.number());
    text.strip_prefix("a ").unwrap_or(text)
}

impl From<OpeningFault> for LocatedFault {
    ghost use Rattle.sq_text.specs.Located.{of_opening};

    ghost from_gives = { λ fault told. told ≡ of_opening fault };

    fn from(fault: OpeningFault) -> LocatedFault {
        match fault {
            OpeningFault::Memory => InputFault::Memory.at_no_line(),
            OpeningFault::Row(at, _) | OpeningFault::Place(at, _) => {
                InputFault::Opening(fault).at(InputLine::Row(at))
            }
            fault => InputFault::Opening(fault).at(InputLine::Config),
        }
    }
}
