// How an engine that is served ends.
ghost use Rattle.std.specs.Prelude.{◌≡◌};
ghost use Rattle.sq_serving.specs.Ending.{serve_status, input_status, outcome_refused};

use crate::line_place::HeaderFault;
use sq_audit::Defect;

/// How far the input of an engine was taken.
#[derive(Clone, Copy, Debug, PartialEq, Eq)]
pub enum InputOutcome {
    /// To its end.
    Whole,
    /// Up to a line with a fault after which nothing more is read.
    Broken,
    /// Up to the first line that was refused or has a fault, which ends a strict input.
    Refused,
}

/// How an engine that is served ends.
#[derive(Clone, Copy, Debug)]
pub enum ServeEnding {
    /// All jobs are answered.
    Sound {
        families: u64,
        committed: u64,
        input: InputOutcome,
    },
    /// The engine has this defect: a receipt that is no open job's, or a job without an answer.
    Unsound(Defect),
    /// The header has this fault.
    NoHeader(HeaderFault),
    /// Memory ran out.
    Memory,
    /// The system grants fewer threads than the engine has nodes, or no memory for one.
    Threads,
    /// An answer couldn't be written.
    Unwritten,
}

impl ServeEnding {
    /// The exit status: that of the input if the engine ends sound (0, 2 or 3), 4 if it is unsound,
    /// else 2.
    pub fn status(self) -> u8
        ensures { result ≡ serve_status self }
    {
        match self {
            ServeEnding::Sound { input, .. } => input.status(),
            ServeEnding::Unsound(_) => 4,
            ServeEnding::NoHeader(_)
            | ServeEnding::Memory
            | ServeEnding::Threads
            | ServeEnding::Unwritten => 2,
        }
    }
}

impl InputOutcome {
    // The exit status of an engine that ends sound: 0 for a whole input, 2 for a broken one, 3 for
    // a refused line.
    fn status(self) -> u8
        ensures { result ≡ input_status self }
    {
        match self {
            InputOutcome::Whole => 0,
            InputOutcome::Broken => 2,
            InputOutcome::Refused => 3,
        }
    }

    // The outcome after a line of a strict input was refused. A broken input stays broken.
    pub(crate) fn refused(before: Option<InputOutcome>) -> InputOutcome
        ensures { result ≡ outcome_refused before }
    {
        match before {
            Some(InputOutcome::Broken) => InputOutcome::Broken,
            Some(InputOutcome::Whole | InputOutcome::Refused) | None => InputOutcome::Refused,
        }
    }
}
