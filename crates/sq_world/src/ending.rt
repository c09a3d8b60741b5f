// How runs go on, and how they end.
ghost use Rattle.std.specs.Prelude.{◌≡◌};

use sq_text::LocatedFault;

/// How a run goes on.
#[derive(Clone, Copy, Debug, PartialEq, Eq)]
pub struct ScriptManner {
    /// If true, each line of the script is written before its answer.
    pub echoes: bool,
    /// If true, the run ends after the first refused line.
    pub strict: bool,
}

/// A refused line of a script, after which the run ended.
#[derive(Clone, Copy, Debug, PartialEq, Eq)]
pub struct RefusedLine {
    /// The line's number in the input.
    pub line: u32,
    /// The number of the refusal.
    pub number: u16,
}

/// How a run ended.
#[derive(Clone, Copy, Debug, PartialEq, Eq)]
pub enum Ending {
    /// The script was run to its end, and the dump was written.
    Done,
    /// The script was run up to its first refused line, and the dump was written.
    Stopped(RefusedLine),
    /// The number of a fault was written, without its line, and nothing after it.
    Fault(LocatedFault),
}

impl Ending {
    ghost use Rattle.sq_world.specs.Run.{exit_status_of};

    /// Returns the exit status: 0 if the script was run to its end, 3 if it stopped after a
    /// refusal, 2 after a fault.
    pub fn status(self) -> u8
        ensures { result ≡ exit_status_of self }
    {
        match self {
            Ending::Done => 0,
            Ending::Stopped(_) => 3,
            Ending::Fault(_) => 2,
        }
    }
}
