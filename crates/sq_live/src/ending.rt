// Endings of live runs.
ghost use Rattle.std.specs.Prelude.{◌≡◌};
ghost use Rattle.sq_live.specs.Live.{ending_status};

use crate::fault::LiveFault;
use crate::outcome::LiveOutcome;

/// How a live run ends.
#[derive(Clone, Copy, Debug, PartialEq, Eq)]
pub enum LiveEnding {
    /// The run has this outcome, whose line was written.
    Done(LiveOutcome),
    /// The input or the run has this fault, whose number was written.
    Fault(LiveFault),
}

impl LiveEnding {
    /// Returns the exit status: that of the outcome, or 2 for a fault.
    pub fn status(self) -> u8
        ensures { result ≡ ending_status self }
    {
        match self {
            LiveEnding::Done(outcome) => outcome.status(),
            LiveEnding::Fault(_) => 2,
        }
    }
}
