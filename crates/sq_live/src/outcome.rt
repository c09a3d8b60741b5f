// The outcomes of live runs.
ghost use Rattle.std.specs.Prelude.{◌≡◌, OnOk};
ghost use Rattle.std.specs.Io.KnownBytes.{Appends};
ghost use Rattle.sq_live.specs.Outcome.{outcome_status, outcome_line};

use sq_audit::Defect;
use std::io;
use std::io::Write;

/// The outcome of a live run.
#[derive(Clone, Copy, Debug, PartialEq, Eq)]
pub enum LiveOutcome {
    /// Each job is answered, each segment is complete, and each audit found the gathered state
    /// sound.
    Sound {
        /// How many families all stores have together.
        families: u64,
        /// How many jobs committed, over all stages.
        committed: u64,
    },
    /// A segment of a stage is not complete, or after the last stage a job is not answered. What
    /// that stage left was not audited.
    Stopped {
        /// How many jobs are answered.
        answered: u64,
        /// How many jobs there are.
        jobs: u64,
        /// How many segments are complete.
        complete: u64,
        /// How many segments there are.
        segments: u64,
    },
    /// The first defect that an audit found: after the last stage, once each job is answered and
    /// each segment complete, or between two stages, before the logs were folded.
    Unsound(Defect),
}

impl LiveOutcome {
    /// Returns the exit status: 0 if the run is sound, 3 if it stopped, and 4 if it is not sound.
    pub fn status(self) -> u8
        ensures { result ≡ outcome_status self }
    {
        match self {
            LiveOutcome::Sound { .. } => 0,
            LiveOutcome::Stopped { .. } => 3,
            LiveOutcome::Unsound(_) => 4,
        }
    }
}

/// Writes the line of `outcome`. An error is the writer's.
pub fn write_outcome<W: Write>(writer: &mut W, outcome: LiveOutcome) -> io::Result<()>
    ensures { OnOk result (Appends (W.contents writer.old) (W.contents writer.new)
        (outcome_line outcome)) }
{
    match outcome {
        LiveOutcome::Sound {
            families,
            committed,
        } => writeln!(writer, "sound {families} families {committed} committed"),
        LiveOutcome::Stopped {
            answered,
            jobs,
            complete,
            segments,
        } => writeln!(
            writer,
            "stopped {answered} of {jobs} jobs, {complete} of {segments} segments"
        ),
        LiveOutcome::Unsound(defect) => {
            let number = defect.number();
            writeln!(writer, "unsound {number}")
        }
    }
}
