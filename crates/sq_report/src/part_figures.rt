// How jobs ended at a partition.
ghost use Rattle.std.specs.Prelude.{◌≡◌, IfOk};
ghost use Rattle.sq_report.specs.PartsFigured.{times_at, waited_times_at, wait_times_at, ArePartFigures};

use crate::moment::TimedAnswer;
use crate::spread::{Spread, spread_of};
use std::alloc::{AllocError, Global};

/// How jobs ended at a partition.
#[derive(Clone, Copy, Debug, PartialEq, Eq)]
pub struct PartFigures {
    pub part: u8,
    /// How many it committed.
    pub committed: u64,
    /// How many it aborted.
    pub aborted: u64,
    /// How many of its jobs had waited there for rows before they were answered.
    pub waited: u64,
    /// How long its jobs took from their posting to their answer, in microseconds; `None` if it had
    /// none.
    pub answers: Option<Spread>,
    /// The same of those jobs that had waited; `None` if none had.
    pub waited_answers: Option<Spread>,
    /// How long those jobs had waited there for rows; `None` if none had.
    pub waits: Option<Spread>,
}

impl PartFigures {
    /// The figures of partition `part`, which committed and aborted so many jobs; `answers` are
    /// those of all partitions. Fails only if memory runs out.
    pub fn of_answers(
        alloc: Global,
        part: u8,
        committed: u64,
        aborted: u64,
        answers: &[TimedAnswer],
    ) -> Result<PartFigures, AllocError>
        ensures { IfOk result (ArePartFigures part committed aborted answers.now) }
    {
        let times = times_at(alloc, answers, part)?;
        let waited_times = waited_times_at(alloc, answers, part)?;
        let waits = wait_times_at(alloc, answers, part)?;
        Ok(PartFigures {
            part,
            committed,
            aborted,
            waited: waits.len() as u64,
            answers: spread_of(times),
            waited_answers: spread_of(waited_times),
            waits: spread_of(waits),
        })
    }
}

// How long the jobs took that `part` answered.
fn times_at(alloc: Global, answers: &[TimedAnswer], part: u8) -> Result<Vec<u64>, AllocError>
    ensures { IfOk result (λ times. times.items ≡ times_at answers.now part) }
{
    let own = answers.iter().filter(|answer| answer.part == part);
    own.map(|answer| answer.micros_since_post).collect(alloc)
}

// How long those of them took that had waited there.
fn waited_times_at(alloc: Global, answers: &[TimedAnswer], part: u8) -> Result<Vec<u64>, AllocError>
    ensures { IfOk result (λ times. times.items ≡ waited_times_at answers.now part) }
{
    let own = answers
        .iter()
        .filter(|answer| answer.part == part && answer.waited.is_some());
    own.map(|answer| answer.micros_since_post).collect(alloc)
}

// How long the jobs had waited that `part` answered.
fn wait_times_at(alloc: Global, answers: &[TimedAnswer], part: u8) -> Result<Vec<u64>, AllocError>
    ensures { IfOk result (λ waits. waits.items ≡ wait_times_at answers.now part) }
{
    let own = answers.iter().filter(|answer| answer.part == part);
    own.filter_map(|answer| answer.waited).collect(alloc)
}
