// The short intervals of an engine's service.
ghost use Rattle.std.specs.Prelude.{◌≡◌, ◌+◌, OnOk};
ghost use Rattle.sq_report.specs.ServeIntervals.{answers_in, answers_recorded, IsIntervalOf};
ghost use Rattle.sq_report.specs.ServeIntervals.{EndsInterval};

use crate::spread::{Spread, spread_of};
use crate::tallies::MovedTally;
use sq_serving::ServeMark;
use std::alloc::{AllocError, Global};
use std::mem;

// The length of an interval, in microseconds.
const MICROS_IN_INTERVAL: u64 = 10_000;

#[derive(Clone, Copy)]
pub(crate) struct IntervalFigures {
    /// Its number, from 0.
    pub(crate) number: u64,
    /// How many jobs were answered in it.
    pub(crate) answered: u64,
    /// How long those jobs waited, in microseconds; `None` if there were none.
    pub(crate) waits: Option<Spread>,
    /// What was moved in it.
    pub(crate) moved: MovedTally,
    /// How many segments of the running stage were complete at its end.
    pub(crate) complete: u64,
}

/// The running interval, and those that are over in which a job was answered or a family was moved.
#[derive(Drop)]
pub(crate) struct Intervals {
    pub(crate) over: Vec<IntervalFigures>,
    alloc: Global,
    number: u64,
    // How long the jobs waited that were answered in the running interval, and what was moved in
    // it.
    waits: Vec<u64>,
    moved: MovedTally,
    complete: u64,
}

impl Intervals {
    /// Intervals of which the first runs.
    pub(crate) fn new(alloc: Global) -> Intervals {
        Intervals {
            over: Vec::new(alloc),
            alloc,
            number: 0,
            waits: Vec::new(alloc),
            moved: MovedTally::NONE,
            complete: 0,
        }
    }

    /// Records `mark`, made at `micros`; `wait` is how long the job it answers waited.
    pub(crate) fn note(
        &mut self,
        mark: &ServeMark,
        micros: u64,
        wait: u64,
    ) -> Result<(), AllocError>
        ensures { OnOk result
            (answers_recorded self.new ≡ answers_recorded self.old + answers_in mark.now) }
    {
        self.reach(micros / MICROS_IN_INTERVAL)?;
        self.enter(mark, wait)
    }

    /// Ends the running interval.
    pub(crate) fn end(&mut self) -> Result<(), AllocError>
        ensures over { OnOk result (EndsInterval self.old self.new) }
        ensures answered { OnOk result (answers_recorded self.new ≡ answers_recorded self.old) }
    {
        let waits = mem::replace(&mut self.waits, Vec::new(self.alloc));
        let moved = mem::replace(&mut self.moved, MovedTally::NONE);
        if waits.is_empty() && moved.families == 0 {
            return Ok(());
        }
        self.over
            .push(figures_of(self.number, waits, moved, self.complete))?;
        Ok(())
    }

    // Ends the running interval, unless it is interval `number`, and begins that one.
    fn reach(&mut self, number: u64) -> Result<(), AllocError>
        ensures { OnOk result (answers_recorded self.new ≡ answers_recorded self.old) }
    {
        if number == self.number {
            return Ok(());
        }
        let ended = self.end();
        self.number = number;
        ended
    }

    // Records `mark` in the running interval.
    fn enter(&mut self, mark: &ServeMark, wait: u64) -> Result<(), AllocError>
        ensures { OnOk result
            (answers_recorded self.new ≡ answers_recorded self.old + answers_in mark.now) }
    {
        self.moved = self.moved.noted(mark);
        match *mark {
            ServeMark::JobAnswered { .. } => self.waits.push(wait)?,
            ServeMark::SegmentsComplete { complete } => self.complete = complete,
            ServeMark::EpochBegins => self.complete = 0,
            _ => {}
        }
        Ok(())
    }
}

// The figures of interval `number`; `waits` are how long the jobs waited that were answered in it.
fn figures_of(number: u64, waits: Vec<u64>, moved: MovedTally, complete: u64) -> IntervalFigures
    ensures { IsIntervalOf number waits.items moved complete result }
{
    let answered = waits.len() as u64;
    IntervalFigures {
        number,
        answered,
        waits: spread_of(waits),
        moved,
        complete,
    }
}
