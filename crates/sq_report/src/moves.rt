// The moves of an engine that is served.
ghost use Rattle.std.specs.Prelude.{◌≡◌, OnOk, option_map};
ghost use Rattle.sq_report.specs.Moves.{move_begun, move_noted, EndsMove, BeginsMove};
ghost use Rattle.sq_report.specs.Moves.{NotesMove};

use crate::tallies::{AnswerTally, MovedTally};
use sq_serving::ServeMark;
use std::alloc::{AllocError, Global};

/// What was done while rows moved.
#[derive(Clone, Copy)]
pub(crate) struct MoveTally {
    /// How many segments moved.
    pub(crate) segments: u64,
    /// How many families and bytes moved.
    pub(crate) moved: MovedTally,
    /// When it began and when it was done, in microseconds.
    pub(crate) began: u64,
    pub(crate) done: u64,
    /// The jobs that were answered during the move.
    pub(crate) answers: AnswerTally,
}

impl MoveTally {
    // The tally of a move of `segments` segments that begins at `micros`.
    fn begun(segments: u64, micros: u64) -> MoveTally
        ensures { result ≡ move_begun segments micros }
    {
        MoveTally {
            segments,
            moved: MovedTally::NONE,
            began: micros,
            done: micros,
            answers: AnswerTally::NONE,
        }
    }

    // The tally after `mark`; `wait` is how long the job it answers waited.
    fn noted(self, mark: &ServeMark, wait: u64) -> MoveTally
        ensures { result ≡ move_noted self mark.now wait }
    {
        MoveTally {
            moved: self.moved.noted(mark),
            answers: self.answers.noted(mark, wait),
            ..self
        }
    }
}

/// The moves that are done, and the running one.
#[derive(Drop)]
pub(crate) struct MoveRecord {
    pub(crate) done: Vec<MoveTally>,
    running: Option<MoveTally>,
}

impl MoveRecord {
    /// A record without moves.
    pub(crate) fn new(alloc: Global) -> MoveRecord {
        MoveRecord {
            done: Vec::new(alloc),
            running: None,
        }
    }

    /// Records `mark`, made at `micros`; `wait` is how long the job it answers waited.
    pub(crate) fn note(
        &mut self,
        mark: &ServeMark,
        micros: u64,
        wait: u64,
    ) -> Result<(), AllocError>
        ensures { OnOk result (NotesMove self.old mark.now micros wait self.new) }
    {
        match *mark {
            ServeMark::MoveBegins { segments } => self.begin(segments, micros),
            ServeMark::MoveEnds => self.end(micros),
            _ => {
                self.enter(mark, wait);
                Ok(())
            }
        }
    }

    /// Ends the running move, if there is one, at `micros`.
    pub(crate) fn end(&mut self, micros: u64) -> Result<(), AllocError>
        ensures { OnOk result (EndsMove self.old micros self.new) }
    {
        match self.running.take() {
            Some(running) => {
                self.done.push(MoveTally {
                    done: micros,
                    ..running
                })?;
                Ok(())
            }
            None => Ok(()),
        }
    }

    // Begins a move of `segments` segments at `micros`, and ends a running one.
    fn begin(&mut self, segments: u64, micros: u64) -> Result<(), AllocError>
        ensures { OnOk result (BeginsMove self.old segments micros self.new) }
    {
        self.end(micros)?;
        self.running = Some(MoveTally::begun(segments, micros));
        Ok(())
    }

    // Records `mark` in the running move.
    fn enter(&mut self, mark: &ServeMark, wait: u64)
        ensures done { self.new.done ≡ self.old.done }
        ensures running { self.new.running
            ≡ option_map (λ running. move_noted running mark.now wait) self.old.running }
    {
        if let Some(running) = self.running {
            self.running = Some(running.noted(mark, wait));
        }
    }
}
