// The record of an engine that is served.
ghost use Rattle.std.specs.Prelude.{◌≡◌};
ghost use Rattle.sq_report.specs.Tallies.{answers_noted, epochs_noted};
ghost use Rattle.sq_report.specs.OpenJobs.{waited};

use crate::account::{write_account, write_interval_lines};
use crate::account_json::account_json;
use crate::course::{begins_of, course_of};
use crate::engine_svg::write_engine_svg;
use crate::moves::MoveRecord;
use crate::open_jobs::OpenJobs;
use crate::serve_intervals::Intervals;
use crate::tallies::{AnswerTally, EpochTally};
use sq_serving::ServeMark;
use std::alloc::{AllocError, Global};
use std::io;
use std::io::Write;

/// The record of an engine that is served. It takes memory for each job that has no answer, for the
/// jobs that were answered in the running interval, for each interval, and for each move. If memory
/// runs out, it continues, and its summary says so.
#[derive(Drop)]
pub struct ServeRecord {
    answers: AnswerTally,
    epochs: EpochTally,
    jobs: OpenJobs,
    intervals: Intervals,
    moves: MoveRecord,
    is_whole: bool,
}

impl ServeRecord {
    /// The record of an engine that has done nothing yet.
    pub fn new(alloc: Global) -> ServeRecord {
        ServeRecord {
            answers: AnswerTally::NONE,
            epochs: EpochTally::NONE,
            jobs: OpenJobs::new(alloc),
            intervals: Intervals::new(alloc),
            moves: MoveRecord::new(alloc),
            is_whole: true,
        }
    }

    /// Records `mark`, made at `micros` (in microseconds).
    pub fn note(&mut self, mark: ServeMark, micros: u64)
        ensures answers { self.new.answers
            ≡ answers_noted self.old.answers mark (waited self.old.jobs.offered mark micros) }
        ensures epochs { self.new.epochs ≡ epochs_noted self.old.epochs mark micros }
    {
        let wait = self.jobs.wait_of(&mark, micros);
        self.answers = self.answers.noted(&mark, wait);
        self.epochs = self.epochs.noted(&mark, micros);
        let offered = self.jobs.note(&mark, micros);
        let timed = self.intervals.note(&mark, micros, wait);
        let moved = self.moves.note(&mark, micros, wait);
        self.is_whole = self.is_whole && offered.is_ok() && timed.is_ok() && moved.is_ok();
    }

    /// Ends the record at `micros`: the running interval and the running move are over.
    pub fn end(&mut self, micros: u64)
        ensures answers { self.new.answers ≡ self.old.answers }
        ensures epochs { self.new.epochs ≡ self.old.epochs }
    {
        let timed = self.intervals.end();
        let moved = self.moves.end(micros);
        self.is_whole = self.is_whole && timed.is_ok() && moved.is_ok();
    }

    /// Writes a heading, and a line for each interval that is over, as comma-separated values.
    /// Fails if the writer does.
    pub fn write_timeline<W: Write>(&self, writer: &mut W) -> io::Result<()> {
        write_interval_lines(writer, &self.intervals.over)
    }

    /// Writes a chart of how many jobs were answered, and how many segments were complete, over
    /// time: [`write_engine_svg`](crate::engine_svg::write_engine_svg). Fails if the writer does,
    /// or if memory runs out.
    pub fn write_chart<W: Write>(&self, alloc: Global, writer: &mut W) -> io::Result<()> {
        let course = course_of(alloc, &self.intervals.over, &self.moves.done)?;
        let begins = begins_of(alloc, &self.moves.done)?;
        write_engine_svg(alloc, writer, &course, &begins)
    }

    /// Writes the summary as compact JSON, on one line. Fails if the writer does, or if memory runs
    /// out.
    pub fn write_json<W: Write>(&self, alloc: Global, writer: &mut W) -> io::Result<()> {
        let text = account_json(
            alloc,
            self.is_whole,
            self.answers,
            self.epochs,
            &self.moves.done,
        )?;
        writeln!(writer, "{text}")
    }

    /// Writes the summary: a line if memory ran out before all was recorded, how many jobs were
    /// answered, the epochs and the pauses between them, and a line for each move that is done.
    /// Fails if the writer does.
    pub fn write_account<W: Write>(&self, writer: &mut W) -> io::Result<()> {
        write_account(
            writer,
            self.is_whole,
            self.answers,
            self.epochs,
            &self.moves.done,
        )
    }
}
