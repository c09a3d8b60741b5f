// The course of an engine as a chart.
ghost use Rattle.std.specs.Prelude.{◌<◌};

use crate::chart_intervals::{INTERVALS, Interval, write_intervals};
use crate::moment::Moment;
use crate::svg::{interval_len, write_curves, write_ground, write_start};
use std::alloc::{AllocError, Global};
use std::io;
use std::io::Write;

/// Writes a chart over time of how many jobs an engine had answered, how many segments were
/// complete, how many jobs were answered in each short interval, and when each move began. `course`
/// rises in both counts, and ends with their totals; `begins` are the times of the moves in
/// microseconds. Fails if the writer does, or if memory runs out.
pub fn write_engine_svg<W: Write>(
    alloc: Global,
    writer: &mut W,
    course: &[Moment],
    begins: &[u64],
) -> io::Result<()> {
    let all = end_of(course);
    let intervals = answers_in_intervals(alloc, course, interval_len(all.micros))?;
    write_ground(writer, "An engine that answers", all)?;
    write_intervals(writer, all.micros, &intervals)?;
    for (number, begin) in begins.iter().enumerate() {
        write_start(writer, all.micros, *begin, "move", number as u64)?;
    }
    write_curves(writer, course, all)
}

// The last moment of `course`, or one at time 0 with nothing done.
fn end_of(course: &[Moment]) -> Moment {
    let nothing = Moment {
        micros: 0,
        jobs: 0,
        segments: 0,
        answer: None,
    };
    course.last().copied().unwrap_or(nothing)
}

// How many jobs were answered in each interval, `len` microseconds long.
fn answers_in_intervals(
    alloc: Global,
    course: &[Moment],
    len: u64,
) -> Result<Vec<Interval>, AllocError>
    requires { 0 < len }
{
    (0..INTERVALS)
        .map(|number| Interval {
            number,
            jobs: answers_up_to(course, len, number + 1).saturating_sub(answers_up_to(
                course, len, number,
            )),
        })
        .collect(alloc)
}

// How many jobs were answered before interval `number`, each `len` microseconds long. The counts of
// a moment are of what happened before its time.
fn answers_up_to(course: &[Moment], len: u64, number: u64) -> u64
    requires { 0 < len }
{
    let before = course
        .iter()
        .filter(|moment| moment.micros.saturating_sub(1) / len < number);
    before.fold(0, |most, moment| most.max(moment.jobs))
}
