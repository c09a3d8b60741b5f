// How many jobs an engine had answered, and how many segments were complete, over time.
use crate::moment::Moment;
use crate::moves::MoveTally;
use crate::serve_intervals::IntervalFigures;
use std::alloc::{AllocError, Global};

// The length of an interval, in microseconds.
const MICROS_IN_INTERVAL: u64 = 10_000;

/// The moments at which `intervals` ended, and the end, at which all moves are done. Fails if
/// memory runs out.
pub(crate) fn course_of(
    alloc: Global,
    intervals: &[IntervalFigures],
    moves: &[MoveTally],
) -> Result<Vec<Moment>, AllocError> {
    let mut course = Vec::new(alloc);
    let mut here = Moment {
        micros: 0,
        jobs: 0,
        segments: 0,
        answer: None,
    };
    for interval in intervals {
        here = moment_after(here, *interval, moves);
        course.push(here)?;
    }
    course.push(end_after(here, moves))?;
    Ok(course)
}

// The end of an interval that begins after the moment `before`. The number of segments never falls,
// although that of the running stage does when another stage begins.
fn moment_after(before: Moment, interval: IntervalFigures, moves: &[MoveTally]) -> Moment {
    let micros = interval
        .number
        .saturating_add(1)
        .saturating_mul(MICROS_IN_INTERVAL);
    Moment {
        micros,
        jobs: before.jobs.saturating_add(interval.answered),
        segments: before
            .segments
            .max(segments_at(moves, micros, interval.complete)),
        answer: None,
    }
}

// The end: that of the last interval, or of a move that ended after it.
fn end_after(last: Moment, moves: &[MoveTally]) -> Moment {
    let micros = moves
        .iter()
        .fold(last.micros, |end, tally| end.max(tally.done));
    Moment {
        micros,
        segments: segments_at(moves, micros, 0),
        ..last
    }
}

// How many segments of all moves were complete at `micros`; `complete` is the number of the running
// stage.
fn segments_at(moves: &[MoveTally], micros: u64, complete: u64) -> u64 {
    moves.iter().fold(0, |sum: u64, tally| {
        sum.saturating_add(segments_of(tally, micros, complete))
    })
}

// How many segments of a move were complete at `micros`; `complete` is the number of the running
// stage.
fn segments_of(tally: &MoveTally, micros: u64, complete: u64) -> u64 {
    if tally.done <= micros {
        tally.segments
    } else if tally.began <= micros {
        complete.min(tally.segments)
    } else {
        0
    }
}

/// When each of `moves` began, in microseconds. Fails if memory runs out.
pub(crate) fn begins_of(alloc: Global, moves: &[MoveTally]) -> Result<Vec<u64>, AllocError> {
    moves.iter().map(|tally| tally.began).collect(alloc)
}
