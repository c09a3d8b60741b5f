// How many jobs were answered in each short interval.
ghost use Rattle.std.specs.Prelude.{◌≡◌, ◌<◌, map, IfOk};
ghost use Rattle.std.specs.List.{range_with_len};
ghost use Rattle.sq_report.specs.SummaryIntervals.{answered_in, interval_of, most_in};

use crate::moment::Moment;
use crate::svg::{
    PLOT_BOTTOM, PLOT_HEIGHT, PLOT_LEFT, PLOT_WIDTH, interval_len, share_of, write_label,
};
use std::alloc::{AllocError, Global};
use std::io;
use std::io::Write;

/// The most intervals of a run.
pub(crate) const INTERVALS: u64 = 64;

/// An interval of a run.
#[derive(Clone, Copy, Debug, PartialEq, Eq)]
pub(crate) struct Interval {
    /// Its number, from 0.
    pub(crate) number: u64,
    /// How many jobs were answered in it.
    pub(crate) jobs: u64,
}

/// The intervals of a run, each `len` microseconds long. Fails if memory runs out.
pub(crate) fn intervals_of(
    alloc: Global,
    moments: &[Moment],
    len: u64,
) -> Result<Vec<Interval>, AllocError>
    requires { 0 < len }
    ensures { IfOk result (λ intervals. intervals.items
        ≡ map (interval_of moments.now len) (range_with_len 0 INTERVALS)) }
{
    (0..INTERVALS)
        .map(|number| Interval {
            number,
            jobs: answered_in(moments, len, number),
        })
        .collect(alloc)
}

// How many jobs were answered in interval `number`, each `len` microseconds long.
fn answered_in(moments: &[Moment], len: u64, number: u64) -> u64
    requires { 0 < len }
    ensures { result ≡ answered_in moments.now len number }
{
    let answers = moments.iter().filter(|moment| moment.answer.is_some()
        && moment.micros / len == number);
    answers.count() as u64
}

// The most jobs that were answered in one of these intervals.
fn most_in(intervals: &[Interval]) -> u64
    ensures { result ≡ most_in intervals.now }
{
    intervals
        .iter()
        .fold(0, |most, interval| most.max(interval.jobs))
}

/// Writes how many jobs were answered in each interval of a run of `micros`: an area that reaches
/// the top of the chart at the highest number, and that number.
pub(crate) fn write_intervals<W: Write>(
    writer: &mut W,
    micros: u64,
    intervals: &[Interval],
) -> io::Result<()> {
    let len = interval_len(micros);
    let most = most_in(intervals);
    writer.write_all(
        b"<path class=\"rate\" d=\"M1030 64H1094V90H1030Z\"/><text class=\"ink\" x=\"1110\" y=\"90\">jobs in each ",
    )?;
    write_label(writer, len)?;
    writeln!(writer, " ms, up to {most}</text>")?;
    writer.write_all(b"<path class=\"rate\" d=\"M130 760")?;
    for interval in intervals {
        write_interval(writer, micros, len, most, *interval)?;
    }
    writer.write_all(b"H1530V760Z\"/>\n")
}

// Writes the step of an interval `len` microseconds long, if it begins within the run of `micros`.
fn write_interval<W: Write>(
    writer: &mut W,
    micros: u64,
    len: u64,
    most: u64,
    interval: Interval,
) -> io::Result<()> {
    let start = u128::from(len) * u128::from(interval.number);
    if start > u128::from(micros) {
        return Ok(());
    }
    let x = PLOT_LEFT + share_of(start as u64, micros, PLOT_WIDTH);
    let y = PLOT_BOTTOM - share_of(interval.jobs, most, PLOT_HEIGHT);
    write!(writer, "H{x}V{y}")
}
