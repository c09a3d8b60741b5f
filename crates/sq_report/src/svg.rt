// The moments of a run as a chart.
ghost use Rattle.std.specs.Prelude.{◌≡◌, ◌<◌};
ghost use Rattle.sq_report.specs.Curves.{share_of};

use crate::chart_intervals::{INTERVALS, intervals_of, write_intervals};
use crate::moment::{Moment, StageStart};
use std::alloc::Global;
use std::io;
use std::io::Write;

/// The left edge of the plot of [`write_svg`].
pub const PLOT_LEFT: u64 = 130;

/// The bottom of that plot, measured from the top of the chart.
pub const PLOT_BOTTOM: u64 = 760;

/// The width of that plot.
pub const PLOT_WIDTH: u64 = 1400;

/// The height of that plot.
pub const PLOT_HEIGHT: u64 = 600;

// What is written before the ticks: the styles, the lines of percentages, and the title of the axis
// of time.
const HEAD: &[u8] =
    br##"<svg xmlns="http://www.w3.org/2000/svg" viewBox="0 0 1600 900" width="960" height="540" font-family="system-ui, sans-serif" font-size="26">
<style>
.back { fill: #fcfcfb } .ink { fill: #0b0b0b } .soft { fill: #52514e }
.grid { stroke: #e1e0d9; stroke-width: 1.5 } .axis { stroke: #a09f95; stroke-width: 2 }
.jobs, .segments { fill: none; stroke-width: 4; stroke-linejoin: round }
.jobs { stroke: #2a78d6 } .segments { stroke: #eb6834; stroke-dasharray: 14 7 }
.rate { fill: #2a78d6; fill-opacity: 0.2 } .stage { stroke: #52514e; stroke-width: 2; stroke-dasharray: 3 6 }
@media (prefers-color-scheme: dark) {
.back { fill: #1a1a19 } .ink { fill: #ffffff } .soft { fill: #c3c2b7 }
.grid { stroke: #2c2c2a } .axis { stroke: #73726b }
.jobs { stroke: #3987e5 } .segments { stroke: #d95926 }
.rate { fill: #3987e5 } .stage { stroke: #c3c2b7 }
}
</style>
<rect class="back" width="1600" height="900"/>
<path class="grid" d="M130 160H1530M130 310H1530M130 460H1530M130 610H1530"/>
<g class="soft" text-anchor="end">
<text x="114" y="169">100%</text><text x="114" y="319">75%</text><text x="114" y="469">50%</text><text x="114" y="619">25%</text><text x="114" y="769">0%</text>
</g>
<text class="ink" x="830" y="866" text-anchor="middle">milliseconds since the first thread began</text>
"##;

/// How many microseconds may lie between two ticks.
const STEPS: [u64; 27] = [
    1,
    2,
    5,
    10,
    20,
    50,
    100,
    200,
    500,
    1_000,
    2_000,
    5_000,
    10_000,
    20_000,
    50_000,
    100_000,
    200_000,
    500_000,
    1_000_000,
    2_000_000,
    5_000_000,
    10_000_000,
    20_000_000,
    50_000_000,
    100_000_000,
    200_000_000,
    500_000_000,
];

// The axis of time.
const AXIS: &[u8] = b"<path class=\"axis\" d=\"M130 760H1530\"/>\n";

// What a curve shows: how many jobs are answered, or how many segments are complete.
#[derive(Clone, Copy)]
enum Curve {
    Jobs,
    Segments,
}

impl Curve {
    // The value of the curve at `moment`.
    fn count(self, moment: Moment) -> u64 {
        match self {
            Curve::Jobs => moment.jobs,
            Curve::Segments => moment.segments,
        }
    }

    fn class(self) -> &'static str {
        match self {
            Curve::Jobs => "jobs",
            Curve::Segments => "segments",
        }
    }

    // Its name in the legend.
    fn name(self) -> &'static str {
        match self {
            Curve::Jobs => "jobs answered",
            Curve::Segments => "segments complete",
        }
    }
}

/// Writes a chart over time: the share of all jobs that were answered, the share of all segments
/// that were complete, how many jobs were answered in each short interval, and when each stage
/// began. `all` is the end of the run, with the numbers of all jobs and all segments. It has a
/// light and a dark color scheme. Fails if the writer does, or if memory runs out.
pub fn write_svg<W: Write>(
    alloc: Global,
    writer: &mut W,
    moments: &[Moment],
    stages: &[StageStart],
    all: Moment,
) -> io::Result<()> {
    let intervals = intervals_of(alloc, moments, interval_len(all.micros))?;
    write_ground(writer, "A live run of", all)?;
    write_intervals(writer, all.micros, &intervals)?;
    for start in stages {
        write_start(writer, all.micros, start.micros, "stage", start.stage)?;
    }
    write_curves(writer, moments, all)
}

/// Writes the title, which begins with `front`, and what is drawn below the curves.
pub(crate) fn write_ground<W: Write>(writer: &mut W, front: &str, all: Moment) -> io::Result<()> {
    let Moment { jobs, segments, .. } = all;
    writer.write_all(HEAD)?;
    writeln!(
        writer,
        "<text class=\"ink\" x=\"130\" y=\"44\" font-size=\"32\">{front} {jobs} jobs while {segments} segments move</text>"
    )?;
    let step = step_within(all.micros, 8);
    for tick in 0..9 {
        write_tick(writer, all.micros, step, tick)?;
    }
    writer.write_all(AXIS)
}

/// Writes a line at the time `start` of a run of `micros`, with the name and the number of the part
/// that begins there.
pub(crate) fn write_start<W: Write>(
    writer: &mut W,
    micros: u64,
    start: u64,
    name: &str,
    number: u64,
) -> io::Result<()> {
    let x = PLOT_LEFT + share_of(start, micros, PLOT_WIDTH);
    writeln!(
        writer,
        "<path class=\"stage\" d=\"M{x} 160V760\"/><text class=\"soft\" x=\"{x}\" y=\"150\" font-size=\"20\">{name} {number}</text>"
    )
}

/// Writes both curves, and the end of the chart.
pub(crate) fn write_curves<W: Write>(
    writer: &mut W,
    moments: &[Moment],
    all: Moment,
) -> io::Result<()> {
    write_curve(writer, Curve::Jobs, all, 130, moments)?;
    write_curve(writer, Curve::Segments, all, 560, moments)?;
    writer.write_all(b"</svg>\n")
}

/// The share of `len` that `part` is of `whole`, rounded down and at most `len`.
pub(crate) fn share_of(part: u64, whole: u64, len: u64) -> u64
    ensures { result ≡ share_of part whole len }
{
    let share = u128::from(len) * u128::from(part) / u128::from(whole.max(1));
    share.min(u128::from(len)) as u64
}

// The first of `STEPS` that fits into `micros` at most `most` times, or else `micros`.
fn step_within(micros: u64, most: u64) -> u64
    requires { 0 < most }
{
    let found = STEPS.iter().find(|step| micros / most < **step);
    found.copied().unwrap_or(micros)
}

/// The length of an interval of a run of `micros`, in microseconds.
pub(crate) fn interval_len(micros: u64) -> u64
    ensures { 0 < result }
{
    step_within(micros, INTERVALS).max(1)
}

// Writes tick number `tick` of an axis of `micros`, with `step` microseconds between two ticks, if
// it is on the axis.
fn write_tick<W: Write>(writer: &mut W, micros: u64, step: u64, tick: u64) -> io::Result<()> {
    let at = u128::from(step) * u128::from(tick);
    if at > u128::from(micros) {
        return Ok(());
    }
    let x = PLOT_LEFT + share_of(at as u64, micros, PLOT_WIDTH);
    write!(
        writer,
        "<path class=\"grid\" d=\"M{x} 160V772\"/><text class=\"soft\" x=\"{x}\" y=\"806\" text-anchor=\"middle\">"
    )?;
    write_label(writer, at as u64)?;
    writer.write_all(b"</text>\n")
}

/// Writes `micros` as milliseconds, with three decimals unless they are zero.
pub(crate) fn write_label<W: Write>(writer: &mut W, micros: u64) -> io::Result<()> {
    let millis = micros / 1000;
    let rest = micros % 1000;
    if rest == 0 {
        write!(writer, "{millis}")
    } else {
        write!(writer, "{millis}.{rest:03}")
    }
}

// Writes the legend of a curve, `at` from the left, and the curve: from the start at 0, with a step
// at each moment, to the end.
fn write_curve<W: Write>(
    writer: &mut W,
    curve: Curve,
    all: Moment,
    at: u64,
    moments: &[Moment],
) -> io::Result<()>
    requires { at < 2000 }
{
    let (class, name, count) = (curve.class(), curve.name(), curve.count(all));
    let (end, text) = (at + 64, at + 80);
    writeln!(
        writer,
        "<path class=\"{class}\" d=\"M{at} 81H{end}\"/><text class=\"ink\" x=\"{text}\" y=\"90\">{name}, of {count}</text>"
    )?;
    write!(writer, "<path class=\"{class}\" d=\"M130 760")?;
    for moment in moments {
        let x = PLOT_LEFT + share_of(moment.micros, all.micros, PLOT_WIDTH);
        let y = PLOT_BOTTOM - share_of(curve.count(*moment), count, PLOT_HEIGHT);
        write!(writer, "H{x}V{y}")?;
    }
    writer.write_all(b"H1530\"/>\n")
}
