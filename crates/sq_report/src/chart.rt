// The chart of a run.
ghost use Rattle.std.specs.Prelude.{◌≡◌, ◌+◌, ◌*◌, ◌<◌, ◌≤◌};

use crate::moment::{Moment, StageStart};
use crate::svg::{PLOT_BOTTOM, PLOT_HEIGHT, PLOT_LEFT, PLOT_WIDTH, write_svg};
use crate::waiting::{WaitCount, most_of};
use std::alloc::{AllocError, Global};
use std::io;
use std::io::Write;

// The width of the whole chart.
const CHART_WIDTH: u64 = 1600;

// The end of a chart.
const END: &[u8] = b"</svg>\n";

// The style of the curve of the jobs that wait.
const STYLE: &[u8] = b"<style>
.waiting { fill: none; stroke: #4f9d2f; stroke-width: 4; stroke-linejoin: round }
@media (prefers-color-scheme: dark) { .waiting { stroke: #6fbf4b } }
</style>
";

/// What a chart shows.
#[derive(Clone, Copy)]
pub(crate) struct Course<'a> {
    /// What was done by each event.
    pub(crate) moments: &'a [Moment],
    pub(crate) stages: &'a [StageStart],
    /// How many jobs waited, from each time at which their number may change.
    pub(crate) waiting: &'a [WaitCount],
    /// The end of the run, with the numbers of all jobs and all segments.
    pub(crate) all: Moment,
}

/// Writes the chart of [`write_svg`], and in it which share of all jobs waited for rows. A stage has
/// its name if there is room for it after the name before, and else a tick. Fails if the writer
/// does, or if memory runs out.
pub(crate) fn write_chart<W: Write>(
    alloc: Global,
    writer: &mut W,
    course: &Course<'_>,
) -> io::Result<()> {
    let starts = Starts::of(alloc, course.stages, course.all.micros)?;
    let mut chart = Vec::new(alloc);
    write_svg(alloc, &mut chart, course.moments, &starts.named, course.all)?;
    let front = chart.strip_suffix(END).unwrap_or(&chart);
    writer.write_all(front)?;
    write_ticks(writer, &starts.others, course.all.micros)?;
    write_waiting(writer, course.waiting, course.all)?;
    writer.write_all(END)
}

// The starts of stages that have names in a chart, and those of the others.
#[derive(Drop)]
struct Starts {
    named: Vec<StageStart>,
    others: Vec<StageStart>,
}

impl Starts {
    // These starts, in a run of `micros`.
    fn of(alloc: Global, stages: &[StageStart], micros: u64) -> Result<Starts, AllocError> {
        let mut starts = Starts {
            named: Vec::new(alloc),
            others: Vec::new(alloc),
        };
        let mut free = PLOT_LEFT;
        for start in stages {
            let place = place_of(start.micros, micros);
            let end = place.saturating_add(name_width(start.stage));
            if free <= place && end <= CHART_WIDTH {
                starts.named.push(*start)?;
                free = end;
            } else {
                starts.others.push(*start)?;
            }
        }
        Ok(starts)
    }
}

// The width of the name of a stage, with a space after it.
fn name_width(stage: u64) -> u64 {
    match stage {
        0..=9 => 82,
        10..=99 => 95,
        100..=999 => 108,
        _ => 121,
    }
}

// Where the time `at` in a run of `micros` is on the axis.
fn place_of(at: u64, micros: u64) -> u64 {
    PLOT_LEFT.saturating_add(scaled(at, micros, PLOT_WIDTH))
}

// The share of `len` that `part` is of `whole`, rounded down and at most `len`.
fn scaled(part: u64, whole: u64, len: u64) -> u64
    ensures share { part ≤ whole → result * whole ≤ len * part }
    ensures rounded { 0 < whole → part ≤ whole → len * part < (result + 1) * whole }
    ensures most { whole < part → result ≡ len }
    ensures none { part ≡ 0 → result ≡ 0 }
{
    let share = u128::from(len) * u128::from(part) / u128::from(whole.max(1));
    share.min(u128::from(len)) as u64
}

// Writes a tick below the top of the plot for each of these starts.
fn write_ticks<W: Write>(writer: &mut W, starts: &[StageStart], micros: u64) -> io::Result<()> {
    if starts.is_empty() {
        return Ok(());
    }
    writer.write_all(b"<path class=\"axis\" d=\"")?;
    for start in starts {
        let place = place_of(start.micros, micros);
        write!(writer, "M{place} 160V174")?;
    }
    writer.write_all(b"\"/>\n")
}

// Writes the legend of the jobs that wait, and their curve: from 0, with a step at each change, to
// the end.
fn write_waiting<W: Write>(writer: &mut W, waiting: &[WaitCount], all: Moment) -> io::Result<()> {
    let most = most_of(waiting);
    writer.write_all(STYLE)?;
    writeln!(
        writer,
        "<path class=\"waiting\" d=\"M1030 35H1094\"/><text class=\"ink\" x=\"1110\" y=\"44\">jobs waiting, up to {most}</text>"
    )?;
    write!(
        writer,
        "<path class=\"waiting\" d=\"M{PLOT_LEFT} {PLOT_BOTTOM}"
    )?;
    for here in waiting {
        let x = place_of(here.micros, all.micros);
        let y = PLOT_BOTTOM.saturating_sub(scaled(here.jobs, all.jobs, PLOT_HEIGHT));
        write!(writer, "H{x}V{y}")?;
    }
    writer.write_all(b"H1530\"/>\n")
}
