// The subcommands that work on an input: `run`, `ranges`, `live` and `steps`.
ghost use Rattle.std.specs.Prelude.{IfOk};
ghost use Rattle.clap.specs.Matches.{found_of};
ghost use Rattle.clap.specs.Walk.{rows_of};
ghost use Rattle.sq_command.specs.Commands.{HasShape, run_shape, ranges_shape, numbered_shape, live_shape, steps_shape};
ghost use Rattle.sq_command.specs.Options.{Asks, LacksPlan};
ghost use Rattle.sq_command.specs.Line.{IsWorkLine, IsRunTask, IsRangesTask, IsLiveTask, IsStepsTask, IsFormOf, FormClash, RangesClash, IsJsonOf, EchoClash, RunClash, LineIsWithin};

use crate::clash::Clash;
use crate::commands::{counted, subcommand, with, with_flag, with_input, with_path};
use crate::help;
use crate::line::{Form, Line, LiveOptions, Task};
use crate::options::{input_of, is_given, name_of, number_of};
use clap::{ArgMatches, Command};
use std::alloc::{AllocError, Global};

/// The largest number for `--turns`.
pub const MAX_TURNS: u64 = 1_000_000_000;

/// The largest number for `--pumps`.
pub const MAX_PUMPS: u64 = 16;

/// The defaults of `--turns` and `--pumps`.
pub const TURNS: u64 = 1_000_000;

pub const PUMPS: u64 = 1;

/// The subcommand `run`, which executes the steps of a script.
pub fn run<'a>(alloc: Global) -> Result<Command<'a>, AllocError>
    ensures { HasShape run_shape result }
{
    let plain = Ok(subcommand(alloc, "run", help::RUN_ABOUT, help::RUN));
    let echoing = with_flag(alloc, plain, "echo", help::ECHO);
    let with_json = with_flag(alloc, echoing, "json", help::RUN_JSON);
    let stopping = with_flag(alloc, with_json, "strict", help::STRICT);
    let keeping = with_path(alloc, stopping, "rows-out", help::ROWS_OUT);
    with_input(alloc, keeping)
}

/// The run that `options` ask for. Fails if `--json` is given without `--echo`, or if a file of a
/// plan is missing.
pub fn run_line<'a>(options: &ArgMatches<'a>) -> Result<Line<'a>, Clash>
    ensures line { Asks (IsWorkLine IsRunTask) RunClash (rows_of (found_of options.now)) result }
    ensures within { IfOk result LineIsWithin }
{
    let task = Task::Run {
        echoes: is_given(options, "echo"),
        strict: is_given(options, "strict"),
        json: json_of(options)?,
        rows_out: name_of(options, "rows-out"),
    };
    Ok(Line::Work {
        task,
        input: input_of(options)?,
    })
}

// Whether `options` of a run ask for JSON. Fails if they do without `--echo`.
fn json_of(options: &ArgMatches<'_>) -> Result<bool, Clash>
    ensures { Asks IsJsonOf EchoClash (rows_of (found_of options.now)) result }
{
    match (is_given(options, "json"), is_given(options, "echo")) {
        (true, false) => Err(Clash::NoEcho),
        (json, _) => Ok(json),
    }
}

/// The subcommand `ranges`, which lists what moves.
pub fn ranges<'a>(alloc: Global) -> Result<Command<'a>, AllocError>
    ensures { HasShape ranges_shape result }
{
    let plain = Ok(subcommand(alloc, "ranges", help::RANGES_ABOUT, help::RANGES));
    let with_json = with_flag(alloc, plain, "json", help::JSON);
    let with_svg = with_flag(alloc, with_json, "svg", help::SVG);
    let sizing = with_flag(alloc, with_svg, "sizes", help::SIZES);
    with_input(alloc, sizing)
}

/// The listing that `options` ask for. Fails if they ask for two formats, or if a file of a plan is
/// missing.
pub fn ranges_line<'a>(options: &ArgMatches<'a>) -> Result<Line<'a>, Clash>
    ensures line { Asks (IsWorkLine IsRangesTask) RangesClash
        (rows_of (found_of options.now)) result }
    ensures within { IfOk result LineIsWithin }
{
    let task = Task::Ranges {
        form: form_of(options)?,
        sizes: is_given(options, "sizes"),
    };
    Ok(Line::Work {
        task,
        input: input_of(options)?,
    })
}

// The output format that `options` ask for.
fn form_of(options: &ArgMatches<'_>) -> Result<Form, Clash>
    ensures { Asks IsFormOf FormClash (rows_of (found_of options.now)) result }
{
    match (is_given(options, "json"), is_given(options, "svg")) {
        (false, false) => Ok(Form::Lines),
        (true, false) => Ok(Form::Json),
        (false, true) => Ok(Form::Svg),
        (true, true) => Err(Clash::TwoForms),
    }
}

// The default texts below repeat these numbers.
const _: () = prove!(TURNS == 1_000_000 && PUMPS == 1);

// The subcommand `live` with its numeric options.
fn numbered<'a>(alloc: Global) -> Result<Command<'a>, AllocError>
    ensures { HasShape numbered_shape result }
{
    let plain = Ok(subcommand(alloc, "live", help::LIVE_ABOUT, help::LIVE));
    let turns = counted(alloc, "turns", help::TURNS, 1, MAX_TURNS, "1000000");
    let pumps = counted(alloc, "pumps", help::PUMPS, 1, MAX_PUMPS, "1");
    with(with(plain, turns), pumps)
}

/// The subcommand `live`, which runs jobs in threads.
pub fn live<'a>(alloc: Global) -> Result<Command<'a>, AllocError>
    ensures { HasShape live_shape result }
{
    let folding = with_flag(alloc, numbered(alloc), "fold", help::FOLD);
    let with_json = with_flag(alloc, folding, "json", help::LIVE_JSON);
    let summing = with_flag(alloc, with_json, "summary", help::SUMMARY);
    let accounting = with_path(alloc, summing, "summary-out", help::SUMMARY_OUT);
    let timed = with_path(alloc, accounting, "timeline", help::TIMELINE);
    let replying = with_path(alloc, timed, "replies", help::REPLIES);
    let keeping = with_path(alloc, replying, "rows-out", help::ROWS_OUT);
    with_input(alloc, keeping)
}

/// The live run that `options` ask for. Fails if a file of a plan is missing.
pub fn live_line<'a>(options: &ArgMatches<'a>) -> Result<Line<'a>, Clash>
    ensures line { Asks (IsWorkLine IsLiveTask) LacksPlan (rows_of (found_of options.now)) result }
    ensures within { IfOk result LineIsWithin }
{
    let turns = number_of(options, "turns", 1, MAX_TURNS, TURNS);
    let pumps = number_of(options, "pumps", 1, MAX_PUMPS, PUMPS);
    let live = LiveOptions {
        turns,
        pumps: pumps as u32,
        folds: is_given(options, "fold"),
        json: is_given(options, "json"),
        summary: is_given(options, "summary"),
        summary_out: name_of(options, "summary-out"),
        timeline: name_of(options, "timeline"),
        replies: name_of(options, "replies"),
        rows_out: name_of(options, "rows-out"),
    };
    Ok(Line::Work {
        task: Task::Live(live),
        input: input_of(options)?,
    })
}

/// The subcommand `steps`, which writes the script of a move.
pub fn steps<'a>(alloc: Global) -> Result<Command<'a>, AllocError>
    ensures { HasShape steps_shape result }
{
    let plain = subcommand(alloc, "steps", help::STEPS_ABOUT, help::STEPS);
    with_input(alloc, Ok(plain))
}

/// The script that `options` ask for. Fails if a file of a plan is missing.
pub fn steps_line<'a>(options: &ArgMatches<'a>) -> Result<Line<'a>, Clash>
    ensures line { Asks (IsWorkLine IsStepsTask) LacksPlan (rows_of (found_of options.now)) result }
    ensures within { IfOk result LineIsWithin }
{
    Ok(Line::Work {
        task: Task::Steps,
        input: input_of(options)?,
    })
}
