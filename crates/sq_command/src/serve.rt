// The subcommand that serves an engine.
ghost use Rattle.std.specs.Prelude.{IfOk};
ghost use Rattle.clap.specs.Matches.{found_of};
ghost use Rattle.clap.specs.Walk.{rows_of};
ghost use Rattle.sq_command.specs.Commands.{HasShape, served_shape, reported_shape, serve_shape};
ghost use Rattle.sq_command.specs.Options.{Asks};
ghost use Rattle.sq_command.specs.Serve.{AreEngineFilesOf, AreReportsOf, IsEngineLine, LacksEnginePlan};
ghost use Rattle.sq_command.specs.Line.{LineIsWithin};

use crate::clash::Clash;
use crate::commands::{counted, file, subcommand, with, with_flag, with_path};
use crate::help;
use crate::line::{EngineFiles, EngineReports, Line};
use crate::options::{is_given, main_of, name_of, number_of};
use crate::tasks::{MAX_PUMPS, PUMPS};
use clap::{ArgMatches, Command};
use std::alloc::{AllocError, Global};

// The default text below repeats this number.
const _: () = prove!(PUMPS == 1);

// The subcommand with its numeric option and `--strict`.
fn served<'a>(alloc: Global) -> Result<Command<'a>, AllocError>
    ensures { HasShape served_shape result }
{
    let plain = Ok(subcommand(alloc, "serve", help::SERVE_ABOUT, help::SERVE));
    let pumps = counted(alloc, "pumps", help::PUMPS, 1, MAX_PUMPS, "1");
    let pumped = with(plain, pumps);
    with_flag(alloc, pumped, "strict", help::SERVE_STRICT)
}

// The same subcommand with the options for its reports, too.
fn reported<'a>(alloc: Global) -> Result<Command<'a>, AllocError>
    ensures { HasShape reported_shape result }
{
    let accounting = with_path(alloc, served(alloc), "summary-out", help::SUMMARY_OUT);
    let timed = with_path(alloc, accounting, "timeline", help::SERVE_TIMELINE);
    let filed = with_path(alloc, timed, "rows-out", help::ROWS_OUT);
    with_path(alloc, filed, "metrics", help::METRICS)
}

/// The subcommand `serve`, which serves an engine.
pub fn serve<'a>(alloc: Global) -> Result<Command<'a>, AllocError>
    ensures { HasShape serve_shape result }
{
    let planned = with_path(alloc, reported(alloc), "plan", help::PLAN);
    let filled = with_path(alloc, planned, "rows", help::ROWS);
    with(filled, file(alloc))
}

/// The engine that `options` ask for. Fails if they name a file of rows, but no file of a plan.
pub fn serve_line<'a>(options: &ArgMatches<'a>) -> Result<Line<'a>, Clash>
    ensures line { Asks IsEngineLine LacksEnginePlan (rows_of (found_of options.now)) result }
    ensures within { IfOk result LineIsWithin }
{
    let pumps = number_of(options, "pumps", 1, MAX_PUMPS, PUMPS);
    Ok(Line::Serve {
        pumps: pumps as u32,
        strict: is_given(options, "strict"),
        files: engine_files_of(options)?,
        file: main_of(options),
        reports: reports_of(options),
    })
}

// The files of the plan and the rows that `options` name.
fn engine_files_of<'a>(options: &ArgMatches<'a>) -> Result<Option<EngineFiles<'a>>, Clash>
    ensures { Asks AreEngineFilesOf LacksEnginePlan (rows_of (found_of options.now)) result }
{
    let rows = name_of(options, "rows");
    match name_of(options, "plan") {
        Some(plan) => Ok(Some(EngineFiles { plan, rows })),
        None if rows.is_some() => Err(Clash::NoEnginePlan),
        None => Ok(None),
    }
}

// The report files that `options` name.
fn reports_of<'a>(options: &ArgMatches<'a>) -> EngineReports<'a>
    ensures { AreReportsOf (rows_of (found_of options.now)) result }
{
    EngineReports {
        summary_out: name_of(options, "summary-out"),
        timeline: name_of(options, "timeline"),
        rows_out: name_of(options, "rows-out"),
        metrics: name_of(options, "metrics"),
    }
}
