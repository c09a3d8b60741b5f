// What a command line asks for.
ghost use Rattle.std.specs.Prelude.{Some, IfOk, map};
ghost use Rattle.clap.specs.Matches.{found_of};
ghost use Rattle.clap.specs.Walk.{rows_of};
ghost use Rattle.sq_command.specs.Line.{IsSubcommand, IsAskedOf, Settles, ComesOf, LineIsWithin};

use crate::clash::{Clash, refusal};
use crate::commands::command;
use crate::demo::demo_line;
use crate::explain::explain_line;
use crate::owner::owner_line;
use crate::serve::serve_line;
use crate::tasks::{live_line, ranges_line, run_line, steps_line};
use clap::{ArgMatches, Error};
use std::alloc::{AllocError, Global};
use std::convert::AsStr;

/// What the program has to do.
#[derive(Debug, Drop)]
pub enum Line<'a> {
    /// Perform `task` with `input`.
    Work {
        task: Task<'a>,
        input: Input<'a>,
    },
    /// Write the owners of root keys before and after a move, and where in the move the keys are.
    Owner {
        /// The root keys, in the order of the command line.
        keys: Vec<u32>,
        plans: Plans<'a>,
        /// How many root keys a leaf has; `None` if segments and leaves aren't to be written.
        width: Option<u32>,
        /// Whether each root key is written as a JSON value.
        json: bool,
    },
    /// Write a sample input.
    Demo {
        /// What the input is like.
        demo: Demo,
        /// The name of the folder that gets its files.
        folder: &'a str,
    },
    /// Answer jobs for as long as lines come, while rows move.
    Serve {
        pumps: u32,
        /// Whether it ends after the first line that has a fault or is refused.
        strict: bool,
        /// The files of the plan and the rows; `None` if both are in the input.
        files: Option<EngineFiles<'a>>,
        /// The name of the file that is read before standard input, if there is one.
        file: Option<&'a str>,
        /// The report files.
        reports: EngineReports<'a>,
    },
    /// Explain `number`, or all numbers if it is `None`.
    Explain {
        number: Option<u16>,
    },
}

/// Where an input comes from.
#[derive(Clone, Copy, Debug)]
pub struct Input<'a> {
    /// The name of the input file; `None` for standard input.
    pub file: Option<&'a str>,
    /// The files of the plans and the rows; `None` if all of them are in the input.
    pub plans: Option<Plans<'a>>,
}

/// The files that hold the plans of a move, and perhaps the rows.
#[derive(Clone, Copy, Debug)]
pub struct Plans<'a> {
    /// The name of the file that holds the plan before the move.
    pub old: &'a str,
    /// The name of the file that holds the plan after the move.
    pub new: &'a str,
    /// The name of the file that holds the rows; `None` if the input holds them.
    pub rows: Option<&'a str>,
}

/// The files that hold the plan of an engine, and perhaps its rows.
#[derive(Clone, Copy, Debug, PartialEq, Eq)]
pub struct EngineFiles<'a> {
    /// The name of the file that holds the plan.
    pub plan: &'a str,
    /// The name of the file that holds the rows; `None` if the input holds them.
    pub rows: Option<&'a str>,
}

/// The report files of an engine.
#[derive(Clone, Copy, Debug, PartialEq, Eq)]
pub struct EngineReports<'a> {
    /// The name of the file for a summary, if one is asked for.
    pub summary_out: Option<&'a str>,
    /// The name of the file for the timeline, by short intervals, if one is asked for.
    pub timeline: Option<&'a str>,
    /// The name of the file for the rows at the end, if one is asked for.
    pub rows_out: Option<&'a str>,
    /// The name of the file for figures, which is written each second, if one is asked for.
    pub metrics: Option<&'a str>,
}

/// The output format of `ranges`.
#[derive(Clone, Copy, Debug)]
pub enum Form {
    /// One line for each range and each segment.
    Lines,
    /// One JSON value.
    Json,
    /// A picture in SVG.
    Svg,
}

/// What to do with an input.
#[derive(Clone, Copy, Debug)]
pub enum Task<'a> {
    /// Execute the steps of a script.
    Run {
        /// Whether each step is written before its answer.
        echoes: bool,
        /// Whether the run stops at the first refused step.
        strict: bool,
        /// Whether each line is written as a JSON value; only with `echoes`.
        json: bool,
        /// The name of the file for the rows at the end, if one is asked for.
        rows_out: Option<&'a str>,
    },
    /// List what moves between two plans.
    Ranges {
        form: Form,
        /// Whether the numbers of families, rows, bytes and chunks that move are written too.
        sizes: bool,
    },
    /// Run jobs in threads while rows move.
    Live(LiveOptions<'a>),
    /// Write the script that makes the whole move.
    Steps,
}

/// The options of a live run.
#[derive(Clone, Copy, Debug)]
pub struct LiveOptions<'a> {
    /// The most turns that each thread takes in a stage.
    pub turns: u64,
    pub pumps: u32,
    /// Whether the logs are folded between stages.
    pub folds: bool,
    /// Whether the outcome is written as a JSON value.
    pub json: bool,
    /// Whether a summary is written to standard error.
    pub summary: bool,
    /// The name of the file for a longer summary, if one is asked for.
    pub summary_out: Option<&'a str>,
    /// The name of the file for the timeline, if one is asked for.
    pub timeline: Option<&'a str>,
    /// The name of the file for the answers of the jobs, if one is asked for.
    pub replies: Option<&'a str>,
    /// The name of the file for the rows at the end, if one is asked for.
    pub rows_out: Option<&'a str>,
}

/// What a sample input is like.
#[derive(Clone, Copy, Debug)]
pub struct Demo {
    pub partitions: u32,
    /// How many root keys have rows.
    pub roots: u32,
    /// How many rows each root key has.
    pub rows_per_root: u32,
    pub jobs: u32,
    /// How many jobs of 100, on average, are drawn for the hot root keys, which move; the others
    /// are drawn for all root keys.
    pub hot: u32,
    /// Whether the move has several stages.
    pub stages: bool,
    /// The seed of the random numbers that choose the jobs.
    pub seed: u64,
}

/// Parses `words`, of which the first is the program's name. Returns an error in `clap`'s form if
/// `words` aren't of the command's form, ask for a help text or the version, or combine options
/// that don't go together, or if memory runs out. `--old` and `--new` need each other, `--rows`
/// needs both, and `--json` excludes `--svg`. The `--json` of `run` needs its `--echo`. `owner`
/// needs the plans and at least one key, `demo` a folder, and the `--rows` of `serve` its `--plan`.
pub fn line_of<'a, S: AsStr>(alloc: Global, words: &'a [S]) -> Result<Line<'a>, Error>
    ensures comes { ComesOf (map S.text words.now) result }
    ensures within { IfOk result LineIsWithin }
{
    let matches = command(alloc)?.try_get_matches_from(words)?;
    let Some((name, options)) = matches.subcommand() else {
        unreachable!()
    };
    settle(alloc, name, asked(alloc, name, options))
}

// What `options` of the subcommand `name` ask for.
fn asked<'a>(alloc: Global, name: &str, options: &ArgMatches<'a>) -> Result<Line<'a>, Clash>
    requires { IsSubcommand name.now }
    ensures line { IsAskedOf (Some (name.now, rows_of (found_of options.now))) result }
    ensures within { IfOk result LineIsWithin }
{
    if name == "run" {
        run_line(options)
    } else if name == "ranges" {
        ranges_line(options)
    } else if name == "live" {
        live_line(options)
    } else if name == "steps" {
        steps_line(options)
    } else if name == "owner" {
        owner_line(alloc, options)
    } else if name == "demo" {
        demo_line(options)
    } else if name == "serve" {
        serve_line(options)
    } else {
        Ok(explain_line(options))
    }
}

// The line, or the error that reports a clash among the options of the subcommand `name`.
fn settle<'a>(alloc: Global, name: &str, asked: Result<Line<'a>, Clash>) -> Result<Line<'a>, Error>
    ensures { Settles asked.entry result }
{
    match asked {
        Ok(line) => Ok(line),
        Err(Clash::Memory) => Err(Error::from(AllocError)),
        Err(clash) => Err(refusal(alloc, name, clash)?),
    }
}
