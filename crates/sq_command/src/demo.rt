// The subcommand that writes a sample input.
ghost use Rattle.std.specs.Prelude.{◌≡◌, IfOk, false, codes};
ghost use Rattle.clap.specs.Matches.{found_of};
ghost use Rattle.clap.specs.Walk.{rule_of, rows_of};
ghost use Rattle.sq_command.specs.Commands.{HasShape, counted_rule, folder_rule, placed_shape, worked_shape, demo_shape};
ghost use Rattle.sq_command.specs.Options.{Asks};
ghost use Rattle.sq_command.specs.Demo.{IsDemoOf, IsDemoLine, LacksFolder, DemoIsWithin};
ghost use Rattle.sq_command.specs.Line.{LineIsWithin};

use crate::clash::Clash;
use crate::commands::{counted, subcommand, with, with_flag};
use crate::help;
use crate::line::{Demo, Line};
use crate::options::{is_given, name_of, number_of};
use clap::{Arg, ArgMatches, Command};
use std::alloc::{AllocError, Global};

/// The limits: fewest and most partitions, most root keys, most rows of a root key, and most jobs.
pub const LEAST_PARTITIONS: u64 = 2;

pub const MAX_PARTITIONS: u64 = 16;

pub const MAX_ROOTS: u64 = 1_000_000;

pub const MAX_ROWS_PER_ROOT: u64 = 1_000;

pub const MAX_JOBS: u64 = 4_096;

/// The largest number for `--hot`: all jobs of 100.
pub const MAX_HOT: u64 = 100;

/// The largest seed.
pub const MAX_SEED: u64 = 4_294_967_295;

/// The defaults of the options.
pub const PARTITIONS: u64 = 4;

pub const ROOTS: u64 = 1_000;

pub const ROWS_PER_ROOT: u64 = 4;

pub const JOBS: u64 = 2_000;

pub const HOT: u64 = 50;

pub const SEED: u64 = 1;

// The default texts below repeat these numbers.
const _: () = prove!(PARTITIONS == 4 && ROOTS == 1_000 && ROWS_PER_ROOT == 4);

const _: () = prove!(JOBS == 2_000 && HOT == 50 && SEED == 1);

// The option `--partitions`.
fn partitions<'a>(alloc: Global) -> Arg<'a>
    ensures rule { let least = LEAST_PARTITIONS in
        rule_of result ≡ counted_rule (codes "partitions") least MAX_PARTITIONS (codes "4") }
    ensures local { result.global ≡ false }
{
    counted(
        alloc,
        "partitions",
        help::PARTITIONS,
        LEAST_PARTITIONS,
        MAX_PARTITIONS,
        "4",
    )
}

// The subcommand with its options for partitions, root keys and rows.
fn placed<'a>(alloc: Global) -> Result<Command<'a>, AllocError>
    ensures { HasShape placed_shape result }
{
    let plain = Ok(subcommand(alloc, "demo", help::DEMO_ABOUT, help::DEMO));
    let parted = with(plain, partitions(alloc));
    let roots = counted(alloc, "roots", help::ROOTS, 1, MAX_ROOTS, "1000");
    let rooted = with(parted, roots);
    let each = help::ROWS_PER_ROOT;
    let rows = counted(alloc, "rows-per-root", each, 1, MAX_ROWS_PER_ROOT, "4");
    with(rooted, rows)
}

// The same subcommand with its options for jobs, too.
fn worked<'a>(alloc: Global) -> Result<Command<'a>, AllocError>
    ensures { HasShape worked_shape result }
{
    let jobs = counted(alloc, "jobs", help::JOBS, 0, MAX_JOBS, "2000");
    let busy = with(placed(alloc), jobs);
    let hot = counted(alloc, "hot", help::HOT, 0, MAX_HOT, "50");
    let heated = with(busy, hot);
    let seed = counted(alloc, "seed", help::SEED, 0, MAX_SEED, "1");
    with(heated, seed)
}

// The required name of the folder.
fn folder<'a>(alloc: Global) -> Arg<'a>
    ensures rule { rule_of result ≡ folder_rule }
    ensures local { result.global ≡ false }
{
    Arg::new(alloc, "folder")
        .value_name("DIR")
        .help(help::FOLDER)
        .required(true)
}

/// The subcommand `demo`, which writes a sample input.
pub fn demo<'a>(alloc: Global) -> Result<Command<'a>, AllocError>
    ensures { HasShape demo_shape result }
{
    let staged = with_flag(alloc, worked(alloc), "stages", help::STAGES);
    with(staged, folder(alloc))
}

/// The sample input that `options` ask for. Fails if they name no folder.
pub fn demo_line<'a>(options: &ArgMatches<'a>) -> Result<Line<'a>, Clash>
    ensures line { Asks IsDemoLine LacksFolder (rows_of (found_of options.now)) result }
    ensures within { IfOk result LineIsWithin }
{
    let Some(folder) = name_of(options, "folder") else {
        return Err(Clash::NoFolder);
    };
    Ok(Line::Demo {
        demo: demo_of(options),
        folder,
    })
}

// What the sample input is like.
fn demo_of(options: &ArgMatches<'_>) -> Demo
    ensures demo { IsDemoOf (rows_of (found_of options.now)) result }
    ensures within { DemoIsWithin result }
{
    let partitions = number_of(
        options,
        "partitions",
        LEAST_PARTITIONS,
        MAX_PARTITIONS,
        PARTITIONS,
    );
    let roots = number_of(options, "roots", 1, MAX_ROOTS, ROOTS);
    let rows_per_root = number_of(
        options,
        "rows-per-root",
        1,
        MAX_ROWS_PER_ROOT,
        ROWS_PER_ROOT,
    );
    let jobs = number_of(options, "jobs", 0, MAX_JOBS, JOBS);
    let hot = number_of(options, "hot", 0, MAX_HOT, HOT);
    Demo {
        partitions: partitions as u32,
        roots: roots as u32,
        rows_per_root: rows_per_root as u32,
        jobs: jobs as u32,
        hot: hot as u32,
        stages: is_given(options, "stages"),
        seed: number_of(options, "seed", 0, MAX_SEED, SEED),
    }
}
