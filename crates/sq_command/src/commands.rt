// The program's command and its subcommands.
ghost use Rattle.std.specs.Prelude.{◌≡◌, ◌≤◌, ◌<◌, ◌^◌, [], IfOk, false};
ghost use Rattle.clap.specs.Walk.{Rule, rule_of};
ghost use Rattle.clap.specs.Simple.{App, Shape, new_shape, with_subcommand};
ghost use Rattle.clap.specs.Words.{app_of, shape_of};
ghost use Rattle.clap.specs.declared.builder.command.Command.TheViews.{out-Command};
ghost use Rattle.clap.specs.declared.builder.value_parser.ValueParser.TheVariants.{Unsigned};
ghost use Rattle.sq_command.specs.Commands.{program, working, squall, option_rule, counted_rule, flag_rule, file_rule, valued_rule, HasShape, larger, with_input};

use crate::demo::demo;
use crate::explain::explain;
use crate::help;
use crate::owner::owner;
use crate::serve::serve;
use crate::tasks::{live, ranges, run, steps};
use clap::builder::ValueParser;
use clap::{Arg, ArgAction, Command, value_parser};
use std::alloc::{AllocError, Global};

// The version that `--version` prints.
const VERSION: &str = "0.1.0";

// The program's command before its subcommands are added; a subcommand is required.
fn program<'a>(alloc: Global) -> Command<'a>
    ensures app { app_of result ≡ record { top = program; subs = [] } }
    ensures local { (out-Command result).has_globals ≡ false }
{
    Command::new(alloc, "squall")
        .about("Moves the rows of a partitioned database to the places of another plan")
        .after_help(help::PROGRAM)
        .version(VERSION)
        .subcommand_required(true)
}

/// The subcommand `name` before its arguments are added, with its help texts.
pub fn subcommand<'a>(
    alloc: Global,
    name: &'a str,
    about: &'a str,
    after_help: &'a str,
) -> Command<'a>
    ensures shape { shape_of result ≡ new_shape name.entry.now }
    ensures local { (out-Command result).has_globals ≡ false }
{
    Command::new(alloc, name)
        .about(about)
        .after_help(after_help)
}

/// The option `--name`, whose value is called `value` in the help text.
pub fn valued<'a>(alloc: Global, name: &'a str, value: &'a str, help: &'a str) -> Arg<'a>
    ensures rule { rule_of result ≡ valued_rule name.entry.now }
    ensures local { result.global ≡ false }
{
    Arg::new(alloc, name)
        .long(name)
        .value_name(value)
        .help(help)
}

/// The parser of the numbers from `least` to `most`.
pub fn numbers<'a>(least: u64, most: u64) -> ValueParser<'a>
    requires some { least ≤ most }
    requires within { most < 2 ^ 63 }
    ensures { result ≡ Unsigned least most }
{
    value_parser!(u64).range(least as i64..=most as i64)
}

// The option `--name`, whose value is a number that `parser` accepts, with its default.
fn option<'a>(
    alloc: Global,
    name: &'a str,
    help: &'a str,
    parser: ValueParser<'a>,
    default: &'a str,
) -> Arg<'a>
    ensures rule { rule_of result ≡ option_rule name.entry.now parser.entry default.entry.now }
    ensures local { result.global ≡ false }
{
    valued(alloc, name, "N", help)
        .value_parser(parser)
        .default_value(default)
}

/// The option `--name` for a number from `least` to `most`, with its default.
pub fn counted<'a>(
    alloc: Global,
    name: &'a str,
    help: &'a str,
    least: u64,
    most: u64,
    default: &'a str,
) -> Arg<'a>
    requires some { least ≤ most }
    requires within { most < 2 ^ 63 }
    ensures rule { let rule = counted_rule name.entry.now least most default.entry.now in
        rule_of result ≡ rule }
    ensures local { result.global ≡ false }
{
    option(alloc, name, help, numbers(least, most), default)
}

// The flag `--name`.
fn flag<'a>(alloc: Global, name: &'a str, help: &'a str) -> Arg<'a>
    ensures rule { rule_of result ≡ flag_rule name.entry.now }
    ensures local { result.global ≡ false }
{
    Arg::new(alloc, name)
        .long(name)
        .help(help)
        .action(ArgAction::SetTrue)
}

/// The optional name of the input file.
pub fn file<'a>(alloc: Global) -> Arg<'a>
    ensures rule { rule_of result ≡ file_rule }
    ensures local { result.global ≡ false }
{
    Arg::new(alloc, "file").value_name("FILE").help(help::FILE)
}

/// The option `--name`, whose value is the name of a file.
pub fn path<'a>(alloc: Global, name: &'a str, help: &'a str) -> Arg<'a>
    ensures rule { rule_of result ≡ valued_rule name.entry.now }
    ensures local { result.global ≡ false }
{
    valued(alloc, name, "FILE", help)
}

/// Adds `arg` to `command`. Returns an error if `command` is one or memory runs out.
pub fn with<'a>(
    command: Result<Command<'a>, AllocError>,
    arg: Arg<'a>,
) -> Result<Command<'a>, AllocError>
    requires { arg.global ≡ false }
    ensures { (shape : Shape) (rule : Rule) → HasShape shape command.entry
        → rule_of arg.entry ≡ rule → HasShape (larger shape rule) result }
{
    command?.arg(arg)
}

/// Adds the flag `--name` to `command`. Returns an error if `command` is one or memory runs out.
pub fn with_flag<'a>(
    alloc: Global,
    command: Result<Command<'a>, AllocError>,
    name: &'a str,
    help: &'a str,
) -> Result<Command<'a>, AllocError>
    ensures { (shape : Shape) → HasShape shape command.entry
        → HasShape (larger shape (flag_rule name.entry.now)) result }
{
    with(command, flag(alloc, name, help))
}

/// Adds the option `--name` for a file to `command`. Returns an error if `command` is one or memory
/// runs out.
pub fn with_path<'a>(
    alloc: Global,
    command: Result<Command<'a>, AllocError>,
    name: &'a str,
    help: &'a str,
) -> Result<Command<'a>, AllocError>
    ensures { (shape : Shape) → HasShape shape command.entry
        → HasShape (larger shape (valued_rule name.entry.now)) result }
{
    with(command, path(alloc, name, help))
}

/// Adds the arguments for the files of an input to `command`: the file itself, `--old`, `--new` and
/// `--rows`. Returns an error if `command` is one or memory runs out.
pub fn with_input<'a>(
    alloc: Global,
    command: Result<Command<'a>, AllocError>,
) -> Result<Command<'a>, AllocError>
    ensures { (shape : Shape) → HasShape shape command.entry → HasShape (with_input shape) result }
{
    let with_file = with(command, file(alloc));
    let with_old = with_path(alloc, with_file, "old", help::OLD);
    let with_new = with_path(alloc, with_old, "new", help::NEW);
    with_path(alloc, with_new, "rows", help::ROWS)
}

// Adds the subcommand `sub` to `command`, unless either of them is an error.
fn also<'a>(
    command: Result<Command<'a>, AllocError>,
    sub: Result<Command<'a>, AllocError>,
) -> Result<Command<'a>, AllocError>
    ensures { (app : App) (shape : Shape) → IfOk command.entry (λ had. app_of had ≡ app)
        → HasShape shape sub.entry → IfOk result (λ more. app_of more ≡ with_subcommand app shape) }
{
    command?.subcommand(sub?)
}

// The program's command with the subcommands that work on an input.
fn working<'a>(alloc: Global) -> Result<Command<'a>, AllocError>
    ensures { IfOk result (λ command. app_of command ≡ working) }
{
    let runs = also(Ok(program(alloc)), run(alloc));
    let tells = also(runs, ranges(alloc));
    let lives = also(tells, live(alloc));
    also(lives, steps(alloc))
}

/// The program's command with all its subcommands. Fails if memory runs out.
pub fn command<'a>(alloc: Global) -> Result<Command<'a>, AllocError>
    ensures { IfOk result (λ command. app_of command ≡ squall) }
{
    let finds = also(working(alloc), owner(alloc));
    let begins = also(finds, demo(alloc));
    let serves = also(begins, serve(alloc));
    also(serves, explain(alloc))
}
