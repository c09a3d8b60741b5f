// Reading the options of a subcommand.
ghost use Rattle.std.specs.Prelude.{◌≤◌, IfSome};
ghost use Rattle.clap.specs.Matches.{found_of};
ghost use Rattle.clap.specs.Walk.{one_of, rows_of};
ghost use Rattle.sq_command.specs.Options.{NumberOf, GivenNumberOf, FlagOf, IsNameOf, IsMainOf, ArePlansOf, IsInputOf, LacksPlan, Asks};

use crate::clash::Clash;
use crate::line::{Input, Plans};
use clap::ArgMatches;

// The name that stands for standard input.
const STANDARD_INPUT: &str = "-";

/// The input that `options` name. Fails if a file of a plan is missing.
pub fn input_of<'a>(options: &ArgMatches<'a>) -> Result<Input<'a>, Clash>
    ensures { Asks IsInputOf LacksPlan (rows_of (found_of options.now)) result }
{
    Ok(Input {
        file: main_of(options),
        plans: plans_of(options)?,
    })
}

/// The name of the main input file; `None` for standard input.
pub fn main_of<'a>(options: &ArgMatches<'a>) -> Option<&'a str>
    ensures { IsMainOf (rows_of (found_of options.now)) result }
{
    match name_of(options, "file") {
        Some(name) if name != STANDARD_INPUT => Some(name),
        _ => None,
    }
}

/// The files of the plans and the rows that `options` name; `None` if they name none of the three.
/// Fails if `--old` or `--new` is given without the other, or `--rows` without both.
pub fn plans_of<'a>(options: &ArgMatches<'a>) -> Result<Option<Plans<'a>>, Clash>
    ensures { Asks ArePlansOf LacksPlan (rows_of (found_of options.now)) result }
{
    let rows = name_of(options, "rows");
    match (name_of(options, "old"), name_of(options, "new")) {
        (Some(old), Some(new)) => Ok(Some(Plans { old, new, rows })),
        (Some(_), None) => Err(Clash::NoNew),
        (None, Some(_)) => Err(Clash::NoOld),
        (None, None) if rows.is_some() => Err(Clash::NoPlans),
        (None, None) => Ok(None),
    }
}

/// Returns whether `flag` is given.
pub fn is_given(options: &ArgMatches<'_>, flag: &str) -> bool
    ensures { FlagOf (one_of flag.now (rows_of (found_of options.now))) result }
{
    options.get_flag(flag)
}

/// The value of `option`, if it is given.
pub fn name_of<'a>(options: &ArgMatches<'a>, option: &str) -> Option<&'a str>
    ensures { IsNameOf option.now (rows_of (found_of options.now)) result }
{
    options.get_str(option)
}

/// The number of the option `name`, if it is given and from `least` to `most`; else `default`.
pub fn number_of(options: &ArgMatches<'_>, name: &str, least: u64, most: u64, default: u64) -> u64
    requires some { least ≤ default }
    requires within { default ≤ most }
    ensures number { let text = one_of name.now (rows_of (found_of options.now)) in
        NumberOf least most default text result }
    ensures some { least ≤ result }
    ensures within { result ≤ most }
{
    match given_number(options, name, least, most) {
        Some(number) => number,
        None => default,
    }
}

/// The number of the option `name`, if it is given and from `least` to `most`.
pub fn given_number(options: &ArgMatches<'_>, name: &str, least: u64, most: u64) -> Option<u64>
    ensures number { let text = one_of name.now (rows_of (found_of options.now)) in
        GivenNumberOf least most text result }
    ensures within { IfSome result (λ number. (least ≤ number) × (number ≤ most)) }
{
    match options.get_one::<u64>(name) {
        Some(number) if least <= number && number <= most => Some(number),
        _ => None,
    }
}
