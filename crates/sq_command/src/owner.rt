// The subcommand that writes the owners of root keys.
ghost use Rattle.std.specs.Prelude.{◌≡◌, ◌≤◌, IfOk, MatchResult, IfSome, false, length, codes};
ghost use Rattle.clap.specs.Matches.{found_of};
ghost use Rattle.clap.specs.Walk.{one_of, rule_of, rows_of};
ghost use Rattle.sq_command.specs.Commands.{HasShape, keys_rule, width_rule, owner_shape, needed_rule};
ghost use Rattle.sq_command.specs.Options.{Asks, GivenNumberOf};
ghost use Rattle.sq_command.specs.Owner.{IsKeyOf, AreKeysOf, IsKeysClash, IsOwnerLine, OwnerClash};
ghost use Rattle.sq_command.specs.Owner.{HasPlans, PlansClash};
ghost use Rattle.sq_command.specs.Line.{LineIsWithin};

use crate::clash::Clash;
use crate::commands::{numbers, path, subcommand, valued, with, with_flag};
use crate::help;
use crate::line::{Line, Plans};
use crate::options::{given_number, is_given, plans_of};
use clap::{Arg, ArgAction, ArgMatches, Command, value_parser};
use std::alloc::{AllocError, Global};

/// The largest number of root keys in a leaf.
pub const MAX_WIDTH: u64 = 65_536;

// The root keys, at least one.
fn keys<'a>(alloc: Global) -> Arg<'a>
    ensures rule { rule_of result ≡ keys_rule }
    ensures local { result.global ≡ false }
{
    Arg::new(alloc, "key")
        .value_name("KEY")
        .help(help::KEYS)
        .action(ArgAction::Append)
        .value_parser(value_parser!(u32))
        .required(true)
}

// The required option `--name`, whose value is the name of a file.
fn needed_path<'a>(alloc: Global, name: &'a str, help: &'a str) -> Arg<'a>
    ensures rule { rule_of result ≡ needed_rule name.entry.now }
    ensures local { result.global ≡ false }
{
    path(alloc, name, help).required(true)
}

// The option `--width`, the number of root keys in a leaf.
fn width<'a>(alloc: Global) -> Arg<'a>
    ensures rule { rule_of result ≡ width_rule }
    ensures local { result.global ≡ false }
{
    valued(alloc, "width", "N", help::WIDTH).value_parser(numbers(1, MAX_WIDTH))
}

/// The subcommand `owner`, which writes the owners of root keys.
pub fn owner<'a>(alloc: Global) -> Result<Command<'a>, AllocError>
    ensures { HasShape owner_shape result }
{
    let plain = Ok(subcommand(alloc, "owner", help::OWNER_ABOUT, help::OWNER));
    let with_old = with(plain, needed_path(alloc, "old", help::OLD));
    let with_new = with(with_old, needed_path(alloc, "new", help::NEW));
    let with_width = with(with_new, width(alloc));
    let with_json = with_flag(alloc, with_width, "json", help::OWNER_JSON);
    with(with_json, keys(alloc))
}

/// The root keys and plans that `options` name. Fails if a file of a plan or a root key is missing,
/// if a word is no root key, or if memory runs out.
pub fn owner_line<'a>(alloc: Global, options: &ArgMatches<'a>) -> Result<Line<'a>, Clash>
    ensures line { Asks IsOwnerLine OwnerClash (rows_of (found_of options.now)) result }
    ensures within { IfOk result LineIsWithin }
{
    let plans = both_plans(options)?;
    Ok(Line::Owner {
        keys: keys_of(alloc, options)?,
        plans,
        width: width_of(options),
        json: is_given(options, "json"),
    })
}

// The number of root keys in a leaf, if `options` name it.
fn width_of(options: &ArgMatches<'_>) -> Option<u32>
    ensures width { let text = one_of (codes "width") (rows_of (found_of options.now)) in
        GivenNumberOf 1 MAX_WIDTH text result }
    ensures within { IfSome result (λ width. (1 ≤ width) × (width ≤ MAX_WIDTH)) }
{
    match given_number(options, "width", 1, MAX_WIDTH) {
        Some(width) => Some(width as u32),
        None => None,
    }
}

// The files of the plans. Fails if one of them is missing.
fn both_plans<'a>(options: &ArgMatches<'a>) -> Result<Plans<'a>, Clash>
    ensures { Asks HasPlans PlansClash (rows_of (found_of options.now)) result }
{
    match plans_of(options)? {
        Some(plans) => Ok(plans),
        None => Err(Clash::NoPlans),
    }
}

// Returns the root keys that the words spell, in their order.
fn keys_of(alloc: Global, options: &ArgMatches<'_>) -> Result<Vec<u32>, Clash>
    ensures keys { let rows = rows_of (found_of options.now) in
        MatchResult result (λ keys. AreKeysOf rows keys.items) (IsKeysClash rows) }
    ensures some { IfOk result (λ keys. 1 ≤ length keys.items) }
{
    let Some(words) = options.get_strs("key") else {
        return Err(Clash::NoKeys);
    };
    if words.is_empty() {
        return Err(Clash::NoKeys);
    }
    let mut keys = Vec::new(alloc);
    for word in words {
        let key = key_of(word)?;
        keys.push(key)?;
    }
    Ok(keys)
}

// The root key that `word` spells.
fn key_of(word: &str) -> Result<u32, Clash>
    ensures { IsKeyOf word.now result }
{
    match word.parse::<u32>() {
        Ok(key) => Ok(key),
        Err(_) => Err(Clash::BadKey),
    }
}
