// The subcommand that explains numbers.
ghost use Rattle.clap.specs.Matches.{found_of};
ghost use Rattle.clap.specs.Walk.{rows_of};
ghost use Rattle.sq_command.specs.Commands.{HasShape, explain_shape};
ghost use Rattle.sq_command.specs.Line.{IsExplainLine};

use crate::commands::{subcommand, with};
use crate::help;
use crate::line::Line;
use clap::{Arg, ArgMatches, Command, value_parser};
use std::alloc::{AllocError, Global};

/// The subcommand `explain`, which explains numbers.
pub fn explain<'a>(alloc: Global) -> Result<Command<'a>, AllocError>
    ensures { HasShape explain_shape result }
{
    let plain = Ok(subcommand(alloc, "explain", help::EXPLAIN_ABOUT, help::EXPLAIN));
    let number = Arg::new(alloc, "number")
        .value_name("NUMBER")
        .help(help::NUMBER)
        .value_parser(value_parser!(u16));
    with(plain, number)
}

/// The number that `options` ask to explain; all numbers if they name none.
pub fn explain_line<'a>(options: &ArgMatches<'a>) -> Line<'a>
    ensures { IsExplainLine (rows_of (found_of options.now)) result }
{
    Line::Explain {
        number: options.get_one::<u16>("number"),
    }
}
