// What the lines after a header ask.
ghost use Rattle.std.specs.Prelude.{◌≡◌, ℕ, Ok};
ghost use Rattle.sq_schema.specs.declared.schema.TheConstants.{MAX_TABLES};
ghost use Rattle.sq_serving.specs.ServeLines.{serve_line_of, IsServeLine};
ghost use Rattle.sq_serving.specs.Reading.{IsAskedBy, IsFedOf};
ghost use Rattle.sq_serving.specs.declared.feed.InputEnd.TheVariants.{Broken};

use crate::faulty_line::FaultyLine;
use crate::feed::{Fed, InputEnd};
use crate::line_place::LinePlace;
use crate::serve_fault::ServeFault;
use crate::serve_line::{ServeLine, read_serve_line};
use sq_schema::Schema;
use sq_text::{InputFault, Next};
use std::alloc::{AllocError, Global};

/// What is handed on for the next piece of an input; `place` is where its line is.
pub(crate) fn fed_of(alloc: Global, next: Next, place: LinePlace, piece: &[u8]) -> Fed
    ensures { IsFedOf next piece.now result }
{
    match next {
        Next::Line | Next::Rest => Fed::Line {
            place,
            asks: read_asks(alloc, piece),
        },
        Next::End => Fed::End(InputEnd::Whole),
        Next::Failed => Fed::End(broken(InputFault::ReadFailed, place)),
        Next::Long | Next::TooMany | Next::Unread => Fed::End(broken(InputFault::TooLong, place)),
    }
}

// What a line asks, or its fault.
fn read_asks(alloc: Global, line: &[u8]) -> Result<ServeLine, FaultyLine>
    ensures { IsAskedBy line.now result (serve_line_of MAX_TABLES line.now) }
{
    match asked_by(alloc, line) {
        Ok(asks) => Ok(asks),
        Err(fault) => Err(FaultyLine::new(alloc, fault, line)),
    }
}

// What a line asks. Copies of its transaction share its operations.
fn asked_by(alloc: Global, line: &[u8]) -> Result<ServeLine, ServeFault>
    ensures { IsServeLine result (serve_line_of MAX_TABLES line.now) }
{
    shared(read_serve_line(alloc, &Schema::largest(), line)?)
}

// The same, with a transaction whose copies share its operations.
fn shared(asks: ServeLine) -> Result<ServeLine, ServeFault>
    ensures { IsServeLine result (Ok asks) }
{
    match asks {
        ServeLine::Job { part, txn } => match txn.share() {
            Ok(txn) => Ok(ServeLine::Job { part, txn }),
            Err(AllocError) => Err(ServeFault::Memory),
        },
        asks => Ok(asks),
    }
}

// The end of an input after the fault of a line, after which nothing is read.
fn broken(fault: InputFault, place: LinePlace) -> InputEnd
    ensures { (number : ℕ) × (result ≡ Broken number place) }
{
    InputEnd::Broken {
        fault: fault.number(),
        place,
    }
}
