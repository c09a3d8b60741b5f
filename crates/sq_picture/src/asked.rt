// What is written about an opening: bytes in, bytes out.
ghost use Rattle.std.specs.Prelude.{ℕ, List, IfOk};
ghost use Rattle.sq_moves.specs.Prelude.{OpeningValue};
ghost use Rattle.sq_world.specs.Run.{EndsAtFault};
ghost use Rattle.sq_picture.specs.Asked.{IsToldOf, TellsOpening, TellsOpeningOfLines};
ghost use Rattle.sq_picture.specs.Asked.{TellsOrRefusesOf};

use sq_moves::Opening;
use sq_schema::{MAX_TABLES, Schema};
use sq_text::{InputFault, LineReader, LocatedFault, WriteFault, read_header, write_fault};
use sq_world::{Ending, Told};
use std::alloc::Global;
use std::io;
use std::io::{Read, Write};

/// A way to write a text about an opening.
pub trait OpeningTelling {
    /// The texts that it may write.
    ghost tells: { Self → OpeningValue → List ℕ → Type 0 };

    /// Writes its text about an opening, and returns whether memory sufficed for it. Fails if the
    /// writer does.
    fn tell<W: Write>(&self, alloc: Global, writer: &mut W, opening: &Opening) -> io::Result<Told>
        ensures { IfOk result (IsToldOf (tells self.now) opening.now
            (W.contents writer.old) (W.contents writer.new)) };
}

/// Reads the header of an input, and writes the text of `telling` about its opening.
///
/// If the header has a fault, as [`read_header`] describes, or memory runs out, only the fault is
/// written. What follows the header isn't looked at. Fails if a write or a flush does.
pub fn tell_opening<R: Read, W: Write, T: OpeningTelling>(
    alloc: Global,
    reader: &mut R,
    writer: &mut W,
    telling: &T,
) -> Result<Ending, WriteFault>
    ensures { IfOk result
        (TellsOpening (T.tells telling.now) MAX_TABLES (R.remaining reader.old)
        (W.contents writer.old) (W.contents writer.new)) }
{
    let ending = tell_unflushed(alloc, reader, writer, telling)?;
    writer.flush()?;
    Ok(ending)
}

// Writes the text about an opening, without a flush.
fn tell_unflushed<R: Read, W: Write, T: OpeningTelling>(
    alloc: Global,
    reader: &mut R,
    writer: &mut W,
    telling: &T,
) -> Result<Ending, WriteFault>
    ensures { IfOk result
        (TellsOpening (T.tells telling.now) MAX_TABLES (R.remaining reader.old)
        (W.contents writer.old) (W.contents writer.new)) }
{
    match LineReader::new(alloc, reader) {
        Ok(mut lines) => tell_of_lines(alloc, &mut lines, writer, telling),
        Err(_) => refuse(writer, InputFault::Memory.at_no_line()),
    }
}

// Writes the text about the opening that the next lines spell.
fn tell_of_lines<R: Read, W: Write, T: OpeningTelling>(
    alloc: Global,
    lines: &mut LineReader<R>,
    writer: &mut W,
    telling: &T,
) -> Result<Ending, WriteFault>
    ensures { IfOk result
        (TellsOpeningOfLines (T.tells telling.now) MAX_TABLES lines.old
        (W.contents writer.old) (W.contents writer.new)) }
{
    match read_header(alloc, Schema::largest(), lines) {
        Ok(opening) => tell(alloc, writer, telling, &opening),
        Err(fault) => refuse(writer, fault),
    }
}

// Writes the text about an opening, or else the fault that memory ran out.
fn tell<W: Write, T: OpeningTelling>(
    alloc: Global,
    writer: &mut W,
    telling: &T,
    opening: &Opening,
) -> Result<Ending, WriteFault>
    ensures { IfOk result
        (TellsOrRefusesOf (T.tells telling.now) opening.now
        (W.contents writer.old) (W.contents writer.new)) }
{
    match telling.tell(alloc, writer, opening)? {
        Told::Written => Ok(Ending::Done),
        Told::NoMemory => refuse(writer, InputFault::Memory.at_no_line()),
    }
}

// Writes the number of a fault, which ends the run.
fn refuse<W: Write>(writer: &mut W, located: LocatedFault) -> Result<Ending, WriteFault>
    ensures { IfOk result (EndsAtFault located (W.contents writer.old) (W.contents writer.new)) }
{
    write_fault(writer, located.fault.number())?;
    Ok(Ending::Fault(located))
}
