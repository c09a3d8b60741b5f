// Writes what moves between two plans, from bytes to bytes.
ghost use Rattle.std.specs.Prelude.{IfOk};
ghost use Rattle.sq_world.specs.Listing.{IsMovesText, Tells, TellsLines, TellsOrRefuses, Lists};

use crate::ending::Ending;
use crate::script::end_by;
use crate::telling::{Telling, Told};
use sq_moves::Recon;
use sq_schema::{MAX_TABLES, Schema};
use sq_text::{InputFault, LineReader, WriteFault, read_plans, write_moves};
use std::alloc::Global;
use std::io;
use std::io::{Read, Write};

/// Reads the first three lines of an input, two plans and the sizes, and writes what moves between
/// the plans.
///
/// Each reconfiguration range, in key order, is a line `range LO HI SRC DST`, and after these each
/// segment is a line `segment SEG LO HI SRC DST`: the root keys from LO up to, not including, HI,
/// the partition that they leave and the one that they move to. If there is more than one stage,
/// the line ends with the segment's, as ` stage I`. If the lines have a fault, as in
/// [`read_plans`], or memory runs out, only the fault is written. What follows these lines isn't
/// looked at. Fails if a write or a flush fails.
pub fn ranges<R: Read, W: Write>(
    alloc: Global,
    reader: &mut R,
    writer: &mut W,
) -> Result<Ending, WriteFault>
    ensures { IfOk result (Lists MAX_TABLES (R.remaining reader.old) (W.contents writer.old)
        (W.contents writer.new)) }
{
    list(alloc, reader, writer, &Lines)
}

/// Like [`ranges`], but `telling` writes what moves.
pub fn list<R: Read, W: Write, T: Telling>(
    alloc: Global,
    reader: &mut R,
    writer: &mut W,
    telling: &T,
) -> Result<Ending, WriteFault>
    ensures { IfOk result
        (Tells (T.tells telling.now) MAX_TABLES (R.remaining reader.old) (W.contents writer.old)
        (W.contents writer.new)) }
{
    let ending = list_unflushed(alloc, reader, writer, telling)?;
    writer.flush()?;
    Ok(ending)
}

// Writes what moves as lines.
struct Lines;

impl Telling for Lines {
    ghost tells = { λ _. IsMovesText };

    fn tell<W: Write>(&self, _alloc: Global, writer: &mut W, recon: &Recon) -> io::Result<Told> {
        write_moves(writer, recon)?;
        Ok(Told::Written)
    }
}

// Writes what moves, and leaves it to be flushed.
fn list_unflushed<R: Read, W: Write, T: Telling>(
    alloc: Global,
    reader: &mut R,
    writer: &mut W,
    telling: &T,
) -> Result<Ending, WriteFault>
    ensures { IfOk result
        (Tells (T.tells telling.now) MAX_TABLES (R.remaining reader.old) (W.contents writer.old)
        (W.contents writer.new)) }
{
    match LineReader::new(alloc, reader) {
        Ok(mut lines) => list_moves(alloc, &mut lines, writer, telling),
        Err(_) => end_by(writer, InputFault::Memory.at_no_line()),
    }
}

// Writes what moves between the plans of the next lines.
fn list_moves<R: Read, W: Write, T: Telling>(
    alloc: Global,
    lines: &mut LineReader<R>,
    writer: &mut W,
    telling: &T,
) -> Result<Ending, WriteFault>
    ensures { IfOk result
        (TellsLines (T.tells telling.now) MAX_TABLES lines.old (W.contents writer.old)
        (W.contents writer.new)) }
{
    match read_plans(alloc, Schema::largest(), lines) {
        Ok(opening) => tell(alloc, writer, telling, opening.recon()),
        Err(fault) => end_by(writer, fault),
    }
}

// Writes what moves, or else the fault that memory ran out.
fn tell<W: Write, T: Telling>(
    alloc: Global,
    writer: &mut W,
    telling: &T,
    recon: &Recon,
) -> Result<Ending, WriteFault>
    ensures { IfOk result
        (TellsOrRefuses (T.tells telling.now) recon.now (W.contents writer.old)
        (W.contents writer.new)) }
{
    match telling.tell(alloc, writer, recon)? {
        Told::Written => Ok(Ending::Done),
        Told::NoMemory => end_by(writer, InputFault::Memory.at_no_line()),
    }
}
