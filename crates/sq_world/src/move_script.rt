// From the bytes of a header to those of a script.
ghost use Rattle.std.specs.Prelude.{IfOk};
ghost use Rattle.sq_world.specs.Run.{EndsAtFault};
ghost use Rattle.sq_world.specs.Scripts.{IsScriptOf, WritesScript, WritesScriptOf};
ghost use Rattle.sq_world.specs.Scripts.{WritesScriptFrom};

use crate::draft::Draft;
use crate::ending::Ending;
use crate::moves::Moves;
use crate::no_script::NoScript;
use crate::whole::make_all;
use crate::world::World;
use sq_model::Phase;
use sq_moves::Opening;
use sq_schema::{MAX_TABLES, Schema};
use sq_text::{InputFault, LineReader, LocatedFault, WriteFault, read_header, write_fault};
use std::alloc::Global;
use std::io::{Read, Write};

/// Reads a header and writes a script that performs its whole move: the steps, as lines that
/// `squall run` executes after this header.
///
/// Each segment is claimed as a whole, and its rows move in as many chunks as they need, stage by
/// stage. What follows the header isn't looked at. If the header has a fault, memory runs out, or
/// header and script together have more lines than an input may have, only the fault is written.
/// Fails if a write or a flush fails.
pub fn write_script<R: Read, W: Write>(
    alloc: Global,
    reader: &mut R,
    writer: &mut W,
) -> Result<Ending, WriteFault>
    ensures { IfOk result (WritesScript MAX_TABLES
        (R.remaining reader.old) (W.contents writer.old) (W.contents writer.new)) }
{
    let ending = write_unflushed(alloc, reader, writer)?;
    writer.flush()?;
    Ok(ending)
}

// Writes a script, and leaves it to be flushed.
fn write_unflushed<R: Read, W: Write>(
    alloc: Global,
    reader: &mut R,
    writer: &mut W,
) -> Result<Ending, WriteFault>
    ensures { IfOk result (WritesScript MAX_TABLES
        (R.remaining reader.old) (W.contents writer.old) (W.contents writer.new)) }
{
    match LineReader::new(alloc, reader) {
        Ok(mut lines) => write_for_header(alloc, &mut lines, writer),
        Err(_) => end_by(writer, InputFault::Memory.at_no_line()),
    }
}

// Writes the script for the header of the next lines.
fn write_for_header<R: Read, W: Write>(
    alloc: Global,
    lines: &mut LineReader<R>,
    writer: &mut W,
) -> Result<Ending, WriteFault>
    ensures { IfOk result (WritesScriptOf MAX_TABLES lines.old
        (W.contents writer.old) (W.contents writer.new)) }
{
    match read_header(alloc, Schema::largest(), lines) {
        Ok(opening) => write_from(alloc, opening, u64::from(lines.lines_left()), writer),
        Err(fault) => end_by(writer, fault),
    }
}

// Writes the script that performs the whole move from `opening`, if it has at most `room` lines.
fn write_from<W: Write>(
    alloc: Global,
    opening: Opening,
    room: u64,
    writer: &mut W,
) -> Result<Ending, WriteFault>
    ensures { IfOk result (WritesScriptFrom opening
        (W.contents writer.old) (W.contents writer.new)) }
{
    match script_of(alloc, opening, room) {
        Ok(text) => {
            writer.write_all(&text)?;
            Ok(Ending::Done)
        }
        Err(no_script) => end_by(writer, no_script.fault()),
    }
}

// Returns the script that performs the whole move from `opening`, in at most `room` lines.
fn script_of(alloc: Global, opening: Opening, room: u64) -> Result<Vec<u8>, NoScript>
    ensures { IfOk result (λ text. IsScriptOf opening text.items) }
{
    let Ok(moves) = Moves::of(alloc, &opening) else {
        return Err(NoScript::Memory);
    };
    let Ok(world) = World::from_opening(alloc, opening) else {
        return Err(NoScript::Memory);
    };
    let mut draft = Draft::new(alloc, world, room);
    make_all(&mut draft, &moves)?;
    match draft.world.phase() {
        Phase::Ended => Ok(draft.text),
        _ => Err(NoScript::Memory),
    }
}

// Writes the number of a fault, and nothing else.
fn end_by<W: Write>(writer: &mut W, located: LocatedFault) -> Result<Ending, WriteFault>
    ensures { IfOk result (EndsAtFault located (W.contents writer.old) (W.contents writer.new)) }
{
    write_fault(writer, located.fault.number())?;
    Ok(Ending::Fault(located))
}
