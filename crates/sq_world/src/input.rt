// Runs an input, from bytes to bytes.
ghost use Rattle.std.specs.Prelude.{IfOk, IfErr};
ghost use Rattle.sq_world.specs.Run.{Runs, RunsLines};
ghost use Rattle.sq_world.specs.Script.{IsLedByLines, IsLedByReader, KeepsDumped, KeepsLed, OpensWorld, RefusesHeader};

use crate::ending::{Ending, ScriptManner};
use crate::script::{end_by, run_script};
use crate::world::World;
use sq_schema::{MAX_TABLES, Schema};
use sq_text::{InputFault, LineReader, LocatedFault, WriteFault, read_header};
use std::alloc::Global;
use std::io::{Read, Write};

/// Reads an input line by line, runs it, and writes the answers.
///
/// The input is a header, as [`read_header`] reads it for a schema of [`MAX_TABLES`] tables, and
/// the lines of a script. Each line of the script is answered by one line: a step by the rules of
/// the move, and any other line by the number of its refusal. After the last line comes the dump of
/// the world. If the header has a fault, only the fault is written; so it is if there is no memory
/// for a line or the world. If a read of the script fails, or it has too many lines or one without
/// end, the fault is written in place of the dump. The writer is flushed before more of the script
/// is read, and at the end. Fails if a write or a flush fails.
///
/// If `manner` says `echoes`, each line of the script is written before its answer, as
/// `LINE -> ANSWER`, and the number of a refusal is followed by its meaning, as
/// `LINE -> refused 216: the node's last chunk isn't loaded`. If it says `strict`, the run ends
/// after the first refused line.
///
/// The world that the header opens replaces any in `kept`. If the run comes to its dump, this is
/// the world that is dumped: a legal history of steps, spelled by lines, leads to it from that
/// header. The caller may free it later or leave it to the system.
pub fn run<R: Read, W: Write>(
    alloc: Global,
    reader: &mut R,
    writer: &mut W,
    manner: ScriptManner,
    kept: &mut Option<World>,
) -> Result<Ending, WriteFault>
    ensures runs { IfOk result
        (Runs manner MAX_TABLES (R.remaining reader.old) (W.contents writer.old)
        (W.contents writer.new)) }
    ensures kept { IfOk result
        (KeepsDumped kept.new (W.contents writer.old) (W.contents writer.new)) }
    ensures led { IfOk result
        (KeepsLed (IsLedByReader MAX_TABLES (R.remaining reader.old)) kept.new) }
{
    let Ok(mut lines) = LineReader::new(alloc, reader) else {
        let ended = end_by(writer, InputFault::Memory.at_no_line())?;
        writer.flush()?;
        return Ok(ended);
    };
    let ending = run_lines(alloc, &mut lines, writer, manner, kept)?;
    writer.flush()?;
    Ok(ending)
}

fn run_lines<R: Read, W: Write>(
    alloc: Global,
    lines: &mut LineReader<R>,
    writer: &mut W,
    manner: ScriptManner,
    kept: &mut Option<World>,
) -> Result<Ending, WriteFault>
    ensures runs { IfOk result (RunsLines manner MAX_TABLES lines.old (W.contents writer.old)
        (W.contents writer.new)) }
    ensures kept { IfOk result
        (KeepsDumped kept.new (W.contents writer.old) (W.contents writer.new)) }
    ensures led { IfOk result (KeepsLed (IsLedByLines MAX_TABLES lines.old) kept.new) }
{
    let schema = Schema::largest();
    match open_world(alloc, schema, lines) {
        Ok(world) => run_script(alloc, &schema, kept.insert(world), lines, writer, manner),
        Err(fault) => end_by(writer, fault),
    }
}

// Opens the world of a header.
fn open_world<R: Read>(
    alloc: Global,
    schema: Schema,
    lines: &mut LineReader<R>,
) -> Result<World, LocatedFault>
    ensures world { IfOk result (OpensWorld schema lines.old lines.new) }
    ensures fault { IfErr result (RefusesHeader schema lines.old lines.new) }
{
    let opening = read_header(alloc, schema, lines)?;
    match World::from_opening(alloc, opening) {
        Ok(world) => Ok(world),
        Err(_) => Err(InputFault::Memory.at_no_line()),
    }
}
