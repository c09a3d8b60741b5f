// Runs scripts.
ghost use Rattle.std.specs.Prelude.{◌≡◌, ℕ, Ok, Some, OnOk, IfOk};
ghost use Rattle.std.specs.Io.KnownBytes.{Appends};
ghost use Rattle.sq_text.specs.Pieces.{next_line_number};
ghost use Rattle.sq_text.specs.Steps.{step_of};
ghost use Rattle.sq_world.specs.Dump.{dump};
ghost use Rattle.sq_world.specs.Run.{EndsAtFault, stopping, ending_at};
ghost use Rattle.sq_world.specs.Script.{AnswersWorld, RunsScript};

use crate::echo::{write_refusal, write_told};
use crate::ending::{Ending, RefusedLine, ScriptManner};
use crate::world::World;
use sq_model::Step;
use sq_schema::Schema;
use sq_text::{
    InputFault, InputLine, LineFault, LineReader, LocatedFault, MAX_UNENDED, Next, WriteFault,
    read_step, write_fault,
};
use std::alloc::Global;
use std::io::{Read, Write};

// Writes the answers to the lines of a script, in this `manner`, and then the dump. Flushes the
// writer before more is read.
pub(crate) fn run_script<R: Read, W: Write>(
    alloc: Global,
    schema: &Schema,
    world: &mut World,
    lines: &mut LineReader<R>,
    writer: &mut W,
    manner: ScriptManner,
) -> Result<Ending, WriteFault>
    ensures { IfOk result
        (RunsScript manner schema.now world.old world.new lines.old (W.contents writer.old)
        (W.contents writer.new)) }
{
    loop {
        let line = lines.next_line_number();
        match lines.next(MAX_UNENDED) {
            Next::Line => {
                let bytes = lines.piece();
                let refused = write_line(alloc, schema, world, bytes, writer, manner.echoes)?;
                if let Some(number) = stopping(manner, refused) {
                    return end(world, writer, ending_at(Some(number), line));
                }
            }
            Next::Unread => {
                writer.flush()?;
                lines.read_more();
            }
            Next::Rest => {
                let number = LineFault::NotAStep.number();
                write_refusal(writer, lines.piece(), number, manner.echoes)?;
                let stop = stopping(manner, Some(number));
                return end(world, writer, ending_at(stop, line));
            }
            Next::End => return end(world, writer, Ending::Done),
            Next::Failed => return end_by(writer, InputFault::ReadFailed.at(line_of(lines))),
            Next::Long => return end_by(writer, InputFault::TooLong.at(line_of(lines))),
            Next::TooMany => {
                return end_by(writer, InputFault::TooLong.at(InputLine::AFTER_THE_LAST));
            }
        }
    }
}

// Returns the line in which an input ends.
fn line_of<R: Read>(lines: &LineReader<R>) -> InputLine
    ensures { result ≡ InputLine.Later (next_line_number lines.now.lines_left) }
{
    InputLine::Later(lines.next_line_number())
}

// Returns the refusal after which a run in this `manner` ends, if it does.
fn stopping(manner: ScriptManner, refused: Option<u16>) -> Option<u16>
    ensures { result ≡ stopping manner refused }
{
    if manner.strict { refused } else { None }
}

// Returns how a run ends at `line`; `stop` is the refusal that ends it, if one does.
fn ending_at(stop: Option<u16>, line: u32) -> Ending
    ensures { result ≡ ending_at stop line }
{
    match stop {
        Some(number) => Ending::Stopped(RefusedLine { line, number }),
        None => Ending::Done,
    }
}

// Writes the dump, and ends the run with `ending`.
fn end<W: Write>(world: &World, writer: &mut W, ending: Ending) -> Result<Ending, WriteFault>
    ensures ending { IfOk result (λ ended. ended ≡ ending) }
    ensures dumped { OnOk result (Appends (W.contents writer.old) (W.contents writer.new)
        (dump world.now)) }
{
    world.write_dump(writer)?;
    Ok(ending)
}

// Writes the answer to a line of a script. Returns the number of a refusal.
fn write_line<W: Write>(
    alloc: Global,
    schema: &Schema,
    world: &mut World,
    line: &[u8],
    writer: &mut W,
    echoes: bool,
) -> Result<Option<u16>, WriteFault>
    ensures { IfOk result (AnswersWorld echoes schema.now line.now world.old world.new
        (W.contents writer.old) (W.contents writer.new)) }
{
    match read_step(alloc, schema, line) {
        Ok(step) => make_step(world, &step, line, writer, echoes),
        Err(fault) => {
            let number = fault.number();
            write_refusal(writer, line, number, echoes)?;
            Ok(Some(number))
        }
    }
}

// Executes the step of `line` and writes its answer. Returns the number of a refusal. Not inlined,
// since a line without a step needs none of its values.
#[inline(never)]
fn make_step<W: Write>(
    world: &mut World,
    step: &Step,
    line: &[u8],
    writer: &mut W,
    echoes: bool,
) -> Result<Option<u16>, WriteFault>
    ensures { IfOk result (λ refused. (tables : ℕ) → Ok step.now ≡ step_of tables line.now
        → AnswersWorld echoes tables line.now world.old world.new
        (W.contents writer.old) (W.contents writer.new) refused) }
{
    let answer = world.step(step);
    write_told(writer, line, &answer, echoes)
}

// Writes the number of a fault, which ends the run.
pub(crate) fn end_by<W: Write>(writer: &mut W, located: LocatedFault) -> Result<Ending, WriteFault>
    ensures { IfOk result (EndsAtFault located (W.contents writer.old) (W.contents writer.new)) }
{
    write_fault(writer, located.fault.number())?;
    Ok(Ending::Fault(located))
}
