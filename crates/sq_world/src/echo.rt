// Writes answers, alone or after their lines.
ghost use Rattle.std.specs.Prelude.{◌≡◌, IfOk, OnOk};
ghost use Rattle.std.specs.Io.KnownBytes.{Appends};
ghost use Rattle.sq_explain.specs.Meanings.{meaning_of};
ghost use Rattle.sq_world.specs.Echo.{reason_line, refused_text, answer_text, refusal_in};

use sq_explain::entry;
use sq_model::Answer;
use sq_text::{WriteFault, write_answer, write_refused};
use std::io::Write;

// The text between a line and its answer.
const ARROW: &[u8] = b" -> ";

/// Writes `answer`, after its `line` if `echoes`. Returns the number of a refusal. Fails if a write
/// fails.
pub(crate) fn write_told<W: Write>(
    writer: &mut W,
    line: &[u8],
    answer: &Answer,
    echoes: bool,
) -> Result<Option<u16>, WriteFault>
    ensures text { OnOk result
        (Appends (W.contents writer.old) (W.contents writer.new)
        (answer_text echoes line.now answer.now)) }
    ensures refused { IfOk result (λ refused. refused ≡ refusal_in answer.now) }
{
    if let Answer::Refused(refusal) = answer {
        let number = refusal.number();
        write_refusal(writer, line, number, echoes)?;
        return Ok(Some(number));
    }
    if echoes {
        writer.write_all(line)?;
        writer.write_all(ARROW)?;
    }
    write_answer(writer, answer)?;
    Ok(None)
}

/// Writes the refusal with this `number`; if `echoes`, after its `line` and with its meaning. Fails
/// if a write fails.
#[inline(always)]
pub(crate) fn write_refusal<W: Write>(
    writer: &mut W,
    line: &[u8],
    number: u16,
    echoes: bool,
) -> Result<(), WriteFault>
    ensures { OnOk result (Appends (W.contents writer.old) (W.contents writer.new)
        (refused_text echoes line.now number)) }
{
    if !echoes {
        return write_refused(writer, number);
    }
    writer.write_all(line)?;
    writer.write_all(ARROW)?;
    write_reason(writer, number)
}

// Writes a refusal with its meaning. Fails if a write fails.
fn write_reason<W: Write>(writer: &mut W, number: u16) -> Result<(), WriteFault>
    ensures { OnOk result (Appends (W.contents writer.old) (W.contents writer.new)
        (reason_line number (meaning_of number))) }
{
    match entry(number) {
        Some(entry) => {
            let meaning = entry.meaning;
            writeln!(writer, "refused {number}: {meaning}")?;
            Ok(())
        }
        None => write_refused(writer, number),
    }
}
