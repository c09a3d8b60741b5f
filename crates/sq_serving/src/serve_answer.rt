// What an engine answers to lines other than jobs.
ghost use Rattle.std.specs.Prelude.{true, false, OnOk};
ghost use Rattle.std.specs.Io.KnownBytes.{Appends};
ghost use Rattle.sq_serving.specs.declared.serve_answer.ServeAnswer.TheVariants.{Fault, Owner};
ghost use Rattle.sq_serving.specs.ServeAnswers.{serve_answer_line, status_line, json_line};
ghost use Rattle.sq_serving.specs.ServeAnswers.{rest_line, progress_line, plan_line};

use sq_text::WriteFault;
use std::io;
use std::io::Write;

/// What an engine answers to a line other than a job, or to a line that asks nothing.
#[derive(Clone, Copy, Debug)]
pub enum ServeAnswer {
    /// Line number `line` has this fault. `id` is that of its job, if it has one.
    Fault {
        fault: u16,
        line: u64,
        id: Option<u64>,
    },
    /// A move of this many segments begins.
    Moving {
        segments: u64,
    },
    /// A move of this many segments is done.
    Moved {
        segments: u64,
    },
    /// This many jobs were answered, each with the reply that its place in the log gives.
    Folded {
        answers: u64,
    },
    /// This many rows were written, as lines or into a file.
    Rows {
        count: u64,
    },
    /// Nothing moves, and this many jobs have no answer. `is_paused` tells whether pumps rest.
    AtRest {
        unanswered: u64,
        is_paused: bool,
    },
    /// `complete` of the stage's segments are complete, and `unanswered` jobs have no answer.
    Progress {
        complete: u64,
        segments: u64,
        unanswered: u64,
        is_paused: bool,
    },
    /// All pumps rest.
    Paused,
    /// The pumps go on.
    Resumed,
    /// Only this many pumps claim.
    Pumps {
        count: u64,
    },
    /// Later moves have chunks of at most this many bytes.
    Chunk {
        bytes: u64,
    },
    /// A move waits until the rows rest; with it, this many do.
    Queued {
        waiting: u64,
    },
    /// The move that waited last was dropped, and this many still wait.
    Dropped {
        waiting: u64,
    },
    /// No move waits that could be dropped.
    NothingQueued,
    /// The partition that owns a root key.
    Owner {
        root: u64,
        part: u8,
    },
}

/// Writes the line of an answer. Fails if a write does.
pub fn write_serve_answer<W: Write>(writer: &mut W, answer: ServeAnswer) -> Result<(), WriteFault>
    ensures { OnOk result (Appends (W.contents writer.old) (W.contents writer.new)
        (serve_answer_line answer)) }
{
    write_answer_line(writer, answer)?;
    Ok(())
}

// Writes the line of an answer.
fn write_answer_line<W: Write>(writer: &mut W, answer: ServeAnswer) -> io::Result<()>
    ensures { OnOk result (Appends (W.contents writer.old) (W.contents writer.new)
        (serve_answer_line answer)) }
{
    match answer {
        ServeAnswer::Fault { fault, line, id } => write_fault(writer, fault, line, id),
        ServeAnswer::Moving { segments } => writeln!(writer, "moving {segments}"),
        ServeAnswer::Moved { segments } => writeln!(writer, "moved {segments}"),
        ServeAnswer::Folded { answers } => writeln!(writer, "folded {answers}"),
        ServeAnswer::Rows { count } => writeln!(writer, "rows {count}"),
        ServeAnswer::AtRest {
            unanswered,
            is_paused,
        } => write_rest(writer, unanswered, is_paused, ""),
        ServeAnswer::Progress {
            complete,
            segments,
            unanswered,
            is_paused,
        } => write_progress(writer, complete, segments, unanswered, is_paused, ""),
        ServeAnswer::Paused => writeln!(writer, "paused"),
        ServeAnswer::Resumed => writeln!(writer, "resumed"),
        ServeAnswer::Pumps { count } => writeln!(writer, "pumps {count}"),
        ServeAnswer::Chunk { bytes } => writeln!(writer, "chunk {bytes}"),
        ServeAnswer::Queued { waiting } => writeln!(writer, "queued {waiting}"),
        ServeAnswer::Dropped { waiting } => writeln!(writer, "dropped {waiting}"),
        ServeAnswer::NothingQueued => writeln!(writer, "nothing queued"),
        ServeAnswer::Owner { root, part } => write_owner(writer, root, part),
    }
}

/// Writes the line of the status, with `figures` after its words. Fails if a write does.
pub fn write_status<W: Write>(
    writer: &mut W,
    status: ServeAnswer,
    figures: &str,
) -> Result<(), WriteFault>
    ensures { OnOk result (Appends (W.contents writer.old) (W.contents writer.new)
        (status_line status figures.now)) }
{
    write_status_line(writer, status, figures)?;
    Ok(())
}

// Writes the line of the status.
fn write_status_line<W: Write>(writer: &mut W, status: ServeAnswer, figures: &str) -> io::Result<()>
    ensures { OnOk result (Appends (W.contents writer.old) (W.contents writer.new)
        (status_line status figures.now)) }
{
    match status {
        ServeAnswer::AtRest {
            unanswered,
            is_paused,
        } => write_rest(writer, unanswered, is_paused, figures),
        ServeAnswer::Progress {
            complete,
            segments,
            unanswered,
            is_paused,
        } => write_progress(writer, complete, segments, unanswered, is_paused, figures),
        ServeAnswer::Fault { .. }
        | ServeAnswer::Moving { .. }
        | ServeAnswer::Moved { .. }
        | ServeAnswer::Folded { .. }
        | ServeAnswer::Rows { .. }
        | ServeAnswer::Paused
        | ServeAnswer::Resumed
        | ServeAnswer::Pumps { .. }
        | ServeAnswer::Chunk { .. }
        | ServeAnswer::Queued { .. }
        | ServeAnswer::Dropped { .. }
        | ServeAnswer::NothingQueued
        | ServeAnswer::Owner { .. } => write_answer_line(writer, status),
    }
}

/// Writes a line of JSON. Fails if a write does.
pub fn write_json<W: Write>(writer: &mut W, text: &str) -> Result<(), WriteFault>
    ensures { OnOk result (Appends (W.contents writer.old) (W.contents writer.new)
        (json_line text.now)) }
{
    writeln!(writer, "{text}")?;
    Ok(())
}

// Writes that a line has a fault.
fn write_fault<W: Write>(writer: &mut W, fault: u16, line: u64, id: Option<u64>) -> io::Result<()>
    ensures { OnOk result (Appends (W.contents writer.old) (W.contents writer.new)
        (serve_answer_line (Fault fault line id))) }
{
    match id {
        Some(id) => writeln!(writer, "fault {fault} {line} id {id}"),
        None => writeln!(writer, "fault {fault} {line}"),
    }
}

// Writes that nothing moves, how many jobs have no answer, whether pumps rest, and `figures`.
fn write_rest<W: Write>(
    writer: &mut W,
    unanswered: u64,
    is_paused: bool,
    figures: &str,
) -> io::Result<()>
    ensures { OnOk result (Appends (W.contents writer.old) (W.contents writer.new)
        (rest_line unanswered is_paused figures.now)) }
{
    if is_paused {
        write_paused_rest(writer, unanswered, figures)
    } else {
        write_open_rest(writer, unanswered, figures)
    }
}

// The same while pumps rest.
fn write_paused_rest<W: Write>(writer: &mut W, unanswered: u64, figures: &str) -> io::Result<()>
    ensures { OnOk result (Appends (W.contents writer.old) (W.contents writer.new)
        (rest_line unanswered true figures.now)) }
{
    writeln!(writer, "at rest, {unanswered} jobs open, paused{figures}")
}

// The same while pumps claim.
fn write_open_rest<W: Write>(writer: &mut W, unanswered: u64, figures: &str) -> io::Result<()>
    ensures { OnOk result (Appends (W.contents writer.old) (W.contents writer.new)
        (rest_line unanswered false figures.now)) }
{
    writeln!(writer, "at rest, {unanswered} jobs open{figures}")
}

// Writes the progress of a move, how many jobs have no answer, whether pumps rest, and `figures`.
fn write_progress<W: Write>(
    writer: &mut W,
    complete: u64,
    segments: u64,
    unanswered: u64,
    is_paused: bool,
    figures: &str,
) -> io::Result<()>
    ensures { OnOk result (Appends (W.contents writer.old) (W.contents writer.new)
        (progress_line complete segments unanswered is_paused figures.now)) }
{
    if is_paused {
        write_paused_progress(writer, complete, segments, unanswered, figures)
    } else {
        write_open_progress(writer, complete, segments, unanswered, figures)
    }
}

// The same while pumps rest.
fn write_paused_progress<W: Write>(
    writer: &mut W,
    complete: u64,
    segments: u64,
    unanswered: u64,
    figures: &str,
) -> io::Result<()>
    ensures { OnOk result (Appends (W.contents writer.old) (W.contents writer.new)
        (progress_line complete segments unanswered true figures.now)) }
{
    writeln!(
        writer,
        "moving {complete} of {segments} segments, {unanswered} jobs open, paused{figures}"
    )
}

// The same while pumps claim.
fn write_open_progress<W: Write>(
    writer: &mut W,
    complete: u64,
    segments: u64,
    unanswered: u64,
    figures: &str,
) -> io::Result<()>
    ensures { OnOk result (Appends (W.contents writer.old) (W.contents writer.new)
        (progress_line complete segments unanswered false figures.now)) }
{
    writeln!(
        writer,
        "moving {complete} of {segments} segments, {unanswered} jobs open{figures}"
    )
}

// Writes which partition owns a root key.
fn write_owner<W: Write>(writer: &mut W, root: u64, part: u8) -> io::Result<()>
    ensures { OnOk result (Appends (W.contents writer.old) (W.contents writer.new)
        (serve_answer_line (Owner root part))) }
{
    writeln!(writer, "owner {root} {part}")
}

/// Writes the line of the plan with this text. Fails if a write does.
pub fn write_plan<W: Write>(writer: &mut W, text: &str) -> Result<(), WriteFault>
    ensures { OnOk result (Appends (W.contents writer.old) (W.contents writer.new)
        (plan_line text.now)) }
{
    writeln!(writer, "plan {text}")?;
    Ok(())
}
