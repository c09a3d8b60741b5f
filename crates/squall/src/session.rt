// Runs, the messages about their faults, and the exit status.
ghost use Rattle.std.specs.Prelude.{◌≡◌, [], Some, IfOk};
ghost use Rattle.sq_input.specs.Recalling.{recalling_remaining};
ghost use Rattle.sq_results.specs.Standing.{WritesRows, world_families};
ghost use Rattle.squall.specs.Session.{exit_status, EndsAs, RunsAs, MovesAs, AnswersSizes, ListsAs};

use crate::flaws::{tell_form, tell_misfit, tell_unread_stages};
use crate::outputs::save_text;
use crate::source::{Source, is_table};
use sq_command::Form;
use sq_explain::entry;
use sq_input::{Recalled, Recalling, ToldLine, table_of};
use sq_outputs::EchoAsJson;
use sq_picture::{AsJson, AsSvg, SizesAs, tell_opening};
use sq_results::write_world_rows;
use sq_text::{InputFault, InputLine, LocatedFault, Meaning, WriteFault};
use sq_world::{Ending, RefusedLine, ScriptManner, World, list, ranges, run};
use std::alloc::Global;
use std::fs::OpenFile;
use std::io::{ErrorKind, Read, Write};
use std::mem::forget;
use std::rt::Files;
use std::{fs, io};

/// The exit status after a fault, and after a command line that was refused.
pub const REFUSED: u8 = 2;

/// What a script writes.
#[derive(Clone, Copy)]
pub struct ScriptOutputs<'a> {
    /// Whether each line of the output is a JSON value.
    pub json: bool,
    /// The name of the file for the rows at the end, if one is asked for.
    pub rows_out: Option<&'a str>,
}

/// Runs the script in `reader`, and writes its answers to `writer`. Standard error explains its
/// fault, or the refusal after which it stopped. The rows at the end go into the file that
/// `outputs` names, if there is one, unless the run ended in a fault. Returns the exit status,
/// which is 2 if the rows can't be written.
pub fn script<T: Eprint + Files + AllocGlobal, R: Read, W: Write>(
    rt: &T,
    reader: &mut Recalling<R>,
    writer: &mut W,
    manner: ScriptManner,
    outputs: ScriptOutputs<'_>,
    source: &Source<'_>,
) -> u8
    ensures { EndsAs
        (RunsAs outputs.entry.json manner (recalling_remaining R.remaining reader.old)
        (W.contents writer.old) (W.contents writer.new))
        exit_status result }
{
    let mut world = None;
    let ran = run_as(rt.alloc(), reader, writer, manner, outputs.json, &mut world);
    explain_end(rt, source, reader, ran);
    let is_saved = save_rows(rt, outputs.rows_out, ran, &world);
    // The program ends, and the system reclaims its memory faster than it could be freed.
    forget(world);
    if !is_saved {
        return REFUSED;
    }
    exit_status(ran)
}

// Runs the script in `reader`, and writes its answers to `writer`, as JSON if `json` is set.
fn run_as<R: Read, W: Write>(
    alloc: Global,
    reader: &mut R,
    writer: &mut W,
    manner: ScriptManner,
    json: bool,
    kept: &mut Option<World>,
) -> Result<Ending, WriteFault>
    ensures { IfOk result (RunsAs json manner (R.remaining reader.old) (W.contents writer.old)
        (W.contents writer.new)) }
{
    if json {
        let mut values = EchoAsJson::new(alloc, writer);
        run(alloc, reader, &mut values, manner, kept)
    } else {
        run(alloc, reader, writer, manner, kept)
    }
}

// Writes the rows at the end of a run into the file `rows_out`, if there is one. Returns false if
// that fails.
fn save_rows<T: Eprint + Files + AllocGlobal>(
    rt: &T,
    rows_out: Option<&str>,
    ran: Result<Ending, WriteFault>,
    world: &Option<World>,
) -> bool {
    match (rows_out, ran, world) {
        (Some(name), Ok(Ending::Done | Ending::Stopped(_)), Some(world)) => save_text(
            rt,
            name,
            rows_text(rt.alloc(), world).and_then(|text| as_named(rt.alloc(), name, text)),
        ),
        _ => true,
    }
}

/// The rows in `lines`, lines of a header, as the file `name` has them: a table of values if its
/// name ends in '.csv', else these lines. Fails only if memory runs out.
pub(crate) fn as_named(alloc: Global, name: &str, lines: Vec<u8>) -> io::Result<Vec<u8>> {
    if is_table(name) {
        table_of(alloc, &lines)
    } else {
        Ok(lines)
    }
}

// The rows of a world, as lines of a header.
fn rows_text(alloc: Global, world: &World) -> io::Result<Vec<u8>>
    ensures { IfOk result (λ text.
        WritesRows (world_families world.now) (Some []) (Some text.items)) }
{
    let mut text = Vec::new(alloc);
    write_world_rows(alloc, &mut text, world)?;
    Ok(text)
}

/// Writes what moves between the plans in `reader`, in the format `form`, with sizes if `sizes` is
/// set. Standard error explains a fault. Returns the exit status.
pub fn listing<T: Eprint + Files + AllocGlobal, R: Read, W: Write>(
    rt: &T,
    reader: &mut Recalling<R>,
    writer: &mut W,
    form: Form,
    sizes: bool,
    source: &Source<'_>,
) -> u8
    ensures { EndsAs
        (ListsAs form sizes (recalling_remaining R.remaining reader.old) (W.contents writer.old)
        (W.contents writer.new))
        exit_status result }
{
    let listed = if sizes {
        list_sizes(rt.alloc(), reader, writer, form)
    } else {
        list_moves(rt.alloc(), reader, writer, form)
    };
    explain_end(rt, source, reader, listed);
    exit_status(listed)
}

// Writes what moves, in the format `form`.
fn list_moves<R: Read, W: Write>(
    alloc: Global,
    reader: &mut R,
    writer: &mut W,
    form: Form,
) -> Result<Ending, WriteFault>
    ensures { IfOk result
        (MovesAs form (R.remaining reader.old) (W.contents writer.old) (W.contents writer.new)) }
{
    match form {
        Form::Lines => ranges(alloc, reader, writer),
        Form::Json => list(alloc, reader, writer, &AsJson),
        Form::Svg => list(alloc, reader, writer, &AsSvg),
    }
}

// The same with sizes.
fn list_sizes<R: Read, W: Write>(
    alloc: Global,
    reader: &mut R,
    writer: &mut W,
    form: Form,
) -> Result<Ending, WriteFault>
    ensures { IfOk result
        (AnswersSizes (R.remaining reader.old) (W.contents writer.old) (W.contents writer.new)) }
{
    let sizes = match form {
        Form::Lines => SizesAs::Lines,
        Form::Json => SizesAs::Json,
        Form::Svg => SizesAs::Svg,
    };
    tell_opening(alloc, reader, writer, &sizes)
}

/// Writes to standard error what the fault or the refusal that ended a run means, if there is one,
/// and the line that it belongs to.
pub(crate) fn explain_end<T: Eprint + Files + AllocGlobal, R: Read>(
    rt: &T,
    source: &Source<'_>,
    reader: &Recalling<R>,
    ran: Result<Ending, WriteFault>,
) {
    match ran {
        Ok(Ending::Done) => {}
        Ok(Ending::Stopped(refused)) => explain_refused(rt, source, reader, refused),
        Ok(Ending::Fault(located)) => explain(rt, source, reader, &located),
        Err(fault) => explain_write(rt, fault, source.is_closed.get()),
    }
    tell_unread_stages(rt, source, reader);
}

// Writes to standard error which line was refused, its words, and what the number of its refusal
// means.
fn explain_refused<T: Eprint, R: Read>(
    rt: &T,
    source: &Source<'_>,
    reader: &Recalling<R>,
    refused: RefusedLine,
) {
    let RefusedLine { line, number } = refused;
    let place = source.place(InputLine::Later(line));
    let meaning = entry(number).map_or("", |entry| entry.meaning);
    match reader.line(line as usize) {
        Recalled::Line(words) | Recalled::Rest(words) => {
            let told = ToldLine(words);
            let _ = eprintln!(rt; "squall: {place}: {told} is refused {number}: {meaning}");
        }
        _ => {
            let _ = eprintln!(rt; "squall: {place}: refused {number}: {meaning}");
        }
    }
}

/// Writes to standard error that a write failed, unless the reader of standard output has closed
/// it.
pub(crate) fn explain_write(rt: &impl Eprint, fault: WriteFault, is_closed: bool) {
    if is_closed {
        return;
    }
    let number = fault.number();
    let _ = eprintln!(rt; "squall: fault {number}: {fault}");
}

/// The exit status of a run: 0 if it was done, 3 if it stopped after a refusal, and 2 after a
/// fault.
pub fn exit_status(ran: Result<Ending, WriteFault>) -> u8
    ensures { result ≡ exit_status ran }
{
    match ran {
        Ok(ending) => ending.status(),
        Err(_) => REFUSED,
    }
}

/// Writes the fault that memory ran out before the run, and returns the exit status 2.
pub fn refuse_for_memory(rt: &(impl Print + Eprint)) -> u8
    ensures { result ≡ 2 }
{
    let fault = InputFault::Memory;
    let _ = println!(rt; "fault {}", fault.number());
    let _ = eprintln!(rt; "squall: {}", fault.at_no_line());
    REFUSED
}

/// Writes to standard error the line that a fault belongs to, what the fault means, and what is
/// wrong with the line. If a header line isn't of its form, what is wrong comes first, and then the
/// form.
pub(crate) fn explain<T: Eprint + Files + AllocGlobal, R: Read>(
    rt: &T,
    source: &Source<'_>,
    reader: &Recalling<R>,
    located: &LocatedFault,
) {
    let Some(line) = located.line else {
        let _ = eprintln!(rt; "squall: {located}");
        return;
    };
    if located.fault == InputFault::BadHeader {
        let form = if source.is_record(line) {
            TABLE_FORM
        } else {
            form_of(line)
        };
        tell_form(rt, source, reader, located, line, form);
        return;
    }
    let place = source.place(line);
    let _ = eprintln!(rt; "squall: {place}: {}", Meaning(located));
    tell_misfit(rt, source, reader, located);
}

/// The form of a line of a table of values.
pub(crate) const TABLE_FORM: &str =
    "'ROOT,TABLE,SUB,NUMBER,NOTE', as in '5,0,0,10,': root key, table, sub key, number, note";

// The form of a header line.
fn form_of(line: InputLine) -> &'static str {
    match line {
        InputLine::Old => {
            r#"'old PLAN', as in 'old {"version":1,"partitions":2,"ranges":[[0,4294967296,0]]}'"#
        }
        InputLine::New => {
            r#"'new PLAN', as in 'new {"version":1,"partitions":2,"ranges":[[0,8,1],[8,4294967296,0]]}'"#
        }
        InputLine::Config => {
            "'config W L C', as in 'config 1 64 1': root keys in a leaf, bytes in a chunk, chunks on a link"
        }
        InputLine::Row(_) | InputLine::Later(_) => {
            "'row ROOT T S N NOTE', as in 'row 5 0 0 10 -': root key, table, sub key, number, note"
        }
    }
}

/// Opens the file `name` for reading. Fails if it is a folder.
pub fn open_input<T: Files>(rt: &T, name: &str) -> io::Result<T::File> {
    let file = fs::open(rt, name)?;
    if file.metadata()?.is_dir() {
        return Err(io::Error::from(ErrorKind::IsADirectory));
    }
    Ok(file)
}

/// Writes to standard error why a file can't be read, and returns the exit status 2.
pub fn refuse_file(rt: &impl Eprint, name: &str, error: &io::Error) -> u8
    ensures { result ≡ 2 }
{
    let _ = eprintln!(rt; "squall: the file '{name}' can't be read: {error}");
    REFUSED
}

/// Writes to standard error why the command line can't be read, and returns the exit status 2.
pub fn refuse_words(rt: &impl Eprint, error: &io::Error) -> u8
    ensures { result ≡ 2 }
{
    let _ = eprintln!(rt; "squall: the command line can't be read: {error}");
    REFUSED
}
