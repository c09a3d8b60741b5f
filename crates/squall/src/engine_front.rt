// The beginning of an engine's text, if its plan has a file of its own.
ghost use Rattle.std.specs.Prelude.{◌≡◌, IfErr};

use crate::plans::read_plan;
use crate::session::{open_input, refuse_file, refuse_for_memory};
use crate::source::{FaultPlace, is_table};
use crate::text_places::RowPlaces;
use crate::unread_stages::tell_unread_stages_of;
use sq_command::EngineFiles;
use sq_input::{BareLines, CsvRows, RecordFlaw, RecordLines, RowLines};
use std::alloc::Global;
use std::io;
use std::io::{ErrorKind, Read};
use std::rt::Files;

// The byte that ends a line.
const LINE_END: u8 = 10;

// The most bytes that are read of the line of the sizes, if it comes before the rows of a file.
const MAX_SIZES_LINE: usize = 65_537;

/// The beginning of an engine's text.
#[derive(Drop)]
pub struct EngineFront {
    pub text: Vec<u8>,
    /// Where its rows are, if they have a file of their own.
    pub rows: Option<RowPlaces>,
    /// What is wrong with the last record of a table of rows, apart from its fields.
    pub flaw: Option<FlawedRecord>,
}

/// What is wrong with the record that begins on `line`.
#[derive(Clone, Copy)]
pub struct FlawedRecord {
    pub line: u64,
    pub flaw: RecordFlaw,
}

/// The beginning of the text of an engine whose plan has a file: the line of the plan, and, if the
/// rows have a file too, the first line of `main` and those rows. Fails with the exit status 2 if a
/// file can't be read or memory runs out; standard error says which.
pub fn front_of<T, I>(rt: &T, files: EngineFiles<'_>, main: &mut I) -> Result<EngineFront, u8>
where
    T: Print + Eprint + Files + AllocGlobal,
    I: Read,
    ensures { IfErr result (λ status. status ≡ 2) }
{
    let plan = told(rt, files.plan, read_plan(rt, files.plan))?;
    tell_unread_stages_of(rt, rt.alloc(), FaultPlace::File(files.plan), &plan);
    let text = told(rt, files.plan, plan_line(rt.alloc(), &plan))?;
    let Some(name) = files.rows else {
        return Ok(EngineFront {
            text,
            rows: None,
            flaw: None,
        });
    };
    let text = told(rt, "standard input", with_line(text, main))?;
    told(rt, name, with_rows(rt, text, name))
}

/// The value in `made`, or the exit status 2 after a file that can't be read, or after memory ran
/// out; standard error says which.
pub fn told<T: Print + Eprint, X: Drop>(rt: &T, name: &str, made: io::Result<X>) -> Result<X, u8>
    ensures { IfErr result (λ status. status ≡ 2) }
{
    match made {
        Ok(made) => Ok(made),
        Err(error) if error.kind() == ErrorKind::OutOfMemory => Err(refuse_for_memory(rt)),
        Err(error) => Err(refuse_file(rt, name, &error)),
    }
}

// The line of a plan, in which each line end of its text is a space.
fn plan_line(alloc: Global, plan: &[u8]) -> io::Result<Vec<u8>> {
    let mut line = Vec::from_slice(alloc, b"plan ")?;
    for byte in plan {
        let byte = if *byte == LINE_END { b' ' } else { *byte };
        line.push(byte)?;
    }
    line.push(LINE_END)?;
    Ok(line)
}

// A text, and after it the first line of a reader.
fn with_line<I: Read>(text: Vec<u8>, main: &mut I) -> io::Result<Vec<u8>> {
    let mut text = text;
    for _ in 0..MAX_SIZES_LINE {
        let mut byte = [0];
        if main.read(&mut byte)? == 0 {
            break;
        }
        text.push(byte[0])?;
        if byte[0] == LINE_END {
            break;
        }
    }
    ended(text)
}

// A text, and after it the rows of the file `name`, which may be a table of values.
fn with_rows<T: Files + AllocGlobal>(rt: &T, text: Vec<u8>, name: &str) -> io::Result<EngineFront> {
    let before = count_lines(&text);
    let file = open_input(rt, name)?;
    let records = RecordLines::new(rt.alloc());
    let text = if is_table(name) {
        with_all(text, CsvRows::new(rt.alloc(), file, &records)?)?
    } else {
        with_all(text, RowLines::new(BareLines::new(file, &records)))?
    };
    let count = count_lines(&text).saturating_sub(before);
    let rows = RowPlaces { count, records };
    Ok(EngineFront {
        text,
        flaw: flaw_in(&rows),
        rows: Some(rows),
    })
}

// What is wrong with the last record of rows that are a table.
fn flaw_in(rows: &RowPlaces) -> Option<FlawedRecord> {
    let flaw = rows.records.flaw_of(rows.count)?;
    Some(FlawedRecord {
        line: rows.line_of(rows.count),
        flaw,
    })
}

// A text, and after it all that a reader reads.
fn with_all<R: Read + Drop>(text: Vec<u8>, reader: R) -> io::Result<Vec<u8>> {
    let mut text = text;
    let mut reader = reader;
    reader.read_to_end(&mut text)?;
    ended(text)
}

// A text, with an end of its last line.
fn ended(text: Vec<u8>) -> io::Result<Vec<u8>> {
    let mut text = text;
    if text.last() != Some(&LINE_END) {
        text.push(LINE_END)?;
    }
    Ok(text)
}

// How many lines a text has.
fn count_lines(text: &[u8]) -> u64 {
    text.iter().filter(|byte| **byte == LINE_END).count() as u64
}
