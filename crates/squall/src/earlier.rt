// Earlier lines that a line repeats.
use crate::session::open_input;
use crate::source::{FaultPlace, Source, is_table};
use sq_input::{CsvRows, Once, Recalled, Recalling, RecordLines};
use sq_outputs::is_other_than_file;
use sq_text::InputLine;
use std::alloc::Global;
use std::fmt;
use std::fmt::{Display, Formatter, Write};
use std::io::Read;
use std::rt::Files;

/// The place of an earlier line, in a message about the line at `after`.
#[derive(Clone, Copy)]
pub struct Earlier<'a> {
    pub place: FaultPlace<'a>,
    pub after: FaultPlace<'a>,
}

impl Display for Earlier<'_> {
    fn fmt<W: Write>(&self, f: &mut Formatter<W>) -> fmt::Result {
        match (self.place, self.after) {
            (FaultPlace::LineOf(file, line), FaultPlace::LineOf(other, _)) if file == other => {
                write!(f, "line {line}")
            }
            (place, _) => write!(f, "{place}"),
        }
    }
}

/// The files of an input that are looked at again.
#[derive(Clone, Copy)]
pub struct FilesAgain<'a> {
    /// The file of the rows, if they have one.
    pub rows: Option<&'a str>,
    /// The file of the main part; `None` if that is standard input.
    pub main: Option<&'a str>,
}

/// The place of the line before line `number` of the input that has in common with `line`, the
/// bytes of that line, what only one line may have. Searches the lines that were read last, then
/// the files. Returns `None` if it isn't found, as in standard input that was read long ago.
pub fn earlier_line<'a, T: Files + AllocGlobal, R: Read>(
    rt: &T,
    source: &Source<'a>,
    reader: &Recalling<R>,
    once: Once,
    number: u64,
    line: &[u8],
) -> Option<FaultPlace<'a>> {
    if let Some(kept) = earlier_kept(source, reader, once, number, line) {
        return Some(kept);
    }
    let files = FilesAgain {
        rows: source.input.plans.and_then(|plans| plans.rows),
        main: source.input.file,
    };
    match earlier_in_files(rt, files, once, line) {
        // The lines of one file that holds the whole input have no name before their number.
        Some(FaultPlace::LineOf(_, found)) if source.input.plans.is_none() => {
            Some(FaultPlace::Line(found))
        }
        found => found,
    }
}

// The place of that line among the lines that were read last.
fn earlier_kept<'a, R: Read>(
    source: &Source<'a>,
    reader: &Recalling<R>,
    once: Once,
    number: u64,
    line: &[u8],
) -> Option<FaultPlace<'a>> {
    for earlier in 1..number {
        if let Recalled::Line(other) = reader.line(earlier as usize) {
            if once.is_common(line, other) {
                let earlier = u32::try_from(earlier).ok()?;
                return Some(source.place(InputLine::Later(earlier)));
            }
        }
    }
    None
}

/// The place of the first line of the files that has in common with `line` what only one line may
/// have. Returns `None` if there is none, or if a file can't be read again, as a pipe.
pub fn earlier_in_files<'a, T: Files + AllocGlobal>(
    rt: &T,
    files: FilesAgain<'a>,
    once: Once,
    line: &[u8],
) -> Option<FaultPlace<'a>> {
    if let (Once::Row, Some(name)) = (once, files.rows) {
        if let Some(found) = row_in_file(rt, name, line) {
            return Some(FaultPlace::LineOf(name, found));
        }
    }
    let name = files.main?;
    let file = open_again(rt, name)?;
    let found = number_in(rt.alloc(), file, once, line)?;
    Some(FaultPlace::LineOf(name, found))
}

// The line of the first row in the file `name`, which may be a table of values, that is the row of
// `line`.
fn row_in_file<T: Files + AllocGlobal>(rt: &T, name: &str, line: &[u8]) -> Option<u64> {
    let file = open_again(rt, name)?;
    if !is_table(name) {
        return number_in(rt.alloc(), file, Once::Row, line);
    }
    let records = RecordLines::new(rt.alloc());
    let rows = CsvRows::new(rt.alloc(), file, &records).ok()?;
    let record = number_in(rt.alloc(), rows, Once::Row, line)?;
    records.line_of(record)
}

// Opens the file `name` again; `None` if it is a pipe or a device, or can't be read.
fn open_again<T: Files>(rt: &T, name: &str) -> Option<T::File> {
    if is_other_than_file(rt, name) {
        return None;
    }
    open_input(rt, name).ok()
}

// The number of the first line that `reader` reads that has in common with `line` what only one
// line may have.
fn number_in<R: Read + Drop>(alloc: Global, reader: R, once: Once, line: &[u8]) -> Option<u64> {
    let mut reader = reader;
    let mut text = Vec::new(alloc);
    reader.read_to_end(&mut text).ok()?;
    let found = once.first_in(&text, line)?;
    Some(found as u64)
}
