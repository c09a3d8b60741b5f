// The records of a table of values, as lines of rows.
ghost use Rattle.std.specs.Prelude.{None};

use crate::columns::{is_header, record_line};
use crate::line_by_line::LineByLine;
use crate::record_flaw::{PlacedFlaw, RecordFlaw};
use crate::record_lines::RecordLines;
use crate::row_lines::NO_ROW_LINE;
use csv::{ByteRecord, ErrorKind, Reader, ReaderBuilder};
use std::alloc::{AllocError, Global};
use std::io;
use std::io::{ErrorKind as IoErrorKind, Read};

/// A reader of the records of a table of comma-separated values, as the lines of a file of rows,
/// without a first record that names the columns. It ends with the line of the first record that is
/// cut off.
#[derive(Drop)]
pub struct CsvRows<'a, R: Read> {
    alloc: Global,
    table: Reader<LineByLine<R>>,
    record: ByteRecord,
    is_begun: bool,
    // Whether there are no more records.
    is_over: bool,
    // The line of the last record, and how many of its bytes were read.
    line: Vec<u8>,
    given: usize,
    // Where the records begin.
    lines: &'a RecordLines,
}

impl<'a, R: Read + Drop> CsvRows<'a, R> {
    /// The rows of the table in `inner`; `lines` gets the lines on which its records begin. Fails
    /// only if memory runs out.
    pub fn new(alloc: Global, inner: R, lines: &'a RecordLines) -> io::Result<CsvRows<'a, R>> {
        let inner = LineByLine::new(alloc, inner)?;
        let table = ReaderBuilder::new()
            .has_headers(false)
            .flexible(true)
            .from_reader(alloc, inner);
        Ok(CsvRows {
            alloc,
            table,
            record: ByteRecord::new(alloc),
            is_begun: false,
            is_over: false,
            line: Vec::new(alloc),
            given: 0,
            lines,
        })
    }
}

impl<R: Read> CsvRows<'_, R> {
    // Reads the next record, and returns whether there is one.
    fn read_record(&mut self) -> io::Result<bool> {
        match self.table.read_byte_record(&mut self.record) {
            Ok(found) => Ok(found),
            Err(error) => Err(match error.into_kind() {
                ErrorKind::Io(error) => error,
                _ => io::Error::from(IoErrorKind::OutOfMemory),
            }),
        }
    }

    // Reads the next record other than a header, and returns whether there is one.
    fn read_row(&mut self) -> io::Result<bool> {
        let found = self.read_record()?;
        let is_first = !self.is_begun;
        self.is_begun = true;
        let is_whole = self.table.get_ref().flaw().is_none();
        if found && is_first && is_whole && is_header(&self.record) {
            return self.read_record();
        }
        Ok(found)
    }

    // Makes the line of the next record, if there is one.
    fn read_line(&mut self) -> io::Result<()> {
        if self.is_over {
            return Ok(());
        }
        self.is_over = true;
        if self.read_row()? {
            self.note_record()?;
            self.line = self.line_of_record()?;
            self.given = 0;
            self.is_over = false;
        }
        Ok(())
    }

    // Records the line on which the record begins, and its flaw.
    fn note_record(&self) -> Result<(), AllocError> {
        let table = self.table.get_ref();
        match table.flaw() {
            Some(placed) => self.lines.note(placed.line, Some(placed.flaw)),
            None => {
                let first = table.lines().saturating_sub(line_ends(&self.record));
                self.lines.note(first, None)
            }
        }
    }

    // The line of the record; it isn't a row's if the table ends inside the record's quotes.
    fn line_of_record(&self) -> Result<Vec<u8>, AllocError> {
        match self.table.get_ref().flaw() {
            Some(
                PlacedFlaw {
                    flaw: RecordFlaw::OpenQuote { .. },
                    ..
                },
            ) => Vec::from_slice(self.alloc, NO_ROW_LINE),
            _ => record_line(self.alloc, &self.record),
        }
    }
}

// How many line ends are within a record.
fn line_ends(record: &ByteRecord) -> u64 {
    record
        .as_slice()
        .iter()
        .filter(|byte| **byte == b'\n')
        .count() as u64
}

impl<R: Read> Read for CsvRows<'_, R> {
    ghost remaining = { λ _. None };

    fn read(&mut self, buf: &mut [u8]) -> io::Result<usize> {
        if self.given >= self.line.len() && !buf.is_empty() {
            self.read_line()?;
        }
        let rest = self.line.get(self.given..).unwrap_or(&[]);
        let count = rest.len().min(buf.len());
        buf[..count].copy_from_slice(&rest[..count]);
        self.given = self.given.saturating_add(count);
        Ok(count)
    }
}
