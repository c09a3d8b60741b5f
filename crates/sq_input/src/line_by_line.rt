// A reader that reads one line at a time, and ends where a record is cut off.
ghost use Rattle.std.specs.Prelude.{◌≡◌, ◌≤◌, length, None};

use crate::open_field::OpenField;
use crate::record_flaw::PlacedFlaw;
use std::alloc::Global;
use std::io;
use std::io::{BufRead, BufReader, Read};

// The byte that ends a line.
const LINE_END: u8 = b'\n';

// The byte order mark, which the reader of records skips at the start of a table.
const MARK: [u8; 3] = [0xef, 0xbb, 0xbf];

/// A reader that passes on what `inner` reads, at most one line per read, and counts the lines. It
/// ends where a record is cut off.
#[derive(Drop)]
pub(crate) struct LineByLine<R: Read> {
    inner: BufReader<R>,
    is_within: bool,
    lines: u64,
    // The field in which the bytes passed on so far end.
    field: OpenField,
    // How many bytes of the byte order mark were passed on; `None` after any other byte.
    mark: Option<usize>,
    end: TableEnd,
}

/// Whether a table has ended, and the flaw of its last record.
#[derive(Clone, Copy, Debug, PartialEq, Eq)]
pub(crate) enum TableEnd {
    /// It hasn't ended yet.
    Open,
    /// It ends here, which the next read will report.
    Coming(Option<PlacedFlaw>),
    /// It has ended, and a read has reported that.
    Over(Option<PlacedFlaw>),
}

impl<R: Read + Drop> LineByLine<R> {
    /// A reader over `inner`. Fails if memory runs out.
    pub(crate) fn new(alloc: Global, inner: R) -> io::Result<LineByLine<R>> {
        Ok(LineByLine {
            inner: BufReader::new(alloc, inner)?,
            is_within: false,
            lines: 0,
            field: OpenField::first(),
            mark: Some(0),
            end: TableEnd::Open,
        })
    }
}

impl<R: Read> LineByLine<R> {
    /// How many lines were passed on, the last one perhaps in part.
    pub(crate) fn lines(&self) -> u64 {
        self.lines
    }

    /// The flaw of the record at which it ended.
    pub(crate) fn flaw(&self) -> Option<PlacedFlaw> {
        match self.end {
            TableEnd::Over(flaw) => flaw,
            _ => None,
        }
    }

    // Reports the end, by a read of 0 bytes.
    fn close(&mut self) -> usize
        ensures { result ≡ 0 }
    {
        if let TableEnd::Coming(flaw) = self.end {
            self.end = TableEnd::Over(flaw);
        }
        0
    }

    // Counts the line of `bytes`, unless it was already counted.
    fn count(&mut self, bytes: &[u8]) {
        let Some(last) = bytes.last() else {
            return;
        };
        if !self.is_within {
            self.lines = self.lines.saturating_add(1);
        }
        self.is_within = *last != LINE_END;
    }

    // Follows the fields through `bytes` of the current line, and returns how many of these come
    // before the record is cut off.
    fn follow(&mut self, bytes: &[u8]) -> usize
        ensures { result ≤ length bytes.now }
    {
        for (at, byte) in bytes.iter().enumerate() {
            match self.field.with(*byte, self.lines) {
                Ok(field) => self.enter(field, *byte),
                Err(flaw) => {
                    self.end = TableEnd::Coming(flaw);
                    return at;
                }
            }
        }
        bytes.len()
    }

    // Enters `field`, which contains `byte`; after the byte order mark the first field begins
    // again.
    fn enter(&mut self, field: OpenField, byte: u8) {
        self.mark = mark_with(self.mark, byte);
        self.field = if self.mark == Some(MARK.len()) {
            OpenField::first()
        } else {
            field
        };
    }
}

// How many bytes of the byte order mark were passed on with `byte`; `None` if it isn't one of them.
fn mark_with(given: Option<usize>, byte: u8) -> Option<usize> {
    let given = given?;
    (MARK.get(given) == Some(&byte)).then_some(given.saturating_add(1))
}

impl<R: Read> Read for LineByLine<R> {
    ghost remaining = { λ _. None };

    fn read(&mut self, buf: &mut [u8]) -> io::Result<usize> {
        if buf.is_empty() || self.end != TableEnd::Open {
            return Ok(self.close());
        }
        let held = self.inner.fill_buf()?;
        if held.is_empty() {
            self.end = TableEnd::Coming(self.field.flaw_at_end());
            return Ok(self.close());
        }
        let end = held
            .iter()
            .position(|byte| *byte == LINE_END)
            .map_or(held.len(), |at| at.saturating_add(1));
        let count = end.min(held.len()).min(buf.len());
        buf[..count].copy_from_slice(&held[..count]);
        self.inner.consume(count);
        self.count(&buf[..count]);
        match self.follow(&buf[..count]) {
            0 => Ok(self.close()),
            given => Ok(given),
        }
    }
}
