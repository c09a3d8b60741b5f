// A reader that counts lines.
ghost use Rattle.std.specs.Prelude.{◌≡◌};
ghost use Rattle.sq_serving.specs.CountedLines.{counted_remaining};

use crate::portions::line_ends;
use std::alloc::Global;
use std::io;
use std::io::Read;
use std::sync::Arc;
use std::sync::atomic::{AtomicU64, Ordering};

// The byte that ends a line.
const LINE_END: u8 = 10;

// Stands for an unknown count; no file has as many lines.
const UNKNOWN: u64 = u64::MAX;

/// How many lines a file has, which is known once it was read to its end.
#[derive(Drop)]
pub struct FileLines {
    count: AtomicU64,
}

impl FileLines {
    /// The count of a file that hasn't been read to its end.
    pub fn unknown() -> FileLines {
        FileLines {
            count: AtomicU64::new(UNKNOWN),
        }
    }

    // Records the count.
    fn note(&self, count: u64) {
        self.count.store(count, Ordering::SeqCst);
    }

    /// The count, once it is known.
    pub fn count(&self) -> Option<u64> {
        match self.count.load(Ordering::SeqCst) {
            UNKNOWN => None,
            count => Some(count),
        }
    }
}

/// A reader that passes on what another one reads, and records how many lines that has. A last line
/// needs no end.
#[derive(Drop)]
pub struct CountedLines<R: Read> {
    reader: R,
    // How many lines were read so far, including one that has only begun.
    count: u64,
    // Whether the last byte is within a line.
    is_within: bool,
    lines: Arc<FileLines, Global>,
}

impl<R: Read> CountedLines<R> {
    /// A reader of `reader` that records in `lines` how many lines it has.
    pub fn new(reader: R, lines: Arc<FileLines, Global>) -> CountedLines<R>
        ensures { counted_remaining R.remaining result ≡ R.remaining reader }
    {
        CountedLines {
            reader,
            count: 0,
            is_within: false,
            lines,
        }
    }

    // Counts the lines of `bytes`, which are read next.
    fn add(&mut self, bytes: &[u8])
        ensures { self.new.reader ≡ self.old.reader }
    {
        let Some(last) = bytes.last() else {
            return;
        };
        let ends = line_ends(bytes) as u64;
        let begun = u64::from(*last != LINE_END);
        let before = self.count.saturating_sub(u64::from(self.is_within));
        self.count = before.saturating_add(ends).saturating_add(begun);
        self.is_within = begun == 1;
    }
}

impl<R: Read> Read for CountedLines<R> {
    ghost remaining = { counted_remaining R.remaining };

    fn read(&mut self, buf: &mut [u8]) -> io::Result<usize> {
        let count = self.reader.read(buf)?;
        if count == 0 && !buf.is_empty() {
            self.lines.note(self.count);
        }
        self.add(&buf[..count]);
        Ok(count)
    }
}
