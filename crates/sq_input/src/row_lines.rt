// Lines of rows.
ghost use Rattle.std.specs.Prelude.{◌≤◌, length, None};

use std::io;
use std::io::Read;

// The byte that ends a line.
const LINE_END: u8 = 10;

// How a row's line begins.
const FRONT: [u8; 4] = *b"row ";

/// Replaces a line that isn't a row's: it isn't a valid row either, but begins like one.
pub const NO_ROW: &[u8] = b"row ?";

/// The same with a line end.
pub const NO_ROW_LINE: &[u8] = b"row ?\n";

/// A reader of the lines of another one, as long as each begins as a row's line does. In place of
/// the first that doesn't, it reads [`NO_ROW`], and nothing after it.
#[derive(Drop)]
pub struct RowLines<R: Read> {
    inner: R,
    place: RowPlace,
}

/// Where the reading is.
#[derive(Clone, Copy, Debug, PartialEq, Eq)]
pub(crate) enum RowPlace {
    /// In a line of which this many bytes were read, all of them of its beginning `row `.
    Front(usize),
    /// In a line, after that beginning.
    Within,
    /// In the line that replaces one that isn't a row's, of which this many bytes were read.
    NoRow(usize),
}

impl RowPlace {
    // The place after `byte`; `None` if the line isn't a row's with that byte.
    fn behind(self, byte: u8) -> Option<RowPlace> {
        match self {
            RowPlace::Front(given) if FRONT.get(given) != Some(&byte) => None,
            RowPlace::Front(3) => Some(RowPlace::Within),
            RowPlace::Front(given) => Some(RowPlace::Front(given.saturating_add(1))),
            RowPlace::Within if byte == LINE_END => Some(RowPlace::Front(0)),
            RowPlace::Within => Some(RowPlace::Within),
            RowPlace::NoRow(_) => None,
        }
    }

    // The place in the replacement of a line that turns out not to be a row's.
    fn cut(self) -> RowPlace {
        match self {
            RowPlace::Front(given) => RowPlace::NoRow(given),
            _ => RowPlace::NoRow(0),
        }
    }
}

// How many of `bytes` are of rows' lines, up to the first line that isn't, and the place after
// them.
fn rows_in(bytes: &[u8], from: RowPlace) -> (usize, RowPlace)
    ensures { result.0 ≤ length bytes.now }
{
    let mut place = from;
    for (at, byte) in bytes.iter().enumerate() {
        match place.behind(*byte) {
            Some(next) => place = next,
            None => return (at, place.cut()),
        }
    }
    (bytes.len(), place)
}

impl<R: Read> RowLines<R> {
    /// The lines of `inner`.
    pub fn new(inner: R) -> RowLines<R> {
        RowLines {
            inner,
            place: RowPlace::Front(0),
        }
    }

    // Reads more of the line that replaces one that isn't a row's.
    fn read_no_row(&mut self, buf: &mut [u8]) -> usize
        ensures { result ≤ length buf.new }
    {
        let RowPlace::NoRow(given) = self.place else {
            return 0;
        };
        let rest = NO_ROW_LINE.get(given..).unwrap_or(&[]);
        let count = rest.len().min(buf.len());
        buf[..count].copy_from_slice(&rest[..count]);
        self.place = RowPlace::NoRow(given.saturating_add(count));
        count
    }

    // The place where the inner reader ends: within the beginning of a line, that line isn't a
    // row's.
    fn at_end(&self) -> RowPlace {
        match self.place {
            RowPlace::Front(0) => RowPlace::Front(0),
            RowPlace::Front(given) => RowPlace::NoRow(given),
            place => place,
        }
    }
}

impl<R: Read> Read for RowLines<R> {
    ghost remaining = { λ _. None };

    fn read(&mut self, buf: &mut [u8]) -> io::Result<usize> {
        if let RowPlace::NoRow(_) = self.place {
            return Ok(self.read_no_row(buf));
        }
        let count = self.inner.read(buf)?;
        let (rows, place) = rows_in(&buf[..count], self.place);
        self.place = if count == 0 && !buf.is_empty() {
            self.at_end()
        } else {
            place
        };
        if rows > 0 {
            return Ok(rows);
        }
        Ok(self.read_no_row(buf))
    }
}
