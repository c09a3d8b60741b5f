// A reader that reads another one in portions of whole lines.
ghost use Rattle.std.specs.Prelude.{◌≡◌, ◌<◌, ◌≤◌, ◌==◌, length, count_by};
ghost use Rattle.std.specs.Io.KnownBytes.{ReadConsumes};
ghost use Rattle.std.specs.Io.{ReadsAtMost};
ghost use Rattle.sq_serving.specs.Portions.{portion_of, unread, portion_remaining};

use std::io;
use std::io::Read;

// The byte that ends a line.
const LINE_END: u8 = 10;

/// A reader that reads another one in portions: each ends after a given number of line ends, or
/// where the other reader ends.
#[derive(Drop)]
pub struct Portions<R: Read> {
    reader: R,
    lines_left: usize,
    has_ended: bool,
}

impl<R: Read> Portions<R> {
    /// The first portion of `reader`, with at most `lines` lines.
    pub fn new(reader: R, lines: usize) -> Portions<R>
        ensures portion { portion_remaining R.remaining result
            ≡ portion_of lines (R.remaining reader) }
        ensures unread { unread R.remaining result ≡ R.remaining reader }
    {
        Portions {
            reader,
            lines_left: lines,
            has_ended: false,
        }
    }

    /// Begins the next portion of what is unread, with at most `lines` lines. Returns false if the
    /// reader was seen to end.
    pub fn next_portion(&mut self, lines: usize) -> bool
        ensures portion { portion_remaining R.remaining self.new
            ≡ portion_of lines (unread R.remaining self.old) }
        ensures unread { unread R.remaining self.new ≡ unread R.remaining self.old }
    {
        self.lines_left = lines;
        !self.has_ended
    }

    // Reads into a buffer no longer than the number of lines left, so it can't hold more line ends
    // than these.
    fn read_some(&mut self, buf: &mut [u8]) -> io::Result<usize>
        requires some { 0 < length buf.old }
        requires few { length buf.old ≤ self.old.lines_left }
        ensures bound { ReadsAtMost result buf.new }
        ensures bytes { ReadConsumes (portion_remaining R.remaining self.old)
            (portion_remaining R.remaining self.new) result buf.new }
    {
        let count = self.reader.read(buf)?;
        self.has_ended |= count == 0;
        let lines = line_ends(&buf[..count]);
        self.lines_left = self.lines_left.saturating_sub(lines);
        Ok(count)
    }
}

impl<R: Read> Read for Portions<R> {
    ghost remaining = { portion_remaining R.remaining };

    fn read(&mut self, buf: &mut [u8]) -> io::Result<usize> {
        let most = buf.len().min(self.lines_left);
        if most == 0 {
            return Ok(0);
        }
        self.read_some(&mut buf[..most])
    }
}

/// How many line ends `bytes` have.
pub fn line_ends(bytes: &[u8]) -> usize
    ensures { result ≡ count_by (λ byte. byte == 10) bytes.now }
{
    bytes.iter().filter(|byte| **byte == LINE_END).count()
}
