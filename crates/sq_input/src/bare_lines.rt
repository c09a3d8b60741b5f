// The lines of a file of rows, without those that are no rows' on purpose.
ghost use Rattle.std.specs.Prelude.{◌≡◌, ◌≢◌, ◌≤◌, ◌<◌, if◌then◌else◌, [], length, take, None};
ghost use Rattle.std.specs.Prelude.{IfOk, OnOk, OnErr};
ghost use Rattle.sq_input.specs.Bare.{bare_bytes, is_kept, place_at, place_after_all};
ghost use Rattle.sq_input.specs.Bare.{line_after};

use crate::record_lines::RecordLines;
use memchr::memchr;
use std::alloc::AllocError;
use std::io;
use std::io::{ErrorKind, Read};

// The byte that ends a line.
const LINE_END: u8 = b'\n';

// The byte with which a comment begins.
const COMMENT: u8 = b'#';

/// A reader of the lines of another one, without empty lines and without comments, the lines that
/// begin with `#`. It records on which lines the others are.
#[derive(Drop)]
pub struct BareLines<'a, R: Read> {
    inner: R,
    place: BarePlace,
    // The number, from 1, of the line that is read.
    line: u64,
    // Where the lines are that are passed on.
    lines: &'a RecordLines,
}

/// Where the reading is.
#[derive(Clone, Copy, Debug, PartialEq, Eq)]
enum BarePlace {
    /// At the start of a line.
    Start,
    /// In a line that is passed on.
    Kept,
    /// In a line that isn't.
    Skipped,
}

impl<'a, R: Read> BareLines<'a, R> {
    /// The lines of `inner`; `lines` gets the numbers of those that are passed on.
    pub fn new(inner: R, lines: &'a RecordLines) -> BareLines<'a, R> {
        BareLines {
            inner,
            place: BarePlace::Start,
            line: 1,
            lines,
        }
    }

    // Moves those of `bytes` to the front that are passed on, and returns how many they are. Fails
    // if memory runs out.
    fn keep(&mut self, bytes: &mut [u8]) -> Result<usize, AllocError>
        ensures within { IfOk result (λ kept. kept ≤ length bytes.new) }
        ensures bare { IfOk result (λ kept.
            take kept bytes.new ≡ bare_bytes self.old.place bytes.old) }
        ensures reader { OnOk result (self.new ≡ record self.old {
          place = place_after_all self.old.place bytes.old;
          line = line_after self.old.line bytes.old;
        }) }
    {
        let mut kept: usize = 0;
        let mut at: usize = 0;
        while at < bytes.len() {
            let is_kept = self.enters(bytes[at])?;
            let count = self.pass(&bytes[at..]);
            if is_kept {
                if kept < at {
                    bytes.copy_within(at..at + count, kept);
                }
                kept += count;
            }
            at += count;
        }
        Ok(kept)
    }

    // Enters the line that begins with `byte`, unless it was entered before, and returns whether it
    // is passed on. Records it if it is. If memory runs out, nothing changes.
    fn enters(&mut self, byte: u8) -> Result<bool, AllocError>
        ensures entered { OnOk result
            (self.new ≡ record self.old { place = place_at self.old.place byte }) }
        ensures kept { IfOk result (λ kept. kept ≡ is_kept (place_at self.old.place byte)) }
        ensures unchanged { OnErr result (self.new ≡ self.old) }
    {
        if self.place == BarePlace::Start {
            self.place = if byte == LINE_END || byte == COMMENT {
                BarePlace::Skipped
            } else {
                self.lines.note(self.line, None)?;
                BarePlace::Kept
            };
        }
        Ok(self.place == BarePlace::Kept)
    }

    // Goes past those of `bytes` that are of the line that was entered, and returns how many they
    // are.
    fn pass(&mut self, bytes: &[u8]) -> usize
        requires entered { self.old.place ≢ BarePlace.Start }
        requires some { 0 < length bytes.now }
        ensures some { 0 < result }
        ensures within { result ≤ length bytes.now }
        ensures bare { let piece = take result bytes.now in bare_bytes self.old.place piece
            ≡ (if is_kept self.old.place then piece else []) }
        ensures reader { let piece = take result bytes.now in self.new ≡ record self.old {
          place = place_after_all self.old.place piece;
          line = line_after self.old.line piece;
        } }
    {
        match memchr(LINE_END, bytes) {
            Some(place) => {
                self.place = BarePlace::Start;
                self.line = self.line.saturating_add(1);
                place + 1
            }
            None => bytes.len(),
        }
    }
}

impl<R: Read> Read for BareLines<'_, R> {
    ghost remaining = { λ _. None };

    fn read(&mut self, buf: &mut [u8]) -> io::Result<usize> {
        for _ in 0..u64::MAX {
            let count = self.inner.read(buf)?;
            if count == 0 {
                return Ok(0);
            }
            let kept = self.keep(&mut buf[..count])?;
            if kept > 0 {
                return Ok(kept);
            }
        }
        Err(io::Error::from(ErrorKind::Interrupted))
    }
}
