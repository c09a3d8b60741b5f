// Readers of lines.
ghost use Rattle.std.specs.Prelude.{◌≡◌, ◌≤◌, ◌<◌, ◌+◌, [], ◌∷◌, length, ◌==◌, not, true, List, Some, IfOk, IfErr, IfSome, IfNone};
ghost use Rattle.sq_text.specs.Pieces.{next_begins, next_line_number, PieceValue, InputEnd};
ghost use Rattle.sq_text.specs.Coming.{CanCome, CanEnd, IsUndecided, Gives, Finds, ReadsOn, reads_left};
ghost use Rattle.std.specs.List.{list_all};

use crate::buffer::{MAX_UNENDED, ROOM, move_to_front, place_of, read_behind};
use std::alloc::{AllocFailed, Global};
use std::io::Read;
use std::marker::Model;

/// The most lines of an input.
pub const MAX_LINES: u32 = 1_000_000;

/// What comes next in an input. [`LineReader::piece`] returns the bytes of a piece.
#[derive(Clone, Copy, Debug, PartialEq, Eq)]
pub enum Next {
    /// A line, without the byte 0A that ends it.
    Line,
    /// The bytes after the last line end.
    Rest,
    /// More bytes without a line end than were to be searched, or than [`MAX_UNENDED`]. It isn't
    /// returned as a piece.
    Long,
    /// A byte after line number [`MAX_LINES`]. It isn't returned as a piece.
    TooMany,
    /// A read failed. The bytes before it, if any, aren't a piece.
    Failed,
    /// The end of the input.
    End,
    /// Unknown until more is read.
    Unread,
}

/// The state of the reading of an input.
#[derive(Clone, Copy, Debug, PartialEq, Eq)]
pub enum ReadState {
    /// More bytes may arrive.
    Open,
    /// All bytes were read.
    Ended,
    /// A read failed, and no other is attempted.
    Failed,
}

/// Reads the lines of a reader as they arrive. Its buffer has room for the longest line; it is
/// allocated once and filled as needed.
#[derive(Drop)]
pub struct LineReader<R: Read> {
    reader: R,
    buffer: Vec<u8>,
    // The piece that was returned last.
    piece_start: usize,
    piece_end: usize,
    // The bytes that were read and not yet returned, up to `end`; no line ends before `searched`.
    start: usize,
    searched: usize,
    end: usize,
    reading: ReadState,
    lines_left: u32,
}

impl<R: Read> Model for LineReader<R> {
    ghost use Rattle.std.specs.Prelude.{vec_len, slice_range};
    ghost use Rattle.sq_text.specs.Coming.{LinesValue};

    ghost Value = { LinesValue };

    ghost use Rattle.std.specs.Prelude.{vec_capacity};
    ghost use Rattle.sq_text.specs.Buffered.{IsBuffered};

    ghost view = { λ r. record {
      piece = slice_range r.buffer.items r.piece_start r.piece_end;
      held = slice_range r.buffer.items r.start r.end;
      reading = r.reading;
      lines_left = r.lines_left;
      known = R.remaining r.reader;
    } };

    ghost invariant = { λ r.
        IsBuffered r.buffer.items (vec_capacity r.buffer) r.piece_start r.piece_end
        r.start r.searched r.end r.reading (R.remaining r.reader) };
}

impl<R: Read> LineReader<R> {
    /// Creates a reader of the lines of `reader`. If there is no memory for the buffer, `reader` is
    /// returned as it was.
    pub fn new(alloc: Global, reader: R) -> Result<LineReader<R>, AllocFailed<R>>
        ensures held { IfOk result (λ lines. lines.held ≡ []) }
        ensures open { IfOk result (λ lines. lines.reading ≡ ReadState.Open) }
        ensures lines { IfOk result (λ lines. lines.lines_left ≡ MAX_LINES) }
        ensures known { IfOk result (λ lines. lines.known ≡ R.remaining reader) }
        ensures returned { IfErr result (λ refused. refused.value ≡ reader) }
    {
        match Vec::with_capacity(alloc, ROOM) {
            Ok(buffer) => Ok(LineReader {
                reader,
                buffer,
                piece_start: 0,
                piece_end: 0,
                start: 0,
                searched: 0,
                end: 0,
                reading: ReadState::Open,
                lines_left: MAX_LINES,
            }),
            Err(_) => Err(AllocFailed { value: reader }),
        }
    }

    /// Returns the number, from 1, of the line that comes next or in which the input ends.
    pub fn next_line_number(&self) -> u32
        ensures { result ≡ next_line_number self.now.lines_left }
    {
        MAX_LINES.saturating_sub(self.lines_left) + 1
    }

    /// Returns how many more lines the input may have.
    pub fn lines_left(&self) -> u32
        ensures { result ≡ self.now.lines_left }
    {
        self.lines_left
    }

    /// Returns the bytes of the last piece.
    pub fn piece(&self) -> &[u8]
        ensures { result.now ≡ self.now.piece }
    {
        &self.buffer[self.piece_start..self.piece_end]
    }

    // Returns the bytes that were read and not yet returned.
    fn held(&self) -> &[u8]
        ensures { result.now ≡ self.now.held }
    {
        &self.buffer[self.start..self.end]
    }

    /// Returns true if the next piece begins with `front`; `None` if that is unknown until more is
    /// read.
    pub fn begins(&self, front: &[u8]) -> Option<bool>
        requires unended { list_all (λ byte. not (byte == 10)) front.now ≡ true }
        requires some { 0 < length front.now }
        requires short { length front.now ≤ MAX_UNENDED }
        ensures begins { IfSome result (λ begins. (ps : List PieceValue) → CanCome self.now ps
            → next_begins front.now ps ≡ begins) }
        ensures undecided { IfNone result (IsUndecided (length front.now) self.now) }
    {
        if self.lines_left == 0 {
            return Some(false);
        }
        let held = self.held();
        if held.len() >= front.len() {
            return Some(held.starts_with(front));
        }
        match self.reading {
            ReadState::Open if front.starts_with(held) => None,
            ReadState::Open => Some(false),
            _ => Some(held.starts_with(front)),
        }
    }

    /// Returns what comes next if no read is needed for it, otherwise [`Next::Unread`]. It is
    /// [`Next::Long`] if over `most` bytes are held without a line end.
    pub fn next(&mut self, most: usize) -> Next
        requires { most ≤ MAX_UNENDED }
        ensures { Gives most self.old result self.new }
    {
        if self.start == self.end {
            match self.reading {
                ReadState::Open => return Next::Unread,
                ReadState::Ended => return Next::End,
                ReadState::Failed => return Next::Failed,
            }
        }
        if self.lines_left == 0 {
            return Next::TooMany;
        }
        let Some(at) = place_of(b'\n', &self.buffer[self.searched..self.end]) else {
            self.searched = self.end;
            if self.end - self.start > most {
                return Next::Long;
            }
            match self.reading {
                ReadState::Open => return Next::Unread,
                ReadState::Failed => return Next::Failed,
                ReadState::Ended => {
                    self.piece_start = self.start;
                    self.piece_end = self.end;
                    self.start = self.end;
                    return Next::Rest;
                }
            }
        };
        let line_end = self.searched + at;
        if line_end - self.start > MAX_UNENDED {
            return Next::Long;
        }
        self.piece_start = self.start;
        self.piece_end = line_end;
        self.start = line_end + 1;
        self.searched = line_end + 1;
        self.lines_left -= 1;
        Next::Line
    }

    /// Reads more bytes, if what comes next is unknown.
    pub fn read_more(&mut self)
        requires { IsUndecided MAX_UNENDED self.old }
        ensures comes { (end : InputEnd) (ps : List PieceValue) → CanEnd self.new end ps
            → CanEnd self.old end ps }
        ensures lines { self.new.lines_left ≡ self.old.lines_left }
        ensures fewer { reads_left self.new < reads_left self.old }
    {
        move_to_front(&mut self.buffer, self.start, self.end);
        self.searched -= self.start;
        self.end -= self.start;
        self.start = 0;
        self.piece_start = 0;
        self.piece_end = 0;
        match read_behind(&mut self.reader, &mut self.buffer, self.end) {
            Ok(0) => self.reading = ReadState::Ended,
            Ok(count) => self.end += count,
            Err(_) => self.reading = ReadState::Failed,
        }
    }

    /// Returns what comes next, and reads as much as is needed to know it. It takes at most one
    /// line.
    pub fn next_read(&mut self, most: usize) -> Next
        requires { most ≤ MAX_UNENDED }
        ensures finds { Finds most self.old result self.new }
        ensures one_line { self.old.lines_left ≤ self.new.lines_left + 1 }
    {
        loop {
            match self.next(most) {
                Next::Unread => self.read_more(),
                next => return next,
            }
        }
    }

    /// Returns true if the next piece begins with `front`, and reads as much as is needed to know
    /// it.
    pub fn begins_read(&mut self, front: &[u8]) -> bool
        requires unended { list_all (λ byte. not (byte == 10)) front.now ≡ true }
        requires some { 0 < length front.now }
        requires short { length front.now ≤ MAX_UNENDED }
        ensures goes_on { ReadsOn self.old self.new }
        ensures begins { (ps : List PieceValue) → CanCome self.new ps
            → next_begins front.now ps ≡ result }
    {
        loop {
            match self.begins(front) {
                Some(begins) => return begins,
                None => self.read_more(),
            }
        }
    }
}
