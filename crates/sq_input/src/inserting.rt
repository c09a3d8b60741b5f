// A reader that inserts another one after its first line.
ghost use Rattle.std.specs.Prelude.{◌≡◌, ◌<◌, length};
ghost use Rattle.std.specs.Io.KnownBytes.{ReadConsumes};
ghost use Rattle.std.specs.Io.{ReadsAtMost};
ghost use Rattle.sq_input.specs.Inputs.{inserted_text};
ghost use Rattle.sq_input.specs.Inserted.{inserting_remaining};

use crate::input_lines::{LINE_END, lines_in};
use std::cell::Cell;
use std::io;
use std::io::Read;

/// A reader of `main` that inserts another one after its first line: it reads the first line, all
/// of the other reader, a line end if the last line of that has none, and then the rest. If the
/// first line has no end, nothing is inserted.
#[derive(Drop)]
pub struct Inserting<'a, M: Read, W: Read> {
    main: M,
    inserted: W,
    place: Place,
    // How many lines of the other reader were read.
    lines: usize,
    // How many lines the other reader has, for anybody who asks.
    all_lines: &'a Cell<Option<usize>>,
}

/// Where the reading is.
#[derive(Clone, Copy, Debug, PartialEq, Eq)]
pub(crate) enum Place {
    /// In the first line.
    FirstLine,
    /// In the other reader, at the start of a line of it or within one.
    Inserted { at_start: bool },
    /// After the other reader.
    Rest,
}

impl<'a, M: Read, W: Read> Inserting<'a, M, W> {
    /// A reader of `main` with `inserted` after its first line. `all_lines` gets the number of
    /// lines of `inserted`, once all of them were read.
    pub fn new(main: M, inserted: W, all_lines: &'a Cell<Option<usize>>) -> Inserting<'a, M, W>
        ensures { inserting_remaining M.remaining W.remaining result
            ≡ inserted_text (M.remaining main) (W.remaining inserted) }
    {
        Inserting {
            main,
            inserted,
            place: Place::FirstLine,
            lines: 0,
            all_lines,
        }
    }

    // Reads the next byte of the first line, and nothing beyond that line, since the other reader
    // comes first.
    fn read_first_line(&mut self, buf: &mut [u8]) -> io::Result<usize>
        requires some { 0 < length buf.old }
        requires place { self.old.place ≡ Place.FirstLine }
        ensures bound { ReadsAtMost result buf.new }
        ensures bytes { ReadConsumes (inserting_remaining M.remaining W.remaining self.old)
            (inserting_remaining M.remaining W.remaining self.new) result buf.new }
    {
        let count = self.main.read(&mut buf[..1])?;
        if count > 0 && buf[0] == LINE_END {
            self.place = Place::Inserted { at_start: true };
        }
        Ok(count)
    }

    // Reads on in the other reader, at the start of a line of it or within one, and after its end
    // in the rest.
    fn read_inserted(&mut self, at_start: bool, buf: &mut [u8]) -> io::Result<usize>
        requires some { 0 < length buf.old }
        requires place { self.old.place ≡ Place.Inserted at_start }
        ensures bound { ReadsAtMost result buf.new }
        ensures bytes { ReadConsumes (inserting_remaining M.remaining W.remaining self.old)
            (inserting_remaining M.remaining W.remaining self.new) result buf.new }
    {
        let count = self.inserted.read(buf)?;
        if count > 0 {
            self.lines = self.lines.saturating_add(lines_in(&buf[..count]));
            self.place = Place::Inserted {
                at_start: buf[count - 1] == LINE_END,
            };
            return Ok(count);
        }
        if !at_start {
            buf[0] = LINE_END;
            self.lines = self.lines.saturating_add(1);
            self.place = Place::Inserted { at_start: true };
            return Ok(1);
        }
        self.all_lines.set(Some(self.lines));
        self.place = Place::Rest;
        self.main.read(buf)
    }
}

impl<M: Read, W: Read> Read for Inserting<'_, M, W> {
    ghost remaining = { inserting_remaining M.remaining W.remaining };

    fn read(&mut self, buf: &mut [u8]) -> io::Result<usize> {
        if buf.is_empty() {
            return Ok(0);
        }
        match self.place {
            Place::FirstLine => self.read_first_line(buf),
            Place::Inserted { at_start } => self.read_inserted(at_start, buf),
            Place::Rest => self.main.read(buf),
        }
    }
}
