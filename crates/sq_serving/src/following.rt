// A reader that continues with another one.
ghost use Rattle.std.specs.Prelude.{◌≡◌, ◌<◌, true, length};
ghost use Rattle.std.specs.Io.KnownBytes.{ReadConsumes};
ghost use Rattle.std.specs.Io.{ReadsAtMost};
ghost use Rattle.sq_input.specs.Inserted.{ended_text};
ghost use Rattle.sq_serving.specs.Following.{following_remaining};

use std::io;
use std::io::Read;

// The byte that ends a line.
const LINE_END: u8 = 10;

/// A reader that reads all of the first reader, a line end if the last line of that has none, and
/// then all of the second.
#[derive(Drop)]
pub struct Following<A: Read, B: Read> {
    first: A,
    second: B,
    place: FollowingPlace,
}

/// Where the reading is.
#[derive(Clone, Copy)]
pub(crate) enum FollowingPlace {
    /// In the first reader, at the start of a line of it or within one.
    First { at_start: bool },
    /// In the second reader.
    Second,
}

impl<A: Read, B: Read> Following<A, B> {
    /// A reader of `first`, and then of `second`.
    pub fn new(first: A, second: B) -> Following<A, B>
        ensures { following_remaining A.remaining B.remaining result
            ≡ ended_text true (B.remaining second) (A.remaining first) }
    {
        Following {
            first,
            second,
            place: FollowingPlace::First { at_start: true },
        }
    }

    // Reads on in the first reader, at the start of a line or within one, and after its end in the
    // second.
    fn read_first(&mut self, at_start: bool, buf: &mut [u8]) -> io::Result<usize>
        requires some { 0 < length buf.old }
        requires place { self.old.place ≡ FollowingPlace.First at_start }
        ensures bound { ReadsAtMost result buf.new }
        ensures bytes { ReadConsumes (following_remaining A.remaining B.remaining self.old)
            (following_remaining A.remaining B.remaining self.new) result buf.new }
    {
        let count = self.first.read(buf)?;
        if count > 0 {
            self.place = FollowingPlace::First {
                at_start: buf[count - 1] == LINE_END,
            };
            return Ok(count);
        }
        if !at_start {
            buf[0] = LINE_END;
            self.place = FollowingPlace::First { at_start: true };
            return Ok(1);
        }
        self.place = FollowingPlace::Second;
        self.second.read(buf)
    }
}

impl<A: Read, B: Read> Read for Following<A, B> {
    ghost remaining = { following_remaining A.remaining B.remaining };

    fn read(&mut self, buf: &mut [u8]) -> io::Result<usize> {
        if buf.is_empty() {
            return Ok(0);
        }
        match self.place {
            FollowingPlace::First { at_start } => self.read_first(at_start, buf),
            FollowingPlace::Second => self.second.read(buf),
        }
    }
}
