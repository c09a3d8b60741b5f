// Texts assembled before they are written, since each write costs more than the bytes that it
// writes.
ghost use Rattle.std.specs.Prelude.{◌≡◌, ◌+◌, ◌<◌, ◌≤◌, [], ◌∷◌, ◌++◌, length, decimal};
ghost use Rattle.std.specs.Fmt.{signed_decimal};

use itoa::write_digits;
use std::marker::Model;

/// A text of at most `ROOM` bytes, assembled from its end. To a contract it is the list of its
/// bytes.
#[derive(Drop)]
pub(crate) struct TextOf<const ROOM: usize> {
    bytes: [u8; ROOM],
    start: usize,
}

/// A text with room for any line, or part of a line, that is written at once.
pub(crate) type Text = TextOf<192>;

impl<const ROOM: usize> Model for TextOf<ROOM> {
    ghost use Rattle.std.specs.Prelude.{◌≤◌, ℕ, List, drop};

    ghost Value = { List ℕ };

    ghost view = { λ t. drop t.start t.bytes };

    ghost invariant = { λ t. t.start ≤ ROOM };
}

impl<const ROOM: usize> TextOf<ROOM> {
    /// Creates an empty text.
    pub(crate) fn new() -> TextOf<ROOM>
        ensures { result ≡ [] }
    {
        TextOf {
            bytes: [0; ROOM],
            start: ROOM,
        }
    }

    /// Puts `byte` at the front.
    pub(crate) fn put_byte(&mut self, byte: u8)
        requires { length self.old < ROOM }
        ensures { self.new ≡ byte ∷ self.old }
    {
        self.start -= 1;
        self.bytes[self.start] = byte;
    }

    /// Puts `bytes` at the front.
    pub(crate) fn put(&mut self, bytes: &[u8])
        requires { length bytes.now + length self.old ≤ ROOM }
        ensures { self.new ≡ bytes.now ++ self.old }
    {
        let start = self.start - bytes.len();
        let room = &mut self.bytes[..];
        room[start..self.start].copy_from_slice(bytes);
        self.start = start;
    }

    /// Puts `number` in decimal at the front.
    pub(crate) fn put_number(&mut self, number: u64)
        requires { length self.old + 20 ≤ ROOM }
        ensures text { self.new ≡ decimal number ++ self.old }
        ensures size { length self.new ≤ length self.old + 20 }
    {
        self.start = write_digits(number, &mut self.bytes, self.start);
    }

    /// Puts the signed `number` in decimal at the front.
    pub(crate) fn put_signed(&mut self, number: i64)
        requires { length self.old + 21 ≤ ROOM }
        ensures text { self.new ≡ signed_decimal number ++ self.old }
        ensures size { length self.new ≤ length self.old + 21 }
    {
        self.put_number(number.unsigned_abs());
        if number < 0 {
            self.put_byte(b'-');
        }
    }

    pub(crate) fn as_bytes(&self) -> &[u8]
        ensures { result.now ≡ self.now }
    {
        let room = &self.bytes[..];
        &room[self.start..]
    }
}
