// The words of a line.
ghost use Rattle.std.specs.Prelude.{◌≡◌, ◌==◌, [], ◌∷◌, MatchOption, position};
ghost use Rattle.sq_text.specs.Numbers.{digits_in};
ghost use Rattle.sq_text.specs.Fields.{word_field, number_field};
ghost use Rattle.sq_text.specs.Faults.{IsParsed};

use crate::buffer::place_of;
use crate::fault::Malformed;
use crate::number::with_digit;
use std::marker::Model;

/// The words of a line that are still to be read: the parts between its spaces. Between two
/// adjacent spaces there is an empty word, as there is before a leading and after a trailing space.
/// To a contract they are a list.
#[derive(Drop)]
pub struct Words<'a> {
    rest: Option<&'a [u8]>,
}

impl<'a> Model for Words<'a> {
    ghost use Rattle.std.specs.Prelude.{ℕ, List, option_copied};
    ghost use Rattle.sq_text.specs.Words.{words_left};

    ghost Value = { List (List ℕ) };

    ghost view = { λ w. words_left (option_copied w.rest) };
}

impl<'a> Words<'a> {
    ghost use Rattle.sq_text.specs.Words.{words_of};

    /// Splits `line` into its words.
    pub fn of(line: &'a [u8]) -> Words<'a>
        ensures { result ≡ words_of line.now }
    {
        Words { rest: Some(line) }
    }

    /// Returns the next word; `None` if no word is left. It suits short words, which most are.
    pub fn next(&mut self) -> Option<&'a [u8]>
        ensures { MatchOption result ((self.old ≡ [])
            × (self.new ≡ [])) (λ word. self.old ≡ word.now ∷ self.new) }
    {
        let rest = self.rest?;
        Some(self.take(rest, near_place_of(b' ', rest)))
    }

    /// Like [`Words::next`], but suits a word that may be long.
    pub fn next_long(&mut self) -> Option<&'a [u8]>
        ensures { MatchOption result ((self.old ≡ [])
            × (self.new ≡ [])) (λ word. self.old ≡ word.now ∷ self.new) }
    {
        let rest = self.rest?;
        Some(self.take(rest, place_of(b' ', rest)))
    }

    // Reads the next word, a number, in a single pass.
    pub(crate) fn number(&mut self) -> Result<u64, Malformed>
        ensures { IsParsed (λ n. (n, self.new)) result (number_field self.old) }
    {
        let rest = self.rest.ok_or(Malformed)?;
        match rest {
            [] | [b' ', ..] => Err(Malformed),
            [b'0', behind @ ..] => self.zero(behind),
            _ => self.digits(rest),
        }
    }

    // Reads the number 0; `behind` are the bytes after its digit.
    fn zero(&mut self, behind: &'a [u8]) -> Result<u64, Malformed>
        ensures { IsParsed (λ n. (n, self.new)) result (number_field (words_of (48 ∷ behind.now))) }
    {
        match behind {
            [] => self.rest = None,
            [b' ', left @ ..] => self.rest = Some(left),
            _ => return Err(Malformed),
        }
        Ok(0)
    }

    // Reads the decimal number that the first word of `bytes` spells; the other words are left.
    fn digits(&mut self, bytes: &'a [u8]) -> Result<u64, Malformed>
        ensures { IsParsed (λ n. (n, self.new)) result (word_field digits_in (words_of bytes.now)) }
    {
        let mut value: u64 = 0;
        for (at, byte) in bytes.iter().enumerate() {
            let Some(more) = with_digit(value, *byte) else {
                if *byte != b' ' {
                    return Err(Malformed);
                }
                self.rest = Some(&bytes[at + 1..]);
                return Ok(value);
            };
            value = more;
        }
        self.rest = None;
        Ok(value)
    }

    // Returns the first word of `bytes`, which ends at `space` if they have one; the other words
    // are left.
    fn take(&mut self, bytes: &'a [u8], space: Option<usize>) -> &'a [u8]
        requires { space ≡ position (λ b. b == 32) bytes.now }
        ensures { words_of bytes.now ≡ result.now ∷ self.new }
    {
        match space {
            Some(at) => {
                self.rest = Some(&bytes[at + 1..]);
                &bytes[..at]
            }
            None => {
                self.rest = None;
                bytes
            }
        }
    }
}

// Returns the place of the first `byte`, searched one byte at a time.
fn near_place_of(byte: u8, bytes: &[u8]) -> Option<usize>
    ensures { result ≡ position (λ b. b == byte) bytes.now }
{
    bytes.iter().position(|b| *b == byte)
}
