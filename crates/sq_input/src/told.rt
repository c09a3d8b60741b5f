// Words and flaws as messages show them.
use crate::faulty_lines::LineFlaw;
use sq_text::Words;
use std::fmt;
use std::fmt::{Display, Formatter, Write};

// How many bytes of a word are shown, and how many of a line.
const SHOWN: usize = 40;

const SHOWN_OF_LINE: usize = 120;

/// A flaw of a line as messages show it, with the word that it is about.
#[derive(Clone, Copy, Debug, PartialEq, Eq)]
pub struct ToldFlaw<'a> {
    pub line: &'a [u8],
    pub flaw: LineFlaw,
}

/// A line as messages show it.
#[derive(Clone, Copy, Debug, PartialEq, Eq)]
pub struct ToldLine<'a>(pub &'a [u8]);

/// A word of a line as messages show it; `at` is its number, from 1.
#[derive(Clone, Copy, Debug, PartialEq, Eq)]
pub struct ToldWord<'a> {
    pub line: &'a [u8],
    pub at: usize,
}

impl Display for ToldFlaw<'_> {
    fn fmt<W: Write>(&self, f: &mut Formatter<W>) -> fmt::Result {
        let line = self.line;
        match self.flaw {
            LineFlaw::Mark => f.write_str("it begins with a byte order mark (the bytes EF BB BF)"),
            LineFlaw::CarriageReturn => {
                f.write_str("a carriage return (the byte 0D) stands before its end")
            }
            LineFlaw::Empty { at } => write!(
                f,
                "word {at} is empty, where one space stands between two words and none at an end"
            ),
            LineFlaw::Wrong { at, wanted } => {
                write!(f, "word {at}, {}, isn't {wanted}", Shown::of(line, at))
            }
            LineFlaw::Missing { at, wanted } => write!(f, "word {at} is missing: {wanted}"),
            LineFlaw::Extra { at } => {
                write!(f, "word {at}, {}, is one too many", Shown::of(line, at))
            }
        }
    }
}

impl Display for ToldWord<'_> {
    fn fmt<W: Write>(&self, f: &mut Formatter<W>) -> fmt::Result {
        write!(f, "word {} is {}", self.at, Shown::of(self.line, self.at))
    }
}

impl Display for ToldLine<'_> {
    fn fmt<W: Write>(&self, f: &mut Formatter<W>) -> fmt::Result {
        let shown = Shown {
            bytes: self.0,
            most: SHOWN_OF_LINE,
        };
        write!(f, "{shown}")
    }
}

// Bytes in quotes, cut off after `most` of them, with escapes for bytes that aren't printable
// ASCII characters.
#[derive(Clone, Copy)]
struct Shown<'a> {
    bytes: &'a [u8],
    most: usize,
}

impl<'a> Shown<'a> {
    // Word number `at` of a line, from 1.
    fn of(line: &'a [u8], at: usize) -> Shown<'a> {
        let mut words = Words::of(line);
        let mut word = words.next_long();
        for _ in 1..at {
            word = words.next_long();
        }
        Shown {
            bytes: word.unwrap_or(b""),
            most: SHOWN,
        }
    }
}

impl Display for Shown<'_> {
    fn fmt<W: Write>(&self, f: &mut Formatter<W>) -> fmt::Result {
        let bytes = self.bytes;
        match bytes.get(..self.most) {
            Some(front) if bytes.len() > self.most => write!(f, "'{}..'", front.escape_ascii()),
            _ => write!(f, "'{}'", bytes.escape_ascii()),
        }
    }
}
