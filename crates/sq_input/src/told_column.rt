// What is wrong with a record, in terms of its columns.
use crate::faulty_lines::LineFlaw;
use crate::told::{ToldFlaw, ToldWord};
use crate::wanted::Wanted;
use sq_text::Words;
use std::fmt;
use std::fmt::{Display, Formatter, Write};

// What the column of the note wants.
const NOTE_IS: &str = "a note, a text or 'hex:' and two digits from 0-9 and a-f for each byte";

// How many bytes of a field are shown.
const SHOWN: usize = 40;

/// What is wrong with the line of a row, in terms of the columns of its record, which are counted
/// from 1.
#[derive(Clone, Copy, Debug, PartialEq, Eq)]
pub enum ToldColumn<'a> {
    /// It isn't of its form.
    Flaw(ToldFlaw<'a>),
    /// A fault is about this word.
    Word(ToldWord<'a>),
}

impl Display for ToldColumn<'_> {
    fn fmt<W: Write>(&self, f: &mut Formatter<W>) -> fmt::Result {
        match self {
            ToldColumn::Flaw(told) => write_flaw(f, told),
            ToldColumn::Word(ToldWord { line, at }) => {
                write!(f, "column {} is {}", column_of(*at), Field::of(line, *at))
            }
        }
    }
}

// The column of word number `word`; the first word of the line is `row`.
fn column_of(word: usize) -> usize {
    word.saturating_sub(1)
}

// Writes how a line departs from its form.
fn write_flaw<W: Write>(f: &mut Formatter<W>, told: &ToldFlaw<'_>) -> fmt::Result {
    let line = told.line;
    match told.flaw {
        LineFlaw::Empty { at } => write!(f, "column {} is empty", column_of(at)),
        LineFlaw::Wrong { at, wanted } => {
            let field = Field::of(line, at);
            write!(
                f,
                "column {}, {field}, isn't {}",
                column_of(at),
                InColumn(wanted)
            )
        }
        LineFlaw::Missing { at, wanted } => {
            write!(
                f,
                "column {} is missing: {}",
                column_of(at),
                InColumn(wanted)
            )
        }
        LineFlaw::Extra { at } => {
            let field = Field::of(line, at);
            write!(f, "column {}, {field}, is one too many", column_of(at))
        }
        LineFlaw::Mark | LineFlaw::CarriageReturn => write!(f, "{told}"),
    }
}

// What a column wants.
#[derive(Clone, Copy)]
struct InColumn(Wanted);

impl Display for InColumn {
    fn fmt<W: Write>(&self, f: &mut Formatter<W>) -> fmt::Result {
        match self.0 {
            Wanted::Note => { f.write_str(NOTE_IS) }
            wanted => write!(f, "{wanted}"),
        }
    }
}

// A field in quotes, as its word shows it, cut off if it is long, with escapes for bytes that
// aren't printable ASCII characters.
#[derive(Clone, Copy)]
struct Field<'a>(&'a [u8]);

impl<'a> Field<'a> {
    // The field whose word is word number `at` of the line, from 1.
    fn of(line: &'a [u8], at: usize) -> Field<'a> {
        let mut words = Words::of(line);
        let mut word = words.next_long();
        for _ in 1..at {
            word = words.next_long();
        }
        Field(word.unwrap_or(b""))
    }
}

impl Display for Field<'_> {
    fn fmt<W: Write>(&self, f: &mut Formatter<W>) -> fmt::Result {
        let bytes = self.0;
        match bytes.get(..SHOWN) {
            Some(front) if bytes.len() > SHOWN => write!(f, "'{}..'", front.escape_ascii()),
            _ => write!(f, "'{}'", bytes.escape_ascii()),
        }
    }
}
