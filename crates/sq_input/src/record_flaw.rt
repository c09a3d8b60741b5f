// Why a record isn't read to its end.
use crate::open_field::LONGEST_FIELD;
use std::fmt;
use std::fmt::{Display, Formatter, Write};

/// Why a record of a table isn't read to its end. Columns are counted from 1.
#[derive(Clone, Copy, Debug, PartialEq, Eq)]
pub enum RecordFlaw {
    /// The table ends inside the quotes of the field in this column.
    OpenQuote { column: usize },
    /// The quotes of the field in this column aren't closed within the most bytes that are read of
    /// a field.
    LongQuote { column: usize },
}

impl Display for RecordFlaw {
    fn fmt<W: Write>(&self, f: &mut Formatter<W>) -> fmt::Result {
        match *self {
            RecordFlaw::OpenQuote { column } => write!(
                f,
                "column {column} begins with a quote that isn't closed before the file ends"
            ),
            RecordFlaw::LongQuote { column } => write!(
                f,
                "column {column} begins with a quote that isn't closed within {LONGEST_FIELD} bytes"
            ),
        }
    }
}

/// A flaw, and the line of the table on which its field begins.
#[derive(Clone, Copy, Debug, PartialEq, Eq)]
pub(crate) struct PlacedFlaw {
    pub(crate) line: u64,
    pub(crate) flaw: RecordFlaw,
}
