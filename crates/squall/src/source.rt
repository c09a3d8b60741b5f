// Where the lines of an input come from.
use sq_command::Input;
use sq_input::{RecordFlaw, RecordLines};
use sq_text::InputLine;
use std::cell::Cell;
use std::fmt;
use std::fmt::{Display, Formatter, Write};

// How the name of a table of values ends.
const TABLE_END: &[u8] = b".csv";

/// Where the lines of an input come from.
#[derive(Clone, Copy)]
pub struct Source<'a> {
    /// The named files.
    pub input: Input<'a>,
    /// How many lines the file of the rows has, once all of them were read.
    pub rows: &'a Cell<Option<usize>>,
    /// The lines on which the rows of their file are.
    pub records: &'a RecordLines,
    /// Whether a write found that the reader of the output has closed it.
    pub is_closed: &'a Cell<bool>,
}

/// Where a line is.
#[derive(Clone, Copy)]
pub enum FaultPlace<'a> {
    /// The line of the input with this number.
    Line(u64),
    /// The file with this name, which is one line of the input.
    File(&'a str),
    /// The line of this file with this number.
    LineOf(&'a str, u64),
}

impl<'a> Source<'a> {
    /// The place of a line of the input. If the plans have files of their own, it is a file and a
    /// line of it, or the whole file of a plan; else it is the line of the input.
    pub fn place(&self, line: InputLine) -> FaultPlace<'a> {
        let number = line.number();
        let Some(plans) = self.input.plans else {
            return FaultPlace::Line(number);
        };
        match number {
            1 => FaultPlace::File(plans.old),
            2 => FaultPlace::File(plans.new),
            3 => FaultPlace::LineOf(self.main(), 1),
            _ => self.place_behind(number.saturating_sub(3), plans.rows),
        }
    }

    // The place of the line that comes `behind` lines after the sizes; `rows` is the file of the
    // rows, if they have one.
    fn place_behind(&self, behind: u64, rows: Option<&'a str>) -> FaultPlace<'a> {
        let Some(file) = rows else {
            return FaultPlace::LineOf(self.main(), behind.saturating_add(1));
        };
        match self.rows.get() {
            Some(lines) if behind > lines as u64 => {
                FaultPlace::LineOf(self.main(), (behind - lines as u64).saturating_add(1))
            }
            _ => FaultPlace::LineOf(file, self.records.line_of(behind).unwrap_or(behind)),
        }
    }

    /// What is wrong with the record of a table of values that a line of the input was made from,
    /// apart from its fields.
    pub fn record_flaw(&self, line: InputLine) -> Option<RecordFlaw> {
        if self.is_record(line) {
            self.records.flaw_of(line.number().saturating_sub(3))
        } else {
            None
        }
    }

    /// Returns whether a line of the input was made from a record of a table of values.
    pub fn is_record(&self, line: InputLine) -> bool {
        let behind = line.number().saturating_sub(3);
        let rows = self.input.plans.and_then(|plans| plans.rows);
        let is_of_rows = match self.rows.get() {
            Some(lines) => behind <= lines as u64,
            None => true,
        };
        behind > 0 && is_of_rows && rows.is_some_and(is_table)
    }

    // The name of the main input.
    fn main(&self) -> &'a str {
        self.input.file.unwrap_or("standard input")
    }
}

/// Returns whether the file of rows `name` is a table of values: it ends in `.csv`, in upper or
/// lower case.
pub fn is_table(name: &str) -> bool {
    let name = name.as_bytes();
    match name.len().checked_sub(TABLE_END.len()) {
        Some(at) => name[at..].eq_ignore_ascii_case(TABLE_END),
        None => false,
    }
}

impl Display for FaultPlace<'_> {
    fn fmt<W: Write>(&self, f: &mut Formatter<W>) -> fmt::Result {
        match *self {
            FaultPlace::Line(line) => write!(f, "line {line}"),
            FaultPlace::File(file) => f.write_str(file),
            FaultPlace::LineOf(file, line) => write!(f, "{file}: line {line}"),
        }
    }
}
