// Where the lines of an engine's text are.
use sq_input::RecordLines;
use sq_serving::{FileLines, LinePlace, LinePlaces, LineSource};
use std::alloc::Global;
use std::sync::Arc;

/// Where the lines of an engine's text are: the plan and the rows in files of their own, if they
/// have any, and the others in the named file or, after it, in standard input.
#[derive(Drop)]
pub struct TextPlaces {
    /// Whether the plan has a file of its own.
    pub has_plan_file: bool,
    /// The rows that have a file of their own, after the first two lines.
    pub rows: Option<RowPlaces>,
    /// The lines of the file that is read before standard input, if there is one.
    pub file: Option<Arc<FileLines, Global>>,
}

/// Where rows are in a file of their own.
#[derive(Drop)]
pub struct RowPlaces {
    pub count: u64,
    /// The lines on which they are.
    pub records: RecordLines,
}

impl RowPlaces {
    /// The line of row `row`, counted from 1.
    pub fn line_of(&self, row: u64) -> u64 {
        self.records.line_of(row).unwrap_or(row)
    }
}

impl TextPlaces {
    // The place of line `number` among those that have no file of their own.
    fn main_place(&self, number: u64) -> LinePlace {
        match self.file.as_ref().map(|lines| lines.count()) {
            None => place_in(LineSource::Input, number),
            Some(Some(count)) if number > count => place_in(LineSource::Input, number - count),
            Some(_) => place_in(LineSource::File, number),
        }
    }

    // The place of the line that comes `number` lines after the plan, which has a file of its own.
    fn place_after_plan(&self, number: u64) -> LinePlace {
        let Some(rows) = &self.rows else {
            return self.main_place(number);
        };
        let row = number.saturating_sub(1);
        if row == 0 {
            self.main_place(number)
        } else if row <= rows.count {
            place_in(LineSource::Rows, rows.line_of(row))
        } else {
            self.main_place(number.saturating_sub(rows.count))
        }
    }
}

impl LinePlaces for TextPlaces {
    fn place(&self, number: u64) -> LinePlace {
        if !self.has_plan_file {
            self.main_place(number)
        } else if number <= 1 {
            place_in(LineSource::Plan, 1)
        } else {
            self.place_after_plan(number - 1)
        }
    }
}

fn place_in(source: LineSource, line: u64) -> LinePlace {
    LinePlace { source, line }
}
