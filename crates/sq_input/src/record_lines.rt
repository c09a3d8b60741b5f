// The lines on which the records of a table begin.
use crate::record_flaw::RecordFlaw;
use std::alloc::{AllocError, Global};
use std::cell::RefCell;

/// The lines on which the records of a table begin. The reader of the table records them.
#[derive(Drop)]
pub struct RecordLines {
    lines: RefCell<LineList>,
}

/// `record` begins on `line`, and each later one, up to the next jump, one line after the one
/// before.
#[derive(Clone, Copy, Debug, PartialEq, Eq)]
struct Jump {
    record: u64,
    line: u64,
}

/// The lines of records, in rising order.
#[derive(Drop)]
struct LineList {
    jumps: Vec<Jump>,
    // How many records there are so far.
    count: u64,
    // What is wrong with the last of them.
    flaw: Option<RecordFlaw>,
}

impl RecordLines {
    /// The lines of no records.
    pub fn new(alloc: Global) -> RecordLines {
        RecordLines {
            lines: RefCell::new(LineList {
                jumps: Vec::new(alloc),
                count: 0,
                flaw: None,
            }),
        }
    }

    /// Records `line`, on which the next record begins, and its flaw. Fails if memory runs out.
    pub(crate) fn note(&self, line: u64, flaw: Option<RecordFlaw>) -> Result<(), AllocError> {
        match self.lines.try_borrow_mut() {
            Ok(mut lines) => {
                lines.flaw = flaw;
                lines.add(line)
            }
            Err(_) => Ok(()),
        }
    }

    /// The line of record number `record`, from 1; `None` before the first record was recorded.
    pub fn line_of(&self, record: u64) -> Option<u64> {
        let lines = self.lines.try_borrow().ok()?;
        lines.line_of(record)
    }

    /// Why record number `record`, from 1, isn't read to its end. Only the last one may have such a
    /// flaw.
    pub fn flaw_of(&self, record: u64) -> Option<RecordFlaw> {
        let lines = self.lines.try_borrow().ok()?;
        if record == lines.count {
            lines.flaw
        } else {
            None
        }
    }
}

impl LineList {
    // Adds the line of one more record.
    fn add(&mut self, line: u64) -> Result<(), AllocError> {
        let record = self.count.saturating_add(1);
        if self.line_of(record) != Some(line) {
            self.jumps.push(Jump { record, line })?;
        }
        self.count = record;
        Ok(())
    }

    // The line of record number `record`, by the last jump up to it.
    fn line_of(&self, record: u64) -> Option<u64> {
        let jump = self.jumps.iter().rev().find(|jump| jump.record <= record)?;
        Some(jump.line.saturating_add(record - jump.record))
    }
}
