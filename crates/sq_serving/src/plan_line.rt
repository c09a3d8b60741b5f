// The first line of an engine's input, which spells the plan.
use crate::faulty_header::HeaderLine;
use crate::feeds::Refused;
use sq_input::plan_lines;
use sq_text::{InputFault, InputLine, LocatedFault, MAX_LINE};
use std::alloc::{AllocError, Global};
use std::io::Read;

// How the first line begins.
const PLAN: &[u8] = b"plan ";

// The number of the first line of the rows in a header that has its plans on two lines.
const FIRST_ROW: u64 = 4;

// The byte that ends a line.
const LINE_END: u8 = 10;

/// The first two lines of a header, made from the first line of an input, `plan JSON`: both have
/// this plan.
pub(crate) fn header_start<I: Read>(alloc: Global, input: &mut I) -> Result<Vec<u8>, Refused> {
    match first_line(alloc, input) {
        Ok(line) => plan_twice(alloc, line.as_slice()),
        Err(InputFault::Memory) => Err(Refused::for_memory()),
        Err(fault) => Err(Refused {
            located: fault.at(InputLine::Old),
            line: unread_line(fault),
        }),
    }
}

/// The line with this fault, if it wasn't read: a line that isn't of its form is missing, since the
/// input ends before it.
pub(crate) fn unread_line(fault: InputFault) -> HeaderLine {
    if fault == InputFault::BadHeader {
        HeaderLine::Missing
    } else {
        HeaderLine::Lost
    }
}

// The two lines of the plan that `line` spells.
fn plan_twice(alloc: Global, line: &[u8]) -> Result<Vec<u8>, Refused> {
    if !line.starts_with(PLAN) {
        return Err(Refused {
            located: InputFault::BadHeader.at(InputLine::Old),
            line: HeaderLine::of(alloc, line),
        });
    }
    let text = &line[PLAN.len()..];
    match plan_lines(alloc, text, text) {
        Ok(lines) => Ok(lines),
        Err(AllocError) => Err(Refused::for_memory()),
    }
}

// The bytes of the first line, without its end. Nothing after it is read.
fn first_line<I: Read>(alloc: Global, input: &mut I) -> Result<Vec<u8>, InputFault> {
    let mut line = Vec::new(alloc);
    for _byte in 0..=MAX_LINE {
        match next_byte(input)? {
            None => return Err(InputFault::BadHeader),
            Some(LINE_END) => return Ok(line),
            Some(byte) => match line.push(byte) {
                Ok(()) => {}
                Err(_) => return Err(InputFault::Memory),
            },
        }
    }
    Err(InputFault::LineTooLong)
}

fn next_byte<I: Read>(input: &mut I) -> Result<Option<u8>, InputFault> {
    let mut byte = [0];
    match input.read(&mut byte) {
        Ok(0) => Ok(None),
        Ok(_) => Ok(Some(byte[0])),
        Err(_) => Err(InputFault::ReadFailed),
    }
}

/// The fault of a header with its plan on one line, from the fault of the same header with its plan
/// on two.
pub(crate) fn on_one_line(located: LocatedFault) -> LocatedFault {
    LocatedFault {
        fault: located.fault,
        line: located.line.map(line_before),
    }
}

// The line of a header with its plan on one line, from the same line with the plan on two.
fn line_before(line: InputLine) -> InputLine {
    match line {
        InputLine::Old | InputLine::New => InputLine::Old,
        InputLine::Config => InputLine::New,
        InputLine::Row(0) => InputLine::Config,
        InputLine::Row(at) => InputLine::Row(at.saturating_sub(1)),
        InputLine::Later(number) => InputLine::Later(number.saturating_sub(1)),
    }
}

/// The fault of a row in a portion whose first line is line `number` of the input. `located` counts
/// the rows from the first of the portion.
pub(crate) fn on_later_line(located: LocatedFault, number: u64) -> LocatedFault {
    LocatedFault {
        fault: located.fault,
        line: located.line.map(|line| {
            let before = line.number().saturating_sub(FIRST_ROW);
            line_at(number.saturating_add(before))
        }),
    }
}

/// Line `number` of a header, after the sizes.
pub(crate) fn line_at(number: u64) -> InputLine {
    if number < FIRST_ROW {
        InputLine::Config
    } else {
        InputLine::Row((number - FIRST_ROW) as usize)
    }
}
