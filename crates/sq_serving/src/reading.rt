// The reader of an engine's input.
use crate::asking::fed_of;
use crate::faulty_header::HeaderLine;
use crate::feed::{Fed, InputEnd};
use crate::feeds::{Feeds, Refused};
use crate::following::Following;
use crate::line_place::LinePlaces;
use crate::plan_line::{header_start, line_at, on_later_line, on_one_line, unread_line};
use crate::portions::Portions;
use crate::serve_word::begins_serve_line;
use sq_moves::Opening;
use sq_schema::Schema;
use sq_text::{
    InputFault, LineReader, LocatedFault, MAX_LINE, MAX_LINES, MAX_UNENDED, Next, read_header,
    take_rows,
};
use std::alloc::Global;
use std::io;
use std::io::Read;
use std::sync::Wait;

// How many lines a portion of the input has.
const PORTION: usize = MAX_LINES as usize;

// How many header lines the first line of an input becomes.
const PLAN_LINES: usize = 2;

/// How a portion of an input ends.
#[derive(Drop)]
enum PortionEnd {
    /// In the header; the opening has the rows up to there.
    Header(Opening),
    /// In the lines after the header.
    Lines(InputEnd),
}

/// Reads an input to its end, and hands on what its lines ask. The last line needs no line end.
pub(crate) fn read_all<R: Wait, I: Read + Drop, P: LinePlaces + Drop>(
    rt: &R,
    alloc: Global,
    feeds: Feeds<P>,
    input: I,
) {
    let mut feeds = feeds;
    let ended = Following::new(input, io::empty());
    if let Some(end) = read_input(rt, alloc, &mut feeds, ended) {
        feeds.hand_on(rt, Fed::End(end));
    }
}

// Hands on all that an input asks, and returns how it ends; `None` if its header has a fault, or if
// nobody takes what is handed on.
fn read_input<R: Wait, I: Read + Drop, P: LinePlaces + Drop>(
    rt: &R,
    alloc: Global,
    feeds: &mut Feeds<P>,
    input: I,
) -> Option<InputEnd> {
    let mut input = input;
    let head = match header_start(alloc, &mut input) {
        Ok(head) => head,
        Err(refused) => {
            feeds.refuse(rt, refused);
            return None;
        }
    };
    let mut portions = Portions::new(input, PORTION - PLAN_LINES);
    let first = read_first(rt, alloc, feeds, head.as_slice().chain(&mut portions))?;
    read_portions(rt, alloc, feeds, portions, first)
}

// Hands on what all portions after the first one hold; `first` is how that one ended.
fn read_portions<R: Wait, I: Read + Drop, P: LinePlaces + Drop>(
    rt: &R,
    alloc: Global,
    feeds: &mut Feeds<P>,
    portions: Portions<I>,
    first: PortionEnd,
) -> Option<InputEnd> {
    let mut portions = portions;
    let mut end = first;
    // The first portion has the plan on two lines, and the input has it on one.
    let mut number = PORTION as u64;
    for _ in rt.forever() {
        if !goes_on(&end) || !portions.next_portion(PORTION) {
            return Some(finish(rt, feeds, end));
        }
        end = read_portion(rt, alloc, feeds, number, end, &mut portions)?;
        number = number.saturating_add(PORTION as u64);
    }
    unreachable!()
}

// Returns whether more may come after a portion.
fn goes_on(end: &PortionEnd) -> bool {
    matches!(
        end,
        PortionEnd::Header(_) | PortionEnd::Lines(InputEnd::Whole)
    )
}

// How an input ends whose last portion ended with `last`. If the whole input is a header, it is
// handed on here.
fn finish<R: Wait, P: LinePlaces + Drop>(
    rt: &R,
    feeds: &mut Feeds<P>,
    last: PortionEnd,
) -> InputEnd {
    match last {
        PortionEnd::Header(opening) => {
            feeds.open(rt, opening);
            InputEnd::Whole
        }
        PortionEnd::Lines(end) => end,
    }
}

// Hands on what the first portion holds, which has the plan on two lines.
fn read_first<R: Wait, I: Read + Drop, P: LinePlaces + Drop>(
    rt: &R,
    alloc: Global,
    feeds: &mut Feeds<P>,
    input: I,
) -> Option<PortionEnd> {
    let Ok(mut lines) = LineReader::new(alloc, input) else {
        feeds.refuse(rt, Refused::for_memory());
        return None;
    };
    match read_header(alloc, Schema::largest(), &mut lines) {
        Ok(opening) => read_after_rows(rt, alloc, feeds, 0, opening, &mut lines),
        Err(located) => {
            let line = faulty_line(alloc, &lines, &located);
            let located = on_one_line(located);
            feeds.refuse(rt, Refused { located, line });
            None
        }
    }
}

// The header line with this fault; it is numbered as in its portion.
fn faulty_line<I: Read>(
    alloc: Global,
    lines: &LineReader<I>,
    located: &LocatedFault,
) -> HeaderLine {
    match located.line {
        Some(line) if u64::from(lines.next_line_number()) > line.number() => {
            HeaderLine::of(alloc, lines.piece())
        }
        _ => unread_line(located.fault),
    }
}

// Hands on what a portion holds. `number` is that of its first line in the input, and `before` is
// how the portion before it ended.
fn read_portion<R: Wait, I: Read + Drop, P: LinePlaces + Drop>(
    rt: &R,
    alloc: Global,
    feeds: &mut Feeds<P>,
    number: u64,
    before: PortionEnd,
    portion: I,
) -> Option<PortionEnd> {
    match before {
        PortionEnd::Header(opening) => read_rows(rt, alloc, feeds, number, opening, portion),
        PortionEnd::Lines(_) => read_only_lines(rt, alloc, feeds, number, portion),
    }
}

// Takes the rows at the start of a portion into `opening`, and hands on what the portion holds
// after them.
fn read_rows<R: Wait, I: Read + Drop, P: LinePlaces + Drop>(
    rt: &R,
    alloc: Global,
    feeds: &mut Feeds<P>,
    number: u64,
    opening: Opening,
    portion: I,
) -> Option<PortionEnd> {
    let mut opening = opening;
    let Ok(mut lines) = LineReader::new(alloc, portion) else {
        feeds.refuse(rt, Refused::for_memory());
        return None;
    };
    match take_rows(alloc, &mut lines, &mut opening) {
        Ok(()) => read_after_rows(rt, alloc, feeds, number, opening, &mut lines),
        Err(located) => {
            let line = HeaderLine::of(alloc, lines.piece());
            let located = on_later_line(located, number);
            feeds.refuse(rt, Refused { located, line });
            None
        }
    }
}

// Continues after the rows of a portion whose first line is line `number`. The header ends before
// the first line that asks something, and may continue in the next portion; any other line is a
// fault of it.
fn read_after_rows<R: Wait, I: Read + Drop, P: LinePlaces + Drop>(
    rt: &R,
    alloc: Global,
    feeds: &mut Feeds<P>,
    number: u64,
    opening: Opening,
    lines: &mut LineReader<I>,
) -> Option<PortionEnd> {
    let line = next_number(number, lines);
    let next = lines.next_read(MAX_UNENDED);
    if next == Next::End {
        return Some(PortionEnd::Header(opening));
    }
    if let Some(fault) = fault_after_rows(next, lines.piece()) {
        let located = fault.at(line_at(line));
        let line = HeaderLine::of(alloc, lines.piece());
        feeds.refuse(rt, Refused { located, line });
        return None;
    }
    feeds.open(rt, opening);
    let asked = fed_of(alloc, next, feeds.place(line), lines.piece());
    if feeds.hand_on(rt, asked) {
        read_lines(rt, alloc, feeds, number, lines)
    } else {
        None
    }
}

// The fault of the next line after the rows, unless it asks something.
fn fault_after_rows(next: Next, piece: &[u8]) -> Option<InputFault> {
    match next {
        Next::Line | Next::Rest if begins_serve_line(piece) => None,
        Next::Line | Next::Rest if piece.len() <= MAX_LINE => Some(InputFault::BadHeader),
        Next::Failed => Some(InputFault::ReadFailed),
        _ => Some(InputFault::LineTooLong),
    }
}

// Hands on what the lines of a portion ask; `number` is that of its first line in the input.
fn read_only_lines<R: Wait, I: Read + Drop, P: LinePlaces + Drop>(
    rt: &R,
    alloc: Global,
    feeds: &mut Feeds<P>,
    number: u64,
    portion: I,
) -> Option<PortionEnd> {
    match LineReader::new(alloc, portion) {
        Ok(mut lines) => read_lines(rt, alloc, feeds, number, &mut lines),
        Err(_) => Some(PortionEnd::Lines(InputEnd::Memory)),
    }
}

// Hands on what lines ask, and returns how they end; `None` if nobody takes what is handed on.
// `number` is that of the first line of their portion.
fn read_lines<R: Wait, I: Read + Drop, P: LinePlaces + Drop>(
    rt: &R,
    alloc: Global,
    feeds: &mut Feeds<P>,
    number: u64,
    lines: &mut LineReader<I>,
) -> Option<PortionEnd> {
    for _ in rt.forever() {
        let line = next_number(number, lines);
        let next = lines.next_read(MAX_UNENDED);
        match fed_of(alloc, next, feeds.place(line), lines.piece()) {
            Fed::End(end) => return Some(PortionEnd::Lines(end)),
            line => {
                if !feeds.hand_on(rt, line) {
                    return None;
                }
            }
        }
    }
    unreachable!()
}

// The number in the input of the next line of a portion whose first line is line `number`.
fn next_number<I: Read>(number: u64, lines: &LineReader<I>) -> u64 {
    let before = u64::from(lines.next_line_number()).saturating_sub(1);
    number.saturating_add(before)
}
