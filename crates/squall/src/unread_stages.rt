// Plans of an engine's input that are of version 1 and have stages, which version 1 doesn't read.
use crate::source::FaultPlace;
use sq_input::has_unread_stages;
use sq_text::{MAX_LINE, place_of};
use std::alloc::Global;
use std::io;
use std::io::Read;

// The byte that ends a line.
const LINE_END: u8 = 10;

// The word before a plan, with its space: in the first line, and in lines that ask for a move.
const WORDS: [&[u8]; 2] = [b"plan ", b"move "];

/// Writes to standard error that the plan at `place` is of version 1 and has stages, if so.
pub fn tell_unread_stages_of<T: Eprint>(rt: &T, alloc: Global, place: FaultPlace<'_>, plan: &[u8]) {
    if has_unread_stages(alloc, plan) == Ok(true) {
        let _ = eprintln!(rt;
            "squall: {place}: 'stages' isn't read in version 1: write \"version\":2"
        );
    }
}

/// A reader that passes on what another one reads, and writes to standard error which of its lines
/// have a plan of version 1 with stages, and in which file, if that has a name.
#[derive(Drop)]
pub struct PlansWatched<T: Copy, R: Read> {
    reader: R,
    line: PlanLine<T>,
}

impl<T: Copy + Eprint + AllocGlobal, R: Read> PlansWatched<T, R> {
    /// Watches `reader`, which reads the file with this name, or standard input if there is none.
    pub fn new(rt: T, reader: R, file: Option<String>) -> PlansWatched<T, R> {
        PlansWatched {
            reader,
            line: PlanLine::new(rt, file),
        }
    }
}

impl<T: Copy + Eprint + AllocGlobal, R: Read> Read for PlansWatched<T, R> {
    ghost remaining = { λ watched. R.remaining watched.reader };

    fn read(&mut self, buf: &mut [u8]) -> io::Result<usize> {
        let count = self.reader.read(buf)?;
        self.line.take(&buf[..count]);
        Ok(count)
    }
}

/// The current line of an input, if it may have a plan.
#[derive(Drop)]
struct PlanLine<T: Copy> {
    rt: T,
    // The name of its file, if it has one.
    file: Option<String>,
    number: u64,
    // Its bytes so far.
    bytes: Vec<u8>,
    // Whether it is skipped: it has no plan, it is too long, or there is no memory for it.
    is_passed_over: bool,
}

impl<T: Copy + Eprint + AllocGlobal> PlanLine<T> {
    // The first line, before its first byte.
    fn new(rt: T, file: Option<String>) -> PlanLine<T> {
        PlanLine {
            rt,
            file,
            number: 1,
            bytes: Vec::new(rt.alloc()),
            is_passed_over: false,
        }
    }

    // Takes the next bytes of the input.
    fn take(&mut self, bytes: &[u8]) {
        let mut rest = bytes;
        while let Some(end) = place_of(LINE_END, rest) {
            let (line, behind) = (&rest[..end], &rest[end..]);
            self.keep(line);
            self.end();
            rest = &behind[1..];
        }
        self.keep(rest);
    }

    // Keeps the next bytes of the line, if it may have a plan.
    fn keep(&mut self, bytes: &[u8]) {
        if self.is_passed_over {
            return;
        }
        let start = if self.bytes.is_empty() {
            bytes
        } else {
            &self.bytes
        };
        let may_have_plan = WORDS.iter().any(|word| begins_alike(start, *word));
        let is_short = self.bytes.len().saturating_add(bytes.len()) <= MAX_LINE;
        let is_kept = may_have_plan && is_short && self.bytes.extend_from_slice(bytes).is_ok();
        self.is_passed_over = !is_kept;
    }

    // Reports its plan, if it has one, and begins the next line.
    fn end(&mut self) {
        if !self.is_passed_over {
            self.tell();
        }
        self.bytes.clear();
        self.is_passed_over = false;
        self.number = self.number.saturating_add(1);
    }

    // Where it is.
    fn place(&self) -> FaultPlace<'_> {
        match &self.file {
            Some(name) => FaultPlace::LineOf(name.as_str(), self.number),
            None => FaultPlace::Line(self.number),
        }
    }

    // Reports its plan, if it has one with stages that aren't read.
    fn tell(&self) {
        let plan = WORDS.iter().find_map(|word| self.bytes.strip_prefix(*word));
        if let Some(plan) = plan {
            tell_unread_stages_of(&self.rt, self.rt.alloc(), self.place(), plan);
        }
    }
}

// Returns whether bytes begin as a word does, as far as both go.
fn begins_alike(bytes: &[u8], word: &[u8]) -> bool {
    bytes.iter().zip(word).all(|(byte, letter)| byte == letter)
}
