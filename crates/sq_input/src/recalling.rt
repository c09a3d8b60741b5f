// A reader that keeps what it read last.
ghost use Rattle.std.specs.Prelude.{◌≡◌};
ghost use Rattle.sq_input.specs.Recalling.{recalling_remaining, recalling_inner};

use crate::input_lines::{LINE_END, lines_in};
use std::alloc::Global;
use std::io;
use std::io::Read;

// An upper bound on the length of a line that may be asked for, and of a read.
const ROOM: usize = 262_144;

// How many lines come first, each with a plan.
const PLANS: usize = 2;

/// A reader that keeps the lines which its last read touched, so that a faulty line can be asked
/// for again; and the first two lines, which hold the plans of a move.
#[derive(Drop)]
pub struct Recalling<R: Read> {
    inner: R,
    // The last lines, the first of them from its beginning.
    kept: Vec<u8>,
    // How many of these bytes are whole lines, and how many lines those are.
    whole: usize,
    whole_lines: usize,
    // How many lines come before them.
    lines_before: usize,
    // Whether memory ran out for them, or they were too long.
    is_lost: bool,
    // The first lines, as far as they were read.
    plans: Vec<u8>,
    // How many of them haven't ended yet.
    plans_left: usize,
}

/// A line that is asked for again.
#[derive(Clone, Copy, Debug, PartialEq, Eq)]
pub enum Recalled<'a> {
    /// Its bytes, without its end.
    Line(&'a [u8]),
    /// The bytes of the last line, which has no end.
    Rest(&'a [u8]),
    /// The input ends before it.
    Missing,
    /// It isn't kept any more.
    Lost,
}

impl<R: Read> Recalling<R> {
    /// A reader of `inner` that has read nothing yet.
    pub fn new(alloc: Global, inner: R) -> Recalling<R>
        ensures { recalling_remaining R.remaining result ≡ R.remaining inner }
    {
        Recalling {
            inner,
            kept: Vec::new(alloc),
            whole: 0,
            whole_lines: 0,
            lines_before: 0,
            is_lost: false,
            plans: Vec::new(alloc),
            plans_left: PLANS,
        }
    }

    /// The line of the old plan, the first line, without its end; `None` if it hasn't ended, is too
    /// long to keep, or memory ran out for it.
    pub fn old_line(&self) -> Option<&[u8]> {
        self.plan_line(0)
    }

    /// The line of the new plan, the second line, without its end; `None` as for the old one.
    pub fn new_line(&self) -> Option<&[u8]> {
        self.plan_line(1)
    }

    // The line of a plan after `before` other lines.
    fn plan_line(&self, before: usize) -> Option<&[u8]> {
        let mut lines = self.plans.split_inclusive(|byte| *byte == LINE_END);
        match lines.nth(before)?.split_last() {
            Some((last, bytes)) if *last == LINE_END => Some(bytes),
            _ => None,
        }
    }

    /// Line number `number`, from 1, if the last read touched it.
    pub fn line(&self, number: usize) -> Recalled<'_> {
        if self.is_lost || number <= self.lines_before {
            return Recalled::Lost;
        }
        let mut lines = self.kept.split_inclusive(|byte| *byte == LINE_END);
        let Some(line) = lines.nth(number - self.lines_before - 1) else {
            return Recalled::Missing;
        };
        match line.split_last() {
            Some((last, bytes)) if *last == LINE_END => Recalled::Line(bytes),
            _ => Recalled::Rest(line),
        }
    }

    // Keeps the part of `bytes` that belongs to the lines of the plans.
    fn keep_plans(&mut self, bytes: &[u8])
        ensures { recalling_inner self.new ≡ recalling_inner self.old }
    {
        for byte in bytes {
            if self.plans_left == 0 {
                return;
            }
            if self.plans.len() > ROOM || self.plans.push(*byte).is_err() {
                self.plans.clear();
                self.plans_left = 0;
                return;
            }
            if *byte == LINE_END {
                self.plans_left -= 1;
            }
        }
    }

    // Drops the lines that were whole before, and keeps `bytes` after what is left.
    fn keep(&mut self, bytes: &[u8])
        ensures { recalling_inner self.new ≡ recalling_inner self.old }
    {
        let whole = self.whole.min(self.kept.len());
        let left = self.kept.len() - whole;
        self.kept.as_mut_slice().copy_within(whole.., 0);
        self.kept.truncate(left);
        self.lines_before = self.lines_before.saturating_add(self.whole_lines);
        let rest = self.kept.len();
        if rest > ROOM || self.kept.extend_from_slice(bytes).is_err() {
            self.is_lost = true;
            return;
        }
        match bytes.iter().rposition(|byte| *byte == LINE_END) {
            Some(last) => {
                self.whole = rest.saturating_add(last).saturating_add(1);
                self.whole_lines = lines_in(&bytes[..last]).saturating_add(1);
            }
            None => {
                self.whole = 0;
                self.whole_lines = 0;
            }
        }
    }
}

impl<R: Read> Read for Recalling<R> {
    ghost remaining = { recalling_remaining R.remaining };

    fn read(&mut self, buf: &mut [u8]) -> io::Result<usize> {
        let count = self.inner.read(buf)?;
        let given = &buf[..count];
        self.keep_plans(given);
        if !self.is_lost {
            self.keep(given);
        }
        Ok(count)
    }
}
