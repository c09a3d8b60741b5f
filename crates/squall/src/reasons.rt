// Messages that explain why lines of an engine's input are refused.
use crate::flaws::{tell_misfit_of_move, tell_misfit_of_refused};
use crate::serving::EngineInput;
use crate::source::FaultPlace;
use sq_explain::meaning;
use sq_serving::{LineRefusal, RefusedMove};
use std::fmt;
use std::fmt::{Display, Formatter, Write};
use std::sync::atomic::{AtomicU64, Ordering};

// The number of the fault of a line that asks nothing.
const NOT_A_LINE: u16 = 126;

// The number of the refusal while rows move.
const MOVING: u16 = 217;

// The number of the refusal if a file wasn't written.
const UNWRITTEN: u16 = 124;

// Stands for no move; no move has as many segments.
const NO_MOVE: u64 = u64::MAX;

/// Explains on standard error why lines of an engine's input are refused, and counts them.
#[derive(Drop)]
pub struct Reasons<'a, T> {
    rt: &'a T,
    input: EngineInput<'a>,
    count: AtomicU64,
    // The number of segments of the move that is under way, or `NO_MOVE`.
    moving: AtomicU64,
}

impl<'a, T: Eprint + AllocGlobal> Reasons<'a, T> {
    /// Reasons for an engine with this input, with no line refused yet.
    pub fn new(rt: &'a T, input: EngineInput<'a>) -> Reasons<'a, T> {
        Reasons {
            rt,
            input,
            count: AtomicU64::new(0),
            moving: AtomicU64::new(NO_MOVE),
        }
    }

    /// Records that a move of `segments` segments is under way.
    pub fn begin_move(&self, segments: u64) {
        self.moving.store(segments, Ordering::SeqCst);
    }

    /// Records the end of a move.
    pub fn end_move(&self) {
        self.moving.store(NO_MOVE, Ordering::SeqCst);
    }

    /// Explains a refused line: its place, what the number means, and what is wrong with the line,
    /// if that can be found; or which move is under way, if it is refused for that.
    pub fn tell(&self, refusal: LineRefusal<'_>) {
        self.count.fetch_add(1, Ordering::SeqCst);
        let place = self.input.place(refusal.place);
        let _ = eprintln!(self.rt; "squall: {place}: {}", Reason(&refusal));
        if refusal.number == MOVING {
            self.tell_moving(place);
        } else {
            tell_misfit_of_refused(self.rt, place, &refusal);
        }
    }

    // Explains which move is under way as a line is refused.
    fn tell_moving(&self, place: FaultPlace<'_>) {
        match self.moving.load(Ordering::SeqCst) {
            NO_MOVE => {
                let _ = eprintln!(self.rt; "squall: {place}: a line before it asks for a move");
            }
            segments => {
                let _ = eprintln!(self.rt;
                    "squall: {place}: a move of {segments} segments is under way"
                );
            }
        }
    }

    /// Explains why a move is refused, if its number leaves that open.
    pub fn tell_move(&self, refused: RefusedMove<'_>) {
        tell_misfit_of_move(self.rt, self.input.place(refused.place), &refused);
    }

    /// Reports how many lines were refused, if any were.
    pub fn tell_count(&self) {
        match self.count.load(Ordering::SeqCst) {
            0 => {}
            1 => {
                let _ = eprintln!(self.rt; "squall: 1 line was refused");
            }
            count => {
                let _ = eprintln!(self.rt; "squall: {count} lines were refused");
            }
        }
    }
}

// A refusal as messages put it: its number, what that means, and the id of the job, if it is of a
// job that has one.
#[derive(Clone, Copy)]
struct Reason<'a>(&'a LineRefusal<'a>);

impl Display for Reason<'_> {
    fn fmt<W: Write>(&self, f: &mut Formatter<W>) -> fmt::Result {
        let number = self.0.number;
        let kind = if is_refusal(number) {
            "refused"
        } else {
            "fault"
        };
        write!(f, "{kind} {number}: {}", meaning_of_refusal(number))?;
        match self.0.id {
            Some(id) => write!(f, " (id {id})"),
            None => Ok(()),
        }
    }
}

// Returns whether the answer with this number is a refusal; so are those to faulty plans, and to
// plans that can't be moved to.
fn is_refusal(number: u16) -> bool {
    matches!(number, 101..=113 | UNWRITTEN | MOVING)
}

// What the number of a refusal means to somebody who serves an engine.
fn meaning_of_refusal(number: u16) -> &'static str {
    match number {
        NOT_A_LINE =>
            "the line is no job, and none of move, drop, pause, resume, pumps, chunk, fold, status, plan, owner and rows",
        MOVING => "rows move, and it is to be asked again once they don't",
        _ => meaning(number),
    }
}
