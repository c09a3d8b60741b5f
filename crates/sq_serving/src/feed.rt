// What a reader hands on to the desk of an engine.
ghost use Rattle.std.specs.Prelude.{◌≡◌, [], ◌∷◌, ◌++◌};
ghost use Rattle.std.specs.Bool.{OnTrue, OnFalse};
ghost use Rattle.rtrb.specs.Ring.{sent, SameProducer};

use crate::bell::Bell;
use crate::faulty_line::FaultyLine;
use crate::line_place::LinePlace;
use crate::serve_line::ServeLine;
use rtrb::{Consumer, Producer, PushError};
use sq_engine::BackOff;
use std::sync::Wait;

/// How many lines may be handed on and not yet taken.
pub const FEED_ROOM: usize = 4_096;

/// How an input ends after its header.
#[derive(Clone, Copy, Debug, PartialEq, Eq)]
pub enum InputEnd {
    /// All of it was read.
    Whole,
    /// The line at `place` has a fault after which nothing more is read.
    Broken { fault: u16, place: LinePlace },
    /// Memory ran out.
    Memory,
}

/// What a reader hands on after the header.
#[derive(Debug, Drop)]
pub enum Fed {
    /// What the line at `place` asks, or its fault.
    Line {
        place: LinePlace,
        asks: Result<ServeLine, FaultyLine>,
    },
    /// Nothing more comes.
    End(InputEnd),
}

/// Hands `given` on as soon as there is room, and rings `bell` to wake its taker. Returns false,
/// with nothing handed on, if nobody takes any more.
pub fn give<X: Drop, R: Wait>(rt: &R, feed: &mut Producer<X>, bell: &Bell, given: X) -> bool
    ensures ring { SameProducer feed.old feed.new }
    ensures given { OnTrue result (sent feed.new ≡ sent feed.old ++ given ∷ []) }
    ensures not_given { OnFalse result (sent feed.new ≡ sent feed.old) }
{
    let mut given = given;
    let mut back_off = BackOff::LONG;
    for _ in rt.forever() {
        if feed.is_abandoned() {
            return false;
        }
        match feed.push(given) {
            Ok(()) => {
                bell.ring();
                return true;
            }
            Err(PushError::Full(back)) => given = back,
        }
        back_off.wait(rt);
    }
    unreachable!()
}

/// Takes what is handed on next, as soon as it is there. Returns `None` if nothing more comes.
pub fn wait_for<X: Drop, R: Wait>(rt: &R, feed: &mut Consumer<X>) -> Option<X> {
    let mut back_off = BackOff::LONG;
    for _ in rt.forever() {
        let is_last = feed.is_abandoned();
        if let Ok(next) = feed.pop() {
            return Some(next);
        }
        if is_last {
            return None;
        }
        back_off.wait(rt);
    }
    unreachable!()
}
