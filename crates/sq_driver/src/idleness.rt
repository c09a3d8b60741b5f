// How long a worker has had no work, and when it gives up.
ghost use Rattle.std.specs.Prelude.{◌≡◌, ◌+◌, ◌-◌, ◌^◌, min, nat_le};

use crate::attendance::Attendance;
use crate::gate::{OwnGate, rest};
use std::sync::Wait;

/// A worker gives up after this many turns in a row that lack something: after about 3 seconds,
/// most of which it sleeps.
pub(crate) const TURNS_LACKING: u64 = 500;

// By how many microseconds the sleep grows with each such turn, and the longest sleep, in
// microseconds.
const SLEEP_GROWS: u64 = 25;

const LONGEST_SLEEP: u64 = 10_000;

/// How many turns in a row a worker has had no work.
#[derive(Clone, Copy)]
pub(crate) struct Idleness {
    rested: u64,
    /// In how many of the latest turns another worker, without which it may have no work, hadn't
    /// started.
    waited: u64,
    /// In how many of the latest turns it lacked memory.
    lacked: u64,
}

impl Idleness {
    /// Returns the idleness of a worker that has just worked.
    pub(crate) fn new() -> Idleness {
        Idleness {
            rested: 0,
            waited: 0,
            lacked: 0,
        }
    }

    /// Lets a worker rest after a turn without work. The gate is told, unless another worker hasn't
    /// started: then the worker waits for that one, and finally gives up.
    pub(crate) fn rest<R: Wait, G: OwnGate>(
        &mut self,
        rt: &R,
        who: u64,
        gate: &G,
        attendance: &Attendance,
    ) {
        self.rested = self.rested.saturating_add(1);
        self.lacked = 0;
        if attendance.is_whole() {
            self.waited = 0;
            gate.lets_rest(rt, who, self.rested);
        } else if lacks_for_long(rt, &mut self.waited) {
            attendance.lack_threads();
        }
    }

    /// Lets a worker rest after a turn in which it lacked the memory for its work. Finally it gives
    /// up.
    pub(crate) fn lack<R: Wait>(&mut self, rt: &R, attendance: &Attendance) {
        self.rested = self.rested.saturating_add(1);
        if lacks_for_long(rt, &mut self.lacked) {
            attendance.lack_memory();
        }
    }
}

// Counts a turn that lacks something, and sleeps after it. Returns true if there were enough of
// them to give up.
fn lacks_for_long<R: Wait>(rt: &R, turns: &mut u64) -> bool
    ensures turns { turns.new ≡ min (turns.old + 1) (2 ^ 64 - 1) }
    ensures long { result ≡ nat_le TURNS_LACKING turns.new }
{
    *turns = turns.saturating_add(1);
    rest(rt, turns.saturating_mul(SLEEP_GROWS), LONGEST_SLEEP);
    *turns >= TURNS_LACKING
}
