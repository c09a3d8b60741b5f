// Workers, and how they are driven.
ghost use Rattle.sq_node.specs.Prelude.{FabricValue};

use crate::attendance::{Attendance, WorkersEnd};
use crate::gate::OwnGate;
use crate::idleness::Idleness;
use sq_node::Fabric;
use std::sync::Wait;

/// The outcome of a turn.
#[derive(Clone, Copy, Debug, PartialEq, Eq)]
pub(crate) enum Turn {
    /// The worker did something.
    Worked,
    /// There was nothing to do.
    Rested,
    /// It lacked the memory for its work.
    Lacked,
    /// The worker ends.
    Ended,
}

impl Turn {
    /// Returns the outcome of this turn and one more step: it ended if either ended; else it worked
    /// if either worked; else it lacked memory if either did.
    pub(crate) fn and(self, step: Turn) -> Turn {
        match (self, step) {
            (Turn::Ended, _) | (_, Turn::Ended) => Turn::Ended,
            (Turn::Worked, _) | (_, Turn::Worked) => Turn::Worked,
            (Turn::Lacked, _) | (_, Turn::Lacked) => Turn::Lacked,
            (Turn::Rested, Turn::Rested) => Turn::Rested,
        }
    }
}

/// A node or a pump of a run, which takes its turns one after another.
pub(crate) trait Worker {
    /// The worker belongs to the fabric.
    ghost IsOf: { FabricValue → Self → Type 0 };

    /// How a worker's turns change it.
    ghost Driven: { FabricValue → Self → Self → Type 0 };

    /// Returns its number for a gate.
    fn number_in(&self, fabric: &Fabric) -> u64;

    /// Records that it has started.
    fn come(&self, attendance: &Attendance);

    /// What it does before its turns.
    fn begin(&mut self, fabric: &Fabric)
        requires { IsOf fabric.now self.old }
        ensures { Driven fabric.now self.old self.new };

    /// Takes a turn. The gate is asked before each step.
    fn take_turn<R: Wait, G: OwnGate>(&mut self, rt: &R, fabric: &Fabric, gate: &G) -> Turn
        requires { IsOf fabric.now self.old }
        ensures { Driven fabric.now self.old self.new };

    /// A worker that takes no turn is unchanged.
    ghost no_turn: { (fabric : FabricValue) (worker : Self) → IsOf fabric worker
        → Driven fabric worker worker };

    /// A worker still belongs to the fabric after it was driven.
    ghost stays: { (fabric : FabricValue) (old new : Self) → Driven fabric old new
        → IsOf fabric new };

    /// A worker that was driven and then driven further was driven.
    ghost further: { (fabric : FabricValue) (first old new : Self)
        → Driven fabric first old → Driven fabric old new → Driven fabric first new };
}

/// Drives a worker for at most `turns` turns. It gives up once it has had no work for too long
/// while another worker hasn't started, once it has lacked memory for too long, and once another
/// worker has given up.
pub(crate) fn take_turns<W: Worker, R: Wait, G: OwnGate>(
    rt: &R,
    fabric: &Fabric,
    worker: &mut W,
    turns: u64,
    gate: &G,
    attendance: &Attendance,
)
    requires { W.IsOf fabric.now worker.old }
    ensures { W.Driven fabric.now worker.old worker.new }
{
    worker.begin(fabric);
    let who = worker.number_in(fabric);
    worker.come(attendance);
    let mut idleness = Idleness::new();
    for _turn in 0..turns {
        if attendance.end() != WorkersEnd::Done {
            return;
        }
        match worker.take_turn(rt, fabric, gate) {
            Turn::Worked => idleness = Idleness::new(),
            Turn::Rested => idleness.rest(rt, who, gate, attendance),
            Turn::Lacked => idleness.lack(rt, attendance),
            Turn::Ended => return,
        }
    }
}
