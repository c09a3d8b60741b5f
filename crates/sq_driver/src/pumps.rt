// Driving pumps.
ghost use Rattle.std.specs.Prelude.{◌≡◌, ◌+◌};
ghost use Rattle.sq_shared.specs.Seats.{AreSeatsOf};
ghost use Rattle.sq_driver.specs.Pumps.{PumpDriven};

use crate::attendance::Attendance;
use crate::gate::{Gate, NodeStep, OwnGate, WorkerEvent};
use crate::worker::{Turn, Worker, take_turns};
use sq_moves::{LEAVES, NodeId, SegId};
use sq_node::Fabric;
use sq_shared::{Pump, PumpTurn};
use std::sync::Wait;

// With this many requests waiting at a partition, a pump asks it for no more. It has enough work
// then, and a transaction that needs other rows from there waits for few requests.
const ENOUGH_REQUESTS: usize = 8;

// The fewest parts for each partition into which a pump divides what moves.
const PARTS_TO_CLAIM: u64 = 16;

impl Worker for Pump {
    ghost use Rattle.sq_driver.specs.Pumps.{HasAllSeats, PumpDriven};
    ghost use Rattle.sq_driver.specs.Laws.{pump_no_turn, pump_stays, pump_further};

    ghost IsOf = { HasAllSeats };

    ghost Driven = { PumpDriven };

    fn number_in(&self, fabric: &Fabric) -> u64 {
        number_of(fabric, self)
    }

    fn come(&self, attendance: &Attendance) {
        attendance.note_pump();
    }

    fn begin(&mut self, fabric: &Fabric) {
        divide(fabric, self);
    }

    fn take_turn<R: Wait, G: OwnGate>(&mut self, rt: &R, fabric: &Fabric, gate: &G) -> Turn {
        let who = number_of(fabric, self);
        if self.is_done() || !gate.lets_pass(who, NodeStep::Pump) {
            return Turn::Ended;
        }
        if !gate.lets_pump_claim(who) {
            return Turn::Rested;
        }
        let turn = claim(rt, fabric, self);
        if turn == Turn::Worked {
            gate.hears(who, WorkerEvent::Made(NodeStep::Pump));
        }
        turn
    }

    ghost no_turn = { pump_no_turn };

    ghost stays = { pump_stays };

    ghost further = { pump_further };
}

/// Drives a pump for at most `turns` turns. First it splits the segments if they are few, so that
/// it claims no large part of what moves at once. In a turn it claims a tree node of a segment
/// whose source has few waiting requests, if there is one: keys that aren't claimed are still
/// served where they are, and a transaction that waits can claim them.
///
/// It ends earlier if it is done: there was nothing to claim in any segment of the running stage,
/// and nothing is pending. It also ends if the gate says so, which is asked before each turn, and
/// once it has lacked memory for about 3 seconds. While the gate lets it claim nothing, it rests.
/// The gate is told of each claim, and each time that the pump rests, when it may delay the pump.
pub fn drive_pump<R: Wait, G: Gate>(rt: &R, fabric: &Fabric, pump: &mut Pump, turns: u64, gate: &G)
    requires { AreSeatsOf fabric.now.trees pump.old.seats }
    ensures { PumpDriven fabric.now pump.old pump.new }
{
    take_turns(rt, fabric, pump, turns, gate, &Attendance::alone());
}

// Returns the number of a pump for a gate.
fn number_of(fabric: &Fabric, pump: &Pump) -> u64
    ensures { result ≡ fabric.now.parts + pump.now.number }
{
    u64::from(fabric.parts()) + u64::from(pump.number())
}

// Splits each segment into the parts that are to be claimed.
fn divide(fabric: &Fabric, pump: &mut Pump)
    requires { AreSeatsOf fabric.now.trees pump.old.seats }
    ensures { PumpDriven fabric.now pump.old pump.new }
{
    let segments = pump.segments_left();
    let parts = parts_of_a_segment(fabric.parts(), segments as u64);
    for _segment in 0..segments {
        split(fabric, pump, parts);
        pump.put_off();
    }
}

// Splits the next segment into `parts` parts, a power of two.
fn split(fabric: &Fabric, pump: &mut Pump, parts: u64)
    requires { AreSeatsOf fabric.now.trees pump.old.seats }
    ensures { PumpDriven fabric.now pump.old pump.new }
{
    for number in 1..parts {
        let Some(node) = NodeId::new(number) else {
            return;
        };
        pump.split_next(&fabric.shared(), node);
    }
}

// Returns into how many parts a segment is divided: the smallest power of two that gives enough
// parts over all segments, but at most the number of its leaves.
fn parts_of_a_segment(partitions: u8, segments: u64) -> u64 {
    let enough = u64::from(partitions) * PARTS_TO_CLAIM;
    for parts in [1, 2, 4, 8, 16] {
        if segments.saturating_mul(parts) >= enough {
            return parts;
        }
    }
    LEAVES
}

// Claims a node from a source that has few requests, if there is one.
fn claim<R: Wait>(rt: &R, fabric: &Fabric, pump: &mut Pump) -> Turn
    requires { AreSeatsOf fabric.now.trees pump.old.seats }
    ensures { PumpDriven fabric.now pump.old pump.new }
{
    if finds_source(rt, fabric, pump) {
        claim_next(rt, fabric, pump)
    } else {
        Turn::Rested
    }
}

// Puts segments off until the source of the next one has few requests. Returns true if there is
// such a segment, or the round is over.
fn finds_source<R: Wait>(rt: &R, fabric: &Fabric, pump: &mut Pump) -> bool
    requires { AreSeatsOf fabric.now.trees pump.old.seats }
    ensures { PumpDriven fabric.now pump.old pump.new }
{
    let segments = pump.segments_left();
    for _segment in 0..segments {
        match pump.next_segment() {
            Some(seg) if !has_few_requests(rt, fabric, seg) => pump.put_off(),
            _ => return true,
        }
    }
    segments == 0
}

// Returns true if few requests wait at the partition that segment `seg` leaves.
fn has_few_requests<R: Wait>(rt: &R, fabric: &Fabric, seg: SegId) -> bool {
    let shared = fabric.shared();
    shared
        .recon
        .segments()
        .get(seg.index())
        .and_then(|segment| shared.requests.get(usize::from(segment.src.number())))
        .is_some_and(|queue| queue.len(rt) < ENOUGH_REQUESTS)
}

// Claims a node of the next segment.
fn claim_next<R: Wait>(rt: &R, fabric: &Fabric, pump: &mut Pump) -> Turn
    requires { AreSeatsOf fabric.now.trees pump.old.seats }
    ensures { PumpDriven fabric.now pump.old pump.new }
{
    match pump.turn(rt, &fabric.shared()) {
        Ok(PumpTurn::Won(_, _)) => Turn::Worked,
        Ok(PumpTurn::Nothing | PumpTurn::Spent) => Turn::Rested,
        Err(_) => Turn::Lacked,
    }
}
