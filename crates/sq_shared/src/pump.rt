// Pumps.
ghost use Rattle.std.specs.Prelude.{◌≡◌, ◌≢◌, ◌↔◌, ◌<◌, ◌≤◌, [], true, length, map, slice_get, IsTrue, IfOk, IfErr, OnErr};
ghost use Rattle.sq_moves.specs.declared.segment.TheConstants.{SEGMENT_LIMIT};
ghost use Rattle.sq_shared.specs.Seats.{AreSeatsOf, OnlyClaimed};
ghost use Rattle.sq_shared.specs.Pump.{stage_round};

use crate::numbers::{MAX_CLAIMS, MAX_OWNERS, pump_pull};
use crate::request::{PendingRequest, Request};
use crate::seats::{claim_any, split};
use crate::shared::Shared;
use crate::tree::TreeSeat;
use crate::wins::Wins;
use crossbeam_queue::ArrayQueue;
use sq_moves::{NodeId, Recon, SegId};
use std::alloc::{AllocError, Global};
use std::collections::VecDeque;
use std::marker::Model;
use std::sync::Wait;

/// The outcome of a pump's turn.
#[derive(Clone, Copy, Debug, PartialEq, Eq)]
pub enum PumpTurn {
    /// A node of a segment was claimed and requested.
    Won(SegId, NodeId),
    /// There was nothing to claim in the segment that the pump looked at, or no segment is left in
    /// its round.
    Nothing,
    /// The pump has won [`MAX_CLAIMS`] claims and wins no more.
    Spent,
}

/// A pump: it claims nodes for asynchronous pulls, one segment of the running stage after another,
/// until each leaf has a pull. To a contract it is a `PumpValue`.
#[derive(Drop)]
pub struct Pump {
    number: u32,
    wins: Wins,
    seats: Vec<TreeSeat>,
    round: VecDeque<SegId>,
}

impl Model for Pump {
    ghost use Rattle.sq_shared.specs.Pump.{PumpValue, IsPump};

    ghost Value = { PumpValue };

    ghost view = { λ p. record {
      number = p.number;
      wins = p.wins.wins;
      seats = p.seats.items;
      round = p.round.items;
    } };

    ghost invariant = { λ p. IsPump (record {
      number = p.number;
      wins = p.wins.wins;
      seats = p.seats.items;
      round = p.round.items;
    }) };
}

impl Pump {
    ghost use Rattle.sq_shared.specs.Pump.{new_pump, IsPump, StaysPump, LacksRoom, ClaimsNext, HasTurned, PutsOff, SplitsNext, OnlySends};

    /// Returns pump `number`, which has won no claim. `seats` are those of the segments, in their
    /// order, and its round has the segments of `stage`. If memory for the round runs out, `seats`
    /// are returned.
    pub fn new(
        alloc: Global,
        recon: &Recon,
        stage: u64,
        number: u32,
        seats: Vec<TreeSeat>,
    ) -> Result<Pump, Vec<TreeSeat>>
        requires number { number < MAX_OWNERS }
        requires seats { length seats.items ≤ SEGMENT_LIMIT }
        ensures new { IfOk result (λ pump. pump ≡ new_pump recon.now stage number seats.items) }
        ensures refused { IfErr result (λ back. back.items ≡ seats.items) }
    {
        let Ok(round) = stage_round(alloc, recon, stage, seats.len()) else {
            return Err(seats);
        };
        Ok(Pump {
            number,
            wins: Wins::new(alloc),
            seats,
            round,
        })
    }

    /// Returns its number among the pumps.
    pub fn number(&self) -> u32
        ensures { result ≡ self.now.number }
    {
        self.number
    }

    /// Returns the requests that aren't sent yet, the oldest first.
    pub fn pending(&self) -> &[PendingRequest]
        ensures { result.now ≡ self.now.wins.pending }
    {
        self.wins.pending()
    }

    /// Returns true if the pump has nothing left to do: each leaf of each segment of its stage had
    /// a pull when the pump last looked there, and each request is sent.
    pub fn is_done(&self) -> bool
        ensures { IsTrue result ↔ (self.now.round ≡ []) × (self.now.wins.pending ≡ []) }
    {
        self.round.is_empty() && self.wins.pending().is_empty()
    }

    /// Returns the segment that the pump looks at next.
    pub fn next_segment(&self) -> Option<SegId>
        ensures { result ≡ slice_get self.now.round 0 }
    {
        self.round.front().copied()
    }

    /// Returns how many segments are left in the round.
    pub fn segments_left(&self) -> usize
        ensures { result ≡ length self.now.round }
    {
        self.round.len()
    }

    /// Moves the next segment to the end of the round.
    pub fn put_off(&mut self)
        ensures put_off { PutsOff self.old self.new }
        ensures pump { IsPump self.new }
    {
        if !self.round.is_empty() {
            self.round.rotate_left(1);
        }
    }

    /// Splits `node` of the next segment if it is free and not a leaf, and its parent is split; it
    /// is then claimed in parts. Does nothing if the round is empty.
    pub fn split_next(&mut self, shared: &Shared<'_>, node: NodeId)
        requires seats { AreSeatsOf shared.now.trees.now self.old.seats }
        ensures split { SplitsNext node self.old self.new }
        ensures stays { StaysPump shared.now.trees.now self.old self.new }
    {
        if let Some(seg) = self.next_segment() {
            split(shared.trees, &mut self.seats, seg, node);
        }
    }

    /// Claims a node of the next segment of the round, and then sends what is pending. A segment in
    /// which each leaf already has a pull leaves the round for good.
    ///
    /// If memory for a request runs out, nothing is claimed or sent.
    pub fn turn<R: Wait>(&mut self, rt: &R, shared: &Shared<'_>) -> Result<PumpTurn, AllocError>
        requires seats { AreSeatsOf shared.now.trees.now self.old.seats }
        requires trees { length shared.now.trees.now ≡ length shared.now.recon.now.segments }
        ensures seats { AreSeatsOf shared.now.trees.now self.new.seats }
        ensures turned { IfOk result (HasTurned shared.now.recon.now self.old self.new) }
        ensures memory { OnErr result ((self.old.wins.count < MAX_CLAIMS) × (self.old.round ≢ [])) }
        ensures err { OnErr result (self.new ≡ self.old) }
        ensures work { OnlyClaimed self.old.seats self.new.seats }
        ensures pump { IsPump self.new }
    {
        let turn = self.claim_next(shared)?;
        self.send_pending(rt, shared.requests);
        Ok(turn)
    }

    /// Sends each pending request whose queue has room for it. The others stay, in their order.
    pub fn send_pending<R: Wait>(&mut self, rt: &R, requests: &[ArrayQueue<Request>])
        ensures sent { OnlySends self.old self.new }
        ensures pump { IsPump self.new }
    {
        self.wins.send(rt, requests);
    }

    /// Returns its seats, by segment, and the requests that aren't sent.
    pub fn into_parts(self) -> (Vec<TreeSeat>, Vec<PendingRequest>)
        ensures seats { result.0.items ≡ self.seats }
        ensures pending { result.1.items ≡ self.wins.pending }
    {
        (self.seats, self.wins.into_pending())
    }

    // Claims a node of the next segment of the round.
    fn claim_next(&mut self, shared: &Shared<'_>) -> Result<PumpTurn, AllocError>
        requires seats { AreSeatsOf shared.now.trees.now self.old.seats }
        requires trees { length shared.now.trees.now ≡ length shared.now.recon.now.segments }
        ensures claimed { IfOk result (ClaimsNext shared.now.recon.now self.old self.new) }
        ensures err { OnErr result (LacksRoom self.old self.new) }
        ensures stays { StaysPump shared.now.trees.now self.old self.new }
    {
        if self.wins.is_spent() {
            return Ok(PumpTurn::Spent);
        }
        let Some(seg) = self.round.front().copied() else {
            return Ok(PumpTurn::Nothing);
        };
        self.wins.reserve()?;
        let pull = pump_pull(self.number, self.wins.count());
        let Some(node) = claim_any(shared.trees, &mut self.seats, seg, pull) else {
            self.round.pop_front();
            return Ok(PumpTurn::Nothing);
        };
        self.round.rotate_left(1);
        self.wins
            .add(PendingRequest::new(shared.recon, seg, node, pull));
        Ok(PumpTurn::Won(seg, node))
    }
}

// Returns those of the first `count` segments that move in `stage`, in their order.
fn stage_round(
    alloc: Global,
    recon: &Recon,
    stage: u64,
    count: usize,
) -> Result<VecDeque<SegId>, AllocError>
    requires { count ≤ SEGMENT_LIMIT }
    ensures { IfOk result (λ round. round.items ≡ stage_round recon.now stage count) }
{
    let mut round = VecDeque::new(alloc);
    for number in 0..count as u64 {
        let Some(seg) = SegId::new(number) else {
            unreachable!()
        };
        if recon.stage_of(seg) == stage {
            round.push_back(seg)?;
        }
    }
    Ok(round)
}
