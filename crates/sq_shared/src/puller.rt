// Reactive pulls.
ghost use Rattle.std.specs.Prelude.{◌≡◌, ◌↔◌, ◌≢◌, ◌<◌, [], true, false, length, IsTrue, IfOk, OnOk, OnErr};
ghost use Rattle.sq_shared.specs.Wins.{no_wins, Sends, AreWonClaims};
ghost use Rattle.sq_shared.specs.Seats.{AreSeatsOf, OnlyClaimed};

use crate::numbers::{MAX_CLAIMS, MAX_OWNERS, reactive_pull};
use crate::request::{PendingRequest, Request};
use crate::seats::claim_leaf;
use crate::shared::Shared;
use crate::tree::{LeafClaim, TreeSeat};
use crate::wins::Wins;
use crossbeam_queue::ArrayQueue;
use sq_moves::{Leaf, NodeId, SegId, Status};
use sq_plan::PartId;
use std::alloc::{AllocError, Global};
use std::marker::Model;
use std::sync::Wait;

/// The outcome of a reactive pull.
#[derive(Clone, Copy, Debug, PartialEq, Eq)]
pub enum ReactivePull {
    /// The leaf's node was claimed and requested; this is the node.
    Won(NodeId),
    /// A pull has the leaf already; this is the node that was found, with its status.
    Held(NodeId, Status),
    /// The partition has won [`MAX_CLAIMS`] claims and wins no more.
    Spent,
}

/// The reactive pulls of a partition, for transactions that need rows which have not arrived: how
/// many claims it won, and the requests for them that aren't sent yet. To a contract it is a
/// `RoomyPuller`.
#[derive(Debug, Drop)]
pub struct Puller {
    part: PartId,
    wins: Wins,
}

impl Model for Puller {
    ghost use Rattle.std.specs.Prelude.{◌<◌};
    ghost use Rattle.sq_shared.specs.declared.numbers.TheConstants.{MAX_OWNERS};
    ghost use Rattle.sq_shared.specs.Puller.{RoomyPuller};

    ghost Value = { RoomyPuller };

    ghost view = { λ p. record {
      puller = record { part = p.part; wins = p.wins.wins };
      has_room = p.wins.has_room;
    } };

    ghost invariant = { λ p. p.part < MAX_OWNERS };
}

impl Puller {
    ghost use Rattle.sq_shared.specs.Puller.{HasPulled};

    /// Returns the pulls of partition `part`, which has won no claim.
    pub fn new(alloc: Global, part: PartId) -> Puller
        requires { part < MAX_OWNERS }
        ensures { result.puller ≡ record { part = part; wins = no_wins } }
    {
        Puller {
            part,
            wins: Wins::new(alloc),
        }
    }

    /// Returns the requests that aren't sent yet, the oldest first.
    pub fn pending(&self) -> &[PendingRequest]
        ensures { result.now ≡ self.now.puller.wins.pending }
    {
        self.wins.pending()
    }

    /// Reserves room for one more request, so that the next reactive pull allocates nothing.
    pub fn reserve(&mut self) -> Result<(), AllocError>
        ensures same { self.new.puller ≡ self.old.puller }
        ensures ok { OnOk result (self.new.has_room ≡ true) }
        ensures err { OnErr result ((self.old.has_room ≡ false) × (self.new ≡ self.old)) }
    {
        self.wins.reserve()
    }

    /// Claims the node of `leaf` in segment `seg` and, if it wins the claim, sends a request for
    /// the node to the partition that the segment leaves. If that queue is full, the request stays
    /// pending.
    ///
    /// If memory for the request runs out, nothing is claimed.
    pub fn reactive<R: Wait>(
        &mut self,
        rt: &R,
        shared: &Shared<'_>,
        seats: &mut Vec<TreeSeat>,
        seg: SegId,
        leaf: Leaf,
    ) -> Result<ReactivePull, AllocError>
        requires seats { AreSeatsOf shared.now.trees.now seats.old.items }
        requires trees { length shared.now.trees.now ≡ length shared.now.recon.now.segments }
        requires segment { seg < length shared.now.recon.now.segments }
        ensures seats { AreSeatsOf shared.now.trees.now seats.new.items }
        ensures pulled { IfOk result
            (HasPulled shared.now.recon.now seg leaf self.old.puller seats.old.items self.new.puller
            seats.new.items) }
        ensures memory { OnErr result (self.old.has_room ≡ false) }
        ensures err { OnErr result ((self.old.puller.wins.count < MAX_CLAIMS)
            × (self.new ≡ self.old)
            × (seats.new.items ≡ seats.old.items)) }
        ensures work { OnlyClaimed seats.old.items seats.new.items }
        ensures claims { AreWonClaims seats.old.items self.old.puller.wins
            → AreWonClaims seats.new.items self.new.puller.wins }
    {
        if self.wins.is_spent() {
            return Ok(ReactivePull::Spent);
        }
        self.wins.reserve()?;
        let pull = reactive_pull(self.part, self.wins.count());
        match claim_leaf(shared.trees, seats, seg, leaf, pull) {
            LeafClaim::Claimed(node) => {
                self.wins
                    .add(PendingRequest::new(shared.recon, seg, node, pull));
                self.wins.send(rt, shared.requests);
                Ok(ReactivePull::Won(node))
            }
            LeafClaim::Held(node, status) => Ok(ReactivePull::Held(node, status)),
        }
    }

    /// Sends each pending request whose queue has room for it. The others stay, in their order.
    pub fn send_pending<R: Wait>(&mut self, rt: &R, requests: &[ArrayQueue<Request>])
        ensures part { self.new.puller.part ≡ self.old.puller.part }
        ensures wins { Sends self.old.puller.wins self.new.puller.wins }
        ensures room { self.old.has_room ≡ true → self.new.has_room ≡ true }
    {
        self.wins.send(rt, requests);
    }
}
