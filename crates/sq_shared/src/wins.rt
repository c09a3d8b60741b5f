// The claims that a partition or a pump won.
ghost use Rattle.std.specs.Prelude.{◌≡◌, ◌↔◌, ◌+◌, ◌<◌, ◌++◌, ◌∷◌, [], true, false, IsTrue, IfErr, OnOk, OnErr};
ghost use Rattle.sq_shared.specs.Wins.{no_wins, AreLeft};

use crate::numbers::MAX_CLAIMS;
use crate::request::{PendingRequest, Request};
use crate::shared::Shared;
use crossbeam_queue::ArrayQueue;
use std::alloc::{AllocError, Global};
use std::marker::Model;
use std::sync::Wait;

/// The number of claims won, and the requests for them that aren't sent yet, the oldest first. To a
/// contract it is a `RoomyWins`.
#[derive(Debug, Drop)]
pub(crate) struct Wins {
    count: u32,
    pending: Vec<PendingRequest>,
}

impl Model for Wins {
    ghost use Rattle.std.specs.Prelude.{◌≤◌, nat_lt, vec_len, vec_capacity};
    ghost use Rattle.sq_shared.specs.declared.numbers.TheConstants.{MAX_CLAIMS};
    ghost use Rattle.sq_shared.specs.Wins.{RoomyWins};

    ghost Value = { RoomyWins };

    ghost view = { λ w. record {
      wins = record { count = w.count; pending = w.pending.items };
      has_room = nat_lt (vec_len w.pending) (vec_capacity w.pending);
    } };

    ghost invariant = { λ w. w.count ≤ MAX_CLAIMS };
}

impl Wins {
    /// Returns a count of 0, without requests.
    pub(crate) fn new(alloc: Global) -> Wins
        ensures { result.wins ≡ no_wins }
    {
        Wins {
            count: 0,
            pending: Vec::new(alloc),
        }
    }

    /// Returns how many claims were won.
    pub(crate) fn count(&self) -> u32
        ensures { result ≡ self.now.wins.count }
    {
        self.count
    }

    /// Returns true if all [`MAX_CLAIMS`] claims were won.
    pub(crate) fn is_spent(&self) -> bool
        ensures spent { IsTrue result ↔ (self.now.wins.count ≡ MAX_CLAIMS) }
        ensures some { result ≡ false → self.now.wins.count < MAX_CLAIMS }
    {
        self.count == MAX_CLAIMS
    }

    /// Returns the requests that aren't sent, the oldest first.
    pub(crate) fn pending(&self) -> &[PendingRequest]
        ensures { result.now ≡ self.now.wins.pending }
    {
        &self.pending
    }

    /// Returns the requests that aren't sent, the oldest first.
    pub(crate) fn into_pending(self) -> Vec<PendingRequest>
        ensures { result.items ≡ self.wins.pending }
    {
        self.pending
    }

    /// Reserves room for one more request.
    pub(crate) fn reserve(&mut self) -> Result<(), AllocError>
        ensures same { self.new.wins ≡ self.old.wins }
        ensures ok { OnOk result (self.new.has_room ≡ true) }
        ensures err { OnErr result ((self.old.has_room ≡ false) × (self.new ≡ self.old)) }
    {
        self.pending.reserve(1)
    }

    /// Counts a claim, and adds the request for it.
    pub(crate) fn add(&mut self, request: PendingRequest)
        requires room { self.old.has_room ≡ true }
        requires few { self.old.wins.count < MAX_CLAIMS }
        ensures count { self.new.wins.count ≡ self.old.wins.count + 1 }
        ensures pending { self.new.wins.pending ≡ self.old.wins.pending ++ request ∷ [] }
    {
        self.count += 1;
        self.pending.push_reserved(request);
    }

    /// Sends each request whose queue has room for it. The others stay, in their order.
    pub(crate) fn send<R: Wait>(&mut self, rt: &R, queues: &[ArrayQueue<Request>])
        ensures count { self.new.wins.count ≡ self.old.wins.count }
        ensures left { AreLeft self.old.wins.pending self.new.wins.pending }
        ensures room { self.old.has_room ≡ true → self.new.has_room ≡ true }
    {
        self.pending
            .retain(|pending| send_one(rt, queues, *pending).is_err());
    }
}

// Sends a request to its partition's queue, or returns it if that queue was full at one moment of
// the call, or does not exist.
fn send_one<R: Wait>(
    rt: &R,
    queues: &[ArrayQueue<Request>],
    pending: PendingRequest,
) -> Result<(), Request>
    ensures { IfErr result (λ back. back ≡ pending.request) }
{
    match queues.get(usize::from(pending.src.number())) {
        Some(queue) => queue.push(rt, pending.request),
        None => Err(pending.request),
    }
}
