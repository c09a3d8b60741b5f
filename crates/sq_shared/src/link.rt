// The link that two threads share.
ghost use Rattle.std.specs.Prelude.{◌≡◌, ◌<◌, ◌≤◌, [], ◌∷◌, ◌++◌, length, IfOk, IfErr, IfSome, IfNone, OnOk, OnErr};
ghost use Rattle.crossbeam_queue.specs.Fifo.{Held};
ghost use Rattle.sq_shared.specs.Order.{IsEndOf, ComesAfter};

use crate::order::{Ends, LinkQueue, Receives, Sends};
use crate::pass::{LinkPass, RecvPass, SendPass};
use sq_moves::Link;
use sq_plan::PartId;
use sq_store::Chunk;
use std::alloc::{AllocError, Global};
use std::marker::Model;
use std::sync::Wait;

/// A queue of chunks from one partition to another, which the two threads share by `&`. To a
/// contract it is a `LinkValue`.
#[derive(Drop)]
pub struct SharedLink {
    pub(crate) ends: Link,
    queue: LinkQueue,
    room: Vec<Chunk>,
}

impl Model for SharedLink {
    ghost use Rattle.std.specs.Prelude.{◌≡◌, ◌≤◌, vec_len, vec_capacity};
    ghost use Rattle.sq_shared.specs.Values.{LinkValue};

    ghost Value = { LinkValue };

    ghost use Rattle.crossbeam_queue.specs.Passes.{ruled_capacity};

    ghost view = { λ l. record {
      queue = l.queue.table.shared.table_id;
      src = l.ends.src;
      dst = l.ends.dst;
      capacity = ruled_capacity l.queue;
    } };

    ghost invariant = { λ l. (vec_len l.room ≡ 0)
        × (ruled_capacity l.queue ≤ vec_capacity l.room) };
}

impl SharedLink {
    /// Returns an empty link from `src` to `dst` with room for `capacity` chunks, and its two ends.
    pub fn open(
        alloc: Global,
        src: PartId,
        dst: PartId,
        capacity: u64,
    ) -> Result<(SharedLink, SendPass, RecvPass), AllocError>
        requires { 0 < capacity }
        ensures link { IfOk result (λ opened. (opened.0.src ≡ src) × (opened.0.dst ≡ dst)
            × (opened.0.capacity ≡ capacity)) }
        ensures sender { IfOk result (λ opened. opened.1
            ≡ record { queue = opened.0.queue; chunks = [] }) }
        ensures receiver { IfOk result (λ opened. opened.2
            ≡ record { queue = opened.0.queue; chunks = [] }) }
    {
        let capacity = capacity as usize;
        let room = Vec::with_capacity(alloc, capacity)?;
        let (queue, mut sender) = LinkQueue::ruled(alloc, capacity)?;
        let receiver = queue.another::<Ends>(&mut sender);
        let link = SharedLink {
            ends: Link { src, dst },
            queue,
            room,
        };
        Ok((link, LinkPass::new(sender), LinkPass::new(receiver)))
    }

    /// Returns the partitions that it leads from and to.
    pub fn ends(&self) -> Link
        ensures { result ≡ record { src = self.now.src; dst = self.now.dst } }
    {
        self.ends
    }

    /// Returns how many chunks it holds at most.
    pub fn capacity(&self) -> u64
        ensures { result ≡ self.now.capacity }
    {
        self.queue.capacity() as u64
    }

    /// Sends `chunk`, or returns it if the link was full at one moment of the call.
    pub fn send<R: Wait>(&self, rt: &R, pass: &mut SendPass, chunk: Chunk) -> Result<(), Chunk>
        requires { pass.old.queue ≡ self.now.queue }
        ensures sent { OnOk result (pass.new
            ≡ record pass.old { chunks = pass.old.chunks ++ chunk ∷ [] }) }
        ensures refused { IfErr result (λ back. (back ≡ chunk) × (pass.new ≡ pass.old)) }
        ensures full { OnErr result (Held self.now.capacity (IsEndOf pass.old.chunks)) }
    {
        self.queue.push_as::<Sends, R>(rt, &mut pass.end, chunk)
    }

    /// Returns the oldest chunk that was sent and not yet received, or `None` if the link was empty
    /// at one moment of the call.
    pub fn recv<R: Wait>(&self, rt: &R, pass: &mut RecvPass) -> Option<Chunk>
        requires { pass.old.queue ≡ self.now.queue }
        ensures received { IfSome result (λ chunk. pass.new
            ≡ record pass.old { chunks = pass.old.chunks ++ chunk ∷ [] }) }
        ensures none { IfNone result (pass.new ≡ pass.old) }
        ensures empty { IfNone result (Held 0 (ComesAfter pass.old.chunks)) }
    {
        self.queue.pop_as::<Receives, R>(rt, &mut pass.end)
    }

    /// Returns the chunks that were sent and not received, in order, in the room that
    /// [`SharedLink::open`] allocated.
    pub fn close<R: Wait>(self, rt: &R, sender: SendPass, receiver: RecvPass) -> Vec<Chunk>
        requires sender { sender.queue ≡ self.queue }
        requires receiver { receiver.queue ≡ self.queue }
        ensures rest { sender.chunks ≡ receiver.chunks ++ result.items }
        ensures few { length result.items ≤ self.capacity }
    {
        let SharedLink {
            ends: _,
            queue,
            room: mut rest,
        } = self;
        let mut both = sender.end;
        queue.absorb::<Ends>(&mut both, receiver.end);
        let count = queue.len_as::<Receives, R>(rt, &mut both);
        for _ in 0..count {
            match queue.pop_as::<Receives, R>(rt, &mut both) {
                Some(chunk) => rest.push_reserved(chunk),
                None => return rest,
            }
        }
        queue.learn_as::<Receives>(&mut both);
        rest
    }
}
