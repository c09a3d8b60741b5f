// What the two ends of a link left.
ghost use Rattle.std.specs.Prelude.{◌≡◌, ◌+◌, Some, IfOk};
ghost use Rattle.sq_gather.specs.Links.{no_ends};

use sq_shared::{RecvPass, SendPass, SharedLink};
use sq_store::{Chunk, Note};
use std::alloc::{AllocError, Global};
use std::marker::Model;

/// What the nodes at the two ends of a link left of it, with room for all that is under way on it.
/// To a contract it is a `LinkEndsValue`.
#[derive(Drop)]
pub struct LinkEnds {
    pub(crate) sender: Option<SendPass>,
    pub(crate) notes: Vec<Note>,
    pub(crate) outbox: Option<Chunk>,
    pub(crate) receiver: Option<RecvPass>,
    pub(crate) inbox: Option<Chunk>,
    pub(crate) room: Vec<Chunk>,
}

impl Model for LinkEnds {
    ghost use Rattle.std.specs.Prelude.{◌≡◌, vec_len, vec_capacity};
    ghost use Rattle.sq_gather.specs.LinkEnds.{LinkEndsValue};

    ghost Value = { LinkEndsValue };

    ghost view = { λ e. record {
      sender = e.sender;
      notes = e.notes.items;
      outbox = e.outbox;
      receiver = e.receiver;
      inbox = e.inbox;
      room = vec_capacity e.room;
    } };

    ghost invariant = { λ e. vec_len e.room ≡ 0 };
}

impl LinkEnds {
    /// Reserves room for what is under way on `link`: what its queue holds, and a chunk at each
    /// end. Neither end is set yet.
    pub fn reserve(alloc: Global, link: &SharedLink) -> Result<LinkEnds, AllocError>
        ensures { IfOk result (λ ends. ends ≡ no_ends (link.now.capacity + 2)) }
    {
        let places = (link.capacity() as usize).checked_add(2).ok_or(AllocError)?;
        Ok(LinkEnds {
            sender: None,
            notes: Vec::new(alloc),
            outbox: None,
            receiver: None,
            inbox: None,
            room: Vec::with_capacity(alloc, places)?,
        })
    }

    /// Sets the source's end: its right to send, the notes of all chunks that it cut, and the chunk
    /// that it didn't send.
    pub fn put_source(&mut self, sender: SendPass, notes: Vec<Note>, outbox: Option<Chunk>)
        ensures { self.new ≡
            record self.old { sender = Some sender; notes = notes.items; outbox = outbox } }
    {
        self.sender = Some(sender);
        self.notes = notes;
        self.outbox = outbox;
    }

    /// Sets the destination's end: its right to receive, and the chunk that it received and didn't
    /// load.
    pub fn put_destination(&mut self, receiver: RecvPass, inbox: Option<Chunk>)
        ensures { self.new ≡ record self.old { receiver = Some receiver; inbox = inbox } }
    {
        self.receiver = Some(receiver);
        self.inbox = inbox;
    }
}
