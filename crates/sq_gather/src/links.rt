// Closing the links.
ghost use Rattle.std.specs.Prelude.{◌≡◌, [], ◌+◌, ◌<◌, ◌≤◌, ◌++◌, length, vec_len, vec_capacity, option_to_list};
ghost use Rattle.sq_gather.specs.Links.{HasBothEnds, IsClosed, HaveBothEnds, AreClosed};

use crate::link_ends::LinkEnds;
use sq_moves::Link;
use sq_plan::PartId;
use sq_shared::SharedLink;
use sq_store::{Chunk, Note};
use std::marker::Model;
use std::sync::Wait;

/// A link that is closed. To a contract it is a `GatheredLink`.
#[derive(Debug, Drop)]
pub struct ClosedLink {
    /// The partition that it leads from.
    pub src: PartId,
    /// The partition that it leads to.
    pub dst: PartId,
    /// The notes of all chunks that were cut for it, the oldest first.
    pub notes: Vec<Note>,
    /// The chunks that were cut and not loaded, the oldest first.
    pub under_way: Vec<Chunk>,
}

impl Model for ClosedLink {
    ghost use Rattle.sq_node_model.specs.Prelude.{GatheredLink};

    ghost Value = { GatheredLink };

    ghost view = { λ l.
        record { src = l.src; dst = l.dst; notes = l.notes.items; under_way = l.under_way.items } };
}

/// Closes each link, with what its ends left of it. The result is in `room`.
pub fn close_links<R: Wait>(
    rt: &R,
    links: Vec<SharedLink>,
    ends: Vec<LinkEnds>,
    mut room: Vec<ClosedLink>,
) -> Vec<ClosedLink>
    requires ends { HaveBothEnds links.items ends.items }
    requires empty { room.items ≡ [] }
    requires room { length links.items ≤ vec_capacity room }
    ensures { AreClosed links.items ends.items result.items }
{
    let mut left = ends.into_iter();
    for link in links {
        let Some(ends) = left.next() else {
            unreachable!()
        };
        room.push_reserved(close_link(rt, link, ends));
    }
    room
}

/// Closes `link`, with what its ends left of it.
pub fn close_link<R: Wait>(rt: &R, link: SharedLink, ends: LinkEnds) -> ClosedLink
    requires { HasBothEnds link ends }
    ensures { IsClosed link ends result }
{
    let Link { src, dst } = link.ends();
    let LinkEnds {
        sender,
        notes,
        outbox,
        receiver,
        inbox,
        room: mut under_way,
    } = ends;
    let (Some(sender), Some(receiver)) = (sender, receiver) else {
        unreachable!()
    };
    let mut queue = link.close(rt, sender, receiver);
    put(&mut under_way, inbox);
    let Ok(()) = under_way.append(&mut queue) else {
        unreachable!()
    };
    put(&mut under_way, outbox);
    ClosedLink {
        src,
        dst,
        notes,
        under_way,
    }
}

// Adds `chunk`, if there is one.
fn put(chunks: &mut Vec<Chunk>, chunk: Option<Chunk>)
    requires { vec_len chunks.old < vec_capacity chunks.old }
    ensures items { chunks.new.items ≡ chunks.old.items ++ option_to_list chunk }
    ensures len { vec_len chunks.new ≤ vec_len chunks.old + 1 }
    ensures capacity { vec_capacity chunks.new ≡ vec_capacity chunks.old }
{
    if let Some(chunk) = chunk {
        chunks.push_reserved(chunk);
    }
}
