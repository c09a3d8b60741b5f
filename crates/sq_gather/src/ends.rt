// The ends of links that a node had.
ghost use Rattle.std.specs.Prelude.{◌≡◌, length};
ghost use Rattle.sq_gather.specs.Ends.{AreApart, AreAmong, HavePut, DestinationsPut, with_out_link, no_out_link};

use crate::link_ends::LinkEnds;
use sq_exec::OutLink;
use sq_node::{LinkEnd, Receiver, Sender};
use sq_store::Chunk;

// Puts each sending end of a node at the place of its link, with the partition's notes and outbox
// for that link.
pub(crate) fn put_sources(ends: &mut Vec<LinkEnds>, mut sends: Vec<Sender>, mut outs: Vec<OutLink>)
    requires outs { length outs.items ≡ length sends.items }
    requires among { AreAmong (length ends.old.items) sends.items }
    requires apart { AreApart sends.items }
    ensures { HavePut with_out_link sends.items outs.items no_out_link 0 ends.old.items
        ends.new.items }
{
    while let Some(sender) = sends.pop() {
        let Some(out) = outs.pop() else {
            unreachable!()
        };
        let Some(LinkEnd { link, pass }) = sender.into_end() else {
            continue;
        };
        let (notes, outbox) = out.into_parts();
        ends[link].put_source(pass, notes, outbox);
    }
}

// Puts each receiving end of a node at the place of its link, with the chunk that isn't loaded.
pub(crate) fn put_destinations(
    ends: &mut Vec<LinkEnds>,
    mut recvs: Vec<Receiver>,
    mut inboxes: Vec<Option<Chunk>>,
)
    requires inboxes { length inboxes.items ≡ length recvs.items }
    requires among { AreAmong (length ends.old.items) recvs.items }
    requires apart { AreApart recvs.items }
    ensures { DestinationsPut recvs.items inboxes.items 0 ends.old.items ends.new.items }
{
    while let Some(receiver) = recvs.pop() {
        let Some(inbox) = inboxes.pop() else {
            unreachable!()
        };
        let Some(LinkEnd { link, pass }) = receiver.into_end() else {
            continue;
        };
        ends[link].put_destination(pass, inbox);
    }
}
