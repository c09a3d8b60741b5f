// The two ends of a link.
ghost use Rattle.std.specs.Prelude.{◌≡◌, []};
ghost use Rattle.crossbeam_queue.specs.Passes.{view as knows};

use crate::link::SharedLink;
use crate::order::{End, Receives, Sends};
use sq_plan::PartId;
use std::marker::{Model, PhantomData};

/// One side of a link: [`Sends`] at the partition that it leads from, [`Receives`] at the partition
/// that it leads to.
pub trait Side: Drop {
    ghost use Rattle.std.specs.Prelude.{◌≡◌, ℕ, List};
    ghost use Rattle.sq_store.specs.ChunkValue.{ChunkValue};
    ghost use Rattle.sq_shared.specs.declared.order.EndView.{EndView};
    ghost use Rattle.sq_shared.specs.Values.{LinkValue};

    // What a pass of this side knows after these chunks went by it, and the chunks that went by a
    // pass that knows this.
    ghost knows: { List ChunkValue → EndView };

    ghost chunks: { EndView → List ChunkValue };

    ghost near: { LinkValue → ℕ };

    ghost far: { LinkValue → ℕ };

    /// Returns the partition at this end of `link`.
    fn near(link: &SharedLink) -> PartId
        ensures { result ≡ near link.now };

    /// Returns the partition at the other end of `link`.
    fn far(link: &SharedLink) -> PartId
        ensures { result ≡ far link.now };
}

impl Side for Sends {
    ghost use Rattle.std.specs.Prelude.{true, false, []};
    ghost use Rattle.sq_shared.specs.Order.{ends};

    ghost knows = { λ chunks. ends true false chunks [] };

    ghost chunks = { λ v. v.sent };

    ghost near = { λ link. link.src };

    ghost far = { λ link. link.dst };

    fn near(link: &SharedLink) -> PartId {
        link.ends.src
    }

    fn far(link: &SharedLink) -> PartId {
        link.ends.dst
    }
}

impl Side for Receives {
    ghost use Rattle.std.specs.Prelude.{true, false, []};
    ghost use Rattle.sq_shared.specs.Order.{ends};

    ghost knows = { λ chunks. ends false true [] chunks };

    ghost chunks = { λ v. v.received };

    ghost near = { λ link. link.dst };

    ghost far = { λ link. link.src };

    fn near(link: &SharedLink) -> PartId {
        link.ends.dst
    }

    fn far(link: &SharedLink) -> PartId {
        link.ends.src
    }
}

/// The right to act on side `S` of a link, with the chunks that went by it, in order. It takes no
/// bytes. To a contract it is a `PassValue`.
#[derive(Drop)]
pub struct LinkPass<S: Side> {
    pub(crate) end: End,
    side: PhantomData<S>,
}

/// The right to send on a link.
pub type SendPass = LinkPass<Sends>;

/// The right to receive from a link.
pub type RecvPass = LinkPass<Receives>;

impl<S: Side> Model for LinkPass<S> {
    ghost use Rattle.std.specs.Prelude.{◌≡◌, []};
    ghost use Rattle.crossbeam_queue.specs.Passes.{view as knows};
    ghost use Rattle.sq_shared.specs.Values.{PassValue};

    ghost Value = { PassValue };

    ghost view = { λ p. record { queue = p.end.table_id; chunks = S.chunks (knows p.end) } };

    ghost invariant = { λ p. (knows p.end ≡ S.knows (S.chunks (knows p.end))) × (p.end.me.1 ≡ []) };
}

impl<S: Side> LinkPass<S> {
    pub(crate) fn new(end: End) -> LinkPass<S>
        requires end { knows end ≡ S.knows (S.chunks (knows end)) }
        requires slots { end.me.1 ≡ [] }
        ensures { result ≡ record { queue = end.table_id; chunks = S.chunks (knows end) } }
    {
        LinkPass {
            end,
            side: PhantomData,
        }
    }
}
