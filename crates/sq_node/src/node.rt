// Nodes.
ghost use Rattle.std.specs.Prelude.{◌≡◌, ◌<◌, ℕ, true, false, [], length, replicate};
ghost use Rattle.sq_exec.specs.Prelude.{loaded_at, is_whole};
ghost use Rattle.sq_shared.specs.declared.numbers.TheConstants.{MAX_OWNERS};

use crate::desk::{Desk, Post};
use crate::effort::Effort;
use crate::ends::{Receiver, Sender};
use crate::receipt::Receipt;
use sq_exec::{CoreParts, PartCore};
use sq_history::History;
use sq_moves::{NodeId, SegId};
use sq_plan::PartId;
use sq_shared::{Puller, TreeSeat};
use sq_store::SlabStore;
use std::alloc::Global;
use std::collections::VecDeque;
use std::marker::Model;

mod jobs;
mod links;
mod trees;
mod turn;

pub use turn::Turned;

/// A partition in a thread of its own: the partition, its seat at each tree, its ends of the links,
/// and the history of its receipts. To a contract it is a `NodeState`.
#[derive(Drop)]
pub struct Node {
    core: PartCore<SlabStore>,
    seats: Vec<TreeSeat>,
    sends: Vec<Sender>,
    recvs: Vec<Receiver>,
    desk: Desk,
    puller: Puller,
    // The tree nodes whose last chunk was loaded and that may not be complete yet.
    to_complete: Vec<(SegId, NodeId)>,
    // For each segment, whether its node 1 was seen to read complete.
    complete: Vec<bool>,
    // Whether the last tree node that was completed was the last of its segment.
    completes_segment: bool,
    effort: Effort,
}

impl Model for Node {
    ghost use Rattle.std.specs.Prelude.{◌≡◌};
    ghost use Rattle.std.specs.Coded.{codes};
    ghost use Rattle.sq_store.specs.Prelude.{store_coded};
    ghost use Rattle.sq_node.specs.NodeState.{NodeState};
    ghost use Rattle.sq_node.specs.Settled.{IsNode};

    ghost Value = { NodeState };

    ghost coded = { Prim.hlevel (codes, store_coded) };

    ghost view = { λ n. record {
      core = n.core.core;
      seats = n.seats.items;
      sends = n.sends.items;
      recvs = n.recvs.items;
      receipts = n.desk.receipts;
      claims = n.puller.puller.wins.count;
    } };

    ghost invariant = { λ n. (n.puller.puller.part ≡ n.core.core.part)
        × IsNode n.core.core n.seats.items n.to_complete.items n.complete.items };
}

/// The parts of a node beside its partition.
#[derive(Drop)]
pub(crate) struct SeatsAndEnds {
    /// Its seat at the tree of each segment.
    pub seats: Vec<TreeSeat>,
    /// Its end of the link to each partition.
    pub sends: Vec<Sender>,
    /// Its end of the link from each partition.
    pub recvs: Vec<Receiver>,
    /// For each segment, whether its node 1 was seen to read complete.
    pub complete: Vec<bool>,
}

impl Node {
    /// Returns the node of a partition with its seats and ends. Its move has started.
    pub(crate) fn open(alloc: Global, mut core: PartCore<SlabStore>, place: SeatsAndEnds) -> Node
        requires part { core.core.part < MAX_OWNERS }
        requires fresh { (seg n : ℕ) → is_whole (loaded_at core.core seg) n ≡ false }
        requires flags { place.complete.items ≡ replicate (length core.core.recon.segments) false }
        ensures core { result.core ≡ record core.core { started = true } }
        ensures seats { result.seats ≡ place.seats.items }
        ensures sends { result.sends ≡ place.sends.items }
        ensures recvs { result.recvs ≡ place.recvs.items }
        ensures receipts { result.receipts ≡ [] }
        ensures claims { result.claims ≡ 0 }
    {
        let puller = Puller::new(alloc, core.part());
        core.start();
        Node {
            core,
            seats: place.seats,
            sends: place.sends,
            recvs: place.recvs,
            desk: Desk::new(alloc),
            puller,
            to_complete: Vec::new(alloc),
            complete: place.complete,
            completes_segment: false,
            effort: Effort::NONE,
        }
    }

    /// Replaces the jobs to forward by `posts`.
    pub(crate) fn keep_posts(&mut self, posts: VecDeque<Post>)
        ensures { self.new ≡ self.old }
    {
        self.desk.keep(posts);
    }

    /// Returns how many jobs it has to forward.
    pub fn pending_jobs(&self) -> usize {
        self.desk.pending()
    }

    /// Returns the work that it has done since its stage began.
    pub fn effort(&self) -> Effort {
        self.effort
    }

    /// Returns its partition.
    pub fn part(&self) -> PartId
        ensures { result ≡ self.now.core.part }
    {
        self.core.part()
    }
}

/// The parts of a node, after its thread was joined.
#[derive(Drop)]
pub struct NodeParts {
    pub part: PartId,
    /// The parts of its partition.
    pub core: CoreParts<SlabStore>,
    /// Its seat at the tree of each segment.
    pub seats: Vec<TreeSeat>,
    /// Its end of the link to each partition.
    pub sends: Vec<Sender>,
    /// Its end of the link from each partition.
    pub recvs: Vec<Receiver>,
    /// The history of its receipts, in the order in which they were written.
    pub receipts: History<Receipt>,
    /// The jobs that it still had to forward.
    pub posts: VecDeque<Post>,
    /// The claims that it won, with the requests that weren't sent.
    pub puller: Puller,
}
