// Reads the state of a world.
ghost use Rattle.std.specs.Prelude.{◌≡◌, slice_get};
ghost use Rattle.std.specs.Option.{option_copied};
ghost use Rattle.sq_transition.specs.Prelude.{running_stage, link_of, under_way, phase_of};
ghost use Rattle.sq_world.specs.Readers.{store_at, chunk_at, status_there};

use crate::queue::Queue;
use crate::state::State;
use sq_leader::Leader;
use sq_model::Phase;
use sq_moves::{NodeId, Status};
use sq_store::{Chunk, SlabStore};

impl State {
    /// Returns the phase that the leader is in.
    pub fn phase(&self) -> Phase
        ensures { result ≡ phase_of self.now.leader }
    {
        match &self.leader {
            Leader::Idle(_) => Phase::Idle,
            Leader::Preparing(_) => Phase::Preparing,
            Leader::Moving(_) => Phase::Moving,
            Leader::Ended(_) => Phase::Ended,
        }
    }

    /// Returns the running stage: 0 before the start, and the last one once the move has ended.
    pub fn stage(&self) -> u64
        ensures { result ≡ running_stage self.now }
    {
        match &self.leader {
            Leader::Idle(_) | Leader::Preparing(_) => 0,
            Leader::Moving(moving) => moving.stage(),
            Leader::Ended(ended) => ended.stage(),
        }
    }

    /// Returns the families of partition `part`; `None` if there is no such partition.
    pub fn store(&self, part: u64) -> Option<&SlabStore>
        ensures { option_copied result ≡ store_at self.now part }
    {
        let core = self.cores.get(part as usize)?;
        Some(core.store())
    }

    /// Returns chunk number `i`, from 0, of those that were cut from `src` for `dst` and aren't
    /// loaded yet, the oldest first; `None` if there is none.
    pub fn under_way(&self, src: u64, dst: u64, i: u64) -> Option<&Chunk>
        ensures { option_copied result ≡ chunk_at self.now src dst i }
    {
        let at = self.link_at(src, dst)?;
        self.chunk_on(&self.queues[at], i as usize)
    }

    /// Returns the status of `node` in segment `seg`; `None` if there is no such segment or node.
    pub fn status(&self, seg: u64, node: u64) -> Option<Status>
        ensures { result ≡ status_there self.now seg node }
    {
        let node = NodeId::new(node)?;
        let tree = self.trees.get(seg as usize)?;
        Some(tree.status(node))
    }

    // Returns chunk number `i`, from 0, of those on the link of `queue` that were cut and aren't
    // loaded yet, the oldest first.
    fn chunk_on<'a>(&'a self, queue: &'a Queue, i: usize) -> Option<&'a Chunk>
        ensures { option_copied result ≡ slice_get (under_way (link_of self.now queue.now)) i }
    {
        let past_inbox = match self.inbox(queue) {
            None => i,
            Some(chunk) if i == 0 => return Some(chunk),
            Some(_) => i - 1,
        };
        if past_inbox == queue.len() {
            self.outbox(queue)
        } else {
            queue.get(past_inbox)
        }
    }

    // Returns the chunk that was popped off `queue` and isn't loaded yet; `None` if there is none.
    pub(super) fn inbox(&self, queue: &Queue) -> Option<&Chunk>
        ensures { option_copied result ≡ (link_of self.now queue.now).inbox }
    {
        let core = self.cores.get(usize::from(queue.dst().number()))?;
        core.inbox(queue.src())
    }

    // Returns the chunk that was cut for `queue` and isn't pushed yet; `None` if there is none.
    pub(super) fn outbox(&self, queue: &Queue) -> Option<&Chunk>
        ensures { option_copied result ≡ (link_of self.now queue.now).out.outbox }
    {
        let core = self.cores.get(usize::from(queue.src().number()))?;
        core.outbox(queue.dst())
    }
}
