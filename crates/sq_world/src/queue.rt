// The queues of the links.
ghost use Rattle.std.specs.Prelude.{◌≡◌, ◌<◌, ◌==◌, ◌&&◌, [], ◌∷◌, ◌++◌, length, IfOk, slice_get};
ghost use Rattle.std.specs.Option.{option_copied};
ghost use Rattle.sq_moves.specs.declared.opening.TheConstants.{MAX_CAPACITY};
ghost use Rattle.sq_world.specs.Queue.{opened_queue, IsPopped};

use sq_moves::{Link, MAX_CAPACITY};
use sq_plan::PartId;
use sq_store::Chunk;
use std::alloc::{AllocError, Global};
use std::collections::VecDeque;
use std::marker::Model;

/// The queue of a link: the chunks that were pushed and haven't been popped. To a contract it is a
/// `QueueValue`.
#[derive(Debug, Drop)]
pub(crate) struct Queue {
    src: PartId,
    dst: PartId,
    chunks: VecDeque<Chunk>,
}

impl Model for Queue {
    ghost use Rattle.std.specs.Prelude.{◌≤◌};
    ghost use Rattle.std.specs.VecDeque.{deque_capacity};
    ghost use Rattle.sq_moves.specs.declared.opening.TheConstants.{MAX_CAPACITY};
    ghost use Rattle.sq_transition.specs.Prelude.{QueueValue};

    ghost Value = { QueueValue };

    ghost view = { λ q. record { src = q.src; dst = q.dst; chunks = q.chunks.items } };

    ghost invariant = { λ q. MAX_CAPACITY ≤ deque_capacity q.chunks };
}

impl Queue {
    /// Creates an empty queue, with room for as many chunks as a link may hold.
    pub(crate) fn new(alloc: Global, link: Link) -> Result<Queue, AllocError>
        ensures { IfOk result (λ made. made ≡ opened_queue link) }
    {
        Ok(Queue {
            src: link.src,
            dst: link.dst,
            chunks: VecDeque::with_capacity(alloc, MAX_CAPACITY as usize)?,
        })
    }

    /// Returns the partition that the chunks leave.
    pub(crate) fn src(&self) -> PartId
        ensures { result ≡ self.now.src }
    {
        self.src
    }

    /// Returns the destination of the chunks.
    pub(crate) fn dst(&self) -> PartId
        ensures { result ≡ self.now.dst }
    {
        self.dst
    }

    /// Returns true if the queue leads from `src` to `dst`.
    pub(crate) fn joins(&self, src: u64, dst: u64) -> bool
        ensures { result ≡ ((self.now.src == src) && (self.now.dst == dst)) }
    {
        u64::from(self.src.number()) == src && u64::from(self.dst.number()) == dst
    }

    /// Returns the number of chunks.
    pub(crate) fn len(&self) -> usize
        ensures { result ≡ length self.now.chunks }
    {
        self.chunks.len()
    }

    /// Returns chunk number `i`, counted from the oldest, from 0; `None` if there is none.
    pub(crate) fn get(&self, i: usize) -> Option<&Chunk>
        ensures { option_copied result ≡ slice_get self.now.chunks i }
    {
        self.chunks.get(i)
    }

    /// Returns the chunks, the oldest first, in two pieces.
    pub(crate) fn as_slices(&self) -> (&[Chunk], &[Chunk])
        ensures { result.0.now ++ result.1.now ≡ self.now.chunks }
    {
        self.chunks.as_slices()
    }

    /// Pushes `chunk` after all others.
    pub(crate) fn push(&mut self, chunk: Chunk)
        requires { length self.old.chunks < MAX_CAPACITY }
        ensures { self.new ≡ record self.old { chunks = self.old.chunks ++ chunk ∷ [] } }
    {
        let Ok(()) = self.chunks.push_back(chunk) else {
            unreachable!()
        };
    }

    /// Pops the oldest chunk; `None` if there is none.
    pub(crate) fn pop(&mut self) -> Option<Chunk>
        ensures { IsPopped self.old result self.new }
    {
        self.chunks.pop_front()
    }
}
