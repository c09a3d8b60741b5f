// Jobs that wait beside the queues of their partitions.
ghost use Rattle.std.specs.Prelude.{◌≡◌, ◌<◌, ◌≤◌, ◌↔◌, [], ◌∷◌, ◌++◌, length, replicate, IsTrue, IfOk, IfSome, IfNone, OnOk, OnErr, MatchOption, sum_by};
ghost use Rattle.sq_serving.specs.Sides.{waiting_at, ChangesAt, TakesFirst};

use std::alloc::{AllocError, Global};
use std::collections::VecDeque;
use std::marker::Model;

/// How many jobs may wait, over all partitions, before no more lines are taken.
pub const SIDE_ROOM: usize = 65_536;

/// The jobs of one partition that wait beside its queue.
#[derive(Drop)]
pub(crate) struct SideQueue<J: Drop> {
    jobs: VecDeque<J>,
    // The round in which a job of it was last offered and the queue was full.
    full_in: u64,
}

/// For each partition, the jobs that wait beside its queue, in their order. Contracts see a list of
/// lists.
#[derive(Drop)]
pub struct SideQueues<J: Drop> {
    sides: Vec<SideQueue<J>>,
    // How many jobs wait, over all partitions.
    waiting: usize,
    // The partition that is looked at first.
    first: usize,
    // The number of the current round. A queue found full in it isn't tried again until the next
    // one.
    round: u64,
}

impl<J: Drop> Model for SideQueues<J> {
    ghost use Rattle.std.specs.Prelude.{◌≡◌, ◌≤◌, List, map, length, sum_by};

    ghost Value = { List (List J) };

    ghost view = { λ s. map (λ side. side.jobs.items) s.sides.items };

    ghost invariant = { λ s. (s.waiting ≡ sum_by (λ side. length side.jobs.items) s.sides.items)
        × (length s.sides.items ≤ 255) };
}

impl<J: Drop> SideQueues<J> {
    /// Queues for `parts` partitions, without jobs.
    pub fn new(alloc: Global, parts: u8) -> Result<SideQueues<J>, AllocError>
        ensures { IfOk result (λ sides. sides ≡ replicate parts []) }
    {
        let mut sides = Vec::new(alloc);
        for _part in 0..parts {
            sides.push(SideQueue {
                jobs: VecDeque::new(alloc),
                full_in: 0,
            })?;
        }
        Ok(SideQueues {
            sides,
            waiting: 0,
            first: 0,
            round: 1,
        })
    }

    pub fn parts(&self) -> u8
        ensures { result ≡ length self.now }
    {
        self.sides.len() as u8
    }

    /// How many jobs wait, over all partitions.
    pub fn waiting(&self) -> usize
        ensures { result ≡ sum_by length self.now }
    {
        self.waiting
    }

    /// Returns whether `SIDE_ROOM` or more jobs wait, so that no more lines should be taken.
    pub fn are_full(&self) -> bool
        ensures { IsTrue result ↔ (SIDE_ROOM ≤ sum_by length self.now) }
    {
        self.waiting >= SIDE_ROOM
    }

    /// Returns whether a job of partition `part` waits.
    pub fn has_jobs(&self, part: usize) -> bool
        requires { part < length self.now }
        ensures { IsTrue result ↔ (0 < length (waiting_at self.now part)) }
    {
        !self.sides[part].jobs.is_empty()
    }

    /// How many jobs of partition `part` wait.
    pub fn waiting_at(&self, part: usize) -> usize
        requires { part < length self.now }
        ensures { result ≡ length (waiting_at self.now part) }
    {
        self.sides[part].jobs.len()
    }

    /// Adds a job after the others of partition `part`. Fails, and changes nothing, if memory runs
    /// out.
    pub fn put_behind(&mut self, part: usize, job: J) -> Result<(), AllocError>
        requires { part < length self.old }
        ensures ok { OnOk result (ChangesAt part (waiting_at self.old part ++ job ∷ [])
            self.old self.new) }
        ensures err { OnErr result (self.new ≡ self.old) }
    {
        let waiting = self.waiting.checked_add(1).ok_or(AllocError)?;
        let side = &mut self.sides[part];
        side.jobs.push_back(job)?;
        self.waiting = waiting;
        Ok(())
    }

    /// Adds a job before the others of partition `part`, whose queue is full. Fails, and changes
    /// nothing, if memory runs out.
    pub fn put_back(&mut self, part: usize, job: J) -> Result<(), AllocError>
        requires { part < length self.old }
        ensures ok { OnOk result (ChangesAt part (job ∷ waiting_at self.old part)
            self.old self.new) }
        ensures err { OnErr result (self.new ≡ self.old) }
    {
        let waiting = self.waiting.checked_add(1).ok_or(AllocError)?;
        let side = &mut self.sides[part];
        side.jobs.push_front(job)?;
        side.full_in = self.round;
        self.waiting = waiting;
        Ok(())
    }

    /// Begins a new round, in which queues that were full may be tried again.
    pub fn try_again(&mut self)
        ensures { self.new ≡ self.old }
    {
        self.round = self.round.wrapping_add(1);
    }

    /// Takes the first job of a partition whose queue wasn't full in this round, and returns it
    /// with the partition. Partitions take turns.
    pub fn take(&mut self) -> Option<(u8, J)>
        ensures { MatchOption result (self.new ≡ self.old)
            (λ taken. TakesFirst taken.0 taken.1 self.old self.new) }
    {
        let at = self.next_ready()?;
        let side = &mut self.sides[at];
        let job = side.jobs.pop_front()?;
        self.waiting -= 1;
        self.first = at + 1;
        Some((at as u8, job))
    }

    // The next partition that has a job and whose queue wasn't full in this round.
    fn next_ready(&self) -> Option<usize>
        ensures { IfSome result (λ at. (at < length self.now)
            × (0 < length (waiting_at self.now at))) }
    {
        if self.waiting == 0 {
            return None;
        }
        let round = self.round;
        for (at, side) in self.sides.iter().enumerate() {
            if at >= self.first && side.is_ready(round) {
                return Some(at);
            }
        }
        self.sides.iter().position(|side| side.is_ready(round))
    }
}

impl<J: Drop> SideQueue<J> {
    // Returns whether a job of it may be offered in `round`.
    fn is_ready(&self, round: u64) -> bool
        ensures { IsTrue result → 0 < length self.now.jobs.items }
    {
        self.full_in != round && !self.jobs.is_empty()
    }
}
