// The unanswered jobs, by partition.
ghost use Rattle.std.specs.Prelude.{◌≡◌, ◌<◌, ◌≤◌, [], ◌++◌, ◌∷◌, length, map, IfOk, vec_capacity};
ghost use Rattle.sq_exec.specs.Waiting.{txns_of};
ghost use Rattle.sq_node_model.specs.BeganWith.{BeginsWith};
ghost use Rattle.sq_gather.specs.Left.{AreRooms, BeginWithWaiting, OnlyGrow};

use crossbeam_queue::ArrayQueue;
use sq_exec::Waiting;
use sq_moves::MAX_WAITING;
use sq_node::{JOB_PLACES, Node, Post};
use sq_plan::PartId;
use sq_schema::Txn;
use std::alloc::{AllocError, Global};
use std::collections::VecDeque;
use std::sync::Wait;

/// Reserves room for the jobs of each partition: for all that its queue holds, all that may wait
/// there, and all that `nodes` have to forward.
pub(crate) fn reserve_left(
    alloc: Global,
    parts: u8,
    nodes: &[Node],
) -> Result<Vec<Vec<Txn>>, AllocError>
    ensures { IfOk result (λ left. AreRooms parts
        (map (λ jobs. (jobs.items, vec_capacity jobs)) left.items)) }
{
    let places = count_pending(nodes).saturating_add(JOB_PLACES + MAX_WAITING);
    let mut left = Vec::new(alloc);
    for _part in 0..parts {
        let room = Vec::with_capacity(alloc, places)?;
        left.push(room)?;
    }
    Ok(left)
}

// Returns how many jobs `nodes` have to forward.
fn count_pending(nodes: &[Node]) -> usize {
    let mut count: usize = 0;
    for node in nodes {
        count = count.saturating_add(node.pending_jobs());
    }
    count
}

/// Puts the unanswered jobs into `left`: for each partition those that waited there, those that
/// were pending for it, and those in its queue.
pub(crate) fn fill<R: Wait>(
    rt: &R,
    mut left: Vec<Vec<Txn>>,
    waiting: Vec<Waiting>,
    posts: Vec<VecDeque<Post>>,
    queues: Vec<ArrayQueue<Box<Txn>>>,
) -> Vec<Vec<Txn>>
    requires rooms { AreRooms (length left.items)
        (map (λ jobs. (jobs.items, vec_capacity jobs)) left.items) }
    requires all { length waiting.items ≤ length left.items }
    ensures count { length result.items ≡ length left.items }
    ensures waiting { BeginWithWaiting (map (λ one. txns_of one.arrivals) waiting.items)
        (map (λ jobs. jobs.items) result.items) }
{
    add_all_waiting(&mut left, waiting);
    add_posts(&mut left, posts);
    add_queued(rt, &mut left, queues);
    left
}

// Adds the transactions that waited at each partition, in the order in which they arrived.
fn add_all_waiting(left: &mut Vec<Vec<Txn>>, mut waiting: Vec<Waiting>)
    requires rooms { AreRooms (length left.old.items)
        (map (λ jobs. (jobs.items, vec_capacity jobs)) left.old.items) }
    requires all { length waiting.items ≤ length left.old.items }
    ensures count { length left.new.items ≡ length left.old.items }
    ensures waiting { BeginWithWaiting (map (λ one. txns_of one.arrivals) waiting.items)
        (map (λ jobs. jobs.items) left.new.items) }
{
    while let Some(one) = waiting.pop() {
        let at = waiting.len();
        add_waiting(&mut left[at], one);
    }
}

// Adds the transactions that waited at a partition, in the order in which they arrived.
fn add_waiting(jobs: &mut Vec<Txn>, mut waiting: Waiting)
    requires { jobs.old.items ≡ [] }
    ensures { length waiting.arrivals ≤ vec_capacity jobs.old
        → jobs.new.items ≡ txns_of waiting.arrivals }
{
    waiting.make_all_due();
    while let Some((number, _)) = waiting.next_due(0) {
        push(jobs, waiting.remove(number));
    }
}

// Adds the jobs that were to be forwarded.
fn add_posts(left: &mut Vec<Vec<Txn>>, posts: Vec<VecDeque<Post>>)
    ensures { OnlyGrow (map (λ jobs. jobs.items) left.old.items)
        (map (λ jobs. jobs.items) left.new.items) }
{
    for posts in posts {
        add_each(left, posts);
    }
}

// Adds each of `posts` to the partition that it was to go to.
fn add_each(left: &mut Vec<Vec<Txn>>, posts: VecDeque<Post>)
    ensures { OnlyGrow (map (λ jobs. jobs.items) left.old.items)
        (map (λ jobs. jobs.items) left.new.items) }
{
    for Post { to, job } in posts {
        add_job(left, to, job);
    }
}

// Adds the jobs that the partitions didn't take from their queues.
fn add_queued<R: Wait>(rt: &R, left: &mut Vec<Vec<Txn>>, mut queues: Vec<ArrayQueue<Box<Txn>>>)
    ensures { OnlyGrow (map (λ jobs. jobs.items) left.old.items)
        (map (λ jobs. jobs.items) left.new.items) }
{
    while let Some(queue) = queues.pop() {
        add_queue(rt, left, queues.len(), queue);
    }
}

// Adds all jobs in `queue` to those of partition `part`.
fn add_queue<R: Wait>(rt: &R, left: &mut Vec<Vec<Txn>>, part: usize, queue: ArrayQueue<Box<Txn>>)
    ensures { OnlyGrow (map (λ jobs. jobs.items) left.old.items)
        (map (λ jobs. jobs.items) left.new.items) }
{
    if let Some(jobs) = left.get_mut(part) {
        take_all(rt, jobs, queue);
    }
}

// Adds all jobs in `queue`.
fn take_all<R: Wait>(rt: &R, jobs: &mut Vec<Txn>, queue: ArrayQueue<Box<Txn>>)
    ensures { BeginsWith jobs.old.items jobs.new.items }
{
    for _place in 0..queue.capacity() {
        let Some(job) = queue.pop(rt) else {
            return;
        };
        push(jobs, Box::into_inner(job));
    }
}

// Adds `job` to those of partition `part`.
fn add_job(left: &mut Vec<Vec<Txn>>, part: PartId, job: Txn)
    ensures { OnlyGrow (map (λ jobs. jobs.items) left.old.items)
        (map (λ jobs. jobs.items) left.new.items) }
{
    if let Some(jobs) = left.get_mut(usize::from(part.number())) {
        push(jobs, job);
    }
}

// Adds `job`, for which there is room.
fn push(jobs: &mut Vec<Txn>, job: Txn)
    ensures grows { BeginsWith jobs.old.items jobs.new.items }
    ensures roomy { length jobs.old.items < vec_capacity jobs.old
        → (jobs.new.items ≡ jobs.old.items ++ job ∷ []) }
    ensures capacity { vec_capacity jobs.old ≤ vec_capacity jobs.new }
{
    let _ = jobs.push(job);
}
