// The jobs left over from an earlier stage.
ghost use Rattle.std.specs.Prelude.{◌≡◌, ◌+◌, ◌-◌, ◌≤◌, length, map, IfOk, IfErr};
ghost use Rattle.std.specs.VecDeque.{deque_len, deque_capacity};
ghost use Rattle.sq_node.specs.Left.{HaveRoom};

use super::Fabric;
use crate::desk::Post;
use crate::node::Node;
use sq_plan::PartId;
use sq_schema::Txn;
use std::alloc::{AllocError, Global};
use std::collections::VecDeque;
use std::sync::atomic::Ordering;

// Returns room to forward, for each partition, as many jobs as were left at it.
pub(super) fn open_rooms(
    alloc: Global,
    left: &[Vec<Txn>],
) -> Result<Vec<VecDeque<Post>>, AllocError>
    ensures { IfOk result (λ rooms.
        HaveRoom (map (λ jobs. length jobs.items) left.now)
        (map (λ room. deque_capacity room - deque_len room) rooms.items)) }
{
    let mut rooms = Vec::new(alloc);
    for jobs in left {
        rooms.push(VecDeque::with_capacity(alloc, jobs.len())?)?;
    }
    Ok(rooms)
}

// Posts the jobs left at each partition to that partition. Its node forwards those that its queue
// doesn't take.
pub(super) fn post_left(
    fabric: &mut Fabric,
    nodes: &mut Vec<Node>,
    mut left: Vec<Vec<Txn>>,
    mut rooms: Vec<VecDeque<Post>>,
)
    requires room { HaveRoom (map (λ jobs. length jobs.items) left.items)
        (map (λ room. deque_capacity room - deque_len room) rooms.items) }
    requires nodes { length left.items ≡ length nodes.old.items }
    requires few { length left.items ≤ 255 }
    ensures fabric { fabric.new ≡ fabric.old }
    ensures nodes { nodes.new.items ≡ nodes.old.items }
{
    for _part in 0..left.len() {
        let Some(jobs) = left.pop() else {
            unreachable!()
        };
        let Some(room) = rooms.pop() else {
            unreachable!()
        };
        let at = left.len();
        let posts = fabric.queue_left(PartId::new(at as u8), jobs, room);
        nodes[at].keep_posts(posts);
    }
}

impl Fabric {
    // Queues `jobs` at partition `part`, in their order, and counts them as posted. The first that
    // the queue doesn't take, and those after it, are put into `room`, to be forwarded.
    fn queue_left(&mut self, part: PartId, jobs: Vec<Txn>, room: VecDeque<Post>) -> VecDeque<Post>
        requires { length jobs.items ≤ deque_capacity room - deque_len room }
        ensures { self.new ≡ self.old }
    {
        let mut posts = room;
        for job in jobs {
            self.posted.fetch_add(1, Ordering::SeqCst);
            let queued = if posts.is_empty() {
                self.queue_job(part, job)
            } else {
                Err(job)
            };
            if let Err(job) = queued {
                posts.push_back_reserved(Post { to: part, job });
            }
        }
        posts
    }

    // Puts `job` into the queue of partition `part` before the threads run. It is returned if the
    // queue is full, or if memory runs out.
    fn queue_job(&mut self, part: PartId, job: Txn) -> Result<(), Txn>
        ensures same { self.new ≡ self.old }
        ensures refused { IfErr result (λ back. back ≡ job) }
    {
        match Box::new(*self.jobs.allocator(), job) {
            Ok(job) => self.push_job_mut(part, job).map_err(Box::into_inner),
            Err(failed) => Err(failed.value),
        }
    }

    // Puts `job` into the queue of partition `part` before the threads run, or returns it.
    fn push_job_mut(&mut self, part: PartId, job: Box<Txn>) -> Result<(), Box<Txn>>
        ensures same { self.new ≡ self.old }
        ensures refused { IfErr result (λ back. back.value ≡ job.value) }
    {
        match self.jobs.get_mut(usize::from(part.number())) {
            Some(queue) => queue.push_mut(job),
            None => Err(job),
        }
    }
}
