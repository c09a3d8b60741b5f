// The jobs that a node answered, and those that it has to forward.
ghost use Rattle.std.specs.Prelude.{◌≡◌, ◌↔◌, ◌++◌, ◌∷◌, [], true, length, IsTrue, OnOk};

use crate::fabric::Fabric;
use crate::receipt::Receipt;
use sq_history::History;
use sq_plan::PartId;
use sq_schema::Txn;
use std::alloc::{AllocError, Global};
use std::collections::VecDeque;
use std::marker::Model;
use std::sync::Wait;

/// A job to be forwarded to a partition.
#[derive(Debug, Drop)]
pub struct Post {
    /// The partition that the job goes to.
    pub to: PartId,
    pub job: Txn,
}

/// The history of a node's receipts, and the jobs that it has to forward. To a contract it is a
/// `DeskValue`.
#[derive(Debug, Drop)]
pub(crate) struct Desk {
    receipts: History<Receipt>,
    posts: VecDeque<Post>,
}

impl Model for Desk {
    ghost use Rattle.std.specs.Prelude.{nat_lt};
    ghost use Rattle.std.specs.VecDeque.{deque_len, deque_capacity};
    ghost use Rattle.sq_node.specs.DeskValue.{DeskValue};

    ghost Value = { DeskValue };

    ghost view = { λ d. record {
      receipts = d.receipts.items;
      posts = d.posts.items;
      has_room = nat_lt (deque_len d.posts) (deque_capacity d.posts);
    } };
}

impl Desk {
    /// Returns a desk without receipts or jobs.
    pub(crate) fn new(alloc: Global) -> Desk
        ensures receipts { result.receipts ≡ [] }
        ensures posts { result.posts ≡ [] }
    {
        Desk {
            receipts: History::new(),
            posts: VecDeque::new(alloc),
        }
    }

    /// Replaces the jobs to forward by `posts`.
    pub(crate) fn keep(&mut self, posts: VecDeque<Post>)
        ensures receipts { self.new.receipts ≡ self.old.receipts }
        ensures posts { self.new.posts ≡ posts.items }
    {
        self.posts = posts;
    }

    /// Reserves room for one more job.
    pub(crate) fn reserve(&mut self) -> Result<(), AllocError>
        ensures receipts { self.new.receipts ≡ self.old.receipts }
        ensures posts { self.new.posts ≡ self.old.posts }
        ensures ok { OnOk result (self.new.has_room ≡ true) }
    {
        self.posts.reserve(1)
    }

    /// Adds `receipt` to the history.
    pub(crate) fn add(&mut self, receipt: &Receipt)
        ensures receipts { self.new.receipts ≡ self.old.receipts ++ receipt.now ∷ [] }
        ensures posts { self.new.posts ≡ self.old.posts }
    {
        self.receipts = self.receipts.and(receipt);
    }

    /// Forwards `job` to partition `to`. If the queue of `to` is full or memory runs out, the job
    /// stays here.
    pub(crate) fn post<R: Wait>(&mut self, rt: &R, fabric: &Fabric, to: PartId, job: Txn)
        requires { self.old.has_room ≡ true }
        ensures { self.new.receipts ≡ self.old.receipts }
    {
        if let Err(job) = fabric.put_job(rt, to, job) {
            self.posts.push_back_reserved(Post { to, job });
        }
    }

    /// Forwards the jobs in their order, up to the first whose queue is full or for which memory
    /// runs out. That one and those after it stay.
    pub(crate) fn send_pending<R: Wait>(&mut self, rt: &R, fabric: &Fabric)
        ensures { self.new.receipts ≡ self.old.receipts }
    {
        for _post in 0..self.posts.len() {
            let Some(Post { to, job }) = self.posts.pop_front() else {
                return;
            };
            if let Err(job) = fabric.put_job(rt, to, job) {
                self.posts.push_front_reserved(Post { to, job });
                return;
            }
        }
    }

    /// Returns how many jobs are left to forward.
    pub(crate) fn pending(&self) -> usize
        ensures { result ≡ length self.now.posts }
    {
        self.posts.len()
    }

    /// Returns true if no job is left to forward.
    pub(crate) fn is_sent(&self) -> bool
        ensures { IsTrue result ↔ (self.now.posts ≡ []) }
    {
        self.posts.is_empty()
    }

    /// Returns the history of receipts, and the jobs that are left to forward.
    pub(crate) fn into_parts(self) -> (History<Receipt>, VecDeque<Post>)
        ensures receipts { result.0.items ≡ self.receipts }
        ensures posts { result.1.items ≡ self.posts }
    {
        (self.receipts, self.posts)
    }
}
