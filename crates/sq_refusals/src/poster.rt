// A client that posts jobs.
use crate::unfinished::Unfinished;
use sq_audit::Job;
use sq_engine::{Client, Command, PostFault, StageProgress};
use sq_node::Receipt;
use sq_plan::PartId;
use std::alloc::Global;

/// A client that posts jobs. It ends an epoch at rest once each job that it awaits is answered.
#[derive(Drop)]
pub struct Poster {
    // The jobs that it has not posted yet.
    left: Vec<Job>,
    // How many answers it awaits.
    awaited: usize,
    // The answers, for which there is room.
    receipts: Vec<Receipt>,
    at_rest: bool,
    has_one_back: bool,
}

impl Poster {
    /// Returns a client that posts `jobs`, the last one first, and awaits their answers and `others`
    /// other ones.
    pub fn new(alloc: Global, jobs: Vec<Job>, others: usize) -> Result<Poster, Unfinished> {
        let awaited = jobs.len().saturating_add(others);
        Ok(Poster {
            awaited,
            receipts: Vec::with_capacity(alloc, awaited)?,
            left: jobs,
            at_rest: false,
            has_one_back: false,
        })
    }

    /// Begins an epoch; `at_rest` says whether no rows move in it.
    pub fn begin(&mut self, at_rest: bool) {
        self.at_rest = at_rest;
    }

    /// Returns true if each answer has arrived.
    pub fn is_done(&self) -> bool {
        self.awaited == 0
    }

    /// Returns true if a job was returned.
    pub fn has_one_back(&self) -> bool {
        self.has_one_back
    }

    /// Returns the answers that have arrived, by the ids of their jobs.
    pub fn into_receipts(self) -> Vec<Receipt> {
        let Poster { mut receipts, .. } = self;
        receipts.sort_unstable_by_key(|receipt| receipt.txn.id());
        receipts
    }
}

impl Client for Poster {
    ghost Becomes = { λ old call new. Unit {0} };

    fn next(&mut self, progress: StageProgress) -> Command {
        match self.left.pop() {
            Some(job) => Command::Post(job),
            // If there was no memory to come to rest after a move, the engine comes to rest before
            // it serves.
            None if (self.at_rest || progress.is_rest()) && self.is_done() => Command::End,
            None => Command::Rest,
        }
    }

    fn take(&mut self, _part: PartId, receipt: Receipt) {
        self.awaited = self.awaited.saturating_sub(1);
        drop(self.receipts.push(receipt));
    }

    fn take_back(&mut self, job: Job, _fault: PostFault) {
        self.has_one_back = true;
        drop(self.left.push(job));
    }
}
