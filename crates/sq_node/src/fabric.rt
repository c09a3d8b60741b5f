// What the nodes of a run share.
ghost use Rattle.std.specs.Prelude.{◌≡◌, ◌↔◌, ◌+◌, ◌<◌, ◌≤◌, false, IsTrue, IfErr, OnOk};
ghost use Rattle.sq_moves.specs.Prelude.{stages};
ghost use Rattle.sq_node.specs.FabricValue.{IsFabric};

use crate::receipt::Receipt;
use crossbeam_queue::ArrayQueue;
use sq_history::History;
use sq_moves::Recon;
use sq_plan::PartId;
use sq_schema::Txn;
use sq_shared::{Request, Shared, SharedLink, StatusTree, TreeSeat};
use std::marker::Model;
use std::sync::Wait;
use std::sync::atomic::{AtomicU64, Ordering};

mod left;
mod open;
mod resumed;
mod workers;

pub use resumed::Unresumed;

/// How many requests the queue of a partition holds.
pub const REQUEST_PLACES: usize = 256;

/// How many jobs the queue of a partition holds.
pub const JOB_PLACES: usize = 4096;

// The bit that is set in `posted` once the run takes no more jobs.
const CLOSED: u64 = 0x8000_0000_0000_0000;

/// What the nodes of a run share by `&`: the split trees, the links, for each partition a queue of
/// requests to begin nodes and a queue of jobs, and the history of receipts of earlier stages. To a
/// contract it is a `FabricValue`.
#[derive(Drop)]
pub struct Fabric {
    recon: Recon,
    stage: u64,
    is_last_stage: bool,
    parts: u8,
    trees: Vec<StatusTree>,
    seats: Vec<TreeSeat>,
    links: Vec<SharedLink>,
    receipts: History<Receipt>,
    requests: Vec<ArrayQueue<Request>>,
    jobs: Vec<ArrayQueue<Box<Txn>>>,
    posted: AtomicU64,
    answered: AtomicU64,
}

impl Model for Fabric {
    ghost use Rattle.std.specs.Prelude.{◌↔◌, ◌+◌, ◌≤◌, IsTrue};
    ghost use Rattle.sq_moves.specs.Prelude.{stages};
    ghost use Rattle.sq_node.specs.FabricValue.{FabricValue, IsFabric};

    ghost Value = { FabricValue };

    ghost use Rattle.sq_node.specs.FabricView.{fabric_of};

    ghost view = { fabric_of };

    ghost invariant = { λ f. IsFabric (fabric_of f)
        × (IsTrue f.is_last_stage ↔ (stages f.recon ≤ f.stage + 1)) };
}

/// What a run shared, after its threads were joined.
#[derive(Drop)]
pub struct FabricParts {
    /// The reconfiguration that ran.
    pub recon: Recon,
    /// The stage that ran.
    pub stage: u64,
    /// The split tree of each segment.
    pub trees: Vec<StatusTree>,
    /// The seat that each segment's tree was opened with.
    pub seats: Vec<TreeSeat>,
    pub links: Vec<SharedLink>,
    /// The history of receipts of earlier stages.
    pub receipts: History<Receipt>,
    /// The requests that each partition has not taken.
    pub requests: Vec<ArrayQueue<Request>>,
    /// The jobs that each partition has not taken.
    pub jobs: Vec<ArrayQueue<Box<Txn>>>,
}

/// A job that was not posted.
#[derive(Debug, Drop)]
pub struct Unposted {
    pub job: Txn,
    /// True if memory ran out; false if there is no such partition, if its queue was full, or if
    /// the run takes no more jobs.
    pub is_memory: bool,
}

impl Fabric {
    /// Returns the reconfiguration that runs.
    pub fn recon(&self) -> &Recon
        ensures { result.now ≡ self.now.recon }
    {
        &self.recon
    }

    /// Returns the stage that runs.
    pub fn stage(&self) -> u64
        ensures { result ≡ self.now.stage }
    {
        self.stage
    }

    /// Returns how many partitions there are.
    pub fn parts(&self) -> u8
        ensures { result ≡ self.now.parts }
    {
        self.parts
    }

    /// Returns the split tree of each segment.
    pub fn trees(&self) -> &[StatusTree]
        ensures trees { result.now ≡ self.now.trees }
        ensures fabric { IsFabric self.now }
    {
        &self.trees
    }

    /// Returns the links.
    pub fn links(&self) -> &[SharedLink]
        ensures links { result.now ≡ self.now.links }
        ensures fabric { IsFabric self.now }
    {
        &self.links
    }

    /// Returns the parts that a pull needs.
    pub fn shared(&self) -> Shared<'_>
        ensures recon { result.recon.now ≡ self.now.recon }
        ensures trees { result.trees.now ≡ self.now.trees }
        ensures fabric { IsFabric self.now }
    {
        Shared {
            recon: &self.recon,
            trees: &self.trees,
            requests: &self.requests,
        }
    }

    /// Posts `job` to `part`. The job is returned if there is no such partition, if its queue was
    /// full at one moment of the call, if memory ran out, or if the run takes no more jobs: after
    /// [`Fabric::close_jobs`], or after a node closed the run by
    /// [`Node::close_if_idle`](crate::Node::close_if_idle). A job that was taken is answered, or it
    /// is among the jobs left over when the run is gathered.
    pub fn post<R: Wait>(&self, rt: &R, part: PartId, job: Txn) -> Result<(), Unposted>
        ensures there { OnOk result (part < self.now.parts) }
        ensures back { IfErr result (λ back. back.job ≡ job) }
        ensures memory { IfErr result (λ back. IsTrue back.is_memory → part < self.now.parts) }
    {
        if part.number() >= self.parts {
            return Err(Unposted {
                job,
                is_memory: false,
            });
        }
        match Box::new(*self.jobs.allocator(), job) {
            Ok(job) => self.post_boxed(rt, part, job),
            Err(failed) => Err(Unposted {
                job: failed.value,
                is_memory: true,
            }),
        }
    }

    // Posts `job` to an existing partition.
    fn post_boxed<R: Wait>(&self, rt: &R, part: PartId, job: Box<Txn>) -> Result<(), Unposted>
        ensures { IfErr result (λ back. (back.job ≡ job.value) × (back.is_memory ≡ false)) }
    {
        // The job counts before it can be taken: no thread finds all jobs answered while this one
        // is not.
        let posted = self.posted.fetch_add(1, Ordering::SeqCst);
        let put = if posted >= CLOSED {
            Err(job)
        } else {
            self.push_job(rt, part, job)
        };
        match put {
            Ok(()) => Ok(()),
            Err(job) => {
                self.posted.fetch_sub(1, Ordering::SeqCst);
                Err(Unposted {
                    job: Box::into_inner(job),
                    is_memory: false,
                })
            }
        }
    }

    /// Closes the run to jobs.
    pub fn close_jobs<R: Wait>(&self, rt: &R) {
        for _ in rt.forever() {
            let posted = self.posted.load(Ordering::SeqCst);
            if self.change_posted(posted, posted | CLOSED) {
                return;
            }
        }
    }

    /// Opens the run to jobs again.
    pub fn open_jobs<R: Wait>(&self, rt: &R) {
        for _ in rt.forever() {
            let posted = self.posted.load(Ordering::SeqCst);
            if self.change_posted(posted, posted & !CLOSED) {
                return;
            }
        }
    }

    /// Asks partition `part` to begin a node. `request` is returned if there is no such partition,
    /// or its queue was full at one moment of the call.
    pub fn request<R: Wait>(&self, rt: &R, part: PartId, request: Request) -> Result<(), Request>
        ensures there { OnOk result (part < self.now.parts) }
        ensures back { IfErr result (λ back. back ≡ request) }
    {
        if part.number() >= self.parts {
            return Err(request);
        }
        match self.requests.get(usize::from(part.number())) {
            Some(queue) => queue.push(rt, request),
            None => Err(request),
        }
    }

    /// Returns true if as many jobs were answered as were posted. This is a hint: the counts belong
    /// to no single moment.
    pub fn is_answered(&self) -> bool {
        let answered = self.answered.load(Ordering::SeqCst);
        answered == self.posted.load(Ordering::SeqCst) & !CLOSED
    }

    /// Returns true if the stage that runs is the last one.
    pub(crate) fn is_last_stage(&self) -> bool
        ensures { IsTrue result ↔ (stages self.now.recon ≤ self.now.stage + 1) }
    {
        self.is_last_stage
    }

    /// Returns the parts, by value.
    pub fn into_parts(self) -> FabricParts
        ensures recon { result.recon ≡ self.recon }
        ensures stage { result.stage ≡ self.stage }
        ensures trees { result.trees.items ≡ self.trees }
        ensures seats { result.seats.items ≡ self.seats }
        ensures links { result.links.items ≡ self.links }
        ensures receipts { result.receipts.items ≡ self.receipts }
        ensures fabric { IsFabric self }
    {
        FabricParts {
            recon: self.recon,
            stage: self.stage,
            trees: self.trees,
            seats: self.seats,
            links: self.links,
            receipts: self.receipts,
            requests: self.requests,
            jobs: self.jobs,
        }
    }

    /// Puts `job` into the queue of partition `part`. It is returned if the queue is full, or if
    /// memory runs out.
    pub(crate) fn put_job<R: Wait>(&self, rt: &R, part: PartId, job: Txn) -> Result<(), Txn>
        ensures { IfErr result (λ back. back ≡ job) }
    {
        match Box::new(*self.jobs.allocator(), job) {
            Ok(job) => self.push_job(rt, part, job).map_err(Box::into_inner),
            Err(failed) => Err(failed.value),
        }
    }

    /// Puts `job` into the queue of partition `part`, or returns it.
    fn push_job<R: Wait>(&self, rt: &R, part: PartId, job: Box<Txn>) -> Result<(), Box<Txn>>
        ensures { IfErr result (λ back. back.value ≡ job.value) }
    {
        match self.jobs.get(usize::from(part.number())) {
            Some(queue) => queue.push(rt, job),
            None => Err(job),
        }
    }

    /// Takes the next job of partition `part`.
    pub(crate) fn take_job<R: Wait>(&self, rt: &R, part: PartId) -> Option<Txn> {
        let job = self.jobs.get(usize::from(part.number()))?.pop(rt)?;
        Some(Box::into_inner(job))
    }

    /// Takes the next request to partition `part`.
    pub(crate) fn take_request<R: Wait>(&self, rt: &R, part: PartId) -> Option<Request> {
        self.requests.get(usize::from(part.number()))?.pop(rt)
    }

    pub(crate) fn count_answer(&self) {
        self.answered.fetch_add(1, Ordering::SeqCst);
    }

    /// Closes the run to jobs if as many were answered as were posted, and returns true if it is
    /// closed now and each posted job is answered. A job that is posted during the call either
    /// counts before, or is returned to its poster.
    pub(crate) fn close_answered(&self) -> bool {
        let answered = self.answered.load(Ordering::SeqCst);
        self.change_posted(answered, answered | CLOSED)
            || (self.posted.load(Ordering::SeqCst) >= CLOSED && self.is_answered())
    }

    // Writes how many jobs were posted, unless the count has changed since it was `old`. Returns
    // true if it did.
    fn change_posted(&self, old: u64, new: u64) -> bool {
        self.posted
            .compare_exchange(old, new, Ordering::SeqCst, Ordering::SeqCst)
            .is_ok()
    }
}
