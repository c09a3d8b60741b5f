// The open jobs of an engine, and the history of its events.
ghost use Rattle.std.specs.Prelude.{◌≡◌, ◌↔◌, ◌==◌, ◌++◌, ℕ, [], ◌∷◌, if◌then◌else◌, length};
ghost use Rattle.std.specs.Prelude.{None, IsTrue, is_some, IfSome, IfNone, OnOk, IfErr};
ghost use Rattle.std.specs.Bool.{Decides};
ghost use Rattle.sq_engine.specs.declared.event.Event.TheVariants.{Posts, Refuses, Answers};
ghost use Rattle.sq_engine.specs.declared.event.Event.TheVariants.{Drops, Loses, Rests, Ends};
ghost use Rattle.sq_engine.specs.declared.event.Event.TheVariants.{MovesTo};
ghost use Rattle.sq_engine.specs.Events.{are_known, are_whole};
ghost use Rattle.sq_engine.specs.Open.{no_jobs, open_job, Adds, IsOpenTxn, HasReason};
ghost use Rattle.sq_node_model.specs.Prelude.{ReceiptValue};
ghost use Rattle.sq_audit.specs.declared.job.Job.{Job};
ghost use Rattle.sq_engine.specs.declared.open_jobs.PostFault.{PostFault};
ghost use Rattle.sq_plan.specs.PlanValue.{PlanValue};

use crate::event::Event;
use sq_audit::Job;
use sq_history::History;
use sq_node::Receipt;
use sq_plan::{PartId, Plan};
use sq_schema::Txn;
use std::alloc::Global;
use std::collections::HashMap;
use std::marker::Model;
use thiserror::Error;

/// Why a job is not posted.
#[derive(Clone, Copy, Debug, PartialEq, Eq, Error)]
pub enum PostFault {
    #[error("there is no such partition")]
    NoSuchPartition,
    #[error("a job without an answer has this id")]
    RepeatedId,
    #[error("the queue of the partition is full")]
    QueueFull,
    #[error("out of memory")]
    Memory,
}

/// The open jobs of an engine by id: those that were posted and have no answer yet. It keeps the
/// history of all events of the engine. To a contract it is an `OpenJobsValue`.
#[derive(Drop)]
pub struct OpenJobs {
    unanswered: HashMap<u64, Job>,
    all_known: bool,
    is_whole: bool,
    events: History<Event>,
}

impl Model for OpenJobs {
    ghost use Rattle.std.specs.Prelude.{◌≡◌};
    ghost use Rattle.sq_engine.specs.Events.{are_known, are_whole};
    ghost use Rattle.sq_engine.specs.Open.{OpenJobsValue};

    ghost Value = { OpenJobsValue };

    ghost view = { λ j. record { events = j.events.items; unanswered = j.unanswered.entries } };

    ghost invariant = { λ j. (j.all_known ≡ are_known j.events.items)
        × (j.is_whole ≡ are_whole j.events.items) };
}

impl OpenJobs {
    /// Returns no jobs, and the history without events.
    pub fn new(alloc: Global) -> OpenJobs
        ensures { result ≡ no_jobs }
    {
        OpenJobs {
            unanswered: HashMap::new(alloc),
            all_known: true,
            is_whole: true,
            events: History::new(),
        }
    }

    /// Returns the number of open jobs.
    pub fn len(&self) -> usize
        ensures { result ≡ length self.now.unanswered }
    {
        self.unanswered.len()
    }

    /// Returns true if no job is open.
    pub fn is_empty(&self) -> bool
        ensures { IsTrue result ↔ (self.now.unanswered ≡ []) }
    {
        self.unanswered.is_empty()
    }

    /// Returns true if each receipt that arrived was that of an open job.
    pub fn all_known(&self) -> bool
        ensures { result ≡ are_known self.now.events }
    {
        self.all_known
    }

    /// Returns true if each receipt that was written has arrived.
    pub fn is_whole(&self) -> bool
        ensures { result ≡ are_whole self.now.events }
    {
        self.is_whole
    }

    /// Opens `job`, with the event that it is posted. If an open job has its id, it fails with
    /// `RepeatedId`, and if memory runs out, with `Memory`; then nothing changes.
    pub(crate) fn open(&mut self, job: Job) -> Result<(), PostFault>
        ensures ok { OnOk result (Adds (Posts job) self.old self.new) }
        ensures unchanged { IfErr result (λ _. self.new ≡ self.old) }
        ensures fault { IfErr result (λ fault. fault
            ≡ (if is_some (open_job self.old job.txn.id)
            then PostFault.RepeatedId else PostFault.Memory)) }
    {
        let id = job.txn.id();
        if self.unanswered.contains_key(&id) {
            return Err(PostFault::RepeatedId);
        }
        let posts = Event::Posts(job);
        let events = self.events.and(&posts);
        if self.unanswered.insert(id, posted_job(posts)).is_err() {
            return Err(PostFault::Memory);
        }
        self.events = events;
        Ok(())
    }

    /// Returns the history of events, for [`OpenJobs::take_back`].
    pub(crate) fn history(&self) -> History<Event>
        ensures { result.items ≡ self.now.events }
    {
        self.events.copy()
    }

    /// Takes back the job `id`, which was opened last and isn't posted: `events` was the history
    /// before it.
    pub(crate) fn take_back(&mut self, id: u64, events: History<Event>)
        requires { (job : Job) × (self.old.events ≡ events.items ++ Posts job ∷ []) }
        ensures events { self.new.events ≡ events.items }
        ensures jobs { (other : ℕ) → open_job self.new other
            ≡ (if other == id then None else open_job self.old other) }
    {
        drop(self.unanswered.remove(&id));
        self.events = events;
    }

    /// Returns the receipt, and the partition to which its job was posted, if an open job of its
    /// transaction exists, and closes that job, with the event that it is answered. Otherwise the
    /// receipt is dropped, with an event for that.
    pub(crate) fn answer(&mut self, part: PartId, receipt: Receipt) -> Option<(PartId, Receipt)>
        ensures answers { IfSome result (λ same. Adds (Answers part receipt) self.old self.new) }
        ensures same { IfSome result (λ same. same.1 ≡ receipt) }
        ensures drops { IfNone result (Adds (Drops part receipt) self.old self.new) }
    {
        if self.has_open(&receipt.txn) {
            let closed = self.unanswered.remove(&receipt.txn.id());
            let asked = closed.map_or(part, |job| job.part);
            let answers = Event::Answers(part, receipt);
            self.events = self.events.and(&answers);
            Some((asked, answer_of(answers)))
        } else {
            self.events = self.events.and(&Event::Drops(part, receipt));
            self.all_known = false;
            None
        }
    }

    // Returns true if `txn` is the transaction of an open job.
    fn has_open(&self, txn: &Txn) -> bool
        ensures { Decides result (IsOpenTxn self.now txn.now) }
    {
        match self.unanswered.get(&txn.id()) {
            Some(job) => job.txn == *txn,
            None => false,
        }
    }

    /// Adds the event that `job` is returned to its client for `fault`, and returns `job`.
    pub(crate) fn refuse(&mut self, job: Job, fault: PostFault) -> Job
        requires { HasReason self.old.unanswered job fault }
        ensures adds { Adds (Refuses job fault) self.old self.new }
        ensures same { result ≡ job }
    {
        let refuses = Event::Refuses(job, fault);
        self.events = self.events.and(&refuses);
        refused_job(refuses)
    }

    /// Adds the event that receipts were lost.
    pub(crate) fn lose(&mut self)
        ensures { Adds Loses self.old self.new }
    {
        self.events = self.events.and(&Event::Loses);
        self.is_whole = false;
    }

    /// Adds the event that a client asked for nothing.
    pub(crate) fn rest(&mut self)
        ensures { Adds Rests self.old self.new }
    {
        self.events = self.events.and(&Event::Rests);
    }

    /// Adds the event that a client asked for the end of the epoch.
    pub(crate) fn end(&mut self)
        ensures { Adds Ends self.old self.new }
    {
        self.events = self.events.and(&Event::Ends);
    }

    /// Returns `plan`, and the history with the event that a move to it begins, for
    /// [`OpenJobs::begin_move`].
    pub(crate) fn with_move(&self, plan: Plan) -> (Plan, History<Event>)
        ensures plan { result.0 ≡ plan }
        ensures events { result.1.items ≡ self.now.events ++ MovesTo plan ∷ [] }
    {
        let moves = Event::MovesTo(plan);
        let events = self.events.and(&moves);
        (plan_of(moves), events)
    }

    /// Adds the event that a move begins: `events` is the history with it.
    pub(crate) fn begin_move(&mut self, events: History<Event>)
        requires { (plan : PlanValue) × (events.items ≡ self.old.events ++ MovesTo plan ∷ []) }
        ensures { self.new ≡ record self.old { events = events.items } }
    {
        self.events = events;
    }
}

// Returns the job of an event that it was posted.
fn posted_job(event: Event) -> Job
    requires { (job : Job) × (event ≡ Posts job) }
    ensures { event ≡ Posts result }
{
    let Event::Posts(job) = event else {
        unreachable!()
    };
    job
}

// Returns the job of an event that it was returned to its client.
fn refused_job(event: Event) -> Job
    requires { (job : Job) × (fault : PostFault) × (event ≡ Refuses job fault) }
    ensures { (fault : PostFault) × (event ≡ Refuses result fault) }
{
    let Event::Refuses(job, _) = event else {
        unreachable!()
    };
    job
}

// Returns the receipt of an event that its job is answered.
fn answer_of(event: Event) -> Receipt
    requires { (part : ℕ) × (receipt : ReceiptValue) × (event ≡ Answers part receipt) }
    ensures { (part : ℕ) × (event ≡ Answers part result) }
{
    let Event::Answers(_, receipt) = event else {
        unreachable!()
    };
    receipt
}

// Returns the plan of an event that a move to it begins.
fn plan_of(event: Event) -> Plan
    requires { (plan : PlanValue) × (event ≡ MovesTo plan) }
    ensures { event ≡ MovesTo result }
{
    let Event::MovesTo(plan) = event else {
        unreachable!()
    };
    plan
}
