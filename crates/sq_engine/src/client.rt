// Clients that post jobs to an epoch while its workers run, and are given the answers.
ghost use Rattle.sq_engine.specs.Clients.{ClientCall, Asked, Told, Returned};

use crate::back_off::BackOff;
use crate::open_jobs::PostFault;
use crate::stage_progress::StageProgress;
use sq_audit::Job;
use sq_node::Receipt;
use sq_plan::PartId;
use std::sync::Wait;

/// What a client asks for next.
#[derive(Debug, Drop)]
pub enum Command {
    /// Posts this job.
    Post(Job),
    /// Nothing now. The client is asked again.
    Rest,
    /// Ends the epoch. The client isn't asked again in this epoch.
    End,
}

/// A client posts jobs to an epoch while its workers run, and is given each answer as soon as it
/// arrives.
pub trait Client {
    /// How a call changes a client.
    ghost Becomes: { Self → ClientCall → Self → Type 0 };

    /// Returns what the client asks for next; `progress` is that of the stage, as its workers
    /// reported it. A call has to return, since no answer is given meanwhile.
    fn next(&mut self, progress: StageProgress) -> Command
        ensures { Becomes self.old (Asked progress result) self.new };

    /// Takes an answer: the receipt of an open job, written by partition `part`.
    fn take(&mut self, part: PartId, receipt: Receipt)
        ensures { Becomes self.old (Told part receipt) self.new };

    /// Is told that a job that was posted to `part` is answered; its answer follows. By default
    /// nothing happens.
    fn note_answered(&self, _part: PartId) {}

    /// Takes back a job that was not posted, with the reason.
    fn take_back(&mut self, job: Job, fault: PostFault)
        ensures { Becomes self.old (Returned job fault) self.new };

    /// Returns how many pumps may claim: only the first so many of the engine do, all by default. It
    /// is asked as an epoch begins and before each call of [`Client::next`]. While no pump may claim,
    /// only keys move for which a transaction waits.
    fn claiming_pumps(&self) -> u64 {
        u64::MAX
    }

    /// Waits a while, after the client asked for nothing `tries` times in a row while nothing moves
    /// and each job has its answer. It may wait until it has something to ask for, and has to
    /// return after some milliseconds in any case. By default it yields to other threads, and after
    /// 256 tries it sleeps, for at most two milliseconds.
    fn wait<R: Wait>(&self, rt: &R, tries: u64) {
        BackOff::LONG.wait_after(rt, tries);
    }
}
