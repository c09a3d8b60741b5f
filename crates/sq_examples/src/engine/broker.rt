// The client of the engine.
use super::asker::{Asker, JOBS};
use crossbeam_channel::{Receiver, Sender, unbounded};
use sq_audit::Job;
use sq_engine::{Client, Command, PostFault, StageProgress};
use sq_node::Receipt;
use sq_plan::PartId;
use sq_schema::Schema;
use std::alloc::Global;
use std::sync::Wait;

/// The client of the engine: it posts the jobs that two threads send, and sends each thread its
/// answers.
#[derive(Drop)]
pub(crate) struct Broker<'a, R: Wait> {
    rt: &'a R,
    jobs: Receiver<Job>,
    first: Sender<Receipt>,
    second: Sender<Receipt>,
    // A job that was returned, to be posted again.
    again: Option<Job>,
    // How many jobs are done, and how many end an epoch.
    done: u64,
    enough: u64,
}

impl<'a, R: Wait> Broker<'a, R> {
    /// Returns a broker and the two threads that it serves, or `None` if memory runs out.
    pub(crate) fn open(
        rt: &'a R,
        alloc: Global,
        schema: Schema,
    ) -> Option<(Broker<'a, R>, Asker, Asker)> {
        let (hand_in, jobs) = unbounded(alloc).ok()?;
        let also = hand_in.clone().ok()?;
        let (first, first_answers) = unbounded(alloc).ok()?;
        let (second, second_answers) = unbounded(alloc).ok()?;
        let broker = Broker {
            rt,
            jobs,
            first,
            second,
            again: None,
            done: 0,
            enough: 0,
        };
        let first = Asker::new(schema, 0..JOBS, hand_in, first_answers);
        let second = Asker::new(schema, JOBS..2 * JOBS, also, second_answers);
        Some((broker, first, second))
    }

    /// From now on an epoch ends once `jobs` jobs are done.
    pub(crate) fn end_after(&mut self, jobs: u64) {
        self.enough = jobs;
    }
}

impl<R: Wait> Client for Broker<'_, R> {
    ghost Becomes = { λ _ _ _. Unit {0} };

    fn next(&mut self, _progress: StageProgress) -> Command {
        if self.done >= self.enough {
            return Command::End;
        }
        if let Some(job) = self.again.take() {
            return Command::Post(job);
        }
        match self.jobs.try_recv(self.rt) {
            Ok(job) => Command::Post(job),
            Err(_) => Command::Rest,
        }
    }

    fn take(&mut self, _part: PartId, receipt: Receipt) {
        self.done = self.done.saturating_add(1);
        let answers = if receipt.txn.id() < JOBS {
            &self.first
        } else {
            &self.second
        };
        drop(answers.send(self.rt, receipt));
    }

    fn take_back(&mut self, job: Job, fault: PostFault) {
        match fault {
            PostFault::QueueFull | PostFault::Memory => self.again = Some(job),
            PostFault::NoSuchPartition | PostFault::RepeatedId => {
                self.done = self.done.saturating_add(1);
            }
        }
    }
}
