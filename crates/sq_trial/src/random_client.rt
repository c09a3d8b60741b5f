// A random client of an engine.
use crate::failure::Failure;
use crate::heard::heard_in;
use crate::hearing::Hearing;
use crate::job_source::JobSource;
use crate::workload::Workload;
use sq_audit::Job;
use sq_engine::{Client, Command, Engine, NotPosted, PostFault, StageProgress};
use sq_node::Receipt;
use sq_plan::PartId;
use std::alloc::Global;
use std::sync::Wait;

// How many of its jobs may wait for an answer while it is served.
const AHEAD: u64 = 1_000;

// How many calls in a row without a job and without an answer it accepts before it takes the
// missing answers for lost.
const PATIENCE: u64 = 100_000;

/// A client that posts random jobs, and judges what it hears.
#[derive(Drop)]
pub(crate) struct RandomClient {
    alloc: Global,
    source: JobSource,
    hearing: Hearing,
    // A job that came back, to be posted again.
    again: Option<Job>,
    // How many of its jobs are to be answered before it ends an epoch.
    awaited: u64,
    // How many calls in vain there were since the last answer.
    asked_in_vain: u64,
    // The first thing that was wrong.
    failure: Option<Failure>,
}

impl RandomClient {
    /// A client with the jobs of `workload`.
    pub(crate) fn new(alloc: Global, workload: Workload) -> Result<RandomClient, Failure> {
        let hearing = Hearing::new(alloc)?;
        Ok(RandomClient {
            alloc,
            source: JobSource::new(workload),
            hearing,
            again: None,
            awaited: 0,
            asked_in_vain: 0,
            failure: None,
        })
    }

    /// How many jobs it has, posted or not.
    pub(crate) fn jobs(&self) -> u64 {
        self.source.jobs()
    }

    /// How many of its jobs were posted.
    pub(crate) fn posted(&self) -> u64 {
        self.source
            .made()
            .saturating_sub(u64::from(self.again.is_some()))
    }

    /// How many of its jobs were answered.
    pub(crate) fn answered(&self) -> u64 {
        self.hearing.count()
    }

    /// Makes it end an epoch once `answers` of its jobs are answered.
    pub(crate) fn wait_for(&mut self, answers: u64) {
        self.awaited = answers;
        self.asked_in_vain = 0;
    }

    /// Returns whether as many of its jobs are answered as it waits for.
    pub(crate) fn has_heard_enough(&self) -> bool {
        self.hearing.count() >= self.awaited
    }

    /// Fails with the first thing that was wrong so far.
    pub(crate) fn judge_so_far(&self) -> Result<(), Failure> {
        match self.failure {
            Some(failure) => Err(failure),
            None => Ok(()),
        }
    }

    /// Fails if `outcome` does, if anything was wrong so far, or if [`Hearing::judge`] does on what
    /// was heard.
    pub(crate) fn judge(self, outcome: Result<(), Failure>) -> Result<(), Failure> {
        outcome.and(self.judge_so_far()).and(self.hearing.judge())
    }

    /// Posts `count` of its jobs to an engine, or fewer if it has no more or a queue is full.
    pub(crate) fn post<R: Wait>(
        &mut self,
        rt: &R,
        engine: &mut Engine,
        count: u64,
    ) -> Result<(), Failure> {
        for _job in 0..count {
            let Some(job) = self.next_job()? else {
                return Ok(());
            };
            if let Err((job, why)) = engine.post(rt, job) {
                return match why {
                    NotPosted::Refused(fault) => self.keep(job, fault),
                    NotPosted::NoEpoch => Err(Failure::NotPosted),
                };
            }
        }
        Ok(())
    }

    // Hears an answer of a partition.
    fn hear(&mut self, part: PartId, receipt: &Receipt) -> Result<(), Failure> {
        self.asked_in_vain = 0;
        self.hearing.hear_from(part.number(), heard_in(receipt)?)
    }

    // The job that came back, or else the next one, if there is one.
    fn next_job(&mut self) -> Result<Option<Job>, Failure> {
        if let Some(job) = self.again.take() {
            return Ok(Some(job));
        }
        if self.source.is_spent() {
            return Ok(None);
        }
        let (job, root) = self.source.make(self.alloc)?;
        self.hearing.ask(root)?;
        Ok(Some(job))
    }

    // Keeps a job that came back because its queue was full.
    fn keep(&mut self, job: Job, fault: PostFault) -> Result<(), Failure> {
        if fault != PostFault::QueueFull {
            return Err(Failure::NotPosted);
        }
        self.again = Some(job);
        Ok(())
    }

    // Returns whether as many jobs wait for an answer as may.
    fn is_far_ahead(&self) -> bool {
        self.again.is_none() && self.source.made() >= self.hearing.count().saturating_add(AHEAD)
    }

    // Its next command. Fails if something is wrong.
    fn command(&mut self) -> Result<Command, Failure> {
        let job = if self.is_far_ahead() {
            None
        } else {
            self.next_job()?
        };
        match job {
            Some(job) => Ok(Command::Post(job)),
            None => {
                self.wait_longer()?;
                Ok(Command::Rest)
            }
        }
    }

    // Counts one more call in vain.
    fn wait_longer(&mut self) -> Result<(), Failure> {
        self.asked_in_vain = self.asked_in_vain.saturating_add(1);
        if self.asked_in_vain < PATIENCE {
            Ok(())
        } else {
            Err(Failure::Unanswered)
        }
    }

    // Records the first thing that was wrong.
    fn note(&mut self, outcome: Result<(), Failure>) {
        if let Err(failure) = outcome
            && self.failure.is_none()
        {
            self.failure = Some(failure);
        }
    }
}

impl Client for RandomClient {
    ghost Becomes = { λ _ _ _. Unit {0} };

    fn next(&mut self, _progress: StageProgress) -> Command {
        if self.failure.is_some() || self.has_heard_enough() {
            return Command::End;
        }
        match self.command() {
            Ok(command) => command,
            Err(failure) => {
                self.note(Err(failure));
                Command::End
            }
        }
    }

    fn take(&mut self, part: PartId, receipt: Receipt) {
        let outcome = self.hear(part, &receipt);
        self.note(outcome);
    }

    fn take_back(&mut self, job: Job, fault: PostFault) {
        let outcome = self.keep(job, fault);
        self.note(outcome);
    }
}
