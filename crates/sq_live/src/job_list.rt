// The jobs that lines spell.
ghost use Rattle.std.specs.Prelude.{◌≡◌, ◌==◌, ◌≤◌, [], length, IfOk, IfErr};
ghost use Rattle.sq_audit.specs.Answers.{IdsDiffer};
ghost use Rattle.sq_live.specs.Jobs.{HavePartitions};
ghost use Rattle.sq_live.specs.JobLines.{AddsJob, AddsFresh, AreJobs, IsFirstFault};

use crate::fault::{JobFault, LiveFault};
use sq_audit::Job;
use sq_model::Step;
use sq_node::JOB_PLACES;
use sq_plan::PartId;
use sq_schema::{Schema, Txn};
use sq_text::{InputFault, InputLine, LineFault, LineReader, MAX_UNENDED, Next, read_step};
use std::alloc::Global;
use std::collections::BTreeSet;
use std::io::Read;
use std::marker::Model;

/// The largest number of jobs in a live run: as many as the queue of a partition holds.
pub const MAX_JOBS: usize = JOB_PLACES;

/// At most [`MAX_JOBS`] jobs, whose ids differ. To a contract it is the list of the jobs.
#[derive(Drop)]
pub struct JobList {
    jobs: Vec<Job>,
    ids: BTreeSet<u64>,
}

impl Model for JobList {
    ghost use Rattle.std.specs.Prelude.{List};
    ghost use Rattle.sq_audit.specs.declared.job.Job as job;
    ghost use Rattle.sq_live.specs.Jobs.{HasIds};

    ghost Value = { List job.Job };

    ghost view = { λ l. l.jobs.items };

    ghost invariant = { λ l. HasIds l.jobs.items l.ids };
}

impl JobList {
    /// Returns an empty list.
    pub fn new(alloc: Global) -> JobList
        ensures { result ≡ [] }
    {
        JobList {
            jobs: Vec::new(alloc),
            ids: BTreeSet::new(alloc),
        }
    }

    /// Returns the jobs, in the order of their lines.
    pub fn as_slice(&self) -> &[Job]
        ensures jobs { result.now ≡ self.now }
        ensures differ { IdsDiffer result.now }
        ensures few { length result.now ≤ MAX_JOBS }
    {
        &self.jobs
    }

    /// Returns the jobs, in the order of their lines.
    pub fn into_jobs(self) -> Vec<Job>
        ensures jobs { result.items ≡ self }
        ensures differ { IdsDiffer result.items }
        ensures few { length result.items ≤ MAX_JOBS }
    {
        self.jobs
    }

    // Adds the job that `line` spells.
    fn add_line(
        &mut self,
        alloc: Global,
        schema: &Schema,
        parts: u8,
        line: &[u8],
    ) -> Result<(), JobFault>
        ensures { AddsJob schema.now parts self.old line.now result self.new }
    {
        match read_step(alloc, schema, line) {
            Ok(Step::Submit(part, txn)) => self.add(parts, part, txn),
            Ok(_) | Err(LineFault::NotAStep) => Err(JobFault::NotAJob),
            Err(LineFault::TooLong) => Err(JobFault::LineTooLong),
            Err(LineFault::Txn(_)) if self.is_full() => Err(JobFault::TooMany),
            Err(LineFault::Txn(fault)) => Err(JobFault::Txn(fault)),
            Err(LineFault::Memory) => Err(JobFault::Memory),
        }
    }

    fn add(&mut self, parts: u8, part: u64, txn: Txn) -> Result<(), JobFault>
        ensures { AddsFresh parts self.old part txn result self.new }
    {
        if self.is_full() {
            return Err(JobFault::TooMany);
        }
        if part >= u64::from(parts) {
            return Err(JobFault::NoSuchPartition);
        }
        if self.jobs.reserve(1).is_err() {
            return Err(JobFault::Memory);
        }
        let Ok(txn) = txn.share() else {
            return Err(JobFault::Memory);
        };
        match self.ids.insert(txn.id()) {
            Ok(true) => {
                let part = PartId::new(part as u8);
                self.jobs.push_reserved(Job { part, txn });
                Ok(())
            }
            Ok(false) => Err(JobFault::RepeatedId),
            Err(_) => Err(JobFault::Memory),
        }
    }

    // Returns true if the list holds [`MAX_JOBS`] jobs.
    fn is_full(&self) -> bool
        ensures { result ≡ (length self.now == MAX_JOBS) }
    {
        self.jobs.len() == MAX_JOBS
    }
}

/// Reads the jobs that the rest of an input spells, once its header has been read.
///
/// A line is `txn P ID ROOT OP..`, and its job is posted to partition P, which is below `parts`.
/// The fault that is returned is that of the first line with one, and for this line the first of
/// these: it has over [`MAX_LINE`](sq_text::MAX_LINE) bytes; it has another form, or no end; there
/// are [`MAX_JOBS`] jobs before it; `schema` does not have the transaction; the partition does not
/// exist; an earlier job has its id. An input that is too long or can't be read to its end is
/// refused too. [`InputFault::Memory`] may be returned in place of any answer.
pub fn read_jobs<R: Read>(
    alloc: Global,
    schema: &Schema,
    parts: u8,
    lines: &mut LineReader<R>,
) -> Result<JobList, LiveFault>
    ensures jobs { IfOk result (AreJobs schema.now parts lines.old) }
    ensures partitions { IfOk result (HavePartitions parts) }
    ensures fault { IfErr result (IsFirstFault schema.now parts lines.old) }
{
    let mut jobs = JobList::new(alloc);
    loop {
        let line = lines.next_line_number();
        match lines.next_read(MAX_UNENDED) {
            Next::Line => {
                if let Err(fault) = jobs.add_line(alloc, schema, parts, lines.piece()) {
                    return Err(fault.at(line));
                }
            }
            Next::Rest => return Err(JobFault::NotAJob.at(line)),
            Next::End => return Ok(jobs),
            Next::Failed => return Err(InputFault::ReadFailed.at(InputLine::Later(line)).into()),
            Next::Long => return Err(InputFault::TooLong.at(InputLine::Later(line)).into()),
            Next::TooMany => {
                return Err(InputFault::TooLong.at(InputLine::AFTER_THE_LAST).into());
            }
            Next::Unread => unreachable!(),
        }
    }
}
