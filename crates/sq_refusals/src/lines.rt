// Readers of openings and jobs.
ghost use Rattle.std.specs.Prelude.{IfOk};
ghost use Rattle.sq_audit.specs.Answers.{IdsDiffer};

use crate::unfinished::Unfinished;
use sq_audit::Job;
use sq_model::Step;
use sq_moves::Opening;
use sq_plan::PartId;
use sq_schema::Schema;
use sq_text::{LineReader, read_header, read_step};
use std::alloc::Global;

/// Returns the opening of a header.
pub fn read_opening(alloc: Global, header: &str) -> Result<Opening, Unfinished> {
    let mut lines = LineReader::new(alloc, header.as_bytes())?;
    Ok(read_header(alloc, Schema::largest(), &mut lines)?)
}

/// Returns the job of `line`, which names its partition.
pub fn read_job(alloc: Global, line: &str) -> Result<Job, Unfinished> {
    match read_step(alloc, &Schema::largest(), line.as_bytes())? {
        Step::Submit(part, txn) if part < 256 => Ok(Job {
            part: PartId::new(part as u8),
            txn,
        }),
        _ => Err(Unfinished::Malformed),
    }
}

/// Returns the jobs of two lines, whose ids differ.
pub fn read_two_jobs(alloc: Global, first: &str, second: &str) -> Result<Vec<Job>, Unfinished>
    ensures { IfOk result (λ jobs. IdsDiffer jobs.items) }
{
    let first = read_job(alloc, first)?;
    let second = read_job(alloc, second)?;
    if first.txn.id() == second.txn.id() {
        return Err(Unfinished::Malformed);
    }
    let mut jobs = Vec::with_capacity(alloc, 2)?;
    jobs.push_reserved(first);
    jobs.push_reserved(second);
    Ok(jobs)
}
