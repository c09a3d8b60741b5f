// Threads that post jobs and count the answers.
use crossbeam_channel::{Receiver, Sender};
use sq_audit::Job;
use sq_node::Receipt;
use sq_plan::PartId;
use sq_schema::{Op, RowKey, Schema, Txn};
use std::alloc::Global;
use std::ops::Range;
use std::sync::Wait;

/// How many jobs a thread creates.
pub(crate) const JOBS: u64 = 1_000;

/// A thread that posts jobs, and counts their answers.
#[derive(Drop)]
pub(crate) struct Asker {
    schema: Schema,
    ids: Range<u64>,
    jobs: Sender<Job>,
    answers: Receiver<Receipt>,
}

impl Asker {
    /// Returns a thread with jobs of these ids, which sends them over `jobs` and receives their
    /// answers over `answers`.
    pub(crate) fn new(
        schema: Schema,
        ids: Range<u64>,
        jobs: Sender<Job>,
        answers: Receiver<Receipt>,
    ) -> Asker {
        Asker {
            schema,
            ids,
            jobs,
            answers,
        }
    }

    /// Creates its jobs, sends them, and counts their answers until no more can arrive.
    pub(crate) fn ask<R: Wait>(self, rt: &R, alloc: Global) -> u64 {
        let Asker {
            schema,
            ids,
            jobs,
            answers,
        } = self;
        for id in ids {
            if let Some(job) = make_job(alloc, schema, id) {
                drop(jobs.send(rt, job));
            }
        }
        answers.iter(rt).count() as u64
    }
}

// Returns a job that adds 1 to the number of one of ten root keys. It is posted to partition 0,
// wherever the root key is.
fn make_job(alloc: Global, schema: Schema, id: u64) -> Option<Job> {
    let row = RowKey { table: 0, sub: 0 };
    let ops = vec![in alloc; Op::Add(row, 1)].ok()?;
    let txn = Txn::new(&schema, id, id % 10, ops).ok()?;
    Some(Job {
        part: PartId::new(0),
        txn,
    })
}
