// Posting a job.
ghost use Rattle.std.specs.Prelude.{◌≡◌, if◌then◌else◌, IfErr, OnOk, OnErr};
ghost use Rattle.sq_engine.specs.declared.event.Event.TheVariants.{Posts};
ghost use Rattle.sq_engine.specs.Open.{Adds, KeepsJobs, IsReturned};

use crate::open_jobs::{OpenJobs, PostFault};
use sq_audit::Job;
use sq_node::{Fabric, Unposted};
use std::sync::Wait;

/// Posts `job` to its partition, and opens it in `jobs`, which keep a copy of its transaction. If
/// it is refused, no event is added, the same jobs are open, and it is returned. A run that takes
/// no more jobs refuses it with `QueueFull`.
pub(crate) fn post_job<R: Wait>(
    rt: &R,
    fabric: &Fabric,
    jobs: &mut OpenJobs,
    job: Job,
) -> Result<(), (Job, PostFault)>
    ensures ok { OnOk result (Adds (Posts job) jobs.old jobs.new) }
    ensures err { OnErr result (KeepsJobs jobs.old jobs.new) }
    ensures refused { IfErr result (λ refused.
        IsReturned fabric.now.parts job jobs.old refused.0 refused.1) }
{
    if job.part.number() >= fabric.parts() {
        return Err((job, PostFault::NoSuchPartition));
    }
    let Ok(txn) = job.txn.clone() else {
        return Err((job, PostFault::Memory));
    };
    let Job { part, txn: sent } = job;
    let id = sent.id();
    let events = jobs.history();
    if let Err(fault) = jobs.open(Job { part, txn }) {
        return Err((Job { part, txn: sent }, fault));
    }
    match fabric.post(rt, part, sent) {
        Ok(()) => Ok(()),
        Err(back) => {
            jobs.take_back(id, events);
            let fault = post_fault(&back);
            Err((
                Job {
                    part,
                    txn: back.job,
                },
                fault,
            ))
        }
    }
}

// Returns why an existing partition returned a job.
fn post_fault(back: &Unposted) -> PostFault
    ensures { result ≡ if back.now.is_memory then PostFault.Memory else PostFault.QueueFull }
{
    if back.is_memory {
        PostFault::Memory
    } else {
        PostFault::QueueFull
    }
}
