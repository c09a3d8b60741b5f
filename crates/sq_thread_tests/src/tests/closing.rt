// The end of a run to which another thread posts jobs meanwhile: each one that was taken is answered, and once the workers have
// ended none is taken.
ghost use Rattle.std.specs.Prelude.{IfOk, All};
ghost use Rattle.sq_node.specs.NodeState.{IsNodeOf};
ghost use Rattle.sq_driver.specs.Pumps.{HasAllSeats};
ghost use Rattle.sq_driver.specs.Told.{nodes_of};

use super::driver::APART;
use super::run::{Pair, job, pairs_of, read_opening, work_to_end};
use sq_moves::Opening;
use sq_node::{Fabric, RunParts};
use sq_plan::PartId;
use sq_schema::Txn;
use sq_shared::Pump;
use std::alloc::{AllocError, Global};
use std::process::Abort;
use std::sync::Wait;
use std::test::Fail;
use std::thread;
use std::thread::Threads;

// How many runs there are, and how many jobs each is offered.
const RUNS: u64 = 50;

const JOBS: usize = 40;

// A run of two partitions: what its nodes share, the nodes, and no pumps.
fn opened(alloc: Global, opening: &Opening) -> Result<RunParts, AllocError>
    ensures nodes { IfOk result (λ run. All (IsNodeOf run.fabric) run.nodes.items) }
    ensures pumps { IfOk result (λ run. All (HasAllSeats run.fabric) run.pumps.items) }
{
    let parts = Fabric::open(alloc, opening, 0)?;
    Ok(parts)
}

// Jobs of root keys of both partitions.
fn jobs<R: Abort>(rt: &R, alloc: Global) -> Result<Vec<Txn>, AllocError> {
    let mut jobs = Vec::new(alloc);
    for id in 0..JOBS {
        let root = id % 16;
        let line = format!(in alloc; "txn 0 {id} {root} get 0 0")?;
        jobs.push(job(rt, alloc, &line).txn)?;
    }
    Ok(jobs)
}

// Posts jobs to the partitions in turn, until one comes back, and lets other threads go first after each. How many were taken.
fn post_each<R: Wait>(rt: &R, fabric: &Fabric, jobs: Vec<Txn>) -> usize {
    let mut taken: usize = 0;
    for job in jobs {
        let part = PartId::new((job.id() % 2) as u8);
        if fabric.post(rt, part, job).is_err() {
            break;
        }
        taken = taken.saturating_add(1);
        thread::yield_now();
    }
    taken
}

// Runs the workers while another thread posts jobs. How many receipts the nodes have then, and how many jobs were taken.
fn work_beside<R: Threads + Wait + Sync>(
    rt: &R,
    fabric: &Fabric,
    pairs: Vec<Pair>,
    pumps: Vec<Pump>,
    jobs: Vec<Txn>,
) -> (usize, usize)
    requires nodes { All (IsNodeOf fabric.now) (nodes_of pairs.items) }
    requires pumps { All (HasAllSeats fabric.now) pumps.items }
{
    thread::join(
        rt,
        move ||
            requires nodes { All (IsNodeOf fabric.now) (nodes_of pairs.items) }
            requires pumps { All (HasAllSeats fabric.now) pumps.items }
        { work_to_end(rt, fabric, pairs, pumps) },
        move || post_each(rt, fabric, jobs),
    )
}

// Whether a run takes another job.
fn takes_another<R: Wait + Abort>(rt: &R, alloc: Global, fabric: &Fabric) -> bool {
    let another = job(rt, alloc, "txn 0 99 5 get 0 0");
    fabric.post(rt, another.part, another.txn).is_ok()
}

// A run to which another thread posts jobs: each job that was taken is answered, and none is taken after its end.
fn run_beside<R: Threads + Wait + Abort + Sync>(
    rt: &R,
    alloc: Global,
    opening: &Opening,
) -> Result<(), AllocError> {
    let jobs = jobs(rt, alloc)?;
    let RunParts {
        fabric,
        nodes,
        pumps,
    } = opened(alloc, opening)?;
    let (receipts, taken) = work_beside(rt, &fabric, pairs_of(alloc, nodes)?, pumps, jobs);
    assert_eq!(rt; receipts, taken, "not each job that was taken is answered");
    assert!(rt;
        !takes_another(rt, alloc, &fabric),
        "it takes a job after its end"
    );
    Ok(())
}

#[test]
fn jobs_come_back_from_a_run_that_ends(rt: HostRuntime) -> Result<(), Fail> {
    let alloc = rt.alloc();
    let opening = read_opening(&rt, alloc, APART);
    for _run in 0..RUNS {
        run_beside(&rt, alloc, &opening)?;
    }
    Ok(())
}
