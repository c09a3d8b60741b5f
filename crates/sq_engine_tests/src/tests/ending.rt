// Workers that a gate ends while another thread posts jobs: each job that was taken has a receipt, or is among those that are left.
ghost use Rattle.std.specs.Prelude.{◌≡◌, [], IfOk};
ghost use Rattle.sq_driver.specs.Told.{nodes_of};
ghost use Rattle.sq_gather.specs.Gathered.{AreAllOf};

use sq_driver::{Collector, Gate, NodeStep, TellingNode, run_workers};
use sq_gather::{Gathered, gather};
use sq_moves::Opening;
use sq_node::{Fabric, Node, RunParts};
use sq_trial::{JobSource, PARTS, PlanChoice, ROOTS, Workload, opening_at};
use std::alloc::{AllocError, Global};
use std::process::Abort;
use std::sync::Wait;
use std::sync::atomic::{AtomicU64, Ordering};
use std::thread;
use std::thread::Threads;

// How many runs there are, with how many answers their gate ends each, and how many jobs it is offered at most.
const RUNS: u64 = 20;

const ENOUGH: u64 = 100;

const JOBS: u64 = 100_000;

// A node with its collector.
type Pair = TellingNode<Collector>;

// More turns than any of the workers takes.
const TURNS: u64 = 1_000_000_000_000;

// A gate that ends all workers once there are enough answers, and none before.
#[derive(Drop)]
struct EnoughGate {
    answers: AtomicU64,
}

impl Gate for EnoughGate {
    fn pass(&self, _who: u64, step: NodeStep) -> bool {
        if step == NodeStep::Answered {
            self.answers.fetch_add(1, Ordering::SeqCst);
        }
        self.answers.load(Ordering::SeqCst) < ENOUGH
    }

    fn ends_idle(&self) -> bool {
        false
    }
}

// Gives a collector to each of these nodes.
fn pairs_of(alloc: Global, nodes: Vec<Node>) -> Result<Vec<Pair>, AllocError>
    ensures { IfOk result (λ pairs. nodes_of pairs.items ≡ nodes.items) }
{
    let mut pairs = Vec::with_capacity(alloc, nodes.len())?;
    for node in nodes {
        let teller = Collector::new(alloc);
        pairs.push_reserved(TellingNode { node, teller });
    }
    Ok(pairs)
}

// A run at rest: what its workers share, and its nodes, each with a collector. It has no pumps.
fn opened(alloc: Global, opening: &Opening) -> Result<(Fabric, Vec<Pair>), AllocError>
    ensures { IfOk result (λ run. AreAllOf run.0 (nodes_of run.1.items) []) }
{
    let RunParts { fabric, nodes, .. } = Fabric::open(alloc, opening, 0)?;
    let pairs = pairs_of(alloc, nodes)?;
    Ok((fabric, pairs))
}

// Drives the workers until their gate ends them.
fn drive<R: Threads + Wait + Sync>(
    rt: &R,
    fabric: &Fabric,
    mut pairs: Vec<Pair>,
    gate: &EnoughGate,
) -> Vec<Pair>
    requires { AreAllOf fabric.now (nodes_of pairs.items) [] }
    ensures { AreAllOf fabric.now (nodes_of result.items) [] }
{
    run_workers(rt, fabric, &mut pairs, &mut [], TURNS, gate);
    pairs
}

// Posts jobs of this seed until one comes back. How many were taken, whose ids are 0, 1, 2 and so on.
fn post_until_one_returns<R: Wait>(rt: &R, alloc: Global, fabric: &Fabric, seed: u64) -> u64 {
    let mut source = JobSource::new(Workload {
        seed,
        jobs: JOBS,
        parts: PARTS,
        roots: ROOTS,
    });
    for taken in 0..JOBS {
        let Ok((job, _root)) = source.make(alloc) else {
            return taken;
        };
        if fabric.post(rt, job.part, job.txn).is_err() {
            return taken;
        }
        thread::yield_now();
    }
    JOBS
}

// Drives the workers while another thread posts jobs. The workers then, and how many jobs were taken.
fn run_beside<R: Threads + Wait + Sync>(
    rt: &R,
    alloc: Global,
    fabric: &Fabric,
    pairs: Vec<Pair>,
    seed: u64,
) -> (Vec<Pair>, u64)
    requires { AreAllOf fabric.now (nodes_of pairs.items) [] }
    ensures { AreAllOf fabric.now (nodes_of result.0.items) [] }
{
    let gate = EnoughGate {
        answers: AtomicU64::new(0),
    };
    let shared = &gate;
    thread::join(
        rt,
        move ||
            requires { AreAllOf fabric.now (nodes_of pairs.items) [] }
            ensures { AreAllOf fabric.entry.now (nodes_of result.items) [] }
        { drive(rt, fabric, pairs, shared) },
        move || post_until_one_returns(rt, alloc, fabric, seed),
    )
}

// Adds the ids of the jobs that have a receipt, and returns the nodes alone.
fn take_told(alloc: Global, pairs: Vec<Pair>, ids: &mut Vec<u64>) -> Result<Vec<Node>, AllocError>
    ensures { IfOk result (λ nodes. nodes.items ≡ nodes_of pairs.items) }
{
    let mut nodes = Vec::with_capacity(alloc, pairs.len())?;
    for pair in pairs {
        for receipt in &pair.teller.receipts {
            ids.push(receipt.txn.id())?;
        }
        nodes.push_reserved(pair.node);
    }
    Ok(nodes)
}

// Adds the ids of the jobs that are left.
fn add_left(gathered: &Gathered, ids: &mut Vec<u64>) -> Result<(), AllocError> {
    for jobs in &gathered.left {
        for job in jobs {
            ids.push(job.id())?;
        }
    }
    Ok(())
}

// Whether these are the numbers below a count, in their order.
fn are_all_below(ids: &[u64], count: u64) -> bool {
    for (id, number) in ids.iter().zip(0..count) {
        if *id != number {
            return false;
        }
    }
    ids.len() as u64 == count
}

// A run that ends while jobs are posted: each job that was taken is answered or left, once.
fn end_beside<R: Threads + Wait + Abort + Sync>(
    rt: &R,
    alloc: Global,
    opening: &Opening,
    seed: u64,
) -> Result<(), AllocError> {
    let (fabric, pairs) = opened(alloc, opening)?;
    let (pairs, taken) = run_beside(rt, alloc, &fabric, pairs, seed);
    let mut ids = Vec::new(alloc);
    let run = RunParts {
        fabric,
        nodes: take_told(alloc, pairs, &mut ids)?,
        pumps: Vec::new(alloc),
    };
    let answered = ids.len() as u64;
    let gathered = gather(rt, alloc, run).ok();
    let gathered = gathered.expect(rt, "no memory for what is gathered");
    add_left(&gathered, &mut ids)?;
    drop(gathered);
    ids.sort_unstable();
    assert!(rt;
        answered >= ENOUGH,
        "it ended before there were enough answers"
    );
    assert!(rt;
        are_all_below(&ids, taken),
        "not each job that was taken is answered or left, once"
    );
    Ok(())
}

#[test]
fn jobs_posted_as_workers_end_are_left(rt: HostRuntime) {
    let alloc = rt.alloc();
    let opening = opening_at(alloc, PlanChoice::Spread).expect(&rt, "no memory for an opening");
    for seed in 0..RUNS {
        let ended = end_beside(&rt, alloc, &opening, seed);
        assert_eq!(rt; ended, Ok(()), "seed {seed}");
    }
}
