// Serving a client in an epoch.
ghost use Rattle.std.specs.Prelude.{◌≡◌, ◌≤◌, length, All, IfOk, IfErr};
ghost use Rattle.sq_node.specs.NodeState.{IsNodeOf};
ghost use Rattle.sq_driver.specs.Pumps.{HasAllSeats};
ghost use Rattle.sq_driver.specs.Told.{nodes_of};
ghost use Rattle.sq_engine.specs.Clients.{InStage};
ghost use Rattle.sq_engine.specs.Serving.{IsReady, IsServed, epoch_end};
ghost use Rattle.sq_engine.specs.Values.{run_value};

use crate::client::Client;
use crate::crew::{Crew, run_and_serve};
use crate::epoch_gate::EpochGate;
use crate::open_jobs::OpenJobs;
use crate::rings::give_rest;
use crate::stage_progress::StageProgress;
use crate::telling::{are_whole, open_rings, with_tellers, without_tellers};
use rtrb::Consumer;
use sq_driver::WorkersEnd;
use sq_node::{Fabric, Node, Receipt, RunParts};
use std::alloc::Global;
use std::sync::Wait;
use std::thread::Threads;

/// How an epoch ended in which a client was served.
#[derive(Clone, Copy, Debug, PartialEq, Eq)]
pub enum EpochEnd {
    /// The client asked for its end, each segment of its stage is complete, or the workers have
    /// taken their turns. The client was given each answer, and the engine can be served again.
    Whole,
    /// A node had no thread. The client was asked for nothing.
    LacksThreads,
    /// A receipt has arrived that is no open job's. The client wasn't given it.
    ReceiptUnknown,
    /// A worker lacked memory for some seconds, and could do nothing meanwhile.
    LacksMemory,
    /// A receipt that was written hasn't arrived, nor has a later one of its partition.
    ReceiptLost,
}

/// A run whose nodes have tellers, the rings over which these send, room for the nodes, and the
/// gate of the epoch.
#[derive(Drop)]
pub(crate) struct Ready {
    pub(crate) fabric: Fabric,
    pub(crate) crew: Crew,
    pub(crate) rings: Vec<Consumer<Receipt>>,
    pub(crate) room: Vec<Node>,
    pub(crate) gate: EpochGate,
}

/// What is left after a client was served.
#[derive(Drop)]
pub(crate) struct ServedRun {
    /// The run, whose workers were driven.
    pub(crate) run: RunParts,
    /// The progress of the stage, as the workers reported it.
    pub(crate) progress: StageProgress,
    /// How the epoch ended.
    pub(crate) end: EpochEnd,
}

/// Gives tellers to the nodes of `run`, whose stage has come as far as `progress`; its first
/// `claiming_pumps` pumps claim. If memory runs out, `run` is returned.
pub(crate) fn make_ready(
    alloc: Global,
    run: RunParts,
    progress: StageProgress,
    claiming_pumps: u64,
) -> Result<Ready, RunParts>
    requires { length run.nodes.items ≡ run.fabric.parts }
    ensures ready { IfOk result (IsReady run.fabric.parts) }
    ensures fabric { IfOk result (λ ready. ready.fabric ≡ run.fabric) }
    ensures nodes { IfOk result (λ ready. nodes_of ready.crew.pairs.items ≡ run.nodes.items) }
    ensures pumps { IfOk result (λ ready. ready.crew.pumps ≡ run.pumps) }
    ensures stage { IfOk result (λ ready. ready.gate.segments ≡ progress.segments) }
    ensures returned { IfErr result (λ back. back ≡ run) }
{
    let Ok(room) = Vec::with_capacity(alloc, run.nodes.len()) else {
        return Err(run);
    };
    let parts = run.fabric.parts();
    let Ok((tellers, rings)) = open_rings(alloc, parts) else {
        return Err(run);
    };
    let Ok(gate) = EpochGate::new(alloc, parts, progress, claiming_pumps) else {
        return Err(run);
    };
    let RunParts {
        fabric,
        nodes,
        pumps,
    } = run;
    match with_tellers(alloc, nodes, tellers) {
        Ok(pairs) => Ok(Ready {
            fabric,
            crew: Crew { pairs, pumps },
            rings,
            room,
            gate,
        }),
        Err(nodes) => Err(RunParts {
            fabric,
            nodes,
            pumps,
        }),
    }
}

/// Runs the workers for at most `turns` turns each and serves `client` until the epoch ends, and
/// gives it the answers that are still on their way.
pub(crate) fn run_ready<C: Client, R: Threads + Wait + Sync>(
    rt: &R,
    ready: Ready,
    jobs: &mut OpenJobs,
    turns: u64,
    client: &mut C,
) -> ServedRun
    requires ready { IsReady ready.fabric.parts ready }
    requires nodes { All (IsNodeOf ready.fabric) (nodes_of ready.crew.pairs.items) }
    requires pumps { All (HasAllSeats ready.fabric) ready.crew.pumps.items }
    ensures served { IsServed (InStage ready.gate.segments C.Becomes)
        (run_value ready.fabric (nodes_of ready.crew.pairs.items) ready.crew.pumps.items)
        jobs.old client.old result jobs.new client.new }
    ensures progress { result.progress.complete ≤ result.progress.segments }
    ensures stage { result.progress.segments ≡ ready.gate.segments }
{
    let Ready {
        fabric,
        mut crew,
        mut rings,
        room,
        gate,
    } = ready;
    let (workers, has_threads) = run_and_serve(
        rt, &fabric, &mut crew, turns, &gate, &mut rings, jobs, client,
    );
    let Crew { mut pairs, pumps } = crew;
    let is_whole = are_whole(&pairs);
    give_rest(fabric.parts(), &mut pairs, &mut rings, jobs, client);
    if !is_whole {
        jobs.lose();
    }
    fabric.open_jobs(rt);
    ServedRun {
        progress: gate.progress(),
        end: end_of(jobs, has_threads, workers),
        run: RunParts {
            fabric,
            nodes: without_tellers(pairs, room),
            pumps,
        },
    }
}

// Returns how an epoch ended with `jobs`, whose workers ended with `workers`.
fn end_of(jobs: &OpenJobs, has_threads: bool, workers: WorkersEnd) -> EpochEnd
    ensures { result ≡ epoch_end jobs.now.events has_threads workers }
{
    if !has_threads {
        EpochEnd::LacksThreads
    } else if !jobs.all_known() {
        EpochEnd::ReceiptUnknown
    } else if workers == WorkersEnd::LacksMemory {
        EpochEnd::LacksMemory
    } else if !jobs.is_whole() {
        EpochEnd::ReceiptLost
    } else {
        EpochEnd::Whole
    }
}
