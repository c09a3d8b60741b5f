// Where the workers of an epoch and its client meet, in the client's thread.
ghost use Rattle.std.specs.Prelude.{◌≡◌, true, length};
ghost use Rattle.sq_engine.specs.Clients.{InStage, IsOffered, DoesCommand};
ghost use Rattle.sq_engine.specs.Rings.{GivesArrived, Serves};

use crate::back_off::BackOff;
use crate::client::{Client, Command};
use crate::epoch_gate::EpochGate;
use crate::open_jobs::OpenJobs;
use crate::posting::post_job;
use crate::rings::give_arrived;
use rtrb::Consumer;
use sq_audit::Job;
use sq_node::{Fabric, Receipt};
use std::sync::Wait;

// How many turns the nodes have to start, with a sleep after most of them. After these 4 seconds
// the epoch assumes that a node has no thread.
const TURNS_ALONE: u64 = 600;

// How many commands a client may give between two looks at the rings.
const COMMANDS_A_TURN: u64 = 64;

/// Serves `client` until the workers have ended, once each node has started, and returns true. If
/// one doesn't start, for lack of a thread, the epoch is over: a node that starts later performs no
/// step, `client` isn't asked for commands, and false is returned. It is given answers in any case.
pub(crate) fn serve_client<C: Client, R: Wait>(
    rt: &R,
    fabric: &Fabric,
    gate: &EpochGate,
    rings: &mut [Consumer<Receipt>],
    jobs: &mut OpenJobs,
    client: &mut C,
) -> bool
    requires { length rings.old ≡ fabric.now.parts }
    ensures { Serves (InStage gate.now.segments C.Becomes)
        jobs.old rings.old client.old jobs.new rings.new client.new result }
{
    let has_threads = wait_for_nodes(rt, fabric, gate, rings, jobs, client);
    if has_threads {
        take_turns(rt, fabric, gate, rings, jobs, client);
    } else {
        gate.end();
        drain_rings(rt, fabric, gate, rings, jobs, client);
    }
    has_threads
}

// Waits until each node has started or the workers have ended, and gives `client` each answer that
// arrives. Returns true unless a node had no thread for some seconds.
fn wait_for_nodes<C: Client, R: Wait>(
    rt: &R,
    fabric: &Fabric,
    gate: &EpochGate,
    rings: &mut [Consumer<Receipt>],
    jobs: &mut OpenJobs,
    client: &mut C,
) -> bool
    requires { length rings.old ≡ fabric.now.parts }
    ensures { GivesArrived C.Becomes jobs.old rings.old client.old jobs.new rings.new client.new }
{
    let mut back_off = BackOff::STEEP;
    for _turn in 0..TURNS_ALONE {
        if gate.have_all_come() {
            return true;
        }
        if gate.have_ended() {
            return !gate.workers_lack_threads();
        }
        give_arrived(fabric.parts(), rings, jobs, client);
        back_off.wait(rt);
    }
    false
}

// Gives `client` each answer that arrives, until the workers have ended, so that no teller waits
// for room in its ring. If no node has started, the workers may start only after this thread is
// done here, and then perform no step.
fn drain_rings<C: Client, R: Wait>(
    rt: &R,
    fabric: &Fabric,
    gate: &EpochGate,
    rings: &mut [Consumer<Receipt>],
    jobs: &mut OpenJobs,
    client: &mut C,
)
    requires { length rings.old ≡ fabric.now.parts }
    ensures { GivesArrived C.Becomes jobs.old rings.old client.old jobs.new rings.new client.new }
{
    let mut back_off = BackOff::SHORT;
    for _ in rt.forever() {
        if gate.have_ended() || !gate.has_one_come() {
            return;
        }
        give_arrived(fabric.parts(), rings, jobs, client);
        back_off.wait(rt);
    }
    unreachable!()
}

// Gives `client` each answer that arrives, and executes its commands, until the workers have ended.
fn take_turns<C: Client, R: Wait>(
    rt: &R,
    fabric: &Fabric,
    gate: &EpochGate,
    rings: &mut [Consumer<Receipt>],
    jobs: &mut OpenJobs,
    client: &mut C,
)
    requires { length rings.old ≡ fabric.now.parts }
    ensures { Serves (InStage gate.now.segments C.Becomes)
        jobs.old rings.old client.old jobs.new rings.new client.new true }
{
    let mut back_off = BackOff::SHORT;
    for _ in rt.forever() {
        if gate.have_ended() {
            return;
        }
        if take_turn(rt, fabric, gate, rings, jobs, client) {
            back_off.reset();
        } else if is_up_to_client(gate, jobs) {
            let tries = back_off.count();
            client.wait(rt, tries);
        } else {
            back_off.wait(rt);
        }
    }
    unreachable!()
}

// Returns true if only the client can bring work: nothing moves, and no job is open.
fn is_up_to_client(gate: &EpochGate, jobs: &OpenJobs) -> bool {
    gate.is_rest() && !gate.is_over() && jobs.is_empty()
}

// Gives `client` what has arrived, and executes its next commands, unless the epoch is over. The
// epoch ends if a receipt has arrived that is no open job's. Returns true if there was something to
// do.
fn take_turn<C: Client, R: Wait>(
    rt: &R,
    fabric: &Fabric,
    gate: &EpochGate,
    rings: &mut [Consumer<Receipt>],
    jobs: &mut OpenJobs,
    client: &mut C,
) -> bool
    requires { length rings.old ≡ fabric.now.parts }
    ensures { Serves (InStage gate.now.segments C.Becomes)
        jobs.old rings.old client.old jobs.new rings.new client.new true }
{
    let has_come = give_arrived(fabric.parts(), rings, jobs, client);
    if !jobs.all_known() {
        gate.end();
    }
    execute_commands(rt, fabric, gate, jobs, client) | has_come
}

// Executes commands of `client`, as long as it wants something, a turn's number of them at most,
// unless the epoch is over. Returns true if it wanted something.
fn execute_commands<C: Client, R: Wait>(
    rt: &R,
    fabric: &Fabric,
    gate: &EpochGate,
    jobs: &mut OpenJobs,
    client: &mut C,
) -> bool
    ensures { DoesCommand fabric.now.parts (InStage gate.now.segments C.Becomes)
        jobs.old client.old jobs.new client.new }
{
    for command in 0..COMMANDS_A_TURN {
        if gate.is_over() || !execute_command(rt, fabric, gate, jobs, client) {
            return command > 0;
        }
    }
    true
}

// Executes the next command of `client`. Returns true if it wants something.
fn execute_command<C: Client, R: Wait>(
    rt: &R,
    fabric: &Fabric,
    gate: &EpochGate,
    jobs: &mut OpenJobs,
    client: &mut C,
) -> bool
    ensures { DoesCommand fabric.now.parts (InStage gate.now.segments C.Becomes)
        jobs.old client.old jobs.new client.new }
{
    gate.let_claim(client.claiming_pumps());
    match client.next(gate.progress()) {
        Command::Post(job) => {
            offer(rt, fabric, gate, jobs, job, client);
            true
        }
        Command::Rest => {
            jobs.rest();
            false
        }
        Command::End => {
            jobs.end();
            gate.end();
            true
        }
    }
}

// Posts `job` and wakes its node, or returns the job to `client`.
fn offer<C: Client, R: Wait>(
    rt: &R,
    fabric: &Fabric,
    gate: &EpochGate,
    jobs: &mut OpenJobs,
    job: Job,
    client: &mut C,
)
    ensures { IsOffered fabric.now.parts C.Becomes job
        jobs.old client.old jobs.new client.new }
{
    let part = job.part;
    match post_job(rt, fabric, jobs, job) {
        Ok(()) => gate.wake(part),
        Err((job, fault)) => {
            let job = jobs.refuse(job, fault);
            client.take_back(job, fault);
        }
    }
}
