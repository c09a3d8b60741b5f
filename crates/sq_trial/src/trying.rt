// An engine from its opening to its end.
use crate::calls::{close, make_call, open, rest_of};
use crate::deed::{Deed, EngineCall, PlanChoice};
use crate::failure::Failure;
use crate::random_client::RandomClient;
use crate::trial::{Tried, do_deeds};
use crate::workload::Workload;
use sq_engine::Engine;
use std::alloc::Global;
use std::sync::Wait;
use std::thread::Threads;

/// Opens an engine at rest with the plan `choice`, does `deeds` with it while a client has the jobs
/// of `workload`, and closes it. Fails if the client hears anything wrong: each job that was posted
/// is answered once, the numbers of each root key are 1, 2, 3 and so on, and those from one
/// partition are in order.
pub fn try_engine<R: Threads + Wait + Sync>(
    rt: &R,
    alloc: Global,
    workload: Workload,
    choice: PlanChoice,
    deeds: &[Deed],
) -> Result<(), Failure> {
    let mut client = RandomClient::new(alloc, workload)?;
    let outcome = open_and_close(rt, alloc, &mut client, choice, deeds);
    client.judge(outcome)
}

// The same with `client`.
fn open_and_close<R: Threads + Wait + Sync>(
    rt: &R,
    alloc: Global,
    client: &mut RandomClient,
    choice: PlanChoice,
    deeds: &[Deed],
) -> Result<(), Failure> {
    let make = |engine: Engine, client: &mut RandomClient, call: EngineCall| {
        Ok(looked_at(make_call(rt, alloc, engine, client, call)?))
    };
    let opened = looked_at(open(rt, alloc, choice)?);
    let tried = do_deeds(&make, opened, client, deeds)?;
    close(rt, alloc, tried.engine)
}

// An engine, and how it rests.
fn looked_at(engine: Engine) -> Tried<Engine> {
    let rest = rest_of(&engine);
    Tried { engine, rest }
}
