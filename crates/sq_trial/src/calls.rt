// Calls of an engine.
use crate::deed::{EngineCall, PlanChoice};
use crate::failure::Failure;
use crate::plans::{opening_at, plan_of};
use crate::random_client::RandomClient;
use crate::trial::Rest;
use sq_audit::Verdict;
use sq_engine::{ChunkLimit, Engine, EpochEnd, NotMoved, Served};
use std::alloc::{AllocError, Global};
use std::sync::Wait;
use std::thread::Threads;

// How many pumps claim rows in the background.
const PUMPS: u32 = 2;

/// Opens an engine at rest.
pub(crate) fn open<R: Threads + Sync>(
    rt: &R,
    alloc: Global,
    choice: PlanChoice,
) -> Result<Engine, Failure> {
    let opening = opening_at(alloc, choice)?;
    value_or(Engine::open(rt, alloc, opening, PUMPS), Failure::Memory)
}

pub(crate) fn make_call<R: Threads + Wait + Sync>(
    rt: &R,
    alloc: Global,
    engine: Engine,
    client: &mut RandomClient,
    call: EngineCall,
) -> Result<Engine, Failure> {
    match call {
        EngineCall::GoTo(choice) => go_to(rt, alloc, engine, choice),
        EngineCall::Post(count) => post(rt, engine, client, count),
        EngineCall::Serve(turns) => serve(rt, alloc, engine, client, turns),
    }
}

pub(crate) fn rest_of(engine: &Engine) -> Rest {
    if engine.is_at_rest() {
        Rest::AtRest
    } else {
        Rest::Moving
    }
}

// Moves to a plan from rest.
fn go_to<R: Wait>(
    rt: &R,
    alloc: Global,
    mut engine: Engine,
    choice: PlanChoice,
) -> Result<Engine, Failure> {
    match plan_of(alloc, choice) {
        Ok(plan) => {
            let limit = ChunkLimit::of(engine.opening());
            let outcome = check_moved(engine.move_to(rt, alloc, plan, limit));
            value_if(engine, outcome)
        }
        Err(failure) => value_if(engine, Err(failure)),
    }
}

fn check_moved(moved: Result<(), NotMoved>) -> Result<(), Failure> {
    match moved {
        Ok(()) => Ok(()),
        Err(_) => Err(Failure::NotMoved),
    }
}

// Posts `count` jobs of the client.
fn post<R: Wait>(
    rt: &R,
    mut engine: Engine,
    client: &mut RandomClient,
    count: u64,
) -> Result<Engine, Failure> {
    let outcome = client.post(rt, &mut engine, count);
    value_if(engine, outcome)
}

// Serves a client for an epoch, in which each worker takes at most `turns` turns. Fails if a node
// has no thread, if a worker lacks memory, or if a receipt is missing or is no open job's.
fn serve<R: Threads + Wait + Sync>(
    rt: &R,
    alloc: Global,
    mut engine: Engine,
    client: &mut RandomClient,
    turns: u64,
) -> Result<Engine, Failure> {
    let outcome = check_served(engine.serve(rt, alloc, turns, client));
    value_if(engine, outcome)
}

fn check_served(served: Result<Served, AllocError>) -> Result<(), Failure> {
    match served {
        Ok(served) => match served.end {
            EpochEnd::Whole => Ok(()),
            EpochEnd::LacksThreads => Err(Failure::NoThread),
            EpochEnd::LacksMemory => Err(Failure::Memory),
            EpochEnd::ReceiptUnknown | EpochEnd::ReceiptLost => Err(Failure::NotGiven),
        },
        Err(AllocError) => Err(Failure::Memory),
    }
}

/// Closes an engine at rest. Fails if a job has no answer.
pub(crate) fn close<R: Wait>(rt: &R, alloc: Global, mut engine: Engine) -> Result<(), Failure> {
    let closed = engine.close(rt, alloc);
    drop(engine);
    match closed {
        Ok(Verdict::Sound) => Ok(()),
        Ok(Verdict::Unsound(_)) => Err(Failure::Unsound),
        Err(_) => Err(Failure::NotClosed),
    }
}

// The value, or else `failure`. Only functions like this one, generic over the type, drop a large
// value: to drop it where its type is known makes a proof long.
fn value_or<T: Drop, E: Drop>(outcome: Result<T, E>, failure: Failure) -> Result<T, Failure> {
    match outcome {
        Ok(value) => Ok(value),
        Err(_) => Err(failure),
    }
}

// The value, unless something is wrong.
fn value_if<T: Drop>(value: T, outcome: Result<(), Failure>) -> Result<T, Failure> {
    match outcome {
        Ok(()) => Ok(value),
        Err(failure) => Err(failure),
    }
}
