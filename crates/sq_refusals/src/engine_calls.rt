// The calls of an engine. Each that is refused is made once more.
use crate::gathered_text::print_rows;
use crate::hand_run::PUMPS;
use crate::poster::Poster;
use crate::printing::{print_line, print_refused, value_of};
use crate::unfinished::Unfinished;
use sq_audit::{Job, Verdict};
use sq_engine::{ChunkLimit, Engine, EpochEnd, NotPosted, Served};
use sq_moves::Opening;
use sq_plan::Plan;
use std::alloc::{AllocError, Global};
use std::sync::Wait;
use std::thread::Threads;

// More epochs than a client needs to be answered.
const EPOCHS: u64 = 10;

/// Opens an engine.
pub fn open<R: Threads + Print + Sync>(
    rt: &R,
    alloc: Global,
    opening: Opening,
) -> Result<Engine, Unfinished> {
    match Engine::open(rt, alloc, opening, PUMPS) {
        Ok(engine) => Ok(engine),
        Err(back) => {
            print_refused(rt, "open");
            value_of(Engine::open(rt, alloc, back, PUMPS))
        }
    }
}

/// Posts `job`. If no epoch runs, since there was no memory to begin one, `client` is served for an
/// epoch first.
pub fn post<R: Threads + Wait + Print + Sync>(
    rt: &R,
    alloc: Global,
    engine: &mut Engine,
    client: &mut Poster,
    job: Job,
) -> Result<(), Unfinished> {
    let Err((job, fault)) = engine.post(rt, job) else {
        return Ok(());
    };
    match fault {
        NotPosted::NoEpoch => serve_epoch(rt, alloc, engine, client)?,
        NotPosted::Refused(_) => print_refused(rt, "post"),
    }
    value_of(engine.post(rt, job))
}

/// Serves `client` until no rows move and all its jobs are answered.
pub fn serve<R: Threads + Wait + Print + Sync>(
    rt: &R,
    alloc: Global,
    engine: &mut Engine,
    client: &mut Poster,
) -> Result<(), Unfinished> {
    print_line(rt, "serves");
    for _epoch in 0..EPOCHS {
        if engine.is_at_rest() && client.is_done() {
            break;
        }
        serve_epoch(rt, alloc, engine, client)?;
    }
    if client.has_one_back() {
        print_refused(rt, "client");
    }
    print_line(rt, "served");
    Ok(())
}

/// Serves `client` for an epoch.
pub fn serve_epoch<R: Threads + Wait + Print + Sync>(
    rt: &R,
    alloc: Global,
    engine: &mut Engine,
    client: &mut Poster,
) -> Result<(), Unfinished> {
    client.begin(engine.is_at_rest());
    let served = serve_twice(rt, alloc, engine, client)?;
    match served.end {
        // A node without a thread has one in the next epoch.
        EpochEnd::Whole | EpochEnd::LacksThreads => {
            print_pending(rt, engine);
            Ok(())
        }
        EpochEnd::ReceiptUnknown | EpochEnd::LacksMemory | EpochEnd::ReceiptLost => {
            Err(Unfinished::Refused)
        }
    }
}

// Prints that there was no memory to end the epoch of a stage that is done, or to begin the next
// one.
fn print_pending<R: Print>(rt: &R, engine: &Engine) {
    if engine.rows().is_some() {
        print_refused(rt, "begin");
    } else if engine.progress().is_done() {
        print_refused(rt, "gather");
    }
}

fn serve_twice<R: Threads + Wait + Print + Sync>(
    rt: &R,
    alloc: Global,
    engine: &mut Engine,
    client: &mut Poster,
) -> Result<Served, AllocError> {
    match engine.serve(rt, alloc, u64::MAX, client) {
        Ok(served) => Ok(served),
        Err(_) => {
            print_refused(rt, "serve");
            engine.serve(rt, alloc, u64::MAX, client)
        }
    }
}

/// Begins a move to the plan of `text`.
pub fn move_to<R: Wait + Print>(
    rt: &R,
    alloc: Global,
    engine: &mut Engine,
    text: &str,
) -> Result<(), Unfinished> {
    let plan = Plan::read(alloc, text.as_bytes())?;
    let again = plan.clone()?;
    let limit = ChunkLimit::of(engine.opening());
    print_line(rt, "moves");
    if engine.move_to(rt, alloc, plan, limit).is_err() {
        print_refused(rt, "move");
        value_of(engine.move_to(rt, alloc, again, limit))?;
    }
    print_pending(rt, engine);
    Ok(())
}

/// Ends the epoch of an engine at rest.
pub fn end_epoch<R: Wait + Print>(
    rt: &R,
    alloc: Global,
    engine: &mut Engine,
) -> Result<(), Unfinished> {
    if engine.end_epoch(rt, alloc).is_err() {
        print_refused(rt, "end");
        value_of(engine.end_epoch(rt, alloc))?;
    }
    print_line(rt, "ended");
    Ok(())
}

/// Closes an engine at rest, and prints the verdict.
pub fn close<R: Wait + Print>(
    rt: &R,
    alloc: Global,
    engine: &mut Engine,
) -> Result<(), Unfinished> {
    let verdict = close_twice(rt, alloc, engine)?;
    print_line(rt, "closed");
    drop(println!(rt; "{verdict:?}"));
    Ok(())
}

fn close_twice<R: Wait + Print>(
    rt: &R,
    alloc: Global,
    engine: &mut Engine,
) -> Result<Verdict, Unfinished> {
    match engine.close(rt, alloc) {
        Ok(verdict) => Ok(verdict),
        Err(_) => {
            print_refused(rt, "close");
            value_of(engine.close(rt, alloc))
        }
    }
}

/// Prints the families of an engine in which no epoch runs.
pub fn print_families<R: Print>(rt: &R, alloc: Global, engine: &Engine) -> Result<(), Unfinished> {
    match engine.rows() {
        Some(stores) => print_rows(rt, alloc, stores),
        None => Err(Unfinished::Refused),
    }
}
