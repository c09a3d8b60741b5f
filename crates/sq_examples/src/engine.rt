// A small caller of the long-running engine: two threads have jobs answered while rows move to
// another plan and back.

ghost use Rattle.std.specs.Prelude.{IfSome, OnSome};
ghost use Rattle.sq_examples.specs.Return.{GoesTo, StaysAt, HasComeBack};

mod asker;
mod broker;

use self::asker::{Asker, JOBS};
use self::broker::Broker;
use sq_audit::Verdict;
use sq_engine::{ChunkLimit, Engine, EpochEnd};
use sq_moves::Opening;
use sq_plan::Plan;
use std::alloc::Global;
use std::sync::Wait;
use std::thread::{Threads, join};

// The most turns of each worker in an epoch, and how many pumps claim in the background.
const TURNS: u64 = 1_000_000;

const PUMPS: u32 = 1;

/// An engine whose rows moved to another plan and back, and which was closed with this verdict.
#[derive(Drop)]
pub struct CameBack {
    pub engine: Engine,
    pub verdict: Verdict,
}

/// Serves two threads while the rows of `opening`, which is at rest, move to the plan `there` and
/// back, and returns the engine once they are back, and how many answers each thread got. Returns
/// `None` if memory or threads run out, a plan has a fault, or the turns don't suffice for a move.
pub fn go_there_and_back<R: Threads + Wait + Sync>(
    rt: &R,
    alloc: Global,
    opening: Opening,
    there: Plan,
) -> Option<(CameBack, (u64, u64))>
    ensures { IfSome result (λ came. HasComeBack opening came.0) }
{
    let (broker, first, second) = Broker::open(rt, alloc, opening.schema())?;
    let (heard, came) = join(
        rt,
        move || ask_both(rt, alloc, first, second),
        move || -> Option<CameBack>
            ensures { IfSome result (HasComeBack opening) }
        {
            let mut broker = broker;
            serve(rt, alloc, opening, there, &mut broker)
        },
    );
    Some((came?, heard))
}

// Runs the two threads and returns how many answers each of them got.
fn ask_both<R: Threads + Wait + Sync>(
    rt: &R,
    alloc: Global,
    first: Asker,
    second: Asker,
) -> (u64, u64) {
    join(
        rt,
        move || first.ask(rt, alloc),
        move || second.ask(rt, alloc),
    )
}

// Opens an engine, moves its rows to the plan `there` and back, and closes it.
fn serve<R: Threads + Wait + Sync>(
    rt: &R,
    alloc: Global,
    opening: Opening,
    there: Plan,
    broker: &mut Broker<R>,
) -> Option<CameBack>
    ensures { IfSome result (HasComeBack opening) }
{
    let back = opening.new_plan().clone().ok()?;
    let mut engine = Engine::open(rt, alloc, opening, PUMPS).ok()?;
    serve_until(rt, alloc, &mut engine, broker, JOBS)?;
    go_to(rt, alloc, &mut engine, there, broker)?;
    go_to(rt, alloc, &mut engine, back, broker)?;
    serve_until(rt, alloc, &mut engine, broker, 2 * JOBS)?;
    let verdict = engine.close(rt, alloc).ok()?;
    Some(CameBack { engine, verdict })
}

// Moves to `plan`, and serves `broker` until the rows have arrived: an epoch for each stage.
fn go_to<R: Threads + Wait + Sync>(
    rt: &R,
    alloc: Global,
    engine: &mut Engine,
    plan: Plan,
    broker: &mut Broker<R>,
) -> Option<()>
    ensures { OnSome result (GoesTo plan engine.old engine.new) }
{
    let limit = ChunkLimit::of(engine.opening());
    engine.move_to(rt, alloc, plan, limit).ok()?;
    for _stage in 0..engine.opening().recon().stages() {
        if engine.is_at_rest() {
            break;
        }
        serve_until(rt, alloc, engine, broker, u64::MAX)?;
    }
    Some(())
}

// Serves `broker` for an epoch, which ends once `jobs` jobs are done. Returns `None` if an answer
// is missing, for which the broker would wait forever, if a partition gets no thread, or if a
// worker lacks memory.
fn serve_until<R: Threads + Wait + Sync>(
    rt: &R,
    alloc: Global,
    engine: &mut Engine,
    broker: &mut Broker<R>,
    jobs: u64,
) -> Option<()>
    ensures { OnSome result (StaysAt engine.old engine.new) }
{
    broker.end_after(jobs);
    let served = engine.serve(rt, alloc, TURNS, broker).ok()?;
    (served.end == EpochEnd::Whole).then_some(())
}
