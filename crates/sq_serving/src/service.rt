// An engine that is served, epoch by epoch.
ghost use Rattle.sq_serving.specs.Becoming.{desk_value};
ghost use Rattle.sq_serving.specs.Steps.{StepGives};
ghost use Rattle.sq_serving.specs.Service.{HasEndedWithOutlet};

use crate::desk::ServeDesk;
use crate::ending::ServeEnding;
use crate::epochs::run_epoch;
use crate::outlet::Outlet;
use crate::watch::ServeWatch;
use crate::wishes::go_on;
use sq_engine::Engine;
use std::alloc::Global;
use std::io::Write;
use std::sync::Wait;
use std::thread::Threads;

/// Serves an engine epoch by epoch until it ends.
pub(crate) fn run_epochs<T: Threads + Wait + Sync, W: Write + Drop, V: ServeWatch>(
    rt: &T,
    alloc: Global,
    engine: &mut Engine,
    desk: ServeDesk<W>,
    watch: &V,
) -> (Outlet<W>, ServeEnding)
    ensures { HasEndedWithOutlet (V.Saves watch.now) W.contents
        engine.old (desk_value W.contents desk) result.1 engine.new result.0 }
{
    let mut desk = desk;
    for _ in rt.forever() {
        let (next, step) = run_epoch_and_wish(rt, alloc, engine, desk, watch);
        match step {
            Ok(()) => desk = next,
            Err(ending) => return (next.into_outlet(), ending),
        }
    }
    unreachable!()
}

// Flushes the output, serves an epoch, and does what the epoch ended for.
fn run_epoch_and_wish<T: Threads + Wait + Sync, W: Write + Drop, V: ServeWatch>(
    rt: &T,
    alloc: Global,
    engine: &mut Engine,
    desk: ServeDesk<W>,
    watch: &V,
) -> (ServeDesk<W>, Result<(), ServeEnding>)
    ensures { StepGives (V.Saves watch.now) engine.old (desk_value W.contents desk)
        result.1 engine.new (desk_value W.contents result.0) }
{
    let mut desk = desk;
    desk.flush();
    let (mut desk, end) = run_epoch(rt, alloc, engine, desk, watch);
    if end.is_err() {
        return (desk, end);
    }
    let step = go_on(rt, alloc, engine, &mut desk, watch);
    (desk, step)
}
