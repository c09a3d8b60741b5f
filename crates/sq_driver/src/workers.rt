// All workers of a run, each in a thread.
ghost use Rattle.std.specs.Prelude.{All};
ghost use Rattle.sq_node.specs.Prelude.{IsNodeOf};
ghost use Rattle.sq_driver.specs.Ways.{EachDriven};
ghost use Rattle.sq_driver.specs.Told.{AllDrivenTelling};
ghost use Rattle.sq_driver.specs.Pumps.{HasAllSeats, AllPumpsDriven};

use crate::attendance::{Attendance, WorkersEnd};
use crate::gate::{Gate, OwnGate};
use crate::teller::{Teller, TellingNode};
use crate::worker::{Worker, take_turns};
use sq_node::Fabric;
use sq_shared::Pump;
use std::sync::Wait;
use std::thread;
use std::thread::{Threads, join_mut};

/// Drives each node, with its teller, and each pump in a thread of its own, with `turns` turns
/// each, and returns how they ended. When it returns, all of them have ended, and the run takes no
/// more jobs until [`Fabric::open_jobs`]. A teller is given each receipt that its node writes,
/// once, in their order, and nothing else, in the thread that drives the node.
///
/// If the system grants fewer threads, workers run one after another. All give up once one of them
/// has had no work for about 3 seconds while a node or all pumps have no thread, or once one of
/// them has lacked memory for as long and could do nothing meanwhile.
pub fn run_workers<T: Teller + Send, R: Threads + Wait + Sync, G: Gate>(
    rt: &R,
    fabric: &Fabric,
    pairs: &mut [TellingNode<T>],
    pumps: &mut [Pump],
    turns: u64,
    gate: &G,
) -> WorkersEnd
    requires nodes { All (λ pair. IsNodeOf fabric.now pair.node) pairs.old }
    requires pumps { All (HasAllSeats fabric.now) pumps.old }
    ensures nodes { AllDrivenTelling T.Tells fabric.now pairs.old pairs.new }
    ensures pumps { AllPumpsDriven fabric.now pumps.old pumps.new }
{
    let attendance = Attendance::new(pairs.len(), pumps.len());
    run_all(rt, fabric, pairs, pumps, turns, gate, &attendance);
    attendance.end()
}

// Drives each of `workers`, and each pump, in a thread of its own.
fn run_all<W: Worker + Send, R: Threads + Wait + Sync, G: OwnGate + Sync>(
    rt: &R,
    fabric: &Fabric,
    workers: &mut [W],
    pumps: &mut [Pump],
    turns: u64,
    gate: &G,
    attendance: &Attendance,
)
    requires workers { All (W.IsOf fabric.now) workers.old }
    requires pumps { All (HasAllSeats fabric.now) pumps.old }
    ensures workers { EachDriven (W.Driven fabric.now) workers.old workers.new }
    ensures pumps { AllPumpsDriven fabric.now pumps.old pumps.new }
{
    join_mut(
        rt,
        &mut ||
            requires { All (W.IsOf fabric.now) workers.now }
            ensures { EachDriven (W.Driven fabric.entry.now) workers.entry.now workers.exit.now }
        { run_each(rt, fabric, workers, turns, gate, attendance) },
        &mut ||
            requires { All (HasAllSeats fabric.now) pumps.now }
            ensures { AllPumpsDriven fabric.entry.now pumps.entry.now pumps.exit.now }
        { run_each(rt, fabric, pumps, turns, gate, attendance) },
    );
    fabric.close_jobs(rt);
}

// Drives each of `workers` in a thread of its own.
fn run_each<W: Worker + Send, R: Threads + Wait + Sync, G: OwnGate + Sync>(
    rt: &R,
    fabric: &Fabric,
    workers: &mut [W],
    turns: u64,
    gate: &G,
    attendance: &Attendance,
)
    requires { All (W.IsOf fabric.now) workers.old }
    ensures { EachDriven (W.Driven fabric.now) workers.old workers.new }
{
    let threads = workers.len().max(1);
    thread::for_each_mut(
        rt,
        workers,
        threads,
        &|_, worker|
            requires { W.IsOf fabric.now worker.now }
            ensures { W.Driven fabric.entry.now worker.entry.now worker.exit.now }
        { take_turns(rt, fabric, worker, turns, gate, attendance) },
    );
}
