// The epochs of an engine that is served.
ghost use Rattle.sq_serving.specs.Becoming.{desk_value};
ghost use Rattle.sq_serving.specs.Steps.{IsEndOf, EpochGives};

use crate::control::Control;
use crate::desk::ServeDesk;
use crate::ending::ServeEnding;
use crate::epoch::run_at_desk;
use crate::marks::EpochMarks;
use crate::watch::ServeWatch;
use sq_audit::Defect;
use sq_engine::{Engine, EpochEnd, Served};
use std::alloc::{AllocError, Global};
use std::io::Write;
use std::sync::Wait;
use std::thread::Threads;

/// Serves an epoch with `desk`, and returns it. The engine ends after it if a thread, memory or an
/// answer was missing, or if a receipt was no open job's.
pub(crate) fn run_epoch<T: Threads + Wait + Sync, W: Write + Drop, V: ServeWatch>(
    rt: &T,
    alloc: Global,
    engine: &mut Engine,
    desk: ServeDesk<W>,
    watch: &V,
) -> (ServeDesk<W>, Result<(), ServeEnding>)
    ensures { EpochGives engine.old (desk_value W.contents desk)
        result.1 engine.new (desk_value W.contents result.0) }
{
    let mut control = Control {
        desk,
        marks: EpochMarks::new(watch),
    };
    let served = run_at_desk(rt, alloc, engine, &mut control);
    let Control { desk, mut marks } = control;
    mark_served(&mut marks, &served);
    (desk, end_of(&served))
}

// Marks what hasn't been marked yet of an epoch that was served.
fn mark_served<V: ServeWatch>(marks: &mut EpochMarks<'_, V>, served: &Result<Served, AllocError>) {
    if let Ok(served) = served {
        marks.end_served(served.progress);
    }
}

// Returns how the engine ends after an epoch, if it does.
fn end_of(served: &Result<Served, AllocError>) -> Result<(), ServeEnding>
    ensures { IsEndOf served.now result }
{
    match served {
        Ok(served) => match served.end {
            EpochEnd::Whole => Ok(()),
            EpochEnd::LacksThreads => Err(ServeEnding::Threads),
            EpochEnd::ReceiptUnknown => Err(ServeEnding::Unsound(Defect::ReceiptUnknown)),
            EpochEnd::LacksMemory | EpochEnd::ReceiptLost => Err(ServeEnding::Memory),
        },
        Err(AllocError) => Err(ServeEnding::Memory),
    }
}
