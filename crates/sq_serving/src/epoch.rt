// Serving an epoch with a desk.
ghost use Rattle.std.specs.Prelude.{◌≡◌, IfOk, OnErr};
ghost use Rattle.sq_engine.specs.Engine.{Keeps};
ghost use Rattle.sq_serving.specs.Becoming.{desk_value};
ghost use Rattle.sq_serving.specs.Written.{EpochIsWritten};

use crate::control::Control;
use crate::watch::ServeWatch;
use sq_engine::{Engine, Served};
use std::alloc::{AllocError, Global};
use std::io::Write;
use std::sync::Wait;
use std::thread::Threads;

/// Serves an epoch of an engine, as [`Engine::serve`] does: the desk in `control` supplies the jobs
/// and writes each answer. If memory runs out before the epoch, no event is added and `control` is
/// unchanged.
pub fn run_at_desk<T: Threads + Wait + Sync, W: Write + Drop, V: ServeWatch>(
    rt: &T,
    alloc: Global,
    engine: &mut Engine,
    control: &mut Control<'_, W, V>,
) -> Result<Served, AllocError>
    ensures served { IfOk result (λ served.
        EpochIsWritten engine.old (desk_value W.contents control.old.desk) served.end
        engine.new (desk_value W.contents control.new.desk)) }
    ensures not_served { OnErr result (Keeps engine.old engine.new) }
    ensures not_called { OnErr result (control.new ≡ control.old) }
{
    engine.serve(rt, alloc, u64::MAX, control)
}
