// Why an epoch of an engine that is served ended.
ghost use Rattle.std.specs.Prelude.{◌≡◌, false, OnOk, IsOk};
ghost use Rattle.sq_serving.specs.Becoming.{desk_value};
ghost use Rattle.sq_serving.specs.Closing.{wish_of};
ghost use Rattle.sq_serving.specs.Steps.{GrantsTaken, StepGives};
ghost use Rattle.sq_serving.specs.Wishes.{AnswersWish, AnswersTaken};

use crate::closing::close_unless_jobs_wait;
use crate::desk::{ServeDesk, Wish};
use crate::ending::ServeEnding;
use crate::moving::{begin_move, note_rest};
use crate::rows::tell_rows;
use crate::watch::ServeWatch;
use sq_engine::Engine;
use std::alloc::Global;
use std::io::Write;
use std::sync::Wait;
use std::thread::Threads;

/// Continues after an epoch: writes that a move is done if it is, and does what the epoch ended
/// for. It flushes the output first, since the wish may take long.
pub(crate) fn go_on<T: Threads + Wait + Sync, W: Write + Drop, V: ServeWatch>(
    rt: &T,
    alloc: Global,
    engine: &mut Engine,
    desk: &mut ServeDesk<W>,
    watch: &V,
) -> Result<(), ServeEnding>
    ensures gives { StepGives (V.Saves watch.now) engine.old (desk_value W.contents desk.old)
        result engine.new (desk_value W.contents desk.new) }
    ensures goes_on { IsOk result → (desk_value W.contents desk.old).has_stopped ≡ false }
{
    if let Some(ending) = desk.stop_ending() {
        return Err(ending);
    }
    note_rest(engine, desk, watch)?;
    desk.flush();
    grant_wish(rt, alloc, engine, desk, watch)
}

// Does what an epoch ended for.
fn grant_wish<T: Threads + Wait + Sync, W: Write + Drop, V: ServeWatch>(
    rt: &T,
    alloc: Global,
    engine: &mut Engine,
    desk: &mut ServeDesk<W>,
    watch: &V,
) -> Result<(), ServeEnding>
    ensures gives { StepGives (V.Saves watch.now) engine.old (desk_value W.contents desk.old)
        result engine.new (desk_value W.contents desk.new) }
    ensures answers { AnswersTaken (V.Saves watch.now) (wish_of desk.old) engine.old
        (desk_value W.contents desk.old) result engine.new (desk_value W.contents desk.new) }
{
    match desk.take_wish() {
        None => Ok(()),
        Some(wish) => grant(rt, alloc, engine, desk, watch, wish),
    }
}

// Does what `wish`, which was taken, asks of an engine.
fn grant<T: Threads + Wait + Sync, W: Write + Drop, V: ServeWatch>(
    rt: &T,
    alloc: Global,
    engine: &mut Engine,
    desk: &mut ServeDesk<W>,
    watch: &V,
    wish: Wish,
) -> Result<(), ServeEnding>
    ensures gives { GrantsTaken wish engine.old (desk_value W.contents desk.old)
        result engine.new (desk_value W.contents desk.new) }
    ensures answers { OnOk result (AnswersWish (V.Saves watch.now) wish engine.old
        (desk_value W.contents desk.old) engine.new (desk_value W.contents desk.new)) }
{
    match wish {
        Wish::Move(asked) => begin_move(rt, alloc, engine, asked, desk, watch),
        Wish::Rows(asked) => {
            tell_rows(rt, alloc, engine, desk, watch, asked);
            Ok(())
        }
        Wish::Close => close_unless_jobs_wait(rt, alloc, engine, desk),
    }
}
