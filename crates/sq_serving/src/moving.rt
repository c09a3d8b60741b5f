// Moves of an engine that is served.
ghost use Rattle.std.specs.Prelude.{◌≡◌, None, Some, IfOk, OnOk, IfErr};
ghost use Rattle.sq_serving.specs.declared.serve_answer.ServeAnswer.TheVariants.{Moved};
ghost use Rattle.sq_serving.specs.ServeAnswers.{serve_answer_line};
ghost use Rattle.sq_serving.specs.Becoming.{desk_value, Speaks};
ghost use Rattle.sq_serving.specs.declared.ending.ServeEnding.TheVariants.{Memory};
ghost use Rattle.sq_serving.specs.Steps.{MovesOrLacksMemory};
ghost use Rattle.sq_serving.specs.Wishes.{WritesText, TakesEffect, EndsMove};
ghost use Rattle.sq_serving.specs.Wishes.{TellsMove, RefusesMove, AnswersMove};

use crate::desk::{AskedMove, MoveProgress, ServeDesk};
use crate::ending::ServeEnding;
use crate::line_place::LinePlace;
use crate::plan_text::PlanText;
use crate::refused_move::RefusedMove;
use crate::telling::{tell_moved, tell_moving, unread_refusal};
use crate::watch::{ServeMark, ServeWatch};
use sq_engine::{Engine, NotMoved};
use std::alloc::{AllocError, Global};
use std::io::Write;
use std::sync::Wait;
use std::thread::Threads;

/// Begins the move that a line asks for, or refuses it. Ends the engine if memory runs out.
pub(crate) fn begin_move<T: Threads + Wait + Sync, W: Write + Drop, V: ServeWatch>(
    rt: &T,
    alloc: Global,
    engine: &mut Engine,
    asked: AskedMove,
    desk: &mut ServeDesk<W>,
    watch: &V,
) -> Result<(), ServeEnding>
    ensures gives { MovesOrLacksMemory asked engine.old (desk_value W.contents desk.old)
        result engine.new (desk_value W.contents desk.new) }
    ensures answers { OnOk result (AnswersMove asked engine.old
        (desk_value W.contents desk.old) engine.new (desk_value W.contents desk.new)) }
{
    let AskedMove { place, plan, limit } = asked;
    let text = plan.write().ok();
    match engine.move_to(rt, alloc, plan, limit) {
        Ok(()) => tell_begun(engine, desk, watch),
        Err(why) => refuse_move(engine, why, desk, watch, place, text),
    }
}

// Refuses the move to the plan with this text that a line asks for, or ends the engine if memory
// ran out.
fn refuse_move<W: Write + Drop, V: ServeWatch>(
    engine: &Engine,
    why: NotMoved,
    desk: &mut ServeDesk<W>,
    watch: &V,
    place: LinePlace,
    text: Option<String>,
) -> Result<(), ServeEnding>
    ensures speaks { Speaks (desk_value W.contents desk.old) (desk_value W.contents desk.new) }
    ensures refuses { OnOk result (RefusesMove why
        (desk_value W.contents desk.old) (desk_value W.contents desk.new)) }
    ensures memory { IfErr result (λ ending. ending ≡ Memory) }
{
    match why {
        NotMoved::Plans(fault) => {
            let number = fault.number();
            desk.say_refused(watch, unread_refusal(number, place));
            explain_move(engine, watch, number, place, desk.plan.as_str(), text);
            Ok(())
        }
        NotMoved::Moving | NotMoved::Memory => Err(ServeEnding::Memory),
    }
}

// Tells `watch` why the move from `old` to the plan with this text is refused, if the text is
// known.
fn explain_move<V: ServeWatch>(
    engine: &Engine,
    watch: &V,
    number: u16,
    place: LinePlace,
    old: &str,
    text: Option<String>,
) {
    if let Some(text) = &text {
        watch.refuses_move(RefusedMove {
            number,
            place,
            old,
            new: text.as_str(),
            width: engine.opening().config().width,
        });
    }
}

// Writes that a move begins, and that it is done if nothing moves.
fn tell_begun<W: Write + Drop, V: ServeWatch>(
    engine: &Engine,
    desk: &mut ServeDesk<W>,
    watch: &V,
) -> Result<(), ServeEnding>
    ensures speaks { Speaks (desk_value W.contents desk.old) (desk_value W.contents desk.new) }
    ensures tells { OnOk result (TellsMove engine.now
        (desk_value W.contents desk.old) (desk_value W.contents desk.new)) }
    ensures memory { IfErr result (λ ending. ending ≡ Memory) }
{
    let progress = MoveProgress {
        segments: engine.opening().recon().segments().len() as u64,
        stage: engine.progress(),
    };
    watch.mark(ServeMark::MoveBegins {
        segments: progress.segments,
    });
    tell_moving(desk, progress);
    note_rest(engine, desk, watch)
}

/// Writes that a move is done, if one was under way and nothing moves any more.
pub(crate) fn note_rest<W: Write + Drop, V: ServeWatch>(
    engine: &Engine,
    desk: &mut ServeDesk<W>,
    watch: &V,
) -> Result<(), ServeEnding>
    ensures speaks { Speaks (desk_value W.contents desk.old) (desk_value W.contents desk.new) }
    ensures ends { IfOk result (λ done. EndsMove engine.now
        (desk_value W.contents desk.old) (desk_value W.contents desk.new)) }
    ensures memory { IfErr result (λ ending. ending ≡ Memory) }
{
    match desk.moving {
        Some(progress) => note_end(engine, desk, watch, progress),
        None => Ok(()),
    }
}

// Writes that a move with this progress is done, if nothing moves any more.
fn note_end<W: Write + Drop, V: ServeWatch>(
    engine: &Engine,
    desk: &mut ServeDesk<W>,
    watch: &V,
    progress: MoveProgress,
) -> Result<(), ServeEnding>
    requires { desk.old.moving ≡ Some progress }
    ensures speaks { Speaks (desk_value W.contents desk.old) (desk_value W.contents desk.new) }
    ensures ends { IfOk result (λ done. EndsMove engine.now
        (desk_value W.contents desk.old) (desk_value W.contents desk.new)) }
    ensures memory { IfErr result (λ ending. ending ≡ Memory) }
{
    if engine.is_at_rest() {
        watch.mark(ServeMark::MoveEnds);
        end_move(engine, desk, progress.segments)
    } else {
        Ok(())
    }
}

// Writes that a move of `segments` segments is done.
fn end_move<W: Write + Drop>(
    engine: &Engine,
    desk: &mut ServeDesk<W>,
    segments: u64,
) -> Result<(), ServeEnding>
    ensures speaks { Speaks (desk_value W.contents desk.old) (desk_value W.contents desk.new) }
    ensures line { IfOk result (λ done. WritesText (serve_answer_line (Moved segments))
        (desk_value W.contents desk.old) (desk_value W.contents desk.new)) }
    ensures moving { IfOk result (λ done. desk.new.moving ≡ None) }
    ensures plan { IfOk result (λ done. TakesEffect engine.now (desk_value W.contents desk.old)
        (desk_value W.contents desk.new)) }
    ensures memory { IfErr result (λ ending. ending ≡ Memory) }
{
    match PlanText::of(engine.opening().new_plan()) {
        Ok(plan) => {
            tell_moved(desk, plan, segments);
            Ok(())
        }
        Err(AllocError) => Err(ServeEnding::Memory),
    }
}
