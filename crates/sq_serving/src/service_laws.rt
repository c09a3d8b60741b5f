//! Laws about engines that were served. The functions do nothing: each states a law, which the
//! checker proves.
ghost use Rattle.std.specs.Prelude.{◌≡◌, ◌++◌, Bool, List};
ghost use Rattle.sq_moves.specs.Prelude.{OpeningValue};
ghost use Rattle.sq_engine.specs.Values.{EngineValue};
ghost use Rattle.sq_serving.specs.declared.ending.ServeEnding.{ServeEnding};
ghost use Rattle.sq_serving.specs.Becoming.{ServeDeskValue};
ghost use Rattle.sq_serving.specs.Written.{WritesEach};
ghost use Rattle.sq_serving.specs.Events.{ServeEvent, HappenEach, all_added};
ghost use Rattle.sq_serving.specs.Planned.{IsServedAndClosed, EndsServingAsPlanned};
ghost use Rattle.sq_serving.specs.Service.{ServesWriter, Serves};

use crate::watch::ServeWatch;
use std::io::Write;

/// An engine that was served and closed ends as planned, whatever its threads did.
pub fn a_service_ends_where_planned<V: ServeWatch>()
    ensures { (watch : V) (o : OpeningValue) (closed : EngineValue)
        → IsServedAndClosed (V.Saves watch) o closed → EndsServingAsPlanned o closed }
{}

/// Over all epochs together a desk writes the line of each answer that it is given, once, those of
/// each partition in their order; no job that a line asked for is lost, duplicated or overtaken;
/// and the events of the engine grow by just those of the epochs and the moves.
pub fn a_service_writes_each_answer<V: ServeWatch>()
    ensures grows { (watch : V) (old new : EngineValue) (before after : ServeDeskValue)
        (events : List ServeEvent) → HappenEach (V.Saves watch) events old before new after
        → new.jobs.events ≡ old.jobs.events ++ all_added events }
    ensures writes { (watch : V) (old new : EngineValue) (before after : ServeDeskValue)
        (events : List ServeEvent) → HappenEach (V.Saves watch) events old before new after
        → WritesEach (all_added events) before after }
{}

/// Whatever the ending that is told of an engine, each answer that it gave is written, once, unless
/// its desk stopped, and the line of the ending is the last. If it is sound, the engine was closed
/// where planned, no job is open or waits, and the line counts the commits that were written.
pub fn a_service_writes_its_answers_and_ending<W: Write, V: ServeWatch>()
    ensures { (watch : V) (strict : Bool) (old new : W) (ending : ServeEnding)
        → ServesWriter strict (V.Saves watch) W.contents old new ending
        → Serves strict (V.Saves watch) (W.contents old) (W.contents new) ending }
{}
