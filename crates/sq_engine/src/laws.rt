//! Laws of engines. The functions do nothing: each states a law, which the checker proves.
ghost use Rattle.std.specs.Prelude.{◌≡◌, ◌+◌, ◌∷◌, ℕ, List, [], is_some};
ghost use Rattle.sq_moves.specs.Prelude.{OpeningValue, IsOpening};
ghost use Rattle.sq_gather.specs.Prelude.{one_if};
ghost use Rattle.sq_node_model.specs.Prelude.{IsPlaced};
ghost use Rattle.sq_audit.specs.declared.verdict.Verdict.TheVariants.{Sound};
ghost use Rattle.sq_engine.specs.declared.event.Event.{Event};
ghost use Rattle.sq_engine.specs.Events.{times_posted, times_answered};
ghost use Rattle.sq_engine.specs.Open.{JobMap, job_at, AreOpen};
ghost use Rattle.sq_engine.specs.Values.{EngineValue, RunValue};
ghost use Rattle.sq_engine.specs.History.{EndedEpoch, HaveCome};
ghost use Rattle.sq_engine.specs.Engine.{IsReached, EndsMove, segments_of, verdict_on};
ghost use Rattle.sq_engine.specs.Ending.{EndsAsPlanned, HasAnsweredAll, LogsHoldCommits};

/// No segment moves in an epoch at rest, so its client is told that none does.
pub fn no_segment_moves_at_rest()
    ensures { (o : OpeningValue) (run : RunValue) → IsOpening o → o.recon.ranges ≡ []
        → segments_of o run ≡ 0 }
{}

/// What is gathered of an engine after each epoch is placed under the opening in force, whatever
/// its threads did.
pub fn what_an_engine_comes_by_is_placed()
    ensures { (o : OpeningValue) (past : List EndedEpoch) (last : EndedEpoch)
        → HaveCome o (last ∷ past) → IsPlaced last.opening last.gathered }
{}

/// An engine ends as planned, whatever its threads did: after the last stage of a move each family
/// is in the store of its owner by the plan that was asked for last; its rows are those that the
/// engine opened with, after a replay of everything committed since on its root key, in the order
/// of its log; the receipts of commits name each position of each log once, with the transaction
/// there; each receipt has the reply that the log before its position gives; and what its clients
/// were given are these receipts, each once, but for those that were lost or are no open job's.
pub fn an_engine_ends_where_planned()
    ensures { (engine : EngineValue) → IsReached engine → EndsMove engine
        → EndsAsPlanned engine }
{}

/// An engine that is sound has answered all: each job once, and with each receipt.
pub fn a_sound_engine_has_answered_all()
    ensures { (engine : EngineValue) → IsReached engine → EndsMove engine
        → verdict_on engine.jobs ≡ Sound → HasAnsweredAll engine }
{}

/// The logs of a sound engine hold as many transactions as it gave answers of commits.
pub fn logs_hold_what_was_committed()
    ensures { (engine : EngineValue) → IsReached engine → EndsMove engine
        → verdict_on engine.jobs ≡ Sound → LogsHoldCommits engine }
{}

/// Each answer that an engine gave is that of a job of its own: of each id as many jobs were posted
/// as were answered, and one more if a job with this id is open.
pub fn each_job_has_one_answer()
    ensures { (events : List Event) (jobs : JobMap) (id : ℕ) → AreOpen events jobs
        → times_posted id events ≡ times_answered id events + one_if (is_some (job_at jobs id)) }
{}
