//! Laws of live runs. The functions do nothing: each states a law, which the checker proves.
ghost use Rattle.std.specs.Prelude.{◌≡◌, ◌↔◌, ℕ, Bool, List, [], Ok, Err};
ghost use Rattle.sq_text.specs.Pieces.{PieceValue};
ghost use Rattle.sq_moves.specs.Prelude.{OpeningValue};
ghost use Rattle.sq_shared.specs.declared.numbers.TheConstants.{MAX_OWNERS, MAX_PUMPS, MAX_CLAIMS};
ghost use Rattle.sq_shared.specs.Numbers.{reactive_pull};
ghost use Rattle.sq_node.specs.declared.fabric.TheConstants.{REQUEST_PLACES, JOB_PLACES};
ghost use Rattle.sq_audit.specs.declared.job.Job.{Job};
ghost use Rattle.sq_live.specs.declared.job_list.TheConstants.{MAX_JOBS};
ghost use Rattle.sq_live.specs.declared.outcome.LiveOutcome.{LiveOutcome};
ghost use Rattle.sq_live.specs.declared.fault.LiveFault.{LiveFault};
ghost use Rattle.sq_live.specs.JobLines.{jobs_in};
ghost use Rattle.sq_live.specs.SpelledJobs.{SpellJobs, EndInFault};
ghost use Rattle.sq_live.specs.Live.{WereRun, EndsLive};
ghost use Rattle.sq_live.specs.WholeRun.{MeetsPlan, AreRunAsPlanned, sound_ending};

/// The limits of live runs, in digits; the laws of the same name in `sq_schema`, `sq_moves` and
/// `sq_text` state further ones.
pub fn the_limits()
    ensures pulls { (MAX_OWNERS ≡ 64) × (MAX_PUMPS ≡ 16) × (MAX_CLAIMS ≡ 33554432) }
    // The first pull of the last partition.
    ensures last { reactive_pull 63 0 ≡ 127 }
    ensures queues { (JOB_PLACES ≡ 4096) × (REQUEST_PLACES ≡ 256) }
    ensures jobs { MAX_JOBS ≡ 4096 }
{}

/// A sound run ends as planned: each family is in the store of its owner by the new plan; the rows
/// of each root key are those of the input, after a replay of the committed jobs on it in the order
/// of its whole log; and each job has one receipt, with the answer that it had to be given in that
/// log. If logs are folded, the receipts and logs of all stages count.
pub fn a_sound_run_ends_where_planned()
    ensures run { (folds : Bool) (o : OpeningValue) (jobs : List Job) (outcome : LiveOutcome)
        (run : WereRun folds o jobs outcome)
        → MeetsPlan folds o jobs run.earlier run.gathered outcome }
    ensures input { (folds : Bool) (tables : ℕ) (given : List PieceValue) (families committed : ℕ)
        → EndsLive folds tables given (sound_ending families committed)
        → AreRunAsPlanned folds tables given families committed }
{}

/// The jobs of an input are exactly those that its lines spell, one each, if each is for a
/// partition that exists, no two have the same id, and there are at most
/// [`MAX_JOBS`](crate::MAX_JOBS). Otherwise the lines before some line spell jobs, and the fault is
/// that of this line: what each fault says of the line rules out the faults that come before it in
/// order.
pub fn lines_spell_jobs_or_the_first_has_a_fault()
    ensures jobs { (tables parts : ℕ) (pieces : List PieceValue) (jobs : List Job)
        → (jobs_in tables parts [] pieces ≡ Ok jobs) ↔ SpellJobs tables parts pieces jobs }
    ensures fault { (tables parts : ℕ) (pieces : List PieceValue) (fault : LiveFault)
        → jobs_in tables parts [] pieces ≡ Err fault → EndInFault tables parts pieces fault }
{}
