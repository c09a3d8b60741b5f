//! Consequences of the definitions. The functions do nothing: each states a law, which the checker
//! proves.
ghost use Rattle.std.specs.Prelude.{◌≡◌, ◌↔◌, ℕ, true, List, length, is_some};
ghost use Rattle.sq_explain.specs.Meanings.{meaning_of};
ghost use Rattle.sq_gather.specs.Prelude.{TxnValue, FamilyValue, rows_of, replay_rows, OpeningValue, opening_rows, Spot, GatheredValue, StandsAt, IsPlaced};
ghost use Rattle.sq_audit.specs.declared.job.Job.{Job};
ghost use Rattle.sq_audit.specs.declared.verdict.Defect.{Defect};
ghost use Rattle.sq_audit.specs.declared.verdict.Verdict.{Verdict};
ghost use Rattle.sq_audit.specs.Answers.{ArePosted, IsToldLog, LogsArePosted};
ghost use Rattle.sq_audit.specs.Sound.{IsSoundRun};
ghost use Rattle.sq_audit.specs.Defects.{defect_number, Clears, IsVerdict};

/// What was gathered is sound exactly if it is clear of each defect.
pub fn sound_is_clear_of_each_defect()
    ensures { (o : OpeningValue) (g : GatheredValue) (jobs : List Job) → IsSoundRun o g jobs
        ↔ ((defect : Defect) → Clears o g jobs defect) }
{}

/// There is at most one verdict.
pub fn one_verdict()
    ensures { (o : OpeningValue) (g : GatheredValue) (jobs : List Job) (one other : Verdict)
        → IsVerdict o g jobs one
        → IsVerdict o g jobs other → one ≡ other }
{}

/// What the audit finds sound is as the receipts tell: the rows of each family are those that a log
/// as long as its own leaves of its opening rows, and the receipts tell this log.
pub fn sound_is_as_told()
    ensures { (o : OpeningValue) (g : GatheredValue) (jobs : List Job) (spot : Spot) (root : ℕ)
        (family : FamilyValue)
        → IsVerdict o g jobs Verdict.Sound → StandsAt g spot root family
        → (log : List TxnValue) × (length log ≡ length family.log)
        × IsToldLog (opening_rows o family.root) g.receipts family.root log
        × (rows_of family ≡ replay_rows (opening_rows o family.root) log) }
{}

/// If what was gathered is placed, the log that the receipts tell of a family is its log.
pub fn the_told_log_is_the_log()
    ensures { (o : OpeningValue) (g : GatheredValue) (spot : Spot) (root : ℕ)
        (family : FamilyValue) (log : List TxnValue)
        → IsPlaced o g → StandsAt g spot root family → length log ≡ length family.log
        → IsToldLog (opening_rows o family.root) g.receipts family.root log
        → log ≡ family.log }
{}

/// If what was gathered is placed, and the transaction of each receipt is that of a job, then each
/// transaction of a log is that of a job.
pub fn logs_have_jobs_alone()
    ensures { (o : OpeningValue) (g : GatheredValue) (jobs : List Job)
        → IsPlaced o g → ArePosted jobs g.receipts → LogsArePosted g jobs }
{}

/// Each defect has a meaning in the table of numbers.
pub fn each_defect_has_a_meaning()
    ensures { (defect : Defect) → is_some (meaning_of (defect_number defect)) ≡ true }
{}
