// The stages of a live run.
ghost use Rattle.std.specs.Prelude.{◌≡◌, ◌≤◌, ◌+◌, IfOk, IfErr, OnOk};
ghost use Rattle.sq_shared.specs.declared.numbers.TheConstants.{MAX_PUMPS};
ghost use Rattle.sq_moves.specs.Prelude.{OpeningValue, IsOpening};
ghost use Rattle.sq_node_model.specs.Prelude.{BeganWith, first_began, IsPlaced, IsStageDone, next_began};
ghost use Rattle.sq_driver.specs.StageRunValue.{BeganFrom, RanFrom};
ghost use Rattle.sq_live.specs.Account.{first_account};
ghost use Rattle.sq_leader.specs.Leading.{leading};
ghost use Rattle.sq_live.specs.Stages.{IsReady, ComesAfterStage, GoesOnTo};
ghost use Rattle.sq_driver.specs.declared.attendance.WorkersEnd.TheVariants as ends;
ghost use Rattle.sq_live.specs.Faults.{run_fault};
ghost use Rattle.sq_live.specs.Live.{WereRun};

use crate::account::Account;
use crate::continuing::{Continued, continue_with};
use crate::fault::RunFault;
use crate::judging::{judge_end, judge_stopped, moved_segments};
use crate::outcome::LiveOutcome;
use crate::watch::Watch;
use sq_audit::Job;
use sq_driver::{StageRun, WorkersEnd};
use sq_gather::Gathered;
use sq_leader::{Led, Moving, lead_on};
use sq_node::{Fabric, Receipt};
use std::alloc::{AllocError, Global};
use std::ops::ControlFlow;
use std::sync::Wait;
use std::thread::Threads;

/// The options of a live run.
#[derive(Clone, Copy)]
pub struct RunManner {
    /// The most turns that each thread takes in a stage.
    pub turns: u64,
    /// How many pumps run, at most `MAX_PUMPS`.
    pub pumps: u32,
    /// Whether the logs are folded between stages.
    pub folds: bool,
    ghost few_pumps: { pumps ≤ MAX_PUMPS },
}

/// A stage that is ready to run.
#[derive(Drop)]
pub(crate) struct Ready {
    pub(crate) account: Account,
    pub(crate) moving: Moving,
    pub(crate) run: StageRun,
    /// The receipts of earlier stages, but for those of folded logs.
    pub(crate) told: Vec<Receipt>,
}

/// Runs the jobs of `account` stage by stage, from the first stage to the last, or to the first one
/// that stops the run; in each stage, each partition and each pump runs in a thread of its own.
/// Returns the outcome of the whole run, whatever the threads did, or a fault if they gave up for
/// lack of threads or of memory.
pub(crate) fn run_stages<R: Threads + Wait + Sync, G: Watch>(
    rt: &R,
    alloc: Global,
    account: Account,
    moving: Moving,
    manner: RunManner,
    watch: &G,
) -> Result<LiveOutcome, RunFault>
    requires first { account ≡ first_account account.opening account.jobs }
    requires led { moving ≡ leading account.opening 0 }
    ensures { IfOk result (WereRun manner.folds account.opening account.jobs) }
{
    let mut ready = first_ready(rt, alloc, account, moving, manner.pumps)?;
    loop {
        match run_stage(rt, alloc, ready, manner, watch)? {
            ControlFlow::Break(outcome) => return Ok(outcome),
            ControlFlow::Continue(next) => ready = next,
        }
    }
}

// Returns the first stage, ready to run, with each job posted.
fn first_ready<R: Threads + Wait + Sync>(
    rt: &R,
    alloc: Global,
    account: Account,
    moving: Moving,
    pumps: u32,
) -> Result<Ready, AllocError>
    requires pumps { pumps ≤ MAX_PUMPS }
    requires led { moving ≡ leading account.opening 0 }
    ensures account { IfOk result (λ ready. ready.account ≡ account) }
    ensures ready { IfOk result (IsReady (first_began account.opening)) }
{
    let run = StageRun::open_in_threads(rt, alloc, &account.opening, pumps)?;
    post_all(rt, run.fabric(), &account.jobs)?;
    Ok(Ready {
        account,
        moving,
        run,
        told: Vec::new(alloc),
    })
}

// Posts each job to its partition, unless memory runs out. If a queue refuses a job, the job is
// dropped, and so not answered; but a queue has as many places as a run has jobs at most.
fn post_all<R: Wait>(rt: &R, fabric: &Fabric, jobs: &[Job]) -> Result<(), AllocError> {
    for job in jobs {
        match fabric.post(rt, job.part, job.txn.clone()?) {
            Err(back) if back.is_memory => return Err(AllocError),
            Ok(()) | Err(_) => {}
        }
    }
    Ok(())
}

// Runs a stage to its end, and prepares the next one if the leader moves on.
fn run_stage<R: Threads + Wait + Sync, G: Watch>(
    rt: &R,
    alloc: Global,
    ready: Ready,
    manner: RunManner,
    watch: &G,
) -> Result<ControlFlow<LiveOutcome, Ready>, RunFault>
    requires ready { (began : BeganWith) × IsReady began ready }
    ensures { IfOk result (λ after. (began : BeganWith) → IsReady began ready
        → ComesAfterStage manner.folds ready.account began after) }
{
    let Ready {
        account,
        moving,
        run,
        told,
    } = ready;
    let (gathered, told) = drive_all(rt, alloc, run, told, manner.turns, watch)?;
    let moved = moved_segments(&gathered.statuses);
    match lead_on(moving, &account.opening, &moved) {
        Led::Next(moving) => go_on(rt, alloc, account, gathered, told, moving, manner),
        Led::Ended => {
            let outcome = judge_end(rt, alloc, &account, &gathered, &told, &moved)?;
            watch.leaves(gathered, told, account.opening, account.jobs);
            Ok(ControlFlow::Break(outcome))
        }
        Led::Missing => {
            let outcome = judge_stopped(alloc, &account, &gathered, &told, &moved)?;
            watch.leaves(gathered, told, account.opening, account.jobs);
            Ok(ControlFlow::Break(outcome))
        }
    }
}

// Prepares the next stage after a stage whose segments are complete.
fn go_on<R: Threads + Sync>(
    rt: &R,
    alloc: Global,
    account: Account,
    gathered: Gathered,
    told: Vec<Receipt>,
    moving: Moving,
    manner: RunManner,
) -> Result<ControlFlow<LiveOutcome, Ready>, RunFault>
    requires told { told.items ≡ gathered.receipts }
    requires placed { IsPlaced account.opening gathered }
    requires done { IsStageDone account.opening gathered }
    requires led { moving ≡ leading account.opening (gathered.stage + 1) }
    ensures { IfOk result (GoesOnTo manner.folds account gathered) }
{
    match continue_with(rt, alloc, manner.folds, account, gathered, told)? {
        ControlFlow::Continue(
            Continued {
                account,
                gathered,
                told,
            },
        ) => {
            let ready = next_ready(alloc, account, gathered, told, moving, manner.pumps)?;
            Ok(ControlFlow::Continue(ready))
        }
        ControlFlow::Break(defect) => Ok(ControlFlow::Break(LiveOutcome::Unsound(defect))),
    }
}

// Drives each partition and each pump in a thread of its own, and gathers what they left, which is
// placed, whatever the threads did, with the receipts so far: `told` are those of earlier stages.
// `watch` is called before the threads start, after they have ended, and with what was gathered.
fn drive_all<R: Threads + Wait + Sync, G: Watch>(
    rt: &R,
    alloc: Global,
    mut run: StageRun,
    told: Vec<Receipt>,
    turns: u64,
    watch: &G,
) -> Result<(Gathered, Vec<Receipt>), RunFault>
    requires { told.items ≡ run.fabric.receipts }
    ensures ran { IfOk result (λ left. (o : OpeningValue) (began : BeganWith)
        → IsOpening o → BeganFrom o began run → RanFrom o began left.0) }
    ensures told { IfOk result (λ left. left.1.items ≡ left.0.receipts) }
{
    watch.stage_begins();
    let end = run.drive(rt, turns, watch);
    watch.stage_ends(run.pairs());
    let (gathered, told) = gather_from(rt, alloc, run, told, end)?;
    watch.gathers(&gathered, &told);
    Ok((gathered, told))
}

// Gathers what the workers of a stage left, unless they gave up, and adds the stage's receipts to
// `told`.
fn gather_from<R: Wait>(
    rt: &R,
    alloc: Global,
    run: StageRun,
    told: Vec<Receipt>,
    end: WorkersEnd,
) -> Result<(Gathered, Vec<Receipt>), RunFault>
    requires { told.items ≡ run.fabric.receipts }
    ensures ran { IfOk result (λ left. (o : OpeningValue) (began : BeganWith)
        → IsOpening o → BeganFrom o began run → RanFrom o began left.0) }
    ensures told { IfOk result (λ left. left.1.items ≡ left.0.receipts) }
    ensures done { OnOk result (end ≡ ends.Done) }
    ensures fault { IfErr result (λ fault. fault ≡ run_fault end) }
{
    if end != WorkersEnd::Done {
        return Err(RunFault::of(end));
    }
    match run.gather(rt, alloc, told) {
        Ok(left) => Ok(left),
        Err(_) => Err(RunFault::of(end)),
    }
}

// Returns the stage after the one that was gathered, ready to run.
fn next_ready(
    alloc: Global,
    account: Account,
    gathered: Gathered,
    told: Vec<Receipt>,
    moving: Moving,
    pumps: u32,
) -> Result<Ready, AllocError>
    requires pumps { pumps ≤ MAX_PUMPS }
    requires told { told.items ≡ gathered.receipts }
    requires placed { IsPlaced account.opening gathered }
    requires done { IsStageDone account.opening gathered }
    requires led { moving ≡ leading account.opening (gathered.stage + 1) }
    ensures account { IfOk result (λ ready. ready.account ≡ account) }
    ensures ready { IfOk result (IsReady (next_began account.opening gathered)) }
{
    match StageRun::next_stage(alloc, &account.opening, gathered, pumps) {
        Ok(run) => Ok(Ready {
            account,
            moving,
            run,
            told,
        }),
        Err(_) => Err(AllocError),
    }
}
