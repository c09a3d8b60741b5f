// Tries a move in two stages. The job on root key 9 is posted after the first stage, which leaves
// it unanswered; then the logs are folded.
ghost use Rattle.std.specs.Prelude.{OnOk, IfErr};
ghost use Rattle.sq_node_model.specs.Prelude.{IsStageDone, AllGrown};
ghost use Rattle.sq_audit.specs.Answers.{IdsDiffer};
ghost use Rattle.sq_audit.specs.Folding.{IsUnfolded};

use crate::gathered_text::print_gathered;
use crate::hand_run::{HandRun, Left, PUMPS};
use crate::lines::{read_opening, read_two_jobs};
use crate::printing::{print_line, print_refused, value_of};
use crate::unfinished::Unfinished;
use sq_audit::{Defect, Folded, Job, Unchanged, Unfolded, Verdict, audit, fold, fold_in_threads};
use sq_gather::{Gathered, Receipt, reopen};
use sq_moves::Opening;
use std::alloc::Global;
use std::sync::Wait;
use std::thread::Threads;

const HEADER: &str = r#"old {"version":1,"partitions":3,"ranges":[[0,4294967296,0]]}
new {"version":2,"partitions":3,"ranges":[[0,4,0],[4,8,1],[8,12,2],[12,4294967296,0]],"stages":"auto"}
config 1 64 1
row 5 0 0 10 -
row 9 0 0 20 -
"#;

const FIRST: &str = "txn 0 1 5 add 0 0 1";

const SECOND: &str = "txn 0 2 9 get 0 0";

/// Which fold is tried.
#[derive(Clone, Copy, Debug, PartialEq, Eq)]
pub enum Fold {
    InOneThread,
    InThreads,
}

/// Tries both stages, with a fold between them.
pub fn try_two_stages<R: Threads + Wait + Print + Sync>(
    rt: &R,
    alloc: Global,
    kind: Fold,
) -> Result<(), Unfinished> {
    print_line(rt, "starts");
    let jobs = read_two_jobs(alloc, FIRST, SECOND)?;
    let opening = read_opening(alloc, HEADER)?;
    print_line(rt, "read");
    let stage = first_stage(rt, alloc, &opening)?;
    let Folded {
        opening,
        gathered,
        jobs,
    } = folded(rt, alloc, opening, stage, jobs, kind)?;
    let left = jobs.len();
    drop(println!(rt; "left {left}"));
    second_stage(rt, alloc, &opening, gathered)
}

// Runs the first stage, and gathers it.
fn first_stage<R: Wait + Print>(
    rt: &R,
    alloc: Global,
    opening: &Opening,
) -> Result<Left, Unfinished> {
    let mut run = HandRun::open(rt, alloc, opening)?;
    print_line(rt, "opened");
    run.post(rt, alloc, FIRST)?;
    print_line(rt, "works");
    work(rt, &mut run);
    print_line(rt, "worked");
    run.post(rt, alloc, SECOND)?;
    print_line(rt, "posted");
    run.gather(rt, alloc)
}

// Runs the second stage, gathers it, and prints what was gathered.
fn second_stage<R: Wait + Print>(
    rt: &R,
    alloc: Global,
    opening: &Opening,
    gathered: Gathered,
) -> Result<(), Unfinished> {
    let mut run = reopened(rt, alloc, opening, gathered)?;
    work(rt, &mut run);
    let left = run.gather(rt, alloc)?;
    print_gathered(rt, alloc, &left.gathered, &left.receipts)
}

// Runs turns of all workers. The pump claims a segment whole.
fn work<R: Wait + Print>(rt: &R, run: &mut HandRun) {
    for _turn in 0..8 {
        run.turn_pump(rt);
        for part in 0..3 {
            run.turn(rt, part);
        }
    }
}

// Folds what is gathered of the first stage.
fn folded<R: Threads + Print + Sync>(
    rt: &R,
    alloc: Global,
    opening: Opening,
    stage: Left,
    jobs: Vec<Job>,
    kind: Fold,
) -> Result<Folded, Unfinished>
    requires { IdsDiffer jobs.items }
{
    let Left { gathered, receipts } = stage;
    if let Err(unfinished) = check_done(&opening, &gathered, &receipts, &jobs) {
        return Err(unfinished);
    }
    print_line(rt, "folds");
    fold_twice(rt, alloc, opening, gathered, receipts, jobs, kind)
}

// Fails unless the stage is done and the only defect is a job without an answer.
fn check_done(
    opening: &Opening,
    gathered: &Gathered,
    receipts: &[Receipt],
    jobs: &[Job],
) -> Result<(), Unfinished>
    requires { IdsDiffer jobs.now }
    ensures { OnOk result (IsStageDone opening.now gathered.now) }
{
    match audit(opening, gathered, receipts, jobs)? {
        Verdict::Unsound(Defect::Unanswered) => check_segments(opening, gathered),
        _ => Err(Unfinished::Refused),
    }
}

// Fails unless each segment of the stage is complete.
fn check_segments(opening: &Opening, gathered: &Gathered) -> Result<(), Unfinished>
    requires { AllGrown gathered.now.statuses }
    ensures { OnOk result (IsStageDone opening.now gathered.now) }
{
    if gathered.is_stage_done(opening) {
        Ok(())
    } else {
        Err(Unfinished::Refused)
    }
}

fn fold_twice<R: Threads + Print + Sync>(
    rt: &R,
    alloc: Global,
    opening: Opening,
    gathered: Gathered,
    receipts: Vec<Receipt>,
    jobs: Vec<Job>,
    kind: Fold,
) -> Result<Folded, Unfinished>
    requires done { IsStageDone opening gathered }
    requires ids { IdsDiffer jobs.items }
{
    match fold_once(rt, alloc, opening, gathered, receipts, jobs, kind) {
        Ok(folded) => Ok(folded),
        Err(Unfolded::Memory(back)) => {
            print_refused(rt, "fold");
            let Unchanged {
                opening,
                gathered,
                receipts,
                jobs,
            } = back;
            value_of(fold_once(rt, alloc, opening, gathered, receipts, jobs, kind))
        }
        Err(Unfolded::Unsound(_)) => Err(Unfinished::Refused),
    }
}

fn fold_once<R: Threads + Sync>(
    rt: &R,
    alloc: Global,
    opening: Opening,
    gathered: Gathered,
    receipts: Vec<Receipt>,
    jobs: Vec<Job>,
    kind: Fold,
) -> Result<Folded, Unfolded>
    requires done { IsStageDone opening gathered }
    requires ids { IdsDiffer jobs.items }
    ensures { IfErr result (IsUnfolded opening gathered receipts.items jobs.items) }
{
    match kind {
        Fold::InOneThread => fold(alloc, opening, gathered, receipts, jobs),
        Fold::InThreads => fold_in_threads(rt, alloc, opening, gathered, receipts, jobs),
    }
}

// Opens the next stage; if there was no memory for it, opens it once more.
fn reopened<R: Print>(
    rt: &R,
    alloc: Global,
    opening: &Opening,
    gathered: Gathered,
) -> Result<HandRun, Unfinished> {
    match reopen_once(alloc, opening, gathered) {
        Ok(run) => Ok(run),
        Err(back) => {
            print_refused(rt, "reopen");
            value_of(reopen_once(alloc, opening, back))
        }
    }
}

fn reopen_once(alloc: Global, opening: &Opening, gathered: Gathered) -> Result<HandRun, Gathered> {
    let run = reopen(alloc, opening, gathered, PUMPS)?;
    Ok(HandRun::of(alloc, run))
}
