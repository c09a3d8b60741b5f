// What a run continues with after a stage.
ghost use Rattle.std.specs.Prelude.{◌≡◌, IfOk, true};
ghost use Rattle.sq_node_model.specs.Prelude.{IsStageDone};
ghost use Rattle.sq_live.specs.Stages.{ContinuesIfSound};

use crate::account::Account;
use crate::judging::count_commits;
use sq_audit::{Defect, Unfolded, fold_in_threads};
use sq_gather::{Gathered, Receipt};
use std::alloc::{AllocError, Global};
use std::ops::ControlFlow;
use std::thread::Threads;

/// What a run continues with after a stage.
#[derive(Drop)]
pub(crate) struct Continued {
    pub(crate) account: Account,
    pub(crate) gathered: Gathered,
    /// The receipts in the history of `gathered`.
    pub(crate) told: Vec<Receipt>,
}

/// Returns what a run continues with after a stage whose segments are complete: `account`,
/// `gathered` and `told`, the receipts so far, unchanged or, if `folds` is set, with the logs
/// folded, as [`fold`] does, and counted.
/// It breaks at the first defect that the fold's audit finds in `gathered`.
pub(crate) fn continue_with<R: Threads + Sync>(
    rt: &R,
    alloc: Global,
    folds: bool,
    account: Account,
    gathered: Gathered,
    told: Vec<Receipt>,
) -> Result<ControlFlow<Defect, Continued>, AllocError>
    requires done { IsStageDone account.opening gathered }
    requires told { told.items ≡ gathered.receipts }
    ensures { IfOk result (ContinuesIfSound folds account gathered) }
{
    if folds {
        fold_logs(rt, alloc, account, gathered, told)
    } else {
        Ok(ControlFlow::Continue(Continued {
            account,
            gathered,
            told,
        }))
    }
}

// Folds the gathered logs, and counts the jobs that were answered and the receipts of commits.
fn fold_logs<R: Threads + Sync>(
    rt: &R,
    alloc: Global,
    account: Account,
    gathered: Gathered,
    told: Vec<Receipt>,
) -> Result<ControlFlow<Defect, Continued>, AllocError>
    requires done { IsStageDone account.opening gathered }
    requires told { told.items ≡ gathered.receipts }
    ensures { IfOk result (ContinuesIfSound true account gathered) }
{
    let Account {
        opening,
        jobs,
        answered,
        committed,
    } = account;
    let posted = jobs.len();
    let commits = count_commits(&told);
    match fold_in_threads(rt, alloc, opening, gathered, told, jobs) {
        Ok(folded) => {
            let account = Account {
                opening: folded.opening,
                answered: answered + (posted - folded.jobs.len()) as u64,
                jobs: folded.jobs,
                committed: committed + commits,
            };
            Ok(ControlFlow::Continue(Continued {
                account,
                gathered: folded.gathered,
                told: Vec::new(alloc),
            }))
        }
        Err(Unfolded::Unsound(defect)) => Ok(ControlFlow::Break(defect)),
        Err(Unfolded::Memory(_)) => Err(AllocError),
    }
}
