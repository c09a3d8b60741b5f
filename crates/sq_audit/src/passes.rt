// The audit.
ghost use Rattle.std.specs.Prelude.{IfOk};
ghost use Rattle.std.specs.Bool.{Decides};
ghost use Rattle.sq_gather.specs.Prelude.{rows_in};
ghost use Rattle.sq_audit.specs.Answers.{IdsDiffer};
ghost use Rattle.sq_audit.specs.Located.{entries_in, ListsAll, AreByRoot};
ghost use Rattle.sq_audit.specs.Told.{IsFound};
ghost use Rattle.sq_audit.specs.Sound.{with_receipts};
ghost use Rattle.sq_audit.specs.Defects.{defect_number, Clears, ClearBelow, IsVerdict};

use crate::answered::are_answered;
use crate::fits::fit;
use crate::index::{have_families, stand_once};
use crate::job::Job;
use crate::located::{Located, locate};
use crate::told::{Found, find_all, find_all_in_threads};
use crate::verdict::{ALL_DEFECTS, Defect, Verdict};
use sq_gather::{Gathered, Opening, Receipt};
use std::alloc::{AllocError, Global};
use std::thread::Threads;

/// Returns the verdict on `g` with `receipts`, gathered of a run of `jobs`: sound, or the first
/// defect. The ids of `jobs` differ. It fails only if memory runs out.
pub fn audit(
    opening: &Opening,
    g: &Gathered,
    receipts: &[Receipt],
    jobs: &[Job],
) -> Result<Verdict, AllocError>
    requires { IdsDiffer jobs.now }
    ensures { IfOk result (IsVerdict opening.now (with_receipts g.now receipts.now) jobs.now) }
{
    let alloc = *g.stores.allocator();
    let located = locate(alloc, g)?;
    let all = located.as_slice();
    let found = find_all(alloc, opening.table(), all, jobs, receipts)?;
    first_defect(alloc, opening, g, receipts, all, jobs, found)
}

/// Does the same as [`audit`]; if there are many families, several threads check parts of them.
pub fn audit_in_threads<R: Threads + Sync>(
    rt: &R,
    opening: &Opening,
    g: &Gathered,
    receipts: &[Receipt],
    jobs: &[Job],
) -> Result<Verdict, AllocError>
    requires { IdsDiffer jobs.now }
    ensures { IfOk result (IsVerdict opening.now (with_receipts g.now receipts.now) jobs.now) }
{
    let alloc = *g.stores.allocator();
    let located = locate(alloc, g)?;
    let all = located.as_slice();
    let found = find_all_in_threads(rt, alloc, opening.table(), all, jobs, receipts)?;
    first_defect(alloc, opening, g, receipts, all, jobs, found)
}

// Returns the first defect, if there is one. `all` lists all families by root key, and `found`
// holds of them.
fn first_defect(
    alloc: Global,
    opening: &Opening,
    g: &Gathered,
    receipts: &[Receipt],
    all: &[Located],
    jobs: &[Job],
    found: Found,
) -> Result<Verdict, AllocError>
    requires listed { ListsAll g.now (entries_in all.now) }
    requires rise { AreByRoot (entries_in all.now) }
    requires found { IsFound (rows_in opening.now.table) (entries_in all.now) jobs.now
        receipts.now found }
    ensures { IfOk result (IsVerdict opening.now (with_receipts g.now receipts.now) jobs.now) }
{
    for defect in ALL_DEFECTS {
        if !clears(alloc, opening, g, receipts, all, jobs, found, defect)? {
            return Ok(Verdict::Unsound(defect));
        }
    }
    Ok(Verdict::Sound)
}

// Returns true if what was gathered does not have `defect`, provided it has no defect with a lower
// number.
fn clears(
    alloc: Global,
    opening: &Opening,
    g: &Gathered,
    receipts: &[Receipt],
    all: &[Located],
    jobs: &[Job],
    found: Found,
    defect: Defect,
) -> Result<bool, AllocError>
    requires listed { ListsAll g.now (entries_in all.now) }
    requires rise { AreByRoot (entries_in all.now) }
    requires found { IsFound (rows_in opening.now.table) (entries_in all.now) jobs.now
        receipts.now found }
    requires lower { ClearBelow opening.now (with_receipts g.now receipts.now) jobs.now
        (defect_number defect) }
    ensures { IfOk result (λ clear. Decides clear
        (Clears opening.now (with_receipts g.now receipts.now) jobs.now defect)) }
{
    match defect {
        Defect::RootMissing => Ok(have_families(opening.table(), all)),
        Defect::RootDoubled => Ok(stand_once(all)),
        Defect::BaseChanged => Ok(found.start),
        Defect::WrongPlace => fit(alloc, opening, g, all),
        Defect::ReceiptUnknown => Ok(found.known),
        Defect::Unanswered => are_answered(alloc, jobs, receipts),
    }
}
