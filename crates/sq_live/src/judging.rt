// The outcome of a live run, judged by what was gathered of its last stage.
ghost use Rattle.std.specs.Prelude.{◌≡◌, ◌≤◌, ◌<◌, ◌+◌, ◌^◌, ◌||◌, nat_lt, Bool, length, sum_by, IfOk};
ghost use Rattle.std.specs.FinMap.{len};
ghost use Rattle.sq_moves.specs.declared.segment.TheConstants.{SEGMENT_LIMIT};
ghost use Rattle.sq_moves.specs.Prelude.{stages, stage_at};
ghost use Rattle.sq_leader.specs.LeaderValue.{StageValue};
ghost use Rattle.sq_leader.specs.Segments.{is_marked_complete};
ghost use Rattle.sq_node_model.specs.Prelude.{is_complete_in, IsStageDone, AllGrown};
ghost use Rattle.sq_leader.specs.Leading.{HasEnded};
ghost use Rattle.sq_live.specs.Outcome.{answered_count, commit_count, CameTo, WhyStopped};
ghost use Rattle.sq_live.specs.Judged.{MarksMoved, marked_count};

use crate::account::Account;
use crate::outcome::LiveOutcome;
use sq_audit::{Verdict, audit_in_threads, count_answered};
use sq_gather::{Gathered, reads_complete};
use sq_moves::{NODES, NodeId, Recon, SEGMENT_LIMIT, SegId, Status};
use sq_node::Receipt;
use sq_schema::Reply;
use sq_store::SlabStore;
use std::alloc::{AllocError, Global};
use std::thread::Threads;

/// The largest number of segments, as the length of an array.
const SEGMENTS: usize = SEGMENT_LIMIT as usize;

/// Returns the outcome of a run whose last stage left `g`, after the leader ended the move. `told`
/// are the receipts so far, and `moved` marks the complete segments. The run is audited only if
/// each job is answered, and it is sound only if the audit found it so.
pub(crate) fn judge_end<R: Threads + Sync>(
    rt: &R,
    alloc: Global,
    account: &Account,
    g: &Gathered,
    told: &[Receipt],
    moved: &[bool],
) -> Result<LiveOutcome, AllocError>
    requires told { told.now ≡ g.now.receipts }
    requires moved { MarksMoved g.now.statuses moved.now }
    requires last { g.now.stage + 1 ≡ stages account.now.opening.recon }
    requires done { IsStageDone account.now.opening g.now }
    requires ended { (at : StageValue)
        × HasEnded account.now.opening g.now.stage (is_complete_in g.now) at }
    ensures { IfOk result (λ outcome. (folds : Bool) → CameTo folds account.now g.now outcome) }
{
    let answered = count_answered(alloc, told, &account.jobs)?;
    if answered < account.jobs.len() {
        return Ok(stopped(account, g, moved, answered));
    }
    match audit_in_threads(rt, &account.opening, g, told, &account.jobs)? {
        Verdict::Sound => Ok(LiveOutcome::Sound {
            families: count_families(&g.stores),
            committed: account.committed + count_commits(told),
        }),
        Verdict::Unsound(defect) => Ok(LiveOutcome::Unsound(defect)),
    }
}

/// Returns the outcome of a run that stopped after a stage with a segment that is not complete.
pub(crate) fn judge_stopped(
    alloc: Global,
    account: &Account,
    g: &Gathered,
    told: &[Receipt],
    moved: &[bool],
) -> Result<LiveOutcome, AllocError>
    requires told { told.now ≡ g.now.receipts }
    requires moved { MarksMoved g.now.statuses moved.now }
    requires missing { IsStageDone account.now.opening g.now → ⊥ }
    ensures { IfOk result (λ outcome. (folds : Bool) → CameTo folds account.now g.now outcome) }
{
    let answered = count_answered(alloc, told, &account.jobs)?;
    Ok(stopped(account, g, moved, answered))
}

// Returns the outcome of a run that stopped; `answered` of the jobs in `account` have a receipt
// now.
fn stopped(account: &Account, g: &Gathered, moved: &[bool], answered: usize) -> LiveOutcome
    requires moved { MarksMoved g.now.statuses moved.now }
    requires answered { answered ≡ answered_count g.now.receipts account.now.jobs }
    requires most { answered ≤ length account.now.jobs }
    requires why { WhyStopped account.now g.now }
    ensures { (folds : Bool) → CameTo folds account.now g.now result }
{
    let recon = account.opening.recon();
    LiveOutcome::Stopped {
        answered: account.answered + answered as u64,
        jobs: account.answered + account.jobs.len() as u64,
        complete: count_complete(recon, g.stage, moved),
        segments: recon.segments().len() as u64,
    }
}

/// Returns which segments are complete. A segment without statuses is not.
pub(crate) fn moved_segments(statuses: &[[Status; NODES]]) -> [bool; SEGMENTS]
    requires { AllGrown statuses.now }
    ensures { MarksMoved statuses.now result }
{
    let mut moved = [false; SEGMENTS];
    for seg in 0..statuses.len().min(SEGMENTS) {
        moved[seg] = reads_complete(&statuses[seg], NodeId::WHOLE);
    }
    moved
}

// Counts the segments that moved in a stage before `stage` or are marked in `moved`.
fn count_complete(recon: &Recon, stage: u64, moved: &[bool]) -> u64
    ensures { result ≡ marked_count recon.now stage moved.now }
{
    let mut count = 0;
    for number in 0..recon.segments().len() as u64 {
        let Some(seg) = SegId::new(number) else {
            unreachable!()
        };
        if is_counted(recon, stage, moved, seg) {
            count += 1;
        }
    }
    count
}

// Returns true if segment `seg` moved in a stage before `stage` or is marked in `moved`.
fn is_counted(recon: &Recon, stage: u64, moved: &[bool], seg: SegId) -> bool
    ensures { result ≡ (nat_lt (stage_at recon.now seg) stage
        || is_marked_complete moved.now seg) }
{
    recon.stage_of(seg) < stage || moved.get(seg.index()).copied().unwrap_or(false)
}

// Returns how many families all stores have together.
fn count_families(stores: &[SlabStore]) -> u64
    ensures { sum_by (λ store. len store) stores.now < 2 ^ 64
        → result ≡ sum_by (λ store. len store) stores.now }
{
    let mut count: u64 = 0;
    for store in stores {
        count = count.saturating_add(store.len() as u64);
    }
    count
}

/// Returns how many receipts are of commits.
pub fn count_commits(receipts: &[Receipt]) -> u64
    ensures commits { result ≡ commit_count receipts.now }
    ensures most { result ≤ length receipts.now }
{
    let mut count = 0;
    for receipt in receipts {
        if matches!(receipt.reply, Reply::Committed(_)) {
            count += 1;
        }
    }
    count
}
