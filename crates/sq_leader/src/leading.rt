// The leader of a run in threads.
ghost use Rattle.std.specs.Prelude.{◌≡◌, length, true, IfOk};
ghost use Rattle.sq_moves.specs.Prelude.{IsOpening};
ghost use Rattle.sq_leader.specs.Marks.{all_marked};
ghost use Rattle.sq_leader.specs.Segments.{is_marked_complete};
ghost use Rattle.sq_leader.specs.Leader.{is_last};
ghost use Rattle.sq_leader.specs.Leading.{leading, HaveReported, Leads};

use crate::fault::NextFault;
use crate::leader::{Idle, Preparing};
use crate::moving::Moving;
use crate::report::Report;
use sq_moves::{Opening, Recon};
use sq_plan::Plan;
use std::alloc::AllocError;

/// What the leader does after a stage.
#[derive(Drop)]
pub enum Led {
    /// It moved on to the next stage.
    Next(Moving),
    /// It ended the move: the stage was the last.
    Ended,
    /// It waits: a segment of the stage is not complete.
    Missing,
}

/// Starts the move of `opening`, for which each partition has prepared and none has reported.
pub fn start_move(opening: &Opening) -> Result<Moving, AllocError>
    ensures { IfOk result (λ moving. moving ≡ leading opening.now 0) }
{
    let recon = opening.recon().clone()?;
    match prepare_all(opening.old_plan(), recon).start() {
        Ok(moving) => Ok(moving),
        Err(_) => unreachable!(),
    }
}

// Returns the leader of a move from `plan` once each of its partitions has prepared.
fn prepare_all(plan: &Plan, recon: Recon) -> Preparing
    ensures parts { length result.prepared ≡ plan.now.parts }
    ensures all { all_marked result.prepared ≡ true }
    ensures recon { result.recon ≡ recon }
{
    let parts = plan.parts();
    let Ok(mut preparing) = Idle::new(plan, recon).prepare(0) else {
        unreachable!()
    };
    for part in 1..u64::from(parts) {
        preparing = match preparing.prepare(part) {
            Ok(preparing) => preparing,
            Err(_) => unreachable!(),
        };
    }
    preparing
}

/// Continues once each segment of the running stage is complete: to the next stage, or after the
/// last stage to the end of the move. `whole` says of each segment, by its number, whether it is
/// complete; a segment without an entry isn't. Each partition that may report does so first.
pub fn lead_on(moving: Moving, opening: &Opening, whole: &[bool]) -> Led
    requires { moving ≡ leading opening.now moving.stage }
    ensures { Leads opening.now moving.stage (is_marked_complete whole.now) result }
{
    match hear_reports(moving, opening, whole).next() {
        Ok(moving) => Led::Next(moving),
        Err(refused) => match refused.fault {
            NextFault::NotFinished => Led::Missing,
            NextFault::LastStage => end_move(refused.leader, opening, whole),
        },
    }
}

// Ends the move in its last stage, if each segment of the stage is complete.
fn end_move(moving: Moving, opening: &Opening, whole: &[bool]) -> Led
    requires reported { HaveReported opening.now moving.stage whole.now moving }
    requires last { is_last moving ≡ true }
    requires opening { IsOpening opening.now }
    ensures { Leads opening.now moving.stage (is_marked_complete whole.now) result }
{
    match moving.finish() {
        Ok(_) => Led::Ended,
        Err(_) => Led::Missing,
    }
}

// Returns the leader after the report of each partition that may report.
fn hear_reports(mut moving: Moving, opening: &Opening, whole: &[bool]) -> Moving
    requires { moving ≡ leading opening.now moving.stage }
    ensures heard { HaveReported opening.now moving.stage whole.now result }
    ensures opening { IsOpening opening.now }
{
    for part in 0..u64::from(opening.old_plan().parts()) {
        let stage = moving.stage();
        if let Ok(report) = Report::made(part, opening.old_plan(), opening.recon(), stage, whole) {
            moving = match moving.report(&report) {
                Ok(moving) => moving,
                Err(_) => unreachable!(),
            };
        }
    }
    moving
}
