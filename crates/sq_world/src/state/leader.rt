// The steps of the leader.
ghost use Rattle.std.specs.Prelude.{◌≡◌, ℕ, ◌<◌, ◌≤◌, [], length, map, slice_index_or};
ghost use Rattle.sq_leader.specs.Segments.{is_marked_complete};
ghost use Rattle.sq_leader.specs.declared.leader.Leader.{Leader};
ghost use Rattle.sq_moves.specs.declared.segment.TheConstants.{SEGMENT_LIMIT};
ghost use Rattle.sq_moves.specs.Prelude.{no_moves};
ghost use Rattle.sq_exec.specs.Prelude.{entered_core};
ghost use Rattle.sq_moves.specs.Prelude.{reading, status_at, is_complete_reading};
ghost use Rattle.sq_transition.specs.Prelude.{prepare_result, start_result, report_result, next_result, finish_result, fold_result, started_core};
ghost use Rattle.sq_world.specs.Results.{answer_of, report_refused, next_refused};
ghost use Rattle.sq_world.specs.Sound.{IsSound};

use crate::state::State;
use sq_exec::PartCore;
use sq_leader::{Idle, Leader, NextFault, Report, ReportFault};
use sq_model::{Answer, Phase, Refusal};
use sq_moves::{PlainTree, Recon, SEGMENT_LIMIT};
use sq_store::SlabStore;
use std::mem;

// The most segments, as the length of an array.
const SEGMENTS: usize = SEGMENT_LIMIT as usize;

impl State {
    /// Records that partition `part` is ready, which it may report until the move starts.
    pub(crate) fn prepare(&mut self, part: u64) -> Result<Answer, Refusal>
        requires { IsSound self.old }
        ensures { (answer_of result, self.new) ≡ prepare_result self.old part }
    {
        match self.take_leader() {
            Leader::Idle(idle) => match idle.prepare(part) {
                Ok(preparing) => self.go_on(Leader::Preparing(preparing)),
                Err(refused) => self.stay(Leader::Idle(refused.leader), Refusal::NoSuchPartition),
            },
            Leader::Preparing(preparing) => match preparing.prepare(part) {
                Ok(preparing) => self.go_on(Leader::Preparing(preparing)),
                Err(refused) => self.stay(
                    Leader::Preparing(refused.leader),
                    Refusal::NoSuchPartition,
                ),
            },
            started => {
                let refusal = self
                    .check_part(part)
                    .err()
                    .unwrap_or(Refusal::AlreadyMoving);
                self.stay(started, refusal)
            }
        }
    }

    /// Starts the move at the leader and at each partition; refused until every partition has
    /// prepared.
    pub(crate) fn start(&mut self) -> Result<Answer, Refusal>
        requires { IsSound self.old }
        ensures { (answer_of result, self.new) ≡ start_result self.old }
    {
        match self.take_leader() {
            Leader::Idle(idle) => self.stay(Leader::Idle(idle), Refusal::NotPrepared),
            Leader::Preparing(preparing) => match preparing.start() {
                Ok(moving) => {
                    start_all(&mut self.cores);
                    self.go_on(Leader::Moving(moving))
                }
                Err(refused) => self.stay(Leader::Preparing(refused.leader), Refusal::NotPrepared),
            },
            started => self.stay(started, Refusal::AlreadyMoving),
        }
    }

    /// Records that partition `part` has all of the segments that move into it; refused until each
    /// of them is complete.
    pub(crate) fn report(&mut self, part: u64) -> Result<Answer, Refusal>
        requires { IsSound self.old }
        ensures { (answer_of result, self.new) ≡ report_result self.old part }
    {
        match self.take_leader() {
            Leader::Moving(moving) => {
                let whole = complete_by_trees(&self.trees);
                match Report::made(part, &self.old_plan, &self.recon, moving.stage(), &whole) {
                    Ok(report) => match moving.report(&report) {
                        Ok(moving) => self.go_on(Leader::Moving(moving)),
                        Err(_) => unreachable!(),
                    },
                    Err(fault) => self.stay(Leader::Moving(moving), report_refusal(fault)),
                }
            }
            other => self.stay(other, Refusal::NotMoving),
        }
    }

    /// Enters the next stage at the leader and at each partition; refused until every partition
    /// that a segment of this stage moves into has reported.
    pub(crate) fn next(&mut self) -> Result<Answer, Refusal>
        requires { IsSound self.old }
        ensures { (answer_of result, self.new) ≡ next_result self.old }
    {
        match self.take_leader() {
            Leader::Moving(moving) => match moving.next() {
                Ok(moving) => {
                    enter_all(&mut self.cores, moving.stage());
                    self.go_on(Leader::Moving(moving))
                }
                Err(refused) => {
                    self.stay(Leader::Moving(refused.leader), next_refusal(refused.fault))
                }
            },
            other => self.stay(other, Refusal::NotMoving),
        }
    }

    /// Ends the move in its last stage; refused until every partition that a segment of that stage
    /// moves into has reported.
    pub(crate) fn finish(&mut self) -> Result<Answer, Refusal>
        requires { IsSound self.old }
        ensures { (answer_of result, self.new) ≡ finish_result self.old }
    {
        match self.take_leader() {
            Leader::Moving(moving) => match moving.finish() {
                Ok(ended) => self.go_on(Leader::Ended(ended)),
                Err(refused) => self.stay(Leader::Moving(refused.leader), Refusal::NotFinished),
            },
            other => self.stay(other, Refusal::NotMoving),
        }
    }

    /// Folds the logs of partition `part`; refused until the reconfiguration has ended.
    pub(crate) fn fold(&mut self, part: u64) -> Result<Answer, Refusal>
        requires { IsSound self.old }
        ensures { (answer_of result, self.new) ≡ fold_result self.old part }
    {
        self.check_part(part)?;
        let Phase::Ended = self.phase() else {
            return Err(Refusal::NotFinished);
        };
        self.cores[part as usize].fold();
        Ok(Answer::Done)
    }

    // Takes the leader out for a call, and leaves an idle one in its place.
    fn take_leader(&mut self) -> Leader
        ensures leader { result ≡ self.old.leader }
        ensures after { self.new ≡ record self.old {
          leader = Leader.Idle
              (record { parts = (self.old).old.parts; recon = no_moves });
        } }
    {
        let meanwhile = Leader::Idle(Idle::new(&self.old_plan, Recon::nothing(self.alloc)));
        mem::replace(&mut self.leader, meanwhile)
    }

    // Puts the leader in after a call that succeeded.
    fn go_on(&mut self, leader: Leader) -> Result<Answer, Refusal>
        ensures answer { result ≡ Ok Answer.Done }
        ensures after { self.new ≡ record self.old { leader = leader } }
    {
        self.leader = leader;
        Ok(Answer::Done)
    }

    // Puts the leader back after a call that was refused.
    fn stay(&mut self, leader: Leader, refusal: Refusal) -> Result<Answer, Refusal>
        ensures answer { result ≡ Err refusal }
        ensures after { self.new ≡ record self.old { leader = leader } }
    {
        self.leader = leader;
        Err(refusal)
    }
}

// Starts the move at each partition.
fn start_all(cores: &mut [PartCore<SlabStore>])
    ensures { map (λ part. part.core) cores.new
        ≡ map started_core (map (λ part. part.core) cores.old) }
{
    for core in cores.iter_mut() {
        core.start();
    }
}

// Enters `stage` at each partition.
fn enter_all(cores: &mut [PartCore<SlabStore>], stage: u64)
    ensures { map (λ part. part.core) cores.new
        ≡ map (entered_core stage) (map (λ part. part.core) cores.old) }
{
    for core in cores.iter_mut() {
        core.enter(stage);
    }
}

// Marks the segments that are complete, according to their trees.
fn complete_by_trees(trees: &[PlainTree]) -> [bool; SEGMENTS]
    requires { length trees.now ≤ SEGMENT_LIMIT }
    ensures { (seg : ℕ) → seg < length trees.now
        → is_marked_complete result seg ≡ is_complete_reading
        (reading (status_at (slice_index_or trees.now seg [])) 1) }
{
    let mut whole = [false; SEGMENTS];
    for (seg, tree) in trees.iter().enumerate() {
        whole[seg] = tree.all_complete();
    }
    whole
}

// Returns why the next stage was refused.
fn next_refusal(fault: NextFault) -> Refusal
    ensures { result ≡ next_refused fault }
{
    match fault {
        NextFault::LastStage => Refusal::LastStage,
        NextFault::NotFinished => Refusal::NotFinished,
    }
}

// Returns why a report was refused.
fn report_refusal(fault: ReportFault) -> Refusal
    ensures { result ≡ report_refused fault }
{
    match fault {
        ReportFault::NoSuchPartition => Refusal::NoSuchPartition,
        ReportFault::NotFinished => Refusal::NotFinished,
    }
}
