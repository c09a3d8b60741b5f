// How an engine goes from one epoch to the next.
ghost use Rattle.std.specs.Prelude.{◌≡◌, ◌<◌};
ghost use Rattle.std.specs.Bool.{OnTrue, OnFalse};
ghost use Rattle.sq_moves.specs.Prelude.{IsSetUp, stages};
ghost use Rattle.sq_engine.specs.Engine.{IsReached, Keeps, KeepsOpening, IsPaused, HasBegunMove};
ghost use Rattle.sq_engine.specs.Engine.{EndsMove, BeginsNext, FollowsStage};
ghost use Rattle.sq_engine.specs.History.{onward_opening};
ghost use Rattle.sq_engine.specs.Values.{at_value, IsEnded, IsMadeDue};
ghost use Rattle.sq_node_model.specs.Prelude.{AllGrown};

use crate::at::At;
use crate::chunk_limit::ChunkLimit;
use crate::engine::Engine;
use crate::stage_progress::progress_at_start;
use sq_gather::{Gathered, gather, move_on, reopen};
use sq_moves::Opening;
use sq_node::RunParts;
use sq_plan::Plan;
use std::alloc::Global;
use std::mem;
use std::sync::Wait;

/// What an engine does next, between two epochs.
#[derive(Clone, Copy, Debug, PartialEq, Eq)]
pub(crate) enum Next {
    /// Nothing: an epoch runs, or some segment of its stage is not complete.
    Nothing,
    /// It begins the next stage of the move.
    Stage,
    /// It comes to rest after the last stage of the move.
    Rest,
    /// It begins the move that is due.
    Move,
}

impl Engine {
    // Returns what the engine does next.
    fn next(&self) -> Next
        ensures next { BeginsNext self.now result }
        ensures reached { IsReached self.now }
    {
        match &self.at {
            At::Running(_) | At::Changing => Next::Nothing,
            At::Between { gathered, is_due } => {
                if *is_due {
                    Next::Move
                } else {
                    next_after(gathered, &self.opening)
                }
            }
        }
    }

    /// Begins the next epoch, if none runs and memory suffices: the next stage of the move, the
    /// move that is due, or rest after the last stage. If some segment of the last stage is not
    /// complete, nothing changes.
    pub(crate) fn begin_epoch(&mut self, alloc: Global)
        ensures { Keeps self.old self.new }
    {
        match self.next() {
            Next::Nothing => {}
            Next::Stage => self.begin_stage(alloc),
            Next::Move => self.begin_move(alloc),
            Next::Rest => self.come_to_rest(alloc),
        }
    }

    // Begins the next stage of the move, if memory suffices.
    fn begin_stage(&mut self, alloc: Global)
        requires { BeginsNext self.old Next.Stage }
        ensures { KeepsOpening self.old self.new }
    {
        match mem::replace(&mut self.at, At::Changing) {
            At::Between {
                gathered,
                is_due: false,
            } => match reopen(alloc, &self.opening, gathered, self.pumps) {
                Ok(run) => {
                    self.progress = progress_at_start(&self.opening, &run.fabric);
                    self.at = At::Running(run);
                }
                Err(gathered) => {
                    self.at = At::Between {
                        gathered,
                        is_due: false,
                    };
                }
            },
            at => self.at = at,
        }
    }

    /// Begins the first stage of the move that is due, if one is due and memory suffices.
    pub(crate) fn begin_move(&mut self, alloc: Global)
        ensures { KeepsOpening self.old self.new }
    {
        match mem::replace(&mut self.at, At::Changing) {
            At::Between {
                gathered,
                is_due: true,
            } => match move_on(alloc, &self.opening, gathered, self.pumps) {
                Ok(run) => {
                    self.progress = progress_at_start(&self.opening, &run.fabric);
                    self.at = At::Running(run);
                }
                Err(gathered) => {
                    self.at = At::Between {
                        gathered,
                        is_due: true,
                    };
                }
            },
            at => self.at = at,
        }
    }

    // Comes to rest after the last stage of a move, if memory suffices: by a move to the plan that
    // was reached, which moves no rows.
    fn come_to_rest(&mut self, alloc: Global)
        requires { EndsMove self.old }
        ensures { Keeps self.old self.new }
    {
        let Ok(plan) = self.opening.new_plan().clone() else {
            return;
        };
        let limit = ChunkLimit::of(&self.opening);
        if make_due(alloc, &mut self.opening, &mut self.at, plan, limit) {
            self.begin_move(alloc);
        }
    }

    /// Prepares the move to `plan`, with its event, after the last stage of a move, with chunks of
    /// at most `limit`. Returns true if it is due now. If the plans have a fault or memory runs out,
    /// nothing changes.
    pub(crate) fn set_out(&mut self, alloc: Global, plan: Plan, limit: ChunkLimit) -> bool
        requires { EndsMove self.old }
        ensures due { OnTrue result (HasBegunMove plan limit self.old self.new) }
        ensures not_due { OnFalse result (self.new ≡ self.old) }
    {
        let (plan, events) = self.jobs.with_move(plan);
        if !make_due(alloc, &mut self.opening, &mut self.at, plan, limit) {
            return false;
        }
        self.jobs.begin_move(events);
        true
    }

    /// Ends the epoch of an engine at rest, after the last stage of its move. Returns false if
    /// memory runs out, or if some segment of the stage is not complete; then at most an epoch has
    /// begun or ended.
    pub(crate) fn end_move<R: Wait>(&mut self, rt: &R, alloc: Global) -> bool
        ensures keeps { KeepsOpening self.old self.new }
        ensures ended { OnTrue result (EndsMove self.new) }
        ensures reached { OnTrue result (IsReached self.new) }
    {
        self.begin_move(alloc);
        if !self.gather_run(rt, alloc) {
            return false;
        }
        match self.next() {
            Next::Rest => true,
            Next::Nothing | Next::Stage | Next::Move => false,
        }
    }

    /// Ends the epoch that runs, if its workers reported each segment of its stage complete, and
    /// begins the next one.
    pub(crate) fn end_stage<R: Wait>(&mut self, rt: &R, alloc: Global)
        ensures { Keeps self.old self.new }
    {
        if !self.progress.is_done() {
            return;
        }
        if !self.gather_run(rt, alloc) {
            return;
        }
        self.begin_epoch(alloc);
    }

    /// Ends the epoch, if one runs: gathers what its workers left, which is placed, whatever they
    /// did. Returns false, with nothing changed, if memory runs out.
    pub(crate) fn gather_run<R: Wait>(&mut self, rt: &R, alloc: Global) -> bool
        ensures ended { OnTrue result (IsPaused self.old self.new) }
        ensures unchanged { OnFalse result (self.new ≡ self.old) }
    {
        match mem::replace(&mut self.at, At::Changing) {
            At::Running(run) => match gather(rt, alloc, run) {
                Ok(gathered) => {
                    self.at = At::Between {
                        gathered,
                        is_due: false,
                    };
                    true
                }
                Err(run) => {
                    self.at = At::Running(run);
                    false
                }
            },
            at => {
                self.at = at;
                true
            }
        }
    }
}

// Goes on from `opening`, after the last stage of its move, to the move to `plan`, which is due
// from then on, with chunks of at most `limit`. Returns false, with nothing changed, if the plans
// have a fault or memory runs out.
fn make_due(
    alloc: Global,
    opening: &mut Opening,
    at: &mut At,
    plan: Plan,
    limit: ChunkLimit,
) -> bool
    requires { IsEnded (at_value at.old) }
    ensures due { OnTrue result (opening.new ≡ onward_opening opening.old plan limit) }
    ensures set_up { OnTrue result (IsSetUp opening.new) }
    ensures at { OnTrue result (IsMadeDue (at_value at.old) (at_value at.new)) }
    ensures opening { OnFalse result (opening.new ≡ opening.old) }
    ensures unchanged { OnFalse result (at.new ≡ at.old) }
{
    if opening.go_onward(alloc, plan).is_err() {
        return false;
    }
    opening.set_limit(limit.bytes());
    if let At::Between { is_due, .. } = at {
        *is_due = true;
    }
    true
}

// Returns what an engine does next after the stage of which `gathered` was gathered.
fn next_after(gathered: &Gathered, opening: &Opening) -> Next
    requires grown { AllGrown gathered.now.statuses }
    requires stage { gathered.now.stage < stages opening.now.recon }
    ensures { FollowsStage opening.now gathered.now result }
{
    if !gathered.is_stage_done(opening) {
        return Next::Nothing;
    }
    let stages = opening.recon().stages();
    if gathered.stage + 1 == stages {
        Next::Rest
    } else {
        Next::Stage
    }
}
