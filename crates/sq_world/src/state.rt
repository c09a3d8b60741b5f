// The state of a world.
ghost use Rattle.std.specs.Prelude.{◌≡◌, ◌<◌, nat_le, not, is_none, length, IfOk, map};
ghost use Rattle.std.specs.Coded.{codes};
ghost use Rattle.sq_model.specs.declared.answer.Refusal.{Refusal};
ghost use Rattle.sq_model.specs.Prelude.{is_moving_phase};
ghost use Rattle.sq_moves.specs.Prelude.{is_node};
ghost use Rattle.sq_store.specs.Prelude.{store_coded};
ghost use Rattle.sq_transition.specs.Prelude.{running_range, phase_of, WorldValue};
ghost use Rattle.sq_world.specs.Results.{refuse_if, unless};

use crate::queue::Queue;
use sq_exec::PartCore;
use sq_leader::Leader;
use sq_model::Refusal;
use sq_moves::{Config, NodeId, PlainTree, Recon, SegId};
use sq_plan::Plan;
use sq_store::SlabStore;
use std::alloc::Global;
use std::marker::Model;

mod dump;
mod leader;
mod links;
mod open;
mod readers;
mod step;
mod submit;
mod trees;

/// A world: the plans, what moves between them, and the leader; the partitions; the split tree of
/// each segment; and the queues between the partitions. To a contract it is a `WorldValue`.
#[derive(Drop)]
pub struct State {
    alloc: Global,
    tables: u8,
    old_plan: Plan,
    new_plan: Plan,
    recon: Recon,
    config: Config,
    leader: Leader,
    cores: Vec<PartCore<SlabStore>>,
    trees: Vec<PlainTree>,
    queues: Vec<Queue>,
}

impl Model for State {
    ghost Value = { WorldValue };

    ghost coded = { Prim.hlevel (codes, store_coded) };

    ghost view = { λ s. record {
      tables = s.tables;
      old = s.old_plan;
      new = s.new_plan;
      recon = s.recon;
      config = s.config;
      leader = s.leader;
      cores = map (λ part. part.core) s.cores.items;
      trees = s.trees.items;
      queues = s.queues.items;
    } };
}

impl State {
    // Refuses unless the move is under way.
    fn check_moving(&self) -> Result<(), Refusal>
        ensures { result ≡ refuse_if (not
            (is_moving_phase (phase_of self.now.leader))) Refusal.NotMoving }
    {
        match &self.leader {
            Leader::Moving(_) => Ok(()),
            Leader::Idle(_) | Leader::Preparing(_) | Leader::Ended(_) => Err(Refusal::NotMoving),
        }
    }

    // Refuses unless there is a partition `part`.
    fn check_part(&self, part: u64) -> Result<(), Refusal>
        ensures { result ≡ refuse_if (nat_le self.now.old.parts part) Refusal.NoSuchPartition }
    {
        if part < u64::from(self.old_plan.parts()) {
            Ok(())
        } else {
            Err(Refusal::NoSuchPartition)
        }
    }

    // Returns the segment with this `number`; refused unless it moves in the running stage.
    fn segment(&self, number: u64) -> Result<SegId, Refusal>
        ensures named { result ≡ unless
            (is_none (running_range self.now number)) Refusal.NoSuchSegment number }
        ensures exists { IfOk result (λ seg. seg < length self.now.recon.segments) }
    {
        let count = self.recon.segments().len() as u64;
        match SegId::new(number) {
            Some(seg) if number < count && self.recon.stage_of(seg) == self.stage() => Ok(seg),
            _ => Err(Refusal::NoSuchSegment),
        }
    }
}

// Returns the node with this `number`; refused if there is none.
fn named_node(number: u64) -> Result<NodeId, Refusal>
    ensures { result ≡ unless (not (is_node number)) Refusal.NoSuchNode number }
{
    NodeId::new(number).ok_or(Refusal::NoSuchNode)
}
