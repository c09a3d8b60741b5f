// The states of the leader until the move starts.
ghost use Rattle.std.specs.Prelude.{◌≡◌};
ghost use Rattle.sq_leader.specs.Leader.{answer_to_first_prepare, answer_to_prepare, answer_to_start};

use crate::fault::{PrepareFault, StartFault};
use crate::marks::Marks;
use crate::moving::{Ended, Moving};
use sq_moves::Recon;
use sq_plan::Plan;
use std::marker::Model;

/// The state before any partition has prepared. To a contract it is an `IdleValue`.
#[derive(Debug, Drop)]
pub struct Idle {
    parts: u8,
    recon: Recon,
}

/// The state after a partition has prepared, before the move starts. To a contract it is a
/// `PreparingValue`.
#[derive(Debug, Drop)]
pub struct Preparing {
    prepared: Marks,
    recon: Recon,
}

/// The leader in any state.
#[derive(Debug, Drop)]
pub enum Leader {
    Idle(Idle),
    Preparing(Preparing),
    Moving(Moving),
    Ended(Ended),
}

/// A refused call: the leader as it was, and the fault.
#[derive(Debug, Drop)]
pub struct Refused<L, F> {
    pub leader: L,
    pub fault: F,
}

impl Model for Idle {
    ghost use Rattle.std.specs.Prelude.{◌≤◌};
    ghost use Rattle.sq_plan.specs.declared.plan.TheConstants.{MAX_PARTS};
    ghost use Rattle.sq_leader.specs.LeaderValue.{IdleValue};

    ghost Value = { IdleValue };

    ghost view = { λ i. record { parts = i.parts; recon = i.recon } };

    ghost invariant = { λ i. i.parts ≤ MAX_PARTS };
}

impl Model for Preparing {
    ghost use Rattle.sq_leader.specs.LeaderValue.{PreparingValue};

    ghost Value = { PreparingValue };

    ghost view = { λ p. record { prepared = p.prepared; recon = p.recon } };
}

impl Idle {
    /// Creates the leader of a move from `plan`; `recon` is what moves.
    pub fn new(plan: &Plan, recon: Recon) -> Idle
        ensures { result ≡ record { parts = plan.now.parts; recon = recon } }
    {
        Idle {
            parts: plan.parts(),
            recon,
        }
    }

    /// Returns what is to move.
    pub fn recon(&self) -> &Recon
        ensures { result.now ≡ self.now.recon }
    {
        &self.recon
    }

    /// Records that partition `part` has prepared. Refused if there is no such partition.
    pub fn prepare(self, part: u64) -> Result<Preparing, Refused<Idle, PrepareFault>>
        ensures { result ≡ answer_to_first_prepare self part }
    {
        if part >= u64::from(self.parts) {
            return Err(Refused {
                leader: self,
                fault: PrepareFault::NoSuchPartition,
            });
        }
        let mut prepared = Marks::none(self.parts);
        prepared.add(part);
        Ok(Preparing {
            prepared,
            recon: self.recon,
        })
    }
}

impl Preparing {
    /// Returns what is to move.
    pub fn recon(&self) -> &Recon
        ensures { result.now ≡ self.now.recon }
    {
        &self.recon
    }

    /// Records that partition `part` has prepared, which it may report again. Refused if there is
    /// no such partition.
    pub fn prepare(mut self, part: u64) -> Result<Preparing, Refused<Preparing, PrepareFault>>
        ensures { result ≡ answer_to_prepare self part }
    {
        if part >= u64::from(self.prepared.parts()) {
            return Err(Refused {
                leader: self,
                fault: PrepareFault::NoSuchPartition,
            });
        }
        self.prepared.add(part);
        Ok(self)
    }

    /// Starts the move, in stage 0. Refused unless each partition has prepared.
    pub fn start(self) -> Result<Moving, Refused<Preparing, StartFault>>
        ensures { result ≡ answer_to_start self }
    {
        if !self.prepared.has_all() {
            return Err(Refused {
                leader: self,
                fault: StartFault::NotPrepared,
            });
        }
        Ok(Moving::started(self.prepared.parts(), self.recon))
    }
}
