// The states of the leader after the start of the move.
ghost use Rattle.std.specs.Prelude.{◌≡◌, ◌<◌, ◌≤◌, OnOk};
ghost use Rattle.std.specs.List.{AllPass};
ghost use Rattle.sq_plan.specs.declared.plan.TheConstants.{MAX_PARTS};
ghost use Rattle.sq_moves.specs.Prelude.{stages};
ghost use Rattle.sq_leader.specs.Segments.{is_heard, have_reported};
ghost use Rattle.sq_leader.specs.Leader.{first_stage, answer_to_report, following, answer_to_next, answer_to_finish};

use crate::fault::{FinishFault, NextFault, StageFault};
use crate::leader::Refused;
use crate::marks::Marks;
use crate::report::Report;
use sq_moves::Recon;
use std::marker::Model;

/// The state while the move is under way. To a contract it is a `StageValue`.
#[derive(Debug, Drop)]
pub struct Moving {
    reported: Marks,
    stage: u64,
    recon: Recon,
}

/// The state after the move has ended. To a contract it is a `StageValue`: the last stage as it
/// was.
#[derive(Debug, Drop)]
pub struct Ended {
    last: Moving,
}

impl Model for Moving {
    ghost use Rattle.std.specs.Prelude.{◌<◌};
    ghost use Rattle.sq_moves.specs.Prelude.{stages};
    ghost use Rattle.sq_leader.specs.LeaderValue.{StageValue};

    ghost Value = { StageValue };

    ghost view = { λ m. record { reported = m.reported; stage = m.stage; recon = m.recon } };

    ghost invariant = { λ m. m.stage < stages m.recon };
}

impl Model for Ended {
    ghost use Rattle.sq_leader.specs.LeaderValue.{StageValue};

    ghost Value = { StageValue };

    ghost view = { λ e. e.last };
}

impl Moving {
    // Creates stage 0 of a move of `parts` partitions, none of which has reported.
    pub(crate) fn started(parts: u8, recon: Recon) -> Moving
        requires { parts ≤ MAX_PARTS }
        ensures { result ≡ first_stage parts recon }
    {
        Moving {
            reported: Marks::none(parts),
            stage: 0,
            recon,
        }
    }

    /// Returns what moves.
    pub fn recon(&self) -> &Recon
        ensures { result.now ≡ self.now.recon }
    {
        &self.recon
    }

    /// Returns the running stage, one of those in which the ranges move.
    pub fn stage(&self) -> u64
        ensures stage { result ≡ self.now.stage }
        ensures within { result < stages self.now.recon }
    {
        self.stage
    }

    /// Records `report`, which may be repeated and stays with the caller. A report of a partition
    /// that the leader doesn't have changes nothing. Refused if the report is of another stage than
    /// the running one.
    pub fn report(mut self, report: &Report) -> Result<Moving, Refused<Moving, StageFault>>
        ensures { result ≡ answer_to_report self report.now }
    {
        if report.stage() != self.stage {
            return Err(Refused {
                leader: self,
                fault: StageFault::OtherStage,
            });
        }
        self.reported.add(u64::from(report.part().number()));
        Ok(self)
    }

    /// Enters the next stage, in which no partition has reported yet. Refused for the first of
    /// these: the running stage is the last; a partition that a segment of the running stage moves
    /// into hasn't reported.
    pub fn next(self) -> Result<Moving, Refused<Moving, NextFault>>
        ensures answer { result ≡ answer_to_next self }
        // The next stage is entered only if, for each segment of this one, the partition that it
        // moves into has reported.
        ensures reported { OnOk result (AllPass (is_heard self) self.recon.segments) }
    {
        let Some(stage) = self.following() else {
            return Err(Refused {
                leader: self,
                fault: NextFault::LastStage,
            });
        };
        if !self.have_reported() {
            return Err(Refused {
                leader: self,
                fault: NextFault::NotFinished,
            });
        }
        Ok(Moving {
            reported: Marks::none(self.reported.parts()),
            stage,
            recon: self.recon,
        })
    }

    /// Ends the move. Refused unless the running stage is the last and every partition that a
    /// segment of it moves into has reported.
    pub fn finish(self) -> Result<Ended, Refused<Moving, FinishFault>>
        ensures answer { result ≡ answer_to_finish self }
        // The move ends only if, for each segment of the last stage, the partition that it moves
        // into has reported.
        ensures reported { OnOk result (AllPass (is_heard self) self.recon.segments) }
    {
        if self.following().is_some() || !self.have_reported() {
            return Err(Refused {
                leader: self,
                fault: FinishFault::NotFinished,
            });
        }
        Ok(Ended { last: self })
    }

    // Returns the stage after the running one; `None` if that is the last.
    fn following(&self) -> Option<u64>
        ensures { result ≡ following self.now }
    {
        if self.recon.stages() > self.stage + 1 {
            Some(self.stage + 1)
        } else {
            None
        }
    }

    // Returns true if every partition that a segment of the running stage moves into has reported.
    fn have_reported(&self) -> bool
        ensures { result ≡ have_reported self.now }
    {
        self.recon.segments().iter().all(|segment| self.recon.stage_on(segment.src, segment.dst)
            != self.stage
            || self.reported.has(u64::from(segment.dst.number())))
    }
}

impl Ended {
    /// Returns what moved.
    pub fn recon(&self) -> &Recon
        ensures { result.now ≡ self.now.recon }
    {
        self.last.recon()
    }

    /// Returns the last stage.
    pub fn stage(&self) -> u64
        ensures { result ≡ self.now.stage }
    {
        self.last.stage()
    }
}
