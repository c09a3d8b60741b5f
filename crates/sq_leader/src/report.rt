// Reports of partitions.
ghost use Rattle.std.specs.Prelude.{◌≡◌, ℕ, IsTrue, OnOk};
ghost use Rattle.sq_moves.specs.Prelude.{moves_into};
ghost use Rattle.sq_leader.specs.Segments.{all_marked_complete, is_marked_complete};
ghost use Rattle.sq_leader.specs.Leader.{made_answer};

use crate::fault::ReportFault;
use sq_moves::Recon;
use sq_plan::{PartId, Plan};
use std::marker::Model;

/// A partition's report that each segment that moves into it in a stage is whole there. To a
/// contract it is a `ReportValue`.
#[derive(Debug, Drop)]
pub struct Report {
    part: PartId,
    stage: u64,
}

impl Model for Report {
    ghost use Rattle.sq_leader.specs.LeaderValue.{ReportValue};

    ghost Value = { ReportValue };

    ghost view = { λ r. record { part = r.part; stage = r.stage } };
}

impl Report {
    /// Creates the report of partition `part` in `stage`, if each segment that moves into it in
    /// that stage is whole there. `whole` has an entry for each segment by its number; a segment
    /// without one isn't whole. Refused for the first of these: `plan` has no such partition; a
    /// segment isn't whole.
    pub fn made(
        part: u64,
        plan: &Plan,
        recon: &Recon,
        stage: u64,
        whole: &[bool],
    ) -> Result<Report, ReportFault>
        ensures answer { result ≡ made_answer plan.now recon.now stage whole.now part }
        // A report is made only if each segment that moves into the partition in the stage is
        // whole.
        ensures whole { OnOk result ((seg : ℕ) → IsTrue (moves_into recon.now stage part seg)
            → IsTrue (is_marked_complete whole.now seg)) }
    {
        if part >= u64::from(plan.parts()) {
            return Err(ReportFault::NoSuchPartition);
        }
        let part = PartId::new(part as u8);
        if !has_all(part, recon, stage, whole) {
            return Err(ReportFault::NotFinished);
        }
        Ok(Report { part, stage })
    }

    /// Returns the partition that reports.
    pub fn part(&self) -> PartId
        ensures { result ≡ self.now.part }
    {
        self.part
    }

    /// Returns the stage that it reports.
    pub fn stage(&self) -> u64
        ensures { result ≡ self.now.stage }
    {
        self.stage
    }
}

// Returns true if every segment that moves into `part` in `stage` is whole.
fn has_all(part: PartId, recon: &Recon, stage: u64, whole: &[bool]) -> bool
    ensures { result ≡ all_marked_complete recon.now stage whole.now part }
{
    for (seg, segment) in recon.segments().iter().enumerate() {
        if segment.dst == part
            && recon.stage_on(segment.src, segment.dst) == stage
            && !is_complete(whole, seg)
        {
            return false;
        }
    }
    true
}

// Returns true if segment number `seg` is marked as whole.
fn is_complete(whole: &[bool], seg: usize) -> bool
    ensures { result ≡ is_marked_complete whole.now seg }
{
    whole.get(seg).copied().unwrap_or(false)
}
