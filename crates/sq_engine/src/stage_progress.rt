// The progress of a stage.
ghost use Rattle.std.specs.Prelude.{◌≡◌, ◌↔◌, IsTrue};
ghost use Rattle.sq_node_model.specs.Prelude.{is_complete_in, AllGrown};
ghost use Rattle.sq_engine.specs.Progress.{stage_segments, is_complete_in_stage};
ghost use Rattle.sq_engine.specs.Progress.{complete_segments_in};

use sq_gather::{Gathered, reads_complete};
use sq_moves::{NodeId, Opening, Range, Recon};
use sq_node::Fabric;

/// How many segments move in a stage, how many of them are complete, and how much was moved.
#[derive(Clone, Copy, Debug, PartialEq, Eq)]
pub struct StageProgress {
    /// How many segments move in the stage.
    pub segments: u64,
    /// How many of them are complete.
    pub complete: u64,
    /// How many families the workers have loaded since the epoch began, and how many bytes they
    /// have.
    pub moved: u64,
    pub moved_bytes: u64,
}

impl StageProgress {
    /// Returns the progress at the beginning of a stage in which `segments` segments move.
    pub fn at_start(segments: u64) -> StageProgress
        ensures { result
            ≡ record { segments = segments; complete = 0; moved = 0; moved_bytes = 0 } }
    {
        StageProgress {
            segments,
            complete: 0,
            moved: 0,
            moved_bytes: 0,
        }
    }

    /// Returns true if nothing moves in the stage.
    pub fn is_rest(self) -> bool
        ensures { IsTrue result ↔ (self.segments ≡ 0) }
    {
        self.segments == 0
    }

    /// Returns true if segments move in the stage, and all of them are complete.
    pub fn is_done(self) -> bool {
        !self.is_rest() && self.complete >= self.segments
    }
}

/// Returns the progress at the beginning of the stage of `fabric`, in the move of `opening`.
pub fn progress_at_start(opening: &Opening, fabric: &Fabric) -> StageProgress
    ensures { result.segments ≡ stage_segments opening.now.recon fabric.now.stage }
{
    StageProgress::at_start(stage_segments(opening.recon(), fabric.stage()))
}

/// Returns how many segments move in `stage`.
pub fn stage_segments(recon: &Recon, stage: u64) -> u64
    ensures { result ≡ stage_segments recon.now stage }
{
    let segments = recon.segments();
    let mut count: usize = 0;
    for segment in segments {
        if recon.stage_on(segment.src, segment.dst) == stage {
            count += 1;
        }
    }
    count as u64
}

/// Returns how many segments of the gathered stage are complete by their trees.
pub fn complete_segments(recon: &Recon, g: &Gathered) -> u64
    requires { AllGrown g.now.statuses }
    ensures { result ≡ complete_segments_in recon.now g.now }
{
    let mut count: usize = 0;
    for (seg, segment) in recon.segments().iter().enumerate() {
        if is_complete(recon, g, seg, segment) {
            count += 1;
        }
    }
    count as u64
}

// Returns true if the segment at `place` moves in the gathered stage, and is complete by its tree.
fn is_complete(recon: &Recon, g: &Gathered, place: usize, segment: &Range) -> bool
    requires { AllGrown g.now.statuses }
    ensures { result ≡ is_complete_in_stage recon.now g.now (place, segment.now) }
{
    recon.stage_on(segment.src, segment.dst) == g.stage && is_segment_complete(g, place)
}

// Returns true if the segment at `place` is complete by its tree.
fn is_segment_complete(g: &Gathered, place: usize) -> bool
    requires { AllGrown g.now.statuses }
    ensures { result ≡ is_complete_in g.now place }
{
    match g.statuses.get(place) {
        Some(statuses) => reads_complete(statuses, NodeId::WHOLE),
        None => false,
    }
}
