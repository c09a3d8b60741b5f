// What is to move.
use sq_moves::{Opening, SegId};
use std::alloc::{AllocError, Global};

/// A segment that is to move.
#[derive(Clone, Copy, Debug, PartialEq, Eq)]
pub(crate) struct MovingSegment {
    pub(crate) seg: u64,
    pub(crate) src: u64,
    pub(crate) dst: u64,
    pub(crate) stage: u64,
}

/// What is to move in a world.
#[derive(Debug, Drop)]
pub(crate) struct Moves {
    /// The number of partitions.
    pub(crate) parts: u64,
    /// The number of stages.
    pub(crate) stages: u64,
    /// The segments, in the order of their numbers.
    pub(crate) segments: Vec<MovingSegment>,
}

impl Moves {
    /// Returns what is to move from `opening`.
    pub(crate) fn of(alloc: Global, opening: &Opening) -> Result<Moves, AllocError> {
        let recon = opening.recon();
        let mut segments = Vec::new(alloc);
        for (at, range) in recon.segments().iter().enumerate() {
            let Some(id) = SegId::new(at as u64) else {
                break;
            };
            segments.push(MovingSegment {
                seg: id.number(),
                src: u64::from(range.src.number()),
                dst: u64::from(range.dst.number()),
                stage: recon.stage_of(id),
            })?;
        }
        Ok(Moves {
            parts: u64::from(opening.old_plan().parts()),
            stages: recon.stages(),
            segments,
        })
    }

    /// Returns true if a segment moves to `part` in `stage`.
    pub(crate) fn has_destination(&self, stage: u64, part: u64) -> bool {
        self.segments
            .iter()
            .any(|moving| moving.stage == stage && moving.dst == part)
    }
}
