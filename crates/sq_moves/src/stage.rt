// The stages of a move.
ghost use Rattle.std.specs.Prelude.{◌≡◌, ◌≤◌, map, length, IfOk};
ghost use Rattle.sq_moves.specs.ReconValue.{place_on, place_of};

use crate::recon::Range;
use sq_plan::PartId;
use std::alloc::{AllocError, Global};

// The bound of partition numbers.
const PART_NUMBERS: usize = 256;

/// Returns the place of `dst` among the partitions that `src` sends keys to, in key order; 0 if it
/// isn't one of them.
pub(crate) fn place_on(ranges: &[Range], src: PartId, dst: PartId) -> u64
    ensures place { result ≡ place_on ranges.now src dst }
    ensures bound { result ≤ length ranges.now }
{
    let mut seen = [false; PART_NUMBERS];
    let mut place = 0;
    for range in ranges {
        if range.src == src {
            if range.dst == dst {
                return place;
            }
            let other = usize::from(range.dst.number());
            if !seen[other] {
                seen[other] = true;
                place += 1;
            }
        }
    }
    0
}

/// Returns for each segment the place of its destination among those of its source.
pub(crate) fn places(
    alloc: Global,
    ranges: &[Range],
    segments: &[Range],
) -> Result<Vec<u64>, AllocError>
    ensures { IfOk result (λ places. places.items ≡ map (place_of ranges.now) segments.now) }
{
    segments
        .iter()
        .map(|segment| place_on(ranges, segment.src, segment.dst))
        .collect(alloc)
}
