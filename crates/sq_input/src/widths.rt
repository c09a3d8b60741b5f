// Moves that are cut into too many segments.
ghost use Rattle.std.specs.Prelude.{◌≡◌, ◌↔◌, None, IsTrue, IfSome, MatchOption};
ghost use Rattle.sq_moves.specs.Between.{segment_limit, recon_fault};
ghost use Rattle.sq_input.specs.Widths.{HasNoWidth, IsLeastWidth, IsSegmentFlaw};

use crate::longest::{LongRange, longest_range};
use sq_moves::{
    FIRST_SEGMENT_LIMIT, LEAVES, MAX_WIDTH, OpeningFault, Recon, ReconFault, SEGMENT_LIMIT,
};
use sq_plan::{Plan, Version};
use sq_text::{Words, unsigned};
use std::alloc::Global;
use std::fmt;
use std::fmt::{Display, Formatter, Write};

/// The lines of a header that define a move.
#[derive(Clone, Copy, Debug, PartialEq, Eq)]
pub struct MoveLines<'a> {
    pub old: &'a [u8],
    pub new: &'a [u8],
    pub sizes: &'a [u8],
}

/// Why a move has too many segments: `segments` is how many it would have, and `limit` the most
/// that it may have.
#[derive(Clone, Copy, Debug, PartialEq, Eq)]
pub enum SegmentFlaw {
    /// Its leaves are too narrow: `least_width` is the smallest width with which there are few
    /// enough segments.
    Narrow {
        segments: u64,
        limit: u64,
        least_width: u64,
    },
    /// It would have too many segments with leaves of any width.
    Large {
        segments: u64,
        limit: u64,
    },
}

impl Display for SegmentFlaw {
    fn fmt<W: Write>(&self, f: &mut Formatter<W>) -> fmt::Result {
        match *self {
            SegmentFlaw::Narrow {
                segments,
                limit,
                least_width,
            } => write!(
                f,
                "there would be {segments} segments, and {limit} is the most: the width of a leaf is to be {least_width} at least ('config {least_width} ..')"
            ),
            SegmentFlaw::Large { segments, limit } => {
                let keys = limit.saturating_mul(LEAVES * MAX_WIDTH);
                write!(
                    f,
                    "there would be {segments} segments, and no width of a leaf does: one move takes at most {limit} ranges, and {keys} root keys"
                )
            }
        }
    }
}

/// Why a move has too many segments, and the longest range that moves.
#[derive(Clone, Copy, Debug, PartialEq, Eq)]
pub struct ToldSegments {
    pub flaw: SegmentFlaw,
    pub longest: Option<LongRange>,
}

impl Display for ToldSegments {
    fn fmt<W: Write>(&self, f: &mut Formatter<W>) -> fmt::Result {
        write!(f, "{}", self.flaw)?;
        match self.longest {
            Some(range) if range.segments > 1 => write!(f, "; {range}"),
            _ => Ok(()),
        }
    }
}

/// Why the move that `lines` define has too many segments. Returns `None` if `fault` is another
/// fault, or if memory runs out.
pub fn segment_flaw(
    alloc: Global,
    fault: OpeningFault,
    lines: MoveLines<'_>,
) -> Option<ToldSegments> {
    if fault != OpeningFault::Recon(ReconFault::TooManySegments) {
        return None;
    }
    let old = Plan::read(alloc, lines.old.get(4..)?).ok()?;
    let new = Plan::read(alloc, lines.new.get(4..)?).ok()?;
    let mut words = Words::of(lines.sizes);
    words.next()?;
    let width = unsigned(words.next()?)?;
    let flaw = flaw_between(&old, &new, width)?;
    let longest = longest_range(&old, &new, width);
    Some(ToldSegments { flaw, longest })
}

// Why the move between two plans has too many segments with leaves of this width, if it does.
fn flaw_between(old: &Plan, new: &Plan, width: u64) -> Option<SegmentFlaw>
    ensures { IfSome result (IsSegmentFlaw old.now new.now width) }
{
    let segments = Recon::count_segments(old, new, width)?;
    let limit = segment_limit(new.version());
    Some(match least_width(old, new) {
        Some(least_width) => SegmentFlaw::Narrow {
            segments,
            limit,
            least_width,
        },
        None => SegmentFlaw::Large { segments, limit },
    })
}

// The most segments of a move to a plan of this version.
fn segment_limit(version: Version) -> u64
    ensures { result ≡ segment_limit version }
{
    match version {
        Version::First => FIRST_SEGMENT_LIMIT,
        Version::Second(_) => SEGMENT_LIMIT,
    }
}

// The smallest width of a leaf with which a move between two plans is possible; `None` if no width
// is.
fn least_width(old: &Plan, new: &Plan) -> Option<u64>
    ensures { MatchOption result (HasNoWidth old.now new.now) (IsLeastWidth old.now new.now) }
{
    if !is_wide_enough(old, new, MAX_WIDTH) {
        return None;
    }
    let mut low = 1;
    let mut high = MAX_WIDTH;
    while low < high {
        let middle = (low + high) / 2;
        if is_wide_enough(old, new, middle) {
            high = middle;
        } else {
            low = middle + 1;
        }
    }
    Some(high)
}

// Returns whether a move between two plans is possible with leaves of this width.
fn is_wide_enough(old: &Plan, new: &Plan, width: u64) -> bool
    ensures { IsTrue result ↔ (recon_fault old.now new.now width ≡ None) }
{
    Recon::fault(old, new, width).is_none()
}
