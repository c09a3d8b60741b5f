// The ranges of a reconfiguration, and the segments that they are cut into.
ghost use Rattle.std.specs.Prelude.{◌≡◌, ◌<◌, ◌≤◌, true, false, nat_le, length, None, IfOk, IfSome, MatchResult, unwrap_or};
ghost use Rattle.std.specs.List.Sorted.{IsPartitionPoint};
ghost use Rattle.sq_schema.specs.declared.root.TheConstants.{ROOT_END};
ghost use Rattle.sq_plan.specs.PlanValue.{IsPlan};
ghost use Rattle.sq_moves.specs.ReconValue.{is_width, are_in_key_order, leaf_start};

use crate::cut::{count, fits, links, moves, segments};
use crate::node::{LEAVES, Leaf, NodeId};
use crate::opening_fault::ReconFault;
use crate::segment::SegId;
use crate::stage::{place_on, places};
use sq_plan::{PartId, Plan};
use sq_schema::Root;
use std::alloc::{AllocError, Global};
use std::marker::Model;

/// The most root keys that a leaf has.
pub const MAX_WIDTH: u64 = 65_536;

/// The root keys from `lo` up to, not including, `hi`, which move from one partition to another: a
/// reconfiguration range (Elmore et al., Squall, SIGMOD 2015), or a segment of one.
#[derive(Clone, Copy, Debug, PartialEq, Eq)]
pub struct Range {
    /// The first key.
    pub lo: u64,
    /// The key after the last.
    pub hi: u64,
    /// The owner in the old plan.
    pub src: PartId,
    /// The owner in the new plan.
    pub dst: PartId,
}

/// The root keys from `lo` up to, not including, `hi`; empty if these are equal.
#[derive(Clone, Copy, Debug, PartialEq, Eq)]
pub struct Extent {
    /// The first key.
    pub lo: u64,
    /// The key after the last.
    pub hi: u64,
}

/// Two partitions between which some range moves.
#[derive(Clone, Copy, Debug, PartialEq, Eq, PartialOrd, Ord)]
pub struct Link {
    /// The partition that keys leave.
    pub src: PartId,
    /// The partition that keys move to.
    pub dst: PartId,
}

/// What moves between two plans. To a contract it is a `ReconValue`.
#[derive(Debug, Drop)]
pub struct Recon {
    width: u64,
    ranges: Vec<Range>,
    segments: Vec<Range>,
    links: Vec<Link>,
    places: Vec<u64>,
    auto: bool,
}

impl Model for Recon {
    ghost use Rattle.sq_moves.specs.ReconValue.{ReconValue, HasLists, recon_with};

    ghost Value = { ReconValue };

    ghost view = { λ r. record {
      width = r.width;
      ranges = r.ranges.items;
      segments = r.segments.items;
      auto = r.auto;
    } };

    ghost invariant = { λ r.
        HasLists (recon_with r.width r.ranges.items r.segments.items r.auto)
        r.links.items r.places.items };
}

impl Recon {
    ghost use Rattle.sq_moves.specs.ReconValue.{IsRecon, AreLinks, no_moves, leaf_at, extent_at, stage_on, stage_at, stages};
    ghost use Rattle.sq_moves.specs.ReconValue.{segments_of};
    ghost use Rattle.sq_moves.specs.Moves.{moves_of};
    ghost use Rattle.sq_moves.specs.Between.{recon_fault, recon_of, IsReconOf};

    /// Returns why there is no reconfiguration between the plans, the first of these: they have
    /// different numbers of partitions; `width` isn't from 1 to [`MAX_WIDTH`] root keys; what moves
    /// has more than [`SEGMENT_LIMIT`] segments, or more than [`crate::FIRST_SEGMENT_LIMIT`] if
    /// `new` is of the first version. `None` if there is one. It takes no memory.
    pub fn fault(old: &Plan, new: &Plan, width: u64) -> Option<ReconFault>
        ensures fault { result ≡ recon_fault old.now new.now width }
        ensures plans { IsPlan old.now × IsPlan new.now }
    {
        let parts = old.parts();
        if parts != new.parts() {
            return Some(ReconFault::PartitionsDiffer);
        }
        if !is_width(width) {
            return Some(ReconFault::Width);
        }
        if !fits(old, new, width) {
            return Some(ReconFault::TooManySegments);
        }
        None
    }

    /// Counts the segments of the moves between the plans with leaves of `width` root keys, even if
    /// one move can't have as many. `None` if `width` isn't from 1 to [`MAX_WIDTH`], or if there
    /// are 2^64 segments or more. It takes no memory.
    pub fn count_segments(old: &Plan, new: &Plan, width: u64) -> Option<u64>
        ensures { IfSome result (λ count. count
            ≡ length (segments_of width (moves_of old.now new.now))) }
    {
        if !is_width(width) {
            return None;
        }
        count(old, new, width)
    }

    /// Returns what moves between the plans, cut into segments of [`LEAVES`] leaves of `width` root
    /// keys each. Refused if [`Recon::fault`] finds a cause; only if it finds none is memory taken,
    /// which may run out.
    pub fn between(alloc: Global, old: &Plan, new: &Plan, width: u64) -> Result<Recon, ReconFault>
        ensures answer { MatchResult result
            (λ recon. (recon_fault old.now new.now width ≡ None)
            × (recon ≡ recon_of old.now new.now width))
            (λ fault. fault ≡ unwrap_or (recon_fault old.now new.now width) ReconFault.Memory) }
        ensures ok { IfOk result (IsReconOf old.now new.now width) }
    {
        if let Some(fault) = Recon::fault(old, new, width) {
            return Err(fault);
        }
        let ranges = moves(alloc, old, new)?;
        let segments = segments(alloc, ranges.as_slice(), width)?;
        let links = links(alloc, ranges.as_slice())?;
        let places = places(alloc, ranges.as_slice(), segments.as_slice())?;
        Ok(Recon {
            width,
            ranges,
            segments,
            links,
            places,
            auto: new.version().is_auto(),
        })
    }

    /// Returns a reconfiguration in which nothing moves. It takes no memory.
    pub fn nothing(alloc: Global) -> Recon
        ensures { result ≡ no_moves }
    {
        Recon {
            width: 1,
            ranges: Vec::new(alloc),
            segments: Vec::new(alloc),
            links: Vec::new(alloc),
            places: Vec::new(alloc),
            auto: false,
        }
    }

    /// Returns the most root keys that a leaf has, from 1 to [`MAX_WIDTH`].
    pub fn width(&self) -> u64
        ensures width { result ≡ self.now.width }
        ensures recon { IsRecon self.now }
    {
        self.width
    }

    /// Returns the reconfiguration ranges, in key order.
    pub fn ranges(&self) -> &[Range]
        ensures ranges { result.now ≡ self.now.ranges }
        ensures recon { IsRecon self.now }
    {
        self.ranges.as_slice()
    }

    /// Returns the segments of all ranges in key order, at most [`SEGMENT_LIMIT`].
    pub fn segments(&self) -> &[Range]
        ensures segments { result.now ≡ self.now.segments }
        ensures recon { IsRecon self.now }
    {
        self.segments.as_slice()
    }

    /// Returns the links of the ranges, each once, by source and then by destination.
    pub fn links(&self) -> &[Link]
        ensures { AreLinks self.now.ranges result.now }
    {
        self.links.as_slice()
    }

    /// Returns the segment and the leaf that hold `root`; `None` if no segment does.
    pub fn find(&self, root: Root) -> Option<(SegId, Leaf)>
        ensures { result ≡ leaf_at self.now root }
    {
        let key = root.number();
        let at = count_up_to(self.segments.as_slice(), key);
        let segment = self.segments.as_slice().get(at)?;
        if key < segment.lo {
            return None;
        }
        let Some(seg) = SegId::new(at as u64) else {
            unreachable!()
        };
        let Some(leaf) = Leaf::new((key - segment.lo) / self.width) else {
            unreachable!()
        };
        Some((seg, leaf))
    }

    /// Returns the number of stages in which the ranges move: 1 if the new plan doesn't say `auto`,
    /// or nothing moves.
    pub fn stages(&self) -> u64
        ensures stages { result ≡ stages self.now }
        ensures some { 1 ≤ result }
    {
        let mut most = 1;
        for range in self.ranges.as_slice() {
            most = most.max(self.stage_on(range.src, range.dst) + 1);
        }
        most
    }

    /// Returns the stage in which the ranges from `src` to `dst` move: 0, or, if the new plan says
    /// `auto`, the place of `dst` among the partitions that `src` sends keys to, in key order. 0 if
    /// no range goes there.
    pub fn stage_on(&self, src: PartId, dst: PartId) -> u64
        ensures stage { result ≡ stage_on self.now src dst }
        ensures bound { result ≤ length self.now.ranges }
    {
        if self.auto {
            place_on(self.ranges.as_slice(), src, dst)
        } else {
            0
        }
    }

    /// Returns the stage in which segment `seg` moves; 0 if there is no such segment.
    pub fn stage_of(&self, seg: SegId) -> u64
        ensures { result ≡ stage_at self.now seg }
    {
        if !self.auto {
            return 0;
        }
        self.places
            .as_slice()
            .get(seg.index())
            .copied()
            .unwrap_or(0)
    }

    /// Returns the root keys of `node` in segment `seg`; `None` if there is no such segment.
    pub fn extent(&self, seg: SegId, node: NodeId) -> Option<Extent>
        ensures { result ≡ extent_at self.now seg node }
    {
        let segment = self.segments.as_slice().get(seg.index())?;
        let first = node.first_leaf().number();
        Some(Extent {
            lo: leaf_start(segment, self.width, first),
            hi: leaf_start(segment, self.width, first + node.span()),
        })
    }
}

impl Clone for Recon {
    ghost is_clone = { λ recon copy. copy ≡ recon };

    fn clone(&self) -> Result<Recon, AllocError> {
        Ok(Recon {
            width: self.width,
            ranges: self.ranges.clone()?,
            segments: self.segments.clone()?,
            links: self.links.clone()?,
            places: self.places.clone()?,
            auto: self.auto,
        })
    }
}

// Returns true if a leaf may have `width` root keys.
fn is_width(width: u64) -> bool
    ensures { result ≡ is_width width }
{
    (1..=MAX_WIDTH).contains(&width)
}

// Counts the segments that end at `key` or before it.
fn count_up_to(segments: &[Range], key: u64) -> usize
    requires { are_in_key_order 0 segments.now ≡ true }
    ensures bound { result ≤ length segments.now }
    ensures point { IsPartitionPoint (λ segment. nat_le segment.hi key
        ≡ true) (λ segment. nat_le segment.hi key ≡ false)
        segments.now result }
{
    segments.partition_point(
        |segment: &Range| -> bool
            ensures { result ≡ nat_le segment.now.hi key }
        { segment.hi <= key },
    )
}

// Returns the first key of a leaf of `segment`, or the segment's end if the leaf is past it.
fn leaf_start(segment: &Range, width: u64, leaf: u64) -> u64
    requires leaf { leaf ≤ LEAVES }
    requires width { width ≤ MAX_WIDTH }
    requires within { segment.now.hi ≤ ROOT_END }
    requires some { segment.now.lo ≤ segment.now.hi }
    ensures { result ≡ leaf_start width segment.now leaf }
{
    segment.hi.min(segment.lo + leaf * width)
}
