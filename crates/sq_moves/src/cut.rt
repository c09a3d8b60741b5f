// The moves between two plans, and the segments that they are cut into.
ghost use Rattle.std.specs.Prelude.{◌≡◌, ◌≤◌, ◌<◌, ◌++◌, true, nat_le, length, map, IfOk, IfSome, OnOk};
ghost use Rattle.sq_moves.specs.ReconValue.{is_width, segment_at, segment_count, segments_in, segments_of, are_in_key_order, range_link, AreLinks};
ghost use Rattle.sq_schema.specs.declared.root.TheConstants.{ROOT_END};
ghost use Rattle.sq_plan.specs.PlanValue.{IsPlan};
ghost use Rattle.sq_moves.specs.Between.{segment_limit};
ghost use Rattle.sq_moves.specs.Moves.{moves_of};

use crate::node::LEAVES;
use crate::recon::{Link, Range};
use crate::segment::segment_limit;
use crate::sweep::Sweep;
use sq_plan::Plan;
use std::alloc::{AllocError, Global};

/// Returns true if what moves between the plans has no more segments than the version of `new`
/// allows.
pub(crate) fn fits(old: &Plan, new: &Plan, width: u64) -> bool
    requires { is_width width ≡ true }
    ensures { result ≡ nat_le (length (segments_of width (moves_of old.now new.now)))
        (segment_limit new.now.version) }
{
    let limit = segment_limit(new.version());
    let mut count = 0;
    let mut sweep = Sweep::new(old, new);
    while let Some(run) = sweep.next_run() {
        count += segment_count(&run, width);
        if count > limit {
            return false;
        }
    }
    true
}

/// Counts the segments of the moves between the plans; `None` if there are 2^64 or more.
pub(crate) fn count(old: &Plan, new: &Plan, width: u64) -> Option<u64>
    requires { is_width width ≡ true }
    ensures { IfSome result (λ count. count
        ≡ length (segments_of width (moves_of old.now new.now))) }
{
    let mut count: u64 = 0;
    let mut sweep = Sweep::new(old, new);
    while let Some(run) = sweep.next_run() {
        count = count.checked_add(segment_count(&run, width))?;
    }
    Some(count)
}

/// Returns the moves between the plans, in key order.
pub(crate) fn moves(alloc: Global, old: &Plan, new: &Plan) -> Result<Vec<Range>, AllocError>
    ensures moves { IfOk result (λ moves. moves.items ≡ moves_of old.now new.now) }
    ensures plans { IsPlan old.now × IsPlan new.now }
{
    let mut moves = Vec::new(alloc);
    let mut sweep = Sweep::new(old, new);
    while let Some(run) = sweep.next_run() {
        moves.push(run)?;
    }
    Ok(moves)
}

/// Returns the segments of `ranges`, in key order.
pub(crate) fn segments(
    alloc: Global,
    ranges: &[Range],
    width: u64,
) -> Result<Vec<Range>, AllocError>
    requires width { is_width width ≡ true }
    requires rising { are_in_key_order 0 ranges.now ≡ true }
    ensures { IfOk result (λ segments. segments.items ≡ segments_of width ranges.now) }
{
    let mut segments = Vec::new(alloc);
    for range in ranges {
        push_segments(&mut segments, range, width)?;
    }
    Ok(segments)
}

// Appends the segments of `range`.
fn push_segments(segments: &mut Vec<Range>, range: &Range, width: u64) -> Result<(), AllocError>
    requires width { is_width width ≡ true }
    requires some { range.now.lo < range.now.hi }
    requires within { range.now.hi ≤ ROOT_END }
    ensures { OnOk result (segments.new.items ≡ segments.old.items ++ segments_in width range.now) }
{
    for i in 0..segment_count(range, width) {
        segments.push(segment_at(range, width, i))?;
    }
    Ok(())
}

// Returns the number of segments that `range` is cut into.
fn segment_count(range: &Range, width: u64) -> u64
    requires width { is_width width ≡ true }
    requires some { range.now.lo < range.now.hi }
    requires within { range.now.hi ≤ ROOT_END }
    ensures count { result ≡ segment_count width range.now }
    ensures bound { result ≤ ROOT_END }
{
    (range.hi - range.lo).div_ceil(LEAVES * width)
}

// Returns segment number `i` of `range`.
fn segment_at(range: &Range, width: u64, i: u64) -> Range
    requires width { is_width width ≡ true }
    requires within { range.now.hi ≤ ROOT_END }
    requires there { i < segment_count width range.now }
    ensures { result ≡ segment_at width range.now i }
{
    let lo = range.lo + i * LEAVES * width;
    Range {
        lo,
        hi: range.hi.min(lo + LEAVES * width),
        ..*range
    }
}

/// Returns the links of `ranges`, strictly rising.
pub(crate) fn links(alloc: Global, ranges: &[Range]) -> Result<Vec<Link>, AllocError>
    ensures { IfOk result (λ links. AreLinks ranges.now links.items) }
{
    let mut links = each_link(alloc, ranges)?;
    links.sort_unstable();
    links.dedup();
    Ok(links)
}

fn each_link(alloc: Global, ranges: &[Range]) -> Result<Vec<Link>, AllocError>
    ensures { IfOk result (λ links. links.items ≡ map range_link ranges.now) }
{
    ranges
        .iter()
        .map(|range| Link {
            src: range.src,
            dst: range.dst,
        })
        .collect(alloc)
}
