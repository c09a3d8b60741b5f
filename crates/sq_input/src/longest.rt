// The longest of the ranges that a move has.
use sq_moves::LEAVES;
use sq_plan::{Plan, PlanRange};
use sq_schema::ROOT_END;
use std::fmt;
use std::fmt::{Display, Formatter, Write};

/// A range of root keys that moves, from `lo` up to `hi`, without `hi`, and how many segments it
/// has. Before the move partition `src` owns it.
#[derive(Clone, Copy, Debug, PartialEq, Eq)]
pub struct LongRange {
    pub lo: u64,
    pub hi: u64,
    pub src: u8,
    pub segments: u64,
}

impl Display for LongRange {
    fn fmt<W: Write>(&self, f: &mut Formatter<W>) -> fmt::Result {
        let LongRange {
            lo,
            hi,
            src,
            segments,
        } = *self;
        write!(
            f,
            "{segments} segments are of the range from {lo} to {hi}, in which keys without rows count too"
        )?;
        if hi == ROOT_END {
            write!(f, " and can stay at partition {src}")?;
        }
        Ok(())
    }
}

// Root keys from `lo` up to `hi`, without `hi`, which move from partition `src` to `dst`.
#[derive(Clone, Copy, Debug, PartialEq, Eq)]
struct Run {
    lo: u64,
    hi: u64,
    src: u8,
    dst: u8,
}

// No root keys.
const NO_KEYS: Run = Run {
    lo: 0,
    hi: 0,
    src: 0,
    dst: 0,
};

/// The longest range that moves between two plans, the first of these, with leaves of `width` root
/// keys. Returns `None` if nothing moves.
pub(crate) fn longest_range(old: &Plan, new: &Plan, width: u64) -> Option<LongRange> {
    let mut longest = NO_KEYS;
    let mut last = NO_KEYS;
    for one in old.ranges() {
        for other in new.ranges() {
            if let Some(piece) = moving_piece(*one, *other) {
                last = joined(last, piece);
                longest = longer(longest, last);
            }
        }
    }
    let keys = length(longest);
    if keys == 0 {
        return None;
    }
    Some(LongRange {
        lo: longest.lo,
        hi: longest.hi,
        src: longest.src,
        segments: keys.div_ceil(LEAVES.saturating_mul(width).max(1)),
    })
}

// The root keys that are in both ranges, if they move.
fn moving_piece(old: PlanRange, new: PlanRange) -> Option<Run> {
    let lo = old.lo.max(new.lo);
    let hi = old.hi.min(new.hi);
    if lo >= hi || old.owner == new.owner {
        return None;
    }
    Some(Run {
        lo,
        hi,
        src: old.owner.number(),
        dst: new.owner.number(),
    })
}

// A piece, with the run that ends where it begins if both move between the same partitions.
fn joined(last: Run, piece: Run) -> Run {
    let goes_on = length(last) > 0
        && last.hi == piece.lo
        && last.src == piece.src
        && last.dst == piece.dst;
    let lo = if goes_on { last.lo } else { piece.lo };
    Run { lo, ..piece }
}

// The longer one of two runs, the first if they are as long.
fn longer(first: Run, second: Run) -> Run {
    if length(first) >= length(second) {
        first
    } else {
        second
    }
}

// How many root keys a run has.
fn length(run: Run) -> u64 {
    run.hi.saturating_sub(run.lo)
}
