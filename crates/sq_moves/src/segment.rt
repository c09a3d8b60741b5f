// The numbers of segments.
ghost use Rattle.std.specs.Prelude.{◌≡◌, ◌<◌, ◌≤◌};
ghost use Rattle.std.specs.Option.{SomeIff};
ghost use Rattle.sq_moves.specs.Between.{segment_limit};

use sq_plan::Version;
use std::marker::Model;

/// The most segments that a reconfiguration has.
pub const SEGMENT_LIMIT: u64 = 1024;

/// The most segments that a move to a plan of the first version has.
pub const FIRST_SEGMENT_LIMIT: u64 = 256;

/// Returns the most segments that a move to a plan of this `version` has.
pub(crate) fn segment_limit(version: Version) -> u64
    ensures limit { result ≡ segment_limit version }
    ensures bound { result ≤ SEGMENT_LIMIT }
{
    match version {
        Version::First => FIRST_SEGMENT_LIMIT,
        Version::Second(_) => SEGMENT_LIMIT,
    }
}

/// A segment, by its number from 0 in key order. To a contract it is the number.
#[derive(Clone, Copy, Debug, PartialEq, Eq, PartialOrd, Ord)]
pub struct SegId(u16);

impl Model for SegId {
    ghost use Rattle.std.specs.Prelude.{ℕ, ◌<◌};
    ghost use Rattle.sq_moves.specs.declared.segment.TheConstants.{SEGMENT_LIMIT};

    ghost Value = { ℕ };

    ghost view = { λ s. s.0 };

    ghost invariant = { λ s. s.0 < SEGMENT_LIMIT };

    ghost inverse = { λ n. record { 0 = n } };
}

impl SegId {
    /// Returns the segment with this `number`; `None` if that is [`SEGMENT_LIMIT`] or more.
    pub fn new(number: u64) -> Option<SegId>
        ensures { SomeIff result (number < SEGMENT_LIMIT) number }
    {
        if number < SEGMENT_LIMIT {
            Some(SegId(number as u16))
        } else {
            None
        }
    }

    /// Returns the number, below [`SEGMENT_LIMIT`].
    pub fn number(self) -> u64
        ensures number { result ≡ self }
        ensures bound { result < SEGMENT_LIMIT }
    {
        u64::from(self.0)
    }

    /// Returns the place of the segment in a list of all segments.
    pub fn index(self) -> usize
        ensures place { result ≡ self }
        ensures bound { result < SEGMENT_LIMIT }
    {
        usize::from(self.0)
    }
}
