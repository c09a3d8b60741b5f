// The status of a node, and its reading.
ghost use Rattle.std.specs.Prelude.{◌≡◌, ◌↔◌, IsTrue};
ghost use Rattle.sq_moves.specs.Status.{both};

/// The status of a node. A pull is named by its number: odd for reactive pulls, even for
/// asynchronous ones.
#[derive(Clone, Copy, Debug, PartialEq, Eq)]
pub enum Status {
    /// No pull asked for the node or for a part of it.
    Free,
    /// The node's two halves move separately.
    Split,
    /// This pull asked for the node. Its rows are at the source.
    Claimed(u32),
    /// The source gave the node up to this pull. Its rows are on their way.
    Partial(u32),
    /// This pull is done: each row of the node is at the destination.
    Complete(u32),
}

/// The reading of a node: one of the three statuses of a reconfiguration range (Elmore et al.,
/// Squall, SIGMOD 2015).
#[derive(Clone, Copy, Debug, PartialEq, Eq)]
pub enum Reading {
    /// None of its rows has left the source.
    NotStarted,
    /// Its rows may be at the source, on their way, or at the destination.
    Partial,
    /// All of its rows are at the destination.
    Complete,
}

impl Status {
    /// Returns true for [`Status::Split`].
    pub fn is_split(self) -> bool
        ensures { IsTrue result ↔ (self ≡ Status.Split) }
    {
        matches!(self, Status::Split)
    }
}

impl Reading {
    // Returns the common reading of two halves.
    pub(crate) fn with(self, other: Reading) -> Reading
        ensures { result ≡ both self other }
    {
        if self == other {
            self
        } else {
            Reading::Partial
        }
    }
}
