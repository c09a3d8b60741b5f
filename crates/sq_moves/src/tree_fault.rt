// Why a step of a tree was refused, in the order in which the causes are tested. The numbers are
// those of the steps' refusals.
ghost use Rattle.std.specs.Prelude.{◌≡◌};
ghost use Rattle.sq_moves.specs.TreeFault.{split_fault_number, claim_fault_number, begin_fault_number, complete_fault_number};

use crate::status::Status;

/// Why a node wasn't split.
#[derive(Clone, Copy, Debug, PartialEq, Eq)]
pub enum SplitFault {
    /// It is a leaf, which has no halves.
    IsLeaf,
    /// Its parent isn't split.
    NotLive,
    /// It isn't free, but has this status.
    NotFree(Status),
}

impl SplitFault {
    /// Returns the number that a user sees.
    pub fn number(self) -> u16
        ensures { result ≡ split_fault_number self }
    {
        match self {
            SplitFault::IsLeaf => 206,
            SplitFault::NotLive => 205,
            SplitFault::NotFree(_) => 204,
        }
    }
}

/// Why a node wasn't claimed.
#[derive(Clone, Copy, Debug, PartialEq, Eq)]
pub enum ClaimFault {
    /// Its parent isn't split.
    NotLive,
    /// It isn't free, but has this status.
    NotFree(Status),
}

impl ClaimFault {
    /// Returns the number that a user sees.
    pub fn number(self) -> u16
        ensures { result ≡ claim_fault_number self }
    {
        match self {
            ClaimFault::NotLive => 205,
            ClaimFault::NotFree(_) => 204,
        }
    }
}

/// Why a node wasn't begun.
#[derive(Clone, Copy, Debug, PartialEq, Eq)]
pub enum BeginFault {
    /// It isn't claimed, but has this status.
    NotClaimed(Status),
    /// Another pull claimed it.
    WrongPull,
}

impl BeginFault {
    /// Returns the number that a user sees.
    pub fn number(self) -> u16
        ensures { result ≡ begin_fault_number self }
    {
        match self {
            BeginFault::NotClaimed(_) => 207,
            BeginFault::WrongPull => 208,
        }
    }
}

/// Why a node wasn't completed.
#[derive(Clone, Copy, Debug, PartialEq, Eq)]
pub enum CompleteFault {
    /// It isn't partial, but has this status.
    NotPartial(Status),
    /// Another pull began it.
    WrongPull,
}

impl CompleteFault {
    /// Returns the number that a user sees.
    pub fn number(self) -> u16
        ensures { result ≡ complete_fault_number self }
    {
        match self {
            CompleteFault::NotPartial(_) => 227,
            CompleteFault::WrongPull => 208,
        }
    }
}
