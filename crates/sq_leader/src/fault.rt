// Why a call was refused, in the order in which the causes are tested.
ghost use Rattle.std.specs.Prelude.{◌≡◌};
ghost use Rattle.sq_leader.specs.Fault.{prepare_fault_number, start_fault_number, report_fault_number, stage_fault_number, next_fault_number, finish_fault_number};

use sq_explain::meaning;
use thiserror::Error;

/// Why a partition couldn't prepare. Each variant, here and below, has the number of the step's
/// refusal.
#[derive(Clone, Copy, Debug, PartialEq, Eq, Error)]
#[error("{}", meaning(self.number()))]
pub enum PrepareFault {
    NoSuchPartition = 219,
}

impl PrepareFault {
    /// Returns the number that a user sees.
    pub fn number(self) -> u16
        ensures { result ≡ prepare_fault_number self }
    {
        self as u16
    }
}

/// Why the move didn't start.
#[derive(Clone, Copy, Debug, PartialEq, Eq, Error)]
#[error("{}", meaning(self.number()))]
pub enum StartFault {
    NotPrepared = 228,
}

impl StartFault {
    /// Returns the number that a user sees.
    pub fn number(self) -> u16
        ensures { result ≡ start_fault_number self }
    {
        self as u16
    }
}

/// Why no report was made.
#[derive(Clone, Copy, Debug, PartialEq, Eq, Error)]
#[error("{}", meaning(self.number()))]
pub enum ReportFault {
    NoSuchPartition = 219,
    /// A segment that moves into the partition in the stage isn't whole.
    NotFinished = 218,
}

impl ReportFault {
    /// Returns the number that a user sees.
    pub fn number(self) -> u16
        ensures { result ≡ report_fault_number self }
    {
        self as u16
    }
}

/// Why a report wasn't recorded.
#[derive(Clone, Copy, Debug, PartialEq, Eq, Error)]
#[error("{}", meaning(self.number()))]
pub enum StageFault {
    /// The report is of another stage than the running one.
    OtherStage = 218,
}

impl StageFault {
    /// Returns the number that a user sees.
    pub fn number(self) -> u16
        ensures { result ≡ stage_fault_number self }
    {
        self as u16
    }
}

/// Why the next stage wasn't entered.
#[derive(Clone, Copy, Debug, PartialEq, Eq, Error)]
#[error("{}", meaning(self.number()))]
pub enum NextFault {
    LastStage = 225,
    /// A partition that a segment of the running stage moves into hasn't reported.
    NotFinished = 218,
}

impl NextFault {
    /// Returns the number that a user sees.
    pub fn number(self) -> u16
        ensures { result ≡ next_fault_number self }
    {
        self as u16
    }
}

/// Why the move didn't end.
#[derive(Clone, Copy, Debug, PartialEq, Eq, Error)]
#[error("{}", meaning(self.number()))]
pub enum FinishFault {
    /// A stage follows, or a partition that a segment moves into hasn't reported.
    NotFinished = 218,
}

impl FinishFault {
    /// Returns the number that a user sees.
    pub fn number(self) -> u16
        ensures { result ≡ finish_fault_number self }
    {
        self as u16
    }
}
