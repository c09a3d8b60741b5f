// Why a call was refused, in the order in which the causes are tested. Each variant has the number
// of the step's refusal.
ghost use Rattle.std.specs.Prelude.{◌≡◌};
ghost use Rattle.sq_exec.specs.Fault.{submit_fault_number, resume_fault_number, cut_fault_number, load_fault_number};

use sq_explain::meaning;
use sq_schema::OUT_OF_MEMORY;
use std::alloc::AllocError;
use thiserror::Error;

/// Why a transaction wasn't accepted.
#[derive(Clone, Copy, Debug, PartialEq, Eq, Error)]
#[error("{}", meaning(self.number()))]
pub enum SubmitFault {
    /// The most transactions that may wait are waiting.
    WaitFull = 220,
    /// The log of the root key is full.
    LogFull = 221,
    Memory = OUT_OF_MEMORY as isize,
}

impl SubmitFault {
    /// Returns the number that a user sees.
    pub fn number(self) -> u16
        ensures { result ≡ submit_fault_number self }
    {
        self as u16
    }
}

/// Why no waiting transaction was resumed.
#[derive(Clone, Copy, Debug, PartialEq, Eq, Error)]
#[error("{}", meaning(self.number()))]
pub enum ResumeFault {
    /// The rows of all waiting transactions are still to come.
    NoneReady = 223,
    /// The logs of the root keys that are here are full.
    LogFull = 221,
    Memory = OUT_OF_MEMORY as isize,
}

impl ResumeFault {
    /// Returns the number that a user sees.
    pub fn number(self) -> u16
        ensures { result ≡ resume_fault_number self }
    {
        self as u16
    }
}

/// Why no chunk was cut.
#[derive(Clone, Copy, Debug, PartialEq, Eq, Error)]
#[error("{}", meaning(self.number()))]
pub enum CutFault {
    /// The last chunk hasn't been sent.
    OutboxFull = 210,
    /// Every node that was begun is cut to its end.
    NothingToCut = 209,
    Memory = OUT_OF_MEMORY as isize,
}

impl CutFault {
    /// Returns the number that a user sees.
    pub fn number(self) -> u16
        ensures { result ≡ cut_fault_number self }
    {
        self as u16
    }
}

/// Why no chunk was loaded.
#[derive(Clone, Copy, Debug, PartialEq, Eq, Error)]
#[error("{}", meaning(self.number()))]
pub enum LoadFault {
    /// The inbox has no chunk.
    InboxEmpty = 215,
    Memory = OUT_OF_MEMORY as isize,
}

impl LoadFault {
    /// Returns the number that a user sees.
    pub fn number(self) -> u16
        ensures { result ≡ load_fault_number self }
    {
        self as u16
    }
}

impl From<AllocError> for CutFault {
    ghost use Rattle.sq_exec.specs.declared.fault.CutFault.TheVariants.{Memory};

    ghost from_gives = { λ _ fault. fault ≡ Memory };

    fn from(_error: AllocError) -> CutFault {
        CutFault::Memory
    }
}

impl From<AllocError> for LoadFault {
    ghost use Rattle.sq_exec.specs.declared.fault.LoadFault.TheVariants.{Memory};

    ghost from_gives = { λ _ fault. fault ≡ Memory };

    fn from(_error: AllocError) -> LoadFault {
        LoadFault::Memory
    }
}
