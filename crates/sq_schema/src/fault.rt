// Why something was refused, in the order in which the causes are tested. A variant's number is
// what a user sees; the table of `sq_explain` says what it means.
ghost use Rattle.std.specs.Prelude.{◌≡◌};
ghost use Rattle.sq_schema.specs.Fault.{txn_fault_number, apply_fault_number, row_fault_number};

use sq_explain::meaning;
use std::alloc::AllocError;
use thiserror::Error;

/// The number of every fault that reports that memory ran out.
pub const OUT_OF_MEMORY: u16 = 222;

/// Why a transaction was refused before it ran, or a row isn't of the schema.
#[derive(Clone, Copy, Debug, PartialEq, Eq, Error)]
#[error("{}", meaning(self.number()))]
pub enum TxnFault {
    BadOps = 131,
    BadRoot = 132,
    BadTable = 133,
    BadSub = 134,
    BadNote = 135,
}

impl TxnFault {
    /// Returns the number that a user sees.
    pub fn number(self) -> u16
        ensures { result ≡ txn_fault_number self }
    {
        self as u16
    }
}

/// Why a family didn't run a transaction.
#[derive(Clone, Copy, Debug, PartialEq, Eq, Error)]
#[error("{}", meaning(self.number()))]
pub enum ApplyFault {
    LogFull = 221,
    Memory = OUT_OF_MEMORY as isize,
}

impl ApplyFault {
    /// Returns the number that a user sees.
    pub fn number(self) -> u16
        ensures { result ≡ apply_fault_number self }
    {
        self as u16
    }
}

impl From<AllocError> for ApplyFault {
    ghost use Rattle.sq_schema.specs.declared.fault.ApplyFault.TheVariants.{Memory};

    ghost from_gives = { λ _ fault. fault ≡ Memory };

    fn from(_error: AllocError) -> ApplyFault {
        ApplyFault::Memory
    }
}

/// Why an opening row was refused.
#[derive(Clone, Copy, Debug, PartialEq, Eq, Error)]
#[error("{}", meaning(self.number()))]
pub enum RowFault {
    RowRepeated = 136,
    NoRootRow = 137,
    Memory = OUT_OF_MEMORY as isize,
}

impl RowFault {
    /// Returns the number that a user sees.
    pub fn number(self) -> u16
        ensures { result ≡ row_fault_number self }
    {
        self as u16
    }
}
