// Why a line can't be read.
ghost use Rattle.std.specs.Prelude.{◌≡◌};
ghost use Rattle.sq_text.specs.Faults.{line_fault_number};

use sq_explain::meaning;
use sq_schema::{OUT_OF_MEMORY, TxnFault};
use std::alloc::AllocError;
use thiserror::Error;

/// Why a line of the script isn't a step.
#[derive(Clone, Copy, Debug, PartialEq, Eq, Error)]
#[error("{}", meaning(self.number()))]
pub enum LineFault {
    /// The line isn't of a step's form (number 230).
    NotAStep,
    /// The line has over [`crate::MAX_LINE`] bytes (number 231).
    TooLong,
    /// The schema refuses the transaction.
    Txn(TxnFault),
    /// Memory ran out.
    Memory,
}

impl LineFault {
    /// Returns the number that a user sees.
    pub fn number(self) -> u16
        ensures { result ≡ line_fault_number self }
    {
        match self {
            LineFault::NotAStep => 230,
            LineFault::TooLong => 231,
            LineFault::Txn(fault) => fault.number(),
            LineFault::Memory => OUT_OF_MEMORY,
        }
    }
}

/// The words aren't of the expected form.
#[derive(Clone, Copy, Debug, PartialEq, Eq)]
pub(crate) struct Malformed;

/// Why words weren't read.
#[derive(Clone, Copy, Debug, PartialEq, Eq)]
pub(crate) enum ReadFault {
    /// The words aren't of the expected form.
    Malformed,
    /// Memory ran out.
    Memory,
}

impl From<Malformed> for ReadFault {
    ghost use Rattle.sq_text.specs.declared.fault.ReadFault.TheVariants as faults;

    ghost from_gives = { λ _ fault. fault ≡ faults.Malformed };

    fn from(_malformed: Malformed) -> ReadFault {
        ReadFault::Malformed
    }
}

impl From<AllocError> for ReadFault {
    ghost use Rattle.sq_text.specs.declared.fault.ReadFault.TheVariants as faults;

    ghost from_gives = { λ _ fault. fault ≡ faults.Memory };

    fn from(_error: AllocError) -> ReadFault {
        ReadFault::Memory
    }
}
