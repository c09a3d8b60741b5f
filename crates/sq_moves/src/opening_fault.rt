// Why a reconfiguration or an opening was refused, in the order in which the causes are tested. The
// table of `sq_explain` says what each number means.
ghost use Rattle.std.specs.Prelude.{◌≡◌};
ghost use Rattle.sq_moves.specs.OpeningFaults.{of_row, recon_fault_number, opening_fault_number};

use sq_explain::meaning;
use sq_schema::{OUT_OF_MEMORY, RowFault, TxnFault};
use std::alloc::AllocError;
use thiserror::Error;

/// Why there is no reconfiguration between two plans.
#[derive(Clone, Copy, Debug, PartialEq, Eq, Error)]
#[error("{}", meaning(self.number()))]
pub enum ReconFault {
    PartitionsDiffer = 111,
    Width = 112,
    TooManySegments = 113,
    Memory = OUT_OF_MEMORY as isize,
}

impl ReconFault {
    /// Returns the number that a user sees.
    pub fn number(self) -> u16
        ensures { result ≡ recon_fault_number self }
    {
        self as u16
    }
}

impl From<AllocError> for ReconFault {
    ghost use Rattle.sq_moves.specs.declared.opening_fault.ReconFault.TheVariants.{Memory};

    ghost from_gives = { λ _ fault. fault ≡ Memory };

    fn from(_error: AllocError) -> ReconFault {
        ReconFault::Memory
    }
}

/// Why an opening was refused.
#[derive(Clone, Copy, Debug, PartialEq, Eq, Error)]
#[error("{}", meaning(self.number()))]
pub enum OpeningFault {
    /// There is no reconfiguration.
    Recon(ReconFault),
    /// The bytes of a chunk are out of range (number 114).
    Limit,
    /// The chunks of a link's queue are out of range (number 115).
    Capacity,
    /// The row with this number, from 0, isn't of the schema.
    Row(usize, TxnFault),
    /// The row with this number, from 0, is repeated or lacks its root row.
    Place(usize, RowFault),
    /// Memory ran out, at any point.
    Memory,
}

impl OpeningFault {
    /// Returns the number that a user sees.
    pub fn number(self) -> u16
        ensures { result ≡ opening_fault_number self }
    {
        match self {
            OpeningFault::Recon(fault) => fault.number(),
            OpeningFault::Limit => 114,
            OpeningFault::Capacity => 115,
            OpeningFault::Row(_, fault) => fault.number(),
            OpeningFault::Place(_, fault) => fault.number(),
            OpeningFault::Memory => OUT_OF_MEMORY,
        }
    }

    /// Returns the fault of the row with the number `at`, or that memory ran out.
    pub(crate) fn of_row(at: usize, fault: RowFault) -> OpeningFault
        ensures { result ≡ of_row at fault }
    {
        match fault {
            RowFault::Memory => OpeningFault::Memory,
            fault => OpeningFault::Place(at, fault),
        }
    }
}

impl From<ReconFault> for OpeningFault {
    ghost use Rattle.sq_moves.specs.OpeningFaults.{of_recon};

    ghost from_gives = { λ cause fault. fault ≡ of_recon cause };

    fn from(fault: ReconFault) -> OpeningFault {
        match fault {
            ReconFault::Memory => OpeningFault::Memory,
            fault => OpeningFault::Recon(fault),
        }
    }
}
