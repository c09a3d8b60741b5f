// Why a line asks nothing of an engine.
ghost use Rattle.std.specs.Prelude.{◌≡◌};
ghost use Rattle.sq_serving.specs.ServeFaults.{serve_fault_number};

use sq_explain::meaning;
use sq_plan::PlanFault;
use sq_schema::{OUT_OF_MEMORY, TxnFault};
use thiserror::Error;

/// Why a line after the header asks nothing of an engine.
#[derive(Clone, Copy, Debug, Error)]
#[error("{}", meaning(self.number()))]
pub enum ServeFault {
    /// It isn't a request. 126.
    NotAServeLine,
    /// It is too long. 231.
    TooLong,
    /// The schema doesn't have the transaction.
    Txn(TxnFault),
    /// The text isn't a plan.
    Plan(PlanFault),
    /// Memory ran out.
    Memory,
}

impl ServeFault {
    /// The number that a user sees.
    pub fn number(self) -> u16
        ensures { result ≡ serve_fault_number self }
    {
        match self {
            ServeFault::NotAServeLine => 126,
            ServeFault::TooLong => 231,
            ServeFault::Txn(fault) => fault.number(),
            ServeFault::Plan(fault) => fault.number(),
            ServeFault::Memory => OUT_OF_MEMORY,
        }
    }
}
