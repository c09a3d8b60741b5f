// Why bytes aren't a plan.
ghost use Rattle.std.specs.Prelude.{◌≡◌};
ghost use Rattle.sq_plan.specs.Fault.{plan_fault_number};

use sq_explain::meaning;
use sq_schema::OUT_OF_MEMORY;
use thiserror::Error;

/// Why bytes weren't read as a plan. The checks come in this order, and the first that fails is the
/// fault: `NotJson`, `Shape` for the object and its version, `Version`, `Shape` for the other
/// fields, `PartitionCount`, `TooManyRanges`, `RangeOrder`, `PartitionNumber`, `BadStages`. The
/// table of `sq_explain` says what each number means.
#[derive(Clone, Copy, Debug, PartialEq, Eq, Error)]
#[error("{}", meaning(self.number()))]
pub enum PlanFault {
    NotJson = 101,
    Shape = 102,
    Version = 103,
    PartitionCount = 104,
    RangeOrder = 105,
    PartitionNumber = 106,
    TooManyRanges = 107,
    BadStages = 108,
    Memory = OUT_OF_MEMORY as isize,
}

impl PlanFault {
    /// Returns the number that a user sees.
    pub fn number(self) -> u16
        ensures { result ≡ plan_fault_number self }
    {
        self as u16
    }
}
