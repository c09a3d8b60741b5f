// Why a call isn't tried to its end.
use sq_plan::PlanFault;
use sq_text::{InputFault, LineFault, LocatedFault, WriteFault};
use std::alloc::{AllocError, AllocFailed};
use std::io;
use std::io::ErrorKind;
use thiserror::Error;

/// Why a call isn't tried to its end.
#[derive(Clone, Copy, Debug, PartialEq, Eq, Error)]
pub enum Unfinished {
    #[error("out of memory outside of the calls that are tried")]
    Memory,
    #[error("a call is refused twice")]
    Refused,
    #[error("the input is malformed")]
    Malformed,
    #[error("a read or a write failed")]
    Failed,
}

impl From<AllocError> for Unfinished {
    fn from(_error: AllocError) -> Unfinished {
        Unfinished::Memory
    }
}

impl<T: Drop> From<AllocFailed<T>> for Unfinished {
    fn from(_failed: AllocFailed<T>) -> Unfinished {
        Unfinished::Memory
    }
}

impl From<io::Error> for Unfinished {
    fn from(error: io::Error) -> Unfinished {
        match error.kind() {
            ErrorKind::OutOfMemory => Unfinished::Memory,
            _ => Unfinished::Failed,
        }
    }
}

impl From<WriteFault> for Unfinished {
    fn from(_fault: WriteFault) -> Unfinished {
        Unfinished::Failed
    }
}

impl From<LocatedFault> for Unfinished {
    fn from(fault: LocatedFault) -> Unfinished {
        match fault.fault {
            InputFault::Memory => Unfinished::Memory,
            _ => Unfinished::Malformed,
        }
    }
}

impl From<LineFault> for Unfinished {
    fn from(fault: LineFault) -> Unfinished {
        match fault {
            LineFault::Memory => Unfinished::Memory,
            _ => Unfinished::Malformed,
        }
    }
}

impl From<PlanFault> for Unfinished {
    fn from(fault: PlanFault) -> Unfinished {
        match fault {
            PlanFault::Memory => Unfinished::Memory,
            _ => Unfinished::Malformed,
        }
    }
}
