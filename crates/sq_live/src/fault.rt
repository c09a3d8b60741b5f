// Faults of live runs.
ghost use Rattle.std.specs.Prelude.{◌≡◌};
ghost use Rattle.sq_live.specs.Faults.{job_fault_number, live_fault_number, fault_at, run_fault};

use sq_driver::WorkersEnd;
use sq_explain::meaning;
use sq_schema::{OUT_OF_MEMORY, TxnFault};
use sq_text::{InputFault, LocatedFault};
use std::alloc::AllocError;
use std::fmt;
use std::fmt::{Display, Formatter, Write};
use thiserror::Error;

/// Why a line after the header is not accepted as a job.
#[derive(Clone, Copy, Debug, PartialEq, Eq, Error)]
#[error("{}", meaning(self.number()))]
pub enum JobFault {
    /// 125: the input has more than [`MAX_JOBS`](crate::MAX_JOBS) jobs.
    TooMany,
    /// 126: the line is not a transaction.
    NotAJob,
    /// 127: an earlier job has the same id.
    RepeatedId,
    /// The schema does not have the transaction; the number is that of the fault.
    Txn(TxnFault),
    /// 219: the job's partition does not exist.
    NoSuchPartition,
    /// 231: the line is too long.
    LineTooLong,
    /// Memory ran out.
    Memory,
}

/// The fault of a line after the header, and the number of the line in the input, counted from 1.
#[derive(Clone, Copy, Debug, PartialEq, Eq)]
pub struct JobLineFault {
    pub fault: JobFault,
    pub line: u32,
}

/// Why an input has no live run.
#[derive(Clone, Copy, Debug, PartialEq, Eq)]
pub enum LiveFault {
    /// The header has a fault, the input is too long or can't be read to its end, or memory ran
    /// out.
    Input(LocatedFault),
    /// A line after the header is not accepted as a job.
    Job(JobLineFault),
    /// The system grants fewer threads than the run has partitions, or no memory for one.
    Threads,
}

/// Why a run has no outcome.
#[derive(Clone, Copy, Debug, PartialEq, Eq)]
pub(crate) enum RunFault {
    /// Memory ran out.
    Memory,
    /// A partition, or every pump, got no thread.
    Threads,
}

impl RunFault {
    /// Returns why a stage whose workers ended as `end` has no outcome. If they were done, memory
    /// ran out.
    pub(crate) fn of(end: WorkersEnd) -> RunFault
        ensures { result ≡ run_fault end }
    {
        match end {
            WorkersEnd::LacksThreads => RunFault::Threads,
            WorkersEnd::LacksMemory | WorkersEnd::Done => RunFault::Memory,
        }
    }
}

impl JobFault {
    /// Returns the number that a user sees.
    pub fn number(self) -> u16
        ensures { result ≡ job_fault_number self }
    {
        match self {
            JobFault::TooMany => 125,
            JobFault::NotAJob => 126,
            JobFault::RepeatedId => 127,
            JobFault::Txn(fault) => fault.number(),
            JobFault::NoSuchPartition => 219,
            JobFault::LineTooLong => 231,
            JobFault::Memory => OUT_OF_MEMORY,
        }
    }

    // Returns this fault at the line of number `line`. A lack of memory belongs to no line.
    pub(crate) fn at(self, line: u32) -> LiveFault
        ensures { result ≡ fault_at line self }
    {
        match self {
            JobFault::Memory => LiveFault::Input(InputFault::Memory.at_no_line()),
            fault => LiveFault::Job(JobLineFault { fault, line }),
        }
    }
}

impl LiveFault {
    /// Returns the number that a user sees.
    pub fn number(self) -> u16
        ensures { result ≡ live_fault_number self }
    {
        match self {
            LiveFault::Input(located) => located.fault.number(),
            LiveFault::Job(told) => told.fault.number(),
            LiveFault::Threads => OUT_OF_MEMORY,
        }
    }
}

/// Writes the line's number, if the fault belongs to a line, then the fault's number and meaning. A
/// lack of threads has the same number as a lack of memory, but its own meaning.
impl Display for LiveFault {
    fn fmt<W: Write>(&self, f: &mut Formatter<W>) -> fmt::Result {
        match self {
            LiveFault::Input(located) => write!(f, "{located}"),
            LiveFault::Job(JobLineFault { fault, line }) => {
                write!(f, "line {line}: fault {}: {fault}", fault.number())
            }
            LiveFault::Threads => write!(
                f,
                "fault {}: the system grants fewer threads than the run has partitions, or no memory for one",
                self.number()
            ),
        }
    }
}

impl From<LocatedFault> for LiveFault {
    ghost use Rattle.sq_live.specs.declared.fault.LiveFault.TheVariants as faults;

    ghost from_gives = { λ located fault. fault ≡ faults.Input located };

    fn from(located: LocatedFault) -> LiveFault {
        LiveFault::Input(located)
    }
}

impl From<AllocError> for LiveFault {
    ghost use Rattle.sq_live.specs.Faults.{out_of_memory};

    ghost from_gives = { λ _ fault. fault ≡ out_of_memory };

    fn from(_error: AllocError) -> LiveFault {
        LiveFault::Input(InputFault::Memory.at_no_line())
    }
}

impl From<AllocError> for RunFault {
    ghost use Rattle.sq_live.specs.declared.fault.RunFault.TheVariants as runs;

    ghost from_gives = { λ _ fault. fault ≡ runs.Memory };

    fn from(_error: AllocError) -> RunFault {
        RunFault::Memory
    }
}

impl From<RunFault> for LiveFault {
    ghost use Rattle.sq_live.specs.Faults.{live_fault};

    ghost from_gives = { λ why fault. fault ≡ live_fault why };

    fn from(why: RunFault) -> LiveFault {
        match why {
            RunFault::Memory => LiveFault::from(AllocError),
            RunFault::Threads => LiveFault::Threads,
        }
    }
}
