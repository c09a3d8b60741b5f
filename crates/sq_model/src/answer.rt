// The answers to steps.
use sq_explain::meaning;
use sq_moves::{Leaf, Reading, SegId, Status};
use sq_plan::PartId;
use sq_schema::{OUT_OF_MEMORY, Reply, Txn};
use sq_store::Note;
use thiserror::Error;

/// The answer to a step.
#[derive(Debug, Drop)]
pub enum Answer {
    /// The step was executed.
    Done,
    /// The transaction ran.
    Replied {
        /// The transaction's id.
        id: u64,
        /// The transaction's reply.
        reply: Reply,
    },
    /// Another partition runs transactions on this root key.
    Moved {
        /// The transaction's id.
        id: u64,
        to: PartId,
    },
    /// The transaction waits for its rows.
    Waits {
        /// The transaction's id.
        id: u64,
        /// The segment of its root key.
        seg: SegId,
        /// The leaf of its root key.
        leaf: Leaf,
    },
    /// A transaction that waited ran.
    Resumed {
        txn: Txn,
        /// The transaction's reply.
        reply: Reply,
    },
    /// A chunk was cut.
    WasCut {
        /// What the chunk covers.
        note: Note,
        /// How many families the chunk holds.
        families: u64,
    },
    /// A chunk was loaded.
    WasLoaded {
        /// What the chunk covers.
        note: Note,
        /// How many families the chunk held.
        families: u64,
    },
    /// A node has this status and this reading.
    Reads {
        status: Status,
        reading: Reading,
    },
    /// The step was refused, and nothing changed.
    Refused(Refusal),
}

/// Why a step was refused. The table of `sq_explain` says what each number means.
#[derive(Clone, Copy, Debug, PartialEq, Eq, Error)]
#[error("{}", meaning(self.number()))]
pub enum Refusal {
    NotMoving = 201,
    NoSuchSegment = 202,
    NoSuchNode = 203,
    NotFree = 204,
    NotLive = 205,
    IsLeaf = 206,
    NotClaimed = 207,
    WrongPull = 208,
    NothingToCut = 209,
    OutboxFull = 210,
    OutboxEmpty = 211,
    LinkFull = 212,
    LinkEmpty = 213,
    InboxFull = 214,
    InboxEmpty = 215,
    NotLoaded = 216,
    AlreadyMoving = 217,
    NotFinished = 218,
    NoSuchPartition = 219,
    WaitFull = 220,
    LogFull = 221,
    Memory = OUT_OF_MEMORY as isize,
    NoneReady = 223,
    NoSuchLink = 224,
    LastStage = 225,
    NotPartial = 227,
    NotPrepared = 228,
}

impl Refusal {
    ghost use Rattle.std.specs.Prelude.{◌≡◌};
    ghost use Rattle.sq_model.specs.Refusal.{refusal_number};

    /// Returns the number that a user sees.
    pub fn number(self) -> u16
        ensures { result ≡ refusal_number self }
    {
        self as u16
    }
}
