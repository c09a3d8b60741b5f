// The outcomes of transactions.
use sq_moves::{Leaf, SegId};
use sq_plan::PartId;
use sq_schema::{Reply, Txn};

/// The outcome of a transaction at a partition.
#[derive(Debug, Drop)]
pub enum Outcome {
    /// It ran, with this reply.
    Done(Reply),
    /// It belongs to this other partition.
    Moved(PartId),
    /// It waits for the rows of this leaf of this segment.
    Waits(SegId, Leaf),
}

/// A transaction that no longer waits.
#[derive(Debug, Drop)]
pub struct Resumed {
    pub txn: Txn,
    pub outcome: Outcome,
}
