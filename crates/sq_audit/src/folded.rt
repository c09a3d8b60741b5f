// The outcome of a fold.
use crate::job::Job;
use crate::verdict::Defect;
use sq_gather::{Gathered, Opening, Receipt};

/// A stage that was gathered, after the logs of its families were folded.
#[derive(Drop)]
pub struct Folded {
    /// The opening with the rows of all families.
    pub opening: Opening,
    /// The stage, with families that start anew from their rows, and without receipts.
    pub gathered: Gathered,
    /// The jobs without a receipt, in their order.
    pub jobs: Vec<Job>,
}

/// The arguments of a fold, unchanged.
#[derive(Drop)]
pub struct Unchanged {
    pub opening: Opening,
    pub gathered: Gathered,
    pub receipts: Vec<Receipt>,
    pub jobs: Vec<Job>,
}

/// Why nothing was folded.
#[derive(Drop)]
pub enum Unfolded {
    /// The first defect of the jobs that have a receipt.
    Unsound(Defect),
    Memory(Unchanged),
}
