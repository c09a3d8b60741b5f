// Jobs.
use sq_gather::{PartId, Txn};

/// A job: a transaction, and the partition that it was posted to.
#[derive(Debug, Drop)]
pub struct Job {
    pub part: PartId,
    pub txn: Txn,
}
