// Where a family is.
use sq_plan::PartId;

/// Where a gathered family is: in the store of a partition, or in a chunk under way.
#[derive(Clone, Copy, Debug, PartialEq, Eq)]
pub enum Spot {
    /// In the store of this partition.
    Store(PartId),
    /// In this chunk under way on this link, both by their place from 0.
    Chunk { link: usize, chunk: usize },
}
