// Which nodes have a thread.
use std::sync::atomic::{AtomicU64, Ordering};

/// The nodes of an epoch that have started, and so have a thread.
#[derive(Drop)]
pub(crate) struct NodesHere {
    parts: u8,
    // A bit for each partition whose node has started.
    come: AtomicU64,
}

impl NodesHere {
    /// Returns the nodes of `parts` partitions, at most 64; none has started yet.
    pub(crate) fn new(parts: u8) -> NodesHere {
        NodesHere {
            parts,
            come: AtomicU64::new(0),
        }
    }

    /// Records that worker `who` has started, if it is a node. Only the node's own thread records
    /// it.
    pub(crate) fn note(&self, who: u64) {
        if who < u64::from(self.parts) {
            let bit = 1u64 << (who % 64);
            if self.come.load(Ordering::SeqCst) & bit == 0 {
                self.come.fetch_add(bit, Ordering::SeqCst);
            }
        }
    }

    /// Returns true if each node has started.
    pub(crate) fn are_all_here(&self) -> bool {
        self.come.load(Ordering::SeqCst).count_ones() >= u32::from(self.parts)
    }

    /// Returns true if some node has started.
    pub(crate) fn is_one_here(&self) -> bool {
        self.come.load(Ordering::SeqCst) != 0
    }
}
