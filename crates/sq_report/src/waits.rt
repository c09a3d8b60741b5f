// How many jobs were answered after they had waited.
use sq_driver::{NodeStep, WorkerEvent};
use sq_shared::MAX_OWNERS;
use std::alloc::{AllocError, Global};
use std::sync::atomic::{AtomicU64, Ordering};

/// Counts, by partition, the jobs that were answered after they had waited there: a node reports
/// their answer in the step in which it resumes a waiting transaction.
#[derive(Drop)]
pub(crate) struct Waits {
    parts: Vec<AtomicU64>,
}

impl Waits {
    /// A zero count for each possible partition.
    pub(crate) fn new(alloc: Global) -> Result<Waits, AllocError> {
        let mut parts = Vec::new(alloc);
        for _part in 0..MAX_OWNERS {
            parts.push(AtomicU64::new(0))?;
        }
        Ok(Waits { parts })
    }

    /// Counts an event of worker `who`, if it is such an answer. Only a node answers jobs: then
    /// `who` is its partition.
    pub(crate) fn hear(&self, who: u64, event: WorkerEvent) {
        if event != WorkerEvent::Answered(NodeStep::Resume) {
            return;
        }
        if let Some(waited) = self.parts.get(who as usize) {
            waited.fetch_add(1, Ordering::SeqCst);
        }
    }

    /// The counts, by partition. Fails if memory runs out.
    pub(crate) fn counts(&self, alloc: Global) -> Result<Vec<u64>, AllocError> {
        let mut counts = Vec::new(alloc);
        for waited in &self.parts {
            counts.push(waited.load(Ordering::SeqCst))?;
        }
        Ok(counts)
    }
}
