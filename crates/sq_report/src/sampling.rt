// The jobs of an engine that is served whose waits are recorded.
use std::alloc::{AllocError, Global};
use std::collections::HashMap;

// If more waits than this are recorded in a tenth of a second, half as many jobs are chosen.
const MANY: u64 = 1_000;

// If fewer than this are, twice as many.
const FEW: u64 = 200;

// Scatters the ids of jobs.
const SCATTER: u64 = 0x9e37_79b9_7f4a_7c15;

/// When the chosen jobs were offered first. Each job is chosen, unless there are many in a second:
/// then one in two, four, eight or more, by its id.
#[derive(Drop)]
pub(crate) struct Sampling {
    // When each open job that is chosen was offered first, in microseconds, by its id.
    offered: HashMap<u64, u64>,
    // One job in two to this power is chosen.
    halvings: u32,
    // The running tenth of a second, and how many waits are recorded of it.
    tenth: u64,
    count: u64,
}

impl Sampling {
    /// Sampling that chooses each job.
    pub(crate) fn new(alloc: Global) -> Sampling {
        Sampling {
            offered: HashMap::new(alloc),
            halvings: 0,
            tenth: 0,
            count: 0,
        }
    }

    /// Returns whether the time matters at which the job `id` is offered.
    pub(crate) fn chooses(&self, id: u64) -> bool {
        id.wrapping_mul(SCATTER).leading_zeros() >= self.halvings
    }

    /// Returns whether the wait of job `id` is measured.
    pub(crate) fn measures(&self, id: u64) -> bool {
        self.offered.contains_key(&id)
    }

    /// Records that the job `id` is offered at `micros`, for the first time or again, if it is
    /// chosen. Fails if memory runs out.
    pub(crate) fn offer(&mut self, id: u64, micros: u64) -> Result<(), AllocError> {
        if !self.chooses(id) || self.measures(id) {
            return Ok(());
        }
        self.offered.insert(id, micros)?;
        Ok(())
    }

    /// Takes the job `id`, which is answered at `micros`. Returns how long it has waited; `None` if
    /// that isn't measured.
    pub(crate) fn answer(&mut self, id: u64, micros: u64) -> Option<u64> {
        let offered = self.offered.remove(&id)?;
        self.count = self.count.saturating_add(1);
        Some(micros.saturating_sub(offered))
    }

    /// Adapts the share of jobs that are chosen, once in a tenth of a second; `tenth` is the number
    /// of the running one.
    pub(crate) fn adapt(&mut self, tenth: u64) {
        if tenth == self.tenth {
            return;
        }
        if self.count > MANY {
            self.halvings = self.halvings.saturating_add(1);
        } else if self.count < FEW {
            self.halvings = self.halvings.saturating_sub(1);
        }
        self.tenth = tenth;
        self.count = 0;
    }
}
