// The offer times of open jobs.
ghost use Rattle.std.specs.Prelude.{◌≡◌, OnOk};
ghost use Rattle.sq_report.specs.OpenJobs.{waited, HasOfferTime, NotesOffer};

use sq_serving::ServeMark;
use std::alloc::{AllocError, Global};
use std::collections::HashMap;

/// When each open job was offered first, in microseconds, by its id.
#[derive(Drop)]
pub(crate) struct OpenJobs {
    offered: HashMap<u64, u64>,
}

impl OpenJobs {
    /// A record without jobs.
    pub(crate) fn new(alloc: Global) -> OpenJobs {
        OpenJobs {
            offered: HashMap::new(alloc),
        }
    }

    /// How long the job has waited that `mark` answers at `micros`; 0 for any other mark, and for a
    /// job that wasn't recorded.
    pub(crate) fn wait_of(&self, mark: &ServeMark, micros: u64) -> u64
        ensures { result ≡ waited self.now.offered mark.now micros }
    {
        match *mark {
            ServeMark::JobAnswered { id, .. } => {
                let offered = self.offered.get(&id).copied().unwrap_or(micros);
                micros.saturating_sub(offered)
            }
            _ => 0,
        }
    }

    /// Records `mark`, made at `micros`. Fails if memory runs out.
    pub(crate) fn note(&mut self, mark: &ServeMark, micros: u64) -> Result<(), AllocError>
        ensures { OnOk result (NotesOffer self.old.offered mark.now micros self.new.offered) }
    {
        match *mark {
            ServeMark::JobOffered { id, .. } => self.offer(id, micros),
            ServeMark::JobAnswered { id, .. } => {
                self.offered.remove(&id);
                Ok(())
            }
            _ => Ok(()),
        }
    }

    // Records that the job `id` is offered, for the first time or again.
    fn offer(&mut self, id: u64, micros: u64) -> Result<(), AllocError>
        ensures { OnOk result (HasOfferTime self.old.offered id micros self.new.offered) }
    {
        if self.offered.contains_key(&id) {
            return Ok(());
        }
        self.offered.insert(id, micros)?;
        Ok(())
    }
}
