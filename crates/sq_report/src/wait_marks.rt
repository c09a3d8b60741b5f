// When jobs begin to wait for rows, and where.
ghost use Rattle.std.specs.Prelude.{◌≡◌, ◌-◌, unwrap_or};

use std::alloc::{AllocError, Global};
use std::collections::BTreeMap;
use std::sync::atomic::{AtomicU8, AtomicU64, Ordering};

/// Marks of jobs that begin to wait, set by many threads.
#[derive(Drop)]
pub(crate) struct WaitMarks {
    marks: Vec<WaitMark>,
    count: AtomicU64,
}

#[derive(Drop)]
struct WaitMark {
    micros: AtomicU64,
    part: AtomicU8,
    id: AtomicU64,
}

impl WaitMark {
    // A mark that isn't set.
    fn new() -> WaitMark {
        WaitMark {
            micros: AtomicU64::new(0),
            part: AtomicU8::new(0),
            id: AtomicU64::new(0),
        }
    }
}

impl WaitMarks {
    /// Room for `places` marks, none set yet.
    pub(crate) fn new(alloc: Global, places: usize) -> Result<WaitMarks, AllocError> {
        let mut marks = Vec::new(alloc);
        for _place in 0..places {
            marks.push(WaitMark::new())?;
        }
        Ok(WaitMarks {
            marks,
            count: AtomicU64::new(0),
        })
    }

    /// Marks that the job `id` begins to wait at partition `part` at `micros`. No other thread gets
    /// its place.
    pub(crate) fn mark(&self, micros: u64, part: u8, id: u64) {
        let place = self.count.fetch_add(1, Ordering::SeqCst);
        if let Some(mark) = self.marks.get(place as usize) {
            mark.micros.store(micros, Ordering::SeqCst);
            mark.id.store(id, Ordering::SeqCst);
            mark.part.store(part, Ordering::SeqCst);
        }
    }

    /// When jobs began to wait, in microseconds since `began`, in any order. Fails if memory runs
    /// out.
    pub(crate) fn times(&self, alloc: Global, began: u64) -> Result<Vec<u64>, AllocError> {
        let count = self.count.load(Ordering::SeqCst) as usize;
        let mut times = Vec::new(alloc);
        for mark in self.marks.iter().take(count) {
            times.push(mark.micros.load(Ordering::SeqCst).saturating_sub(began))?;
        }
        Ok(times)
    }

    /// When each job that waited began to, at each partition. If a job waited there in more than
    /// one stage, the last time counts, since it was answered after that. Fails if memory runs out.
    pub(crate) fn begins(&self, alloc: Global) -> Result<WaitBegins, AllocError> {
        let count = self.count.load(Ordering::SeqCst) as usize;
        let mut begins = BTreeMap::new(alloc);
        for mark in self.marks.iter().take(count) {
            let part = mark.part.load(Ordering::SeqCst);
            let id = mark.id.load(Ordering::SeqCst);
            let _ = begins.insert((part, id), mark.micros.load(Ordering::SeqCst))?;
        }
        Ok(WaitBegins { begins })
    }
}

/// When jobs began to wait, by the partition and the job's id.
#[derive(Drop)]
pub(crate) struct WaitBegins {
    begins: BTreeMap<(u8, u64), u64>,
}

impl WaitBegins {
    /// For how many microseconds the job had waited that was answered at `answered`. A job whose
    /// mark had no place counts as if it had waited since `posted`.
    pub(crate) fn waited(&self, part: u8, id: u64, answered: u64, posted: u64) -> u64 {
        time_waited(self.begins.get(&(part, id)).copied(), answered, posted)
    }
}

// For how many microseconds a job had waited that began to at `began` and was answered at
// `answered`.
fn time_waited(began: Option<u64>, answered: u64, posted: u64) -> u64
    ensures { result ≡ answered - unwrap_or began posted }
{
    answered.saturating_sub(began.unwrap_or(posted))
}
