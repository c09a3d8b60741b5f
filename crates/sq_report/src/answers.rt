// When jobs are answered, by which partition, and which jobs.
use crate::moment::{Event, Happened, TimedAnswer};
use crate::wait_marks::WaitBegins;
use sq_driver::{Collector, TellingNode};
use std::alloc::{AllocError, Global};
use std::sync::atomic::{AtomicBool, AtomicU8, AtomicU64, Ordering};

// The partition of a place that isn't taken.
const NO_PART: u8 = u8::MAX;

/// Marks of answers, set by many threads. A gate doesn't learn which job was answered: the marks
/// get their jobs once the stage has ended, since the receipts of a node are in the order of its
/// marks.
#[derive(Drop)]
pub(crate) struct AnswerMarks {
    marks: Vec<AnswerMark>,
    count: AtomicU64,
    /// How many of them have their jobs.
    named: AtomicU64,
}

#[derive(Drop)]
struct AnswerMark {
    micros: AtomicU64,
    part: AtomicU8,
    id: AtomicU64,
    has_waited: AtomicBool,
}

impl AnswerMark {
    // A mark that isn't set.
    fn new() -> AnswerMark {
        AnswerMark {
            micros: AtomicU64::new(0),
            part: AtomicU8::new(NO_PART),
            id: AtomicU64::new(0),
            has_waited: AtomicBool::new(false),
        }
    }

    // The answer to a job that was posted at `posted`; `begins` says when waits began.
    fn answer(&self, posted: u64, begins: &WaitBegins) -> TimedAnswer {
        let part = self.part.load(Ordering::SeqCst);
        let id = self.id.load(Ordering::SeqCst);
        let micros = self.micros.load(Ordering::SeqCst);
        let waited = if self.has_waited.load(Ordering::SeqCst) {
            Some(begins.waited(part, id, micros, posted))
        } else {
            None
        };
        TimedAnswer {
            part,
            id,
            micros_since_post: micros.saturating_sub(posted),
            waited,
        }
    }
}

impl AnswerMarks {
    /// Room for `places` marks, none set yet.
    pub(crate) fn new(alloc: Global, places: usize) -> Result<AnswerMarks, AllocError> {
        let mut marks = Vec::new(alloc);
        for _place in 0..places {
            marks.push(AnswerMark::new())?;
        }
        Ok(AnswerMarks {
            marks,
            count: AtomicU64::new(0),
            named: AtomicU64::new(0),
        })
    }

    /// Marks an answer of partition `part` at `micros`. No other thread gets its place.
    pub(crate) fn mark(&self, micros: u64, part: u8, has_waited: bool) {
        let place = self.count.fetch_add(1, Ordering::SeqCst);
        if let Some(mark) = self.marks.get(place as usize) {
            mark.micros.store(micros, Ordering::SeqCst);
            mark.has_waited.store(has_waited, Ordering::SeqCst);
            mark.part.store(part, Ordering::SeqCst);
        }
    }

    /// Gives the marks of a stage their jobs, by its tellers, which have the receipts of this
    /// stage.
    pub(crate) fn name(&self, pairs: &[TellingNode<Collector>]) {
        let count = self.count.load(Ordering::SeqCst);
        let first = self.named.swap(count, Ordering::SeqCst);
        for pair in pairs {
            self.name_by(pair, first as usize);
        }
    }

    // Gives a node's marks their jobs, from place `first` on.
    fn name_by(&self, pair: &TellingNode<Collector>, first: usize) {
        let part = pair.node.part().number();
        let mut receipts = pair.teller.receipts.iter();
        for mark in self.marks.iter().skip(first) {
            if mark.part.load(Ordering::SeqCst) == part {
                if let Some(receipt) = receipts.next() {
                    mark.id.store(receipt.txn.id(), Ordering::SeqCst);
                }
            }
        }
    }

    /// The answers to jobs that were posted at `posted`, in any order; `begins` says when waits
    /// began. Fails if memory runs out.
    pub(crate) fn answers(
        &self,
        alloc: Global,
        posted: u64,
        begins: &WaitBegins,
    ) -> Result<Vec<TimedAnswer>, AllocError> {
        let count = self.count.load(Ordering::SeqCst) as usize;
        let mut answers = Vec::new(alloc);
        for mark in self.marks.iter().take(count) {
            answers.push(mark.answer(posted, begins))?;
        }
        Ok(answers)
    }

    /// Adds an event for each answer, with the microseconds since the jobs were posted, at
    /// `posted`. Fails if memory runs out.
    pub(crate) fn add_to(
        &self,
        events: &mut Vec<Event>,
        posted: u64,
        begins: &WaitBegins,
    ) -> Result<(), AllocError> {
        let count = self.count.load(Ordering::SeqCst) as usize;
        for mark in self.marks.iter().take(count) {
            let answer = mark.answer(posted, begins);
            events.push(Event {
                micros: answer.micros_since_post,
                what: Happened::JobAnswered(answer),
            })?;
        }
        Ok(())
    }

    /// When jobs that had waited were answered, in microseconds since `began`, in any order. Fails
    /// if memory runs out.
    pub(crate) fn wait_ends(&self, alloc: Global, began: u64) -> Result<Vec<u64>, AllocError> {
        let count = self.count.load(Ordering::SeqCst) as usize;
        let mut ends = Vec::new(alloc);
        for mark in self.marks.iter().take(count) {
            if mark.has_waited.load(Ordering::SeqCst) {
                ends.push(mark.micros.load(Ordering::SeqCst).saturating_sub(began))?;
            }
        }
        Ok(ends)
    }
}
