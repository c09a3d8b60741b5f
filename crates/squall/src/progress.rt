// The progress of a live run, shown meanwhile.
use sq_driver::{Gate, NodeStep, WorkerEvent};
use sq_live::{Gathered, Job, Receipt, Watch};
use sq_moves::Opening;
use sq_report::Stopwatch;
use std::mem::forget;
use std::sync::atomic::{AtomicBool, AtomicU64, Ordering};
use std::time::Clock;

/// Overwrites the longest line of progress.
pub const BLANK: &str =
    "\r                                                                        \r";

// The shortest time between two updates of the line, in microseconds.
const PAUSE: u64 = 100_000;

/// A watch that lets each worker pass. If standard error is a terminal, it shows there how many
/// jobs are answered, how many families have moved and how many segments are complete: on one line,
/// which is rewritten as these counts grow; no count ever falls. The line is removed once the
/// threads have ended.
#[derive(Drop)]
pub struct Progress<'a, E> {
    to: &'a E,
    is_shown: bool,
    clock: Stopwatch<'a, E>,
    jobs: AtomicU64,
    segments: AtomicU64,
    answered: AtomicU64,
    moved: AtomicU64,
    complete: AtomicU64,
    /// The time of the next update, in microseconds.
    due: AtomicU64,
    /// Whether a worker is updating the line.
    busy: AtomicBool,
}

impl<'a, E: Eprint + Clock> Progress<'a, E> {
    /// The progress of a run that hasn't begun; `is_shown` says whether it is shown.
    pub fn new(to: &'a E, is_shown: bool) -> Progress<'a, E> {
        Progress {
            to,
            is_shown,
            clock: Stopwatch::start(to),
            jobs: AtomicU64::new(0),
            segments: AtomicU64::new(0),
            answered: AtomicU64::new(0),
            moved: AtomicU64::new(0),
            complete: AtomicU64::new(0),
            due: AtomicU64::new(0),
            busy: AtomicBool::new(false),
        }
    }

    // Adds to a count, and updates the line, unless another worker is doing so.
    fn add(&self, count: &AtomicU64, more: u64) {
        if !self.is_shown {
            return;
        }
        count.fetch_add(more, Ordering::SeqCst);
        if !self.busy.swap(true, Ordering::SeqCst) {
            self.go_on();
            self.busy.store(false, Ordering::SeqCst);
        }
    }

    // Updates the line, if `PAUSE` has passed since the last update.
    fn go_on(&self) {
        let now = self.clock.micros();
        if now >= self.due.load(Ordering::SeqCst) {
            self.due.store(now.saturating_add(PAUSE), Ordering::SeqCst);
            self.say();
        }
    }

    // Writes the line.
    fn say(&self) {
        let answered = self.answered.load(Ordering::SeqCst);
        let jobs = self.jobs.load(Ordering::SeqCst);
        let moved = self.moved.load(Ordering::SeqCst);
        let complete = self.complete.load(Ordering::SeqCst);
        let segments = self.segments.load(Ordering::SeqCst);
        let _ = eprint!(self.to;
            "\r{answered} of {jobs} jobs, {moved} families moved, {complete} of {segments} segments"
        );
    }
}

impl<E: Eprint + Clock + Sync> Gate for Progress<'_, E> {
    fn pass(&self, _who: u64, _step: NodeStep) -> bool {
        true
    }

    fn did(&self, _who: u64, event: WorkerEvent) {
        match event {
            WorkerEvent::Answered(_) => self.add(&self.answered, 1),
            WorkerEvent::SegmentComplete => self.add(&self.complete, 1),
            WorkerEvent::Loaded { families, .. } => self.add(&self.moved, families),
            WorkerEvent::Waits { .. } | WorkerEvent::Made(_) => {}
        }
    }
}

impl<E: Eprint + Clock + Sync> Watch for Progress<'_, E> {
    fn begins(&self, jobs: u64, segments: u64) {
        if !self.is_shown {
            return;
        }
        self.jobs.store(jobs, Ordering::SeqCst);
        self.segments.store(segments, Ordering::SeqCst);
        self.say();
    }

    fn leaves(&self, left: Gathered, told: Vec<Receipt>, opening: Opening, jobs: Vec<Job>) {
        // Frees nothing: the program ends, and the system reclaims its memory faster than it could
        // be freed.
        forget(left);
        forget(told);
        forget(opening);
        forget(jobs);
    }

    fn ends(&self) {
        if !self.is_shown {
            return;
        }
        self.say();
        let _ = eprint!(self.to; "{BLANK}");
    }
}
