// When jobs begin to wait and are answered, and when segments complete.
use crate::answers::AnswerMarks;
use crate::clock::Stopwatch;
use crate::moment::{Event, Happened, Moment, StageStart, TimedAnswer};
use crate::wait_marks::WaitMarks;
use crate::waiting::{WaitCount, WaitTimes};
use sq_driver::{Collector, NodeStep, TellingNode, WorkerEvent};
use std::alloc::{AllocError, Global};
use std::sync::atomic::{AtomicU64, Ordering};
use std::time::Clock;

/// Marks when jobs begin to wait and are answered, when segments complete and when stages begin,
/// for many threads. It allocates nothing while it marks: marks beyond the number of places it was
/// made with are left out.
#[derive(Drop)]
pub struct Timeline<'a, C> {
    clock: Stopwatch<'a, C>,
    answered: AnswerMarks,
    waits: WaitMarks,
    complete: Marks,
    /// When each stage began.
    stages: Marks,
    /// How many jobs and segments there are.
    jobs: AtomicU64,
    segments: AtomicU64,
    /// When the last stage ended.
    ended: AtomicU64,
}

impl<'a, C: Clock> Timeline<'a, C> {
    /// An empty timeline, with places for `jobs` jobs and `segments` segments, and for as many
    /// stages as segments. Fails only if memory runs out.
    pub fn new(
        alloc: Global,
        clock: &'a C,
        jobs: usize,
        segments: usize,
    ) -> Result<Timeline<'a, C>, AllocError> {
        Ok(Timeline {
            clock: Stopwatch::start(clock),
            answered: AnswerMarks::new(alloc, jobs)?,
            waits: WaitMarks::new(alloc, jobs)?,
            complete: Marks::new(alloc, segments)?,
            stages: Marks::new(alloc, segments)?,
            jobs: AtomicU64::new(0),
            segments: AtomicU64::new(0),
            ended: AtomicU64::new(0),
        })
    }

    /// Records that a run has `jobs` jobs and `segments` segments.
    pub fn begin(&self, jobs: u64, segments: u64) {
        self.jobs.store(jobs, Ordering::SeqCst);
        self.segments.store(segments, Ordering::SeqCst);
    }

    /// Records that a stage begins now. With the first one begins the run, and all jobs are posted.
    pub fn begin_stage(&self) {
        self.stages.mark(self.clock.micros());
    }

    /// Records that a stage has ended, and left `pairs`, whose tellers have the receipts of this
    /// stage.
    pub fn end_stage(&self, pairs: &[TellingNode<Collector>]) {
        self.ended.store(self.clock.micros(), Ordering::SeqCst);
        self.answered.name(pairs);
    }

    /// Marks a job that was answered or begins to wait, or a segment that is complete; other events
    /// of worker `who` aren't marked. Only a node answers jobs, or has one that waits: then `who`
    /// is its partition.
    pub fn record(&self, who: u64, event: WorkerEvent) {
        match event {
            WorkerEvent::Answered(step) => {
                let has_waited = step == NodeStep::Resume;
                self.answered
                    .mark(self.clock.micros(), part_of(who), has_waited);
            }
            WorkerEvent::Waits { id } => self.waits.mark(self.clock.micros(), part_of(who), id),
            WorkerEvent::SegmentComplete => self.complete.mark(self.clock.micros()),
            WorkerEvent::Loaded { .. } | WorkerEvent::Made(_) => {}
        }
    }

    /// What was marked, in the order of time, each with the microseconds since the run began.
    /// Fails if memory runs out.
    pub fn events(&self, alloc: Global) -> Result<Vec<Event>, AllocError> {
        let mut events = Vec::new(alloc);
        let began = self.stages.first();
        let begins = self.waits.begins(alloc)?;
        self.answered.add_to(&mut events, began, &begins)?;
        self.complete.add_to(&mut events, began)?;
        events.sort_unstable_by_key(|event| event.micros);
        Ok(events)
    }

    /// The answers of jobs, in any order. Fails if memory runs out.
    pub fn answers(&self, alloc: Global) -> Result<Vec<TimedAnswer>, AllocError> {
        let begins = self.waits.begins(alloc)?;
        self.answered.answers(alloc, self.stages.first(), &begins)
    }

    /// When each stage began, in microseconds since the run began. Fails if memory runs out.
    pub fn stage_starts(&self, alloc: Global) -> Result<Vec<StageStart>, AllocError> {
        self.stages.starts(alloc)
    }

    /// How many jobs waited for rows, from each time at which their number may change, in the order
    /// of time. Fails if memory runs out.
    pub(crate) fn waiting(&self, alloc: Global) -> Result<Vec<WaitCount>, AllocError> {
        let began = self.stages.first();
        let times = WaitTimes {
            begins: self.waits.times(alloc, began)?,
            ends: self.answered.wait_ends(alloc, began)?,
            stages: self.stages.times(alloc, began)?,
        };
        times.waiting_from(alloc, &times.all(alloc)?)
    }

    /// The end of the run: its time, and the numbers of all jobs and all segments.
    pub fn all(&self) -> Moment {
        let ended = self.ended.load(Ordering::SeqCst);
        Moment {
            micros: ended.saturating_sub(self.stages.first()),
            jobs: self.jobs.load(Ordering::SeqCst),
            segments: self.segments.load(Ordering::SeqCst),
            answer: None,
        }
    }
}

// The partition of node `who`.
fn part_of(who: u64) -> u8 {
    u8::try_from(who).unwrap_or(u8::MAX)
}

// The times of events, in any order.
#[derive(Drop)]
struct Marks {
    times: Vec<AtomicU64>,
    count: AtomicU64,
}

impl Marks {
    // Room for `places` marks, none set yet.
    fn new(alloc: Global, places: usize) -> Result<Marks, AllocError> {
        let mut times = Vec::new(alloc);
        for _place in 0..places {
            times.push(AtomicU64::new(0))?;
        }
        Ok(Marks {
            times,
            count: AtomicU64::new(0),
        })
    }

    // Marks an event at `micros`. No other thread gets its place.
    fn mark(&self, micros: u64) {
        let place = self.count.fetch_add(1, Ordering::SeqCst);
        if let Some(time) = self.times.get(place as usize) {
            time.store(micros, Ordering::SeqCst);
        }
    }

    // The time of the first mark; 0 if there is none.
    fn first(&self) -> u64 {
        match self.times.first() {
            Some(time) => time.load(Ordering::SeqCst),
            None => 0,
        }
    }

    // The marks, in microseconds since `began`.
    fn times(&self, alloc: Global, began: u64) -> Result<Vec<u64>, AllocError> {
        let count = self.count.load(Ordering::SeqCst) as usize;
        let mut times = Vec::new(alloc);
        for time in self.times.iter().take(count) {
            times.push(time.load(Ordering::SeqCst).saturating_sub(began))?;
        }
        Ok(times)
    }

    // Adds an event of a complete segment for each mark, with the microseconds since `began`.
    fn add_to(&self, events: &mut Vec<Event>, began: u64) -> Result<(), AllocError> {
        let count = self.count.load(Ordering::SeqCst) as usize;
        for time in self.times.iter().take(count) {
            let micros = time.load(Ordering::SeqCst).saturating_sub(began);
            events.push(Event {
                micros,
                what: Happened::SegmentComplete,
            })?;
        }
        Ok(())
    }

    // The starts of stages, in their order, one for each mark, with the microseconds since the
    // first.
    fn starts(&self, alloc: Global) -> Result<Vec<StageStart>, AllocError> {
        let began = self.first();
        let count = self.count.load(Ordering::SeqCst) as usize;
        let mut starts = Vec::new(alloc);
        for (stage, time) in self.times.iter().take(count).enumerate() {
            let micros = time.load(Ordering::SeqCst).saturating_sub(began);
            starts.push(StageStart {
                stage: stage as u64,
                micros,
            })?;
        }
        Ok(starts)
    }
}
