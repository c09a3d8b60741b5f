// Gates that record what they are asked and hear, that end a worker, and that keep one until others run beside it.
use sq_driver::{Gate, NodeStep, WorkerEvent};
use sq_live::Watch;
use std::alloc::Global;
use std::sync::Wait;
use std::sync::atomic::{AtomicBool, AtomicU64, Ordering};
use std::test::Fail;
use std::thread;

// The digit of a step in the number of what was asked.
fn digit(step: NodeStep) -> u64 {
    match step {
        NodeStep::Job => 1,
        NodeStep::Request => 2,
        NodeStep::Cut => 3,
        NodeStep::Send => 4,
        NodeStep::Recv => 5,
        NodeStep::Load => 6,
        NodeStep::Complete => 7,
        NodeStep::Resume => 8,
        NodeStep::Pump => 9,
        NodeStep::Answered => 10,
    }
}

// The digit of a segment that is complete.
const SEGMENT: u64 = 11;

/// The number of the first pump of a run of two partitions.
pub const FIRST_PUMP: u64 = 2;

/// At what a recorder ends its worker.
#[derive(Clone, Copy, PartialEq, Eq)]
pub enum RecorderEnd {
    /// Each time that it asks for this step.
    Asked(NodeStep),
    /// Once it has written a receipt. Only the first answer is refused.
    Answered,
}

/// Records what one worker asks and reports: a hexadecimal digit for each step, each receipt and each segment, the
/// latest last. It may end the worker.
#[derive(Drop)]
pub struct Recorder {
    who: AtomicU64,
    heard: AtomicU64,
    end: Option<RecorderEnd>,
    answered: AtomicBool,
}

impl Recorder {
    /// It ends the worker at `end`.
    pub fn new(end: Option<RecorderEnd>) -> Recorder {
        Recorder {
            who: AtomicU64::new(99),
            heard: AtomicU64::new(0),
            end,
            answered: AtomicBool::new(false),
        }
    }

    /// Which worker asked last, and what was asked and said.
    pub fn told(&self) -> (u64, u64) {
        (
            self.who.load(Ordering::SeqCst),
            self.heard.load(Ordering::SeqCst),
        )
    }

    fn hear(&self, who: u64, digit: u64) {
        self.who.store(who, Ordering::SeqCst);
        let heard = self.heard.load(Ordering::SeqCst);
        self.heard.store(heard << 4 | digit, Ordering::SeqCst);
    }
}

impl Gate for Recorder {
    fn pass(&self, who: u64, step: NodeStep) -> bool {
        self.hear(who, digit(step));
        match self.end {
            Some(RecorderEnd::Asked(end)) => step != end,
            Some(RecorderEnd::Answered) if step == NodeStep::Answered => {
                self.answered.swap(true, Ordering::SeqCst)
            }
            Some(RecorderEnd::Answered) | None => true,
        }
    }

    fn did(&self, who: u64, event: WorkerEvent) {
        if event == WorkerEvent::SegmentComplete {
            self.hear(who, SEGMENT);
        }
    }
}

impl Watch for Recorder {}

/// Holds each worker at its first step until all have reached it. A worker that waits too long
/// gives up, which `missed` counts.
#[derive(Drop)]
pub struct Meeting {
    came: Vec<AtomicBool>,
    count: AtomicU64,
    missed: AtomicU64,
}

const LOOKS: u32 = 20_000_000;

impl Meeting {
    /// Gates of this many nodes and pumps.
    pub fn new(alloc: Global, nodes: u8, pumps: u8) -> Result<Meeting, Fail> {
        let mut came = Vec::new(alloc);
        for _worker in 0..u64::from(nodes) + u64::from(pumps) {
            came.push(AtomicBool::new(false))?;
        }
        Ok(Meeting {
            came,
            count: AtomicU64::new(0),
            missed: AtomicU64::new(0),
        })
    }

    /// Returns true if all workers reached the gate, and none gave up waiting for the others.
    pub fn was_full(&self) -> bool {
        self.count.load(Ordering::SeqCst) == self.came.len() as u64
            && self.missed.load(Ordering::SeqCst) == 0
    }
}

impl Gate for Meeting {
    fn pass(&self, who: u64, _step: NodeStep) -> bool {
        let Some(came) = self.came.get(who as usize) else {
            return false;
        };
        if !came.swap(true, Ordering::SeqCst) {
            self.count.fetch_add(1, Ordering::SeqCst);
        }
        for _look in 0..LOOKS {
            if self.count.load(Ordering::SeqCst) == self.came.len() as u64 {
                return true;
            }
            thread::yield_now();
        }
        self.missed.fetch_add(1, Ordering::SeqCst);
        false
    }
}

impl Watch for Meeting {}

/// Keeps one partition at its first job until another has answered one.
#[derive(Drop)]
pub struct After {
    kept: u64,
    other: u64,
    answered: AtomicBool,
}

impl After {
    /// Keeps partition `kept` until `other` has answered one.
    pub fn new(kept: u64, other: u64) -> After {
        After {
            kept,
            other,
            answered: AtomicBool::new(false),
        }
    }
}

impl Gate for After {
    fn pass(&self, who: u64, step: NodeStep) -> bool {
        if who == self.other && step == NodeStep::Answered {
            self.answered.store(true, Ordering::SeqCst);
        }
        if who != self.kept || step != NodeStep::Job {
            return true;
        }
        for _look in 0..200_000_000 {
            if self.answered.load(Ordering::SeqCst) {
                return true;
            }
        }
        false
    }
}

impl Watch for After {}

/// Ends each worker once so many segments are complete.
#[derive(Drop)]
pub struct Enough {
    segments: u64,
    complete: AtomicU64,
}

impl Enough {
    /// Ends them once this many are.
    pub fn new(segments: u64) -> Enough {
        Enough {
            segments,
            complete: AtomicU64::new(0),
        }
    }
}

impl Gate for Enough {
    fn pass(&self, _who: u64, _step: NodeStep) -> bool {
        self.complete.load(Ordering::SeqCst) < self.segments
    }

    fn did(&self, _who: u64, event: WorkerEvent) {
        if event == WorkerEvent::SegmentComplete {
            self.complete.fetch_add(1, Ordering::SeqCst);
        }
    }
}

impl Watch for Enough {}

/// Counts what it hears of a live run: the jobs and the segments at its beginning, and those that are done.
#[derive(Drop)]
pub struct Counter {
    jobs: AtomicU64,
    segments: AtomicU64,
    answered: AtomicU64,
    complete: AtomicU64,
    runs: AtomicBool,
    ends: AtomicU64,
    asked_beside: AtomicBool,
}

impl Counter {
    /// The counts of a run that hasn't begun.
    pub fn new() -> Counter {
        Counter {
            jobs: AtomicU64::new(0),
            segments: AtomicU64::new(0),
            answered: AtomicU64::new(0),
            complete: AtomicU64::new(0),
            runs: AtomicBool::new(false),
            ends: AtomicU64::new(0),
            asked_beside: AtomicBool::new(false),
        }
    }

    /// How many jobs there are, and how many are answered.
    pub fn jobs(&self) -> (u64, u64) {
        (
            self.jobs.load(Ordering::SeqCst),
            self.answered.load(Ordering::SeqCst),
        )
    }

    /// How many segments there are, and how many are complete.
    pub fn segments(&self) -> (u64, u64) {
        (
            self.segments.load(Ordering::SeqCst),
            self.complete.load(Ordering::SeqCst),
        )
    }

    /// Whether the run has ended, once, and no worker asked before it began or after it ended.
    pub fn has_ended(&self) -> bool {
        self.ends.load(Ordering::SeqCst) == 1 && !self.asked_beside.load(Ordering::SeqCst)
    }
}

impl Gate for Counter {
    fn pass(&self, _who: u64, _step: NodeStep) -> bool {
        if !self.runs.load(Ordering::SeqCst) {
            self.asked_beside.store(true, Ordering::SeqCst);
        }
        true
    }

    fn did(&self, _who: u64, event: WorkerEvent) {
        match event {
            WorkerEvent::Answered(_) => {
                self.answered.fetch_add(1, Ordering::SeqCst);
            }
            WorkerEvent::SegmentComplete => {
                self.complete.fetch_add(1, Ordering::SeqCst);
            }
            WorkerEvent::Loaded { .. } | WorkerEvent::Waits { .. } | WorkerEvent::Made(_) => {}
        }
    }
}

impl Watch for Counter {
    fn begins(&self, jobs: u64, segments: u64) {
        self.jobs.store(jobs, Ordering::SeqCst);
        self.segments.store(segments, Ordering::SeqCst);
        self.runs.store(true, Ordering::SeqCst);
    }

    fn ends(&self) {
        self.runs.store(false, Ordering::SeqCst);
        self.ends.fetch_add(1, Ordering::SeqCst);
    }
}

/// Lets a node that is idle continue, and ends it once it has rested so many times in a row.
#[derive(Drop)]
pub struct Lasting {
    turns: u64,
    rested: AtomicU64,
}

impl Lasting {
    /// Ends it after so many.
    pub fn new(turns: u64) -> Lasting {
        Lasting {
            turns,
            rested: AtomicU64::new(0),
        }
    }

    /// How many turns it rested in a row, the last time.
    pub fn rested(&self) -> u64 {
        self.rested.load(Ordering::SeqCst)
    }
}

impl Gate for Lasting {
    fn pass(&self, _who: u64, _step: NodeStep) -> bool {
        self.rested() < self.turns
    }

    fn rests<R: Wait>(&self, _rt: &R, _who: u64, turns: u64) {
        self.rested.store(turns, Ordering::SeqCst);
    }

    fn ends_idle(&self) -> bool {
        false
    }
}
