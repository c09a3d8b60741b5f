// When an epoch that serves a client ends.
ghost use Rattle.std.specs.Prelude.{◌≡◌, ◌≤◌, IfOk};

use crate::back_off::BackOff;
use crate::node_bell::NodeBell;
use crate::nodes_here::NodesHere;
use crate::stage_progress::StageProgress;
use sq_driver::{Gate, NodeStep, WorkerEvent, WorkersEnd};
use sq_plan::PartId;
use std::alloc::{AllocError, Global};
use std::sync::Wait;
use std::sync::atomic::{AtomicBool, AtomicU64, Ordering};

/// The gate of an epoch that serves a client: it lets each worker pass until the epoch ends. The
/// epoch ends if its client asks for it, each segment of its stage is complete, a receipt arrives
/// that is no open job's, or a node gets no thread. While nothing moves, a node without work sleeps
/// until a job arrives for it. The first pumps claim, as many as the client says.
#[derive(Drop)]
pub(crate) struct EpochGate {
    is_over: AtomicBool,
    have_ended: AtomicBool,
    lack_threads: AtomicBool,
    lack_memory: AtomicBool,
    nodes: NodesHere,
    bells: Vec<NodeBell>,
    claiming_pumps: AtomicU64,
    pub(crate) segments: u64,
    complete: AtomicU64,
    moved: AtomicU64,
    moved_bytes: AtomicU64,
}

impl EpochGate {
    /// Returns the gate of an epoch of `parts` partitions whose stage has come as far as
    /// `progress`, and whose workers haven't started; the first `claiming_pumps` pumps claim. If the
    /// stage is done, the epoch is over.
    pub(crate) fn new(
        alloc: Global,
        parts: u8,
        progress: StageProgress,
        claiming_pumps: u64,
    ) -> Result<EpochGate, AllocError>
        ensures { IfOk result (λ gate. gate.segments ≡ progress.segments) }
    {
        let bells = bells_of(alloc, parts)?;
        Ok(EpochGate {
            is_over: AtomicBool::new(progress.is_done()),
            have_ended: AtomicBool::new(false),
            lack_threads: AtomicBool::new(false),
            lack_memory: AtomicBool::new(false),
            nodes: NodesHere::new(parts),
            bells,
            claiming_pumps: AtomicU64::new(claiming_pumps),
            segments: progress.segments,
            complete: AtomicU64::new(progress.complete),
            moved: AtomicU64::new(progress.moved),
            moved_bytes: AtomicU64::new(progress.moved_bytes),
        })
    }

    /// Ends the epoch: no worker performs another step.
    pub(crate) fn end(&self) {
        self.is_over.store(true, Ordering::SeqCst);
        self.wake_all();
    }

    /// Returns true if the epoch is over.
    pub(crate) fn is_over(&self) -> bool {
        self.is_over.load(Ordering::SeqCst)
    }

    /// Records how the workers have ended.
    pub(crate) fn workers_end(&self, end: WorkersEnd) {
        match end {
            WorkersEnd::Done => {}
            WorkersEnd::LacksThreads => self.lack_threads.store(true, Ordering::SeqCst),
            WorkersEnd::LacksMemory => self.lack_memory.store(true, Ordering::SeqCst),
        }
        self.have_ended.store(true, Ordering::SeqCst);
    }

    /// Returns true if the workers have ended.
    pub(crate) fn have_ended(&self) -> bool {
        self.have_ended.load(Ordering::SeqCst)
    }

    /// Returns true if the workers have ended because one of them had no thread.
    pub(crate) fn workers_lack_threads(&self) -> bool {
        self.lack_threads.load(Ordering::SeqCst)
    }

    /// Returns true if the workers have ended because one of them lacked memory for too long.
    pub(crate) fn workers_lack_memory(&self) -> bool {
        self.lack_memory.load(Ordering::SeqCst)
    }

    /// Returns true if each node has called [`Gate::pass`], and so has a thread.
    pub(crate) fn have_all_come(&self) -> bool {
        self.nodes.are_all_here()
    }

    /// Returns true if some node has called [`Gate::pass`], so that the workers run beside this
    /// thread.
    pub(crate) fn has_one_come(&self) -> bool {
        self.nodes.is_one_here()
    }

    /// Wakes the node of partition `part`, if it sleeps. Call it after posting a job to `part`.
    pub(crate) fn wake(&self, part: PartId) {
        if let Some(bell) = self.bells.get(usize::from(part.number())) {
            bell.ring();
        }
    }

    // Wakes each node that sleeps.
    fn wake_all(&self) {
        for bell in &self.bells {
            bell.ring();
        }
    }

    /// Lets only the first `count` pumps claim from now on.
    pub(crate) fn let_claim(&self, count: u64) {
        self.claiming_pumps.store(count, Ordering::SeqCst);
    }

    /// Returns true if nothing moves in the stage.
    pub(crate) fn is_rest(&self) -> bool {
        self.segments == 0
    }

    /// Returns the progress of the stage.
    pub(crate) fn progress(&self) -> StageProgress
        ensures segments { result.segments ≡ self.now.segments }
        ensures complete { result.complete ≤ result.segments }
    {
        StageProgress {
            segments: self.segments,
            complete: self.complete.load(Ordering::SeqCst).min(self.segments),
            moved: self.moved.load(Ordering::SeqCst),
            moved_bytes: self.moved_bytes.load(Ordering::SeqCst),
        }
    }
}

impl Gate for EpochGate {
    fn pass(&self, who: u64, _step: NodeStep) -> bool {
        self.nodes.note(who);
        !self.is_over()
    }

    fn did(&self, _who: u64, event: WorkerEvent) {
        match event {
            WorkerEvent::Answered(_) => {}
            WorkerEvent::SegmentComplete => {
                self.complete.fetch_add(1, Ordering::SeqCst);
                if self.progress().is_done() {
                    self.end();
                }
            }
            WorkerEvent::Loaded { families, bytes } => {
                self.moved.fetch_add(families, Ordering::SeqCst);
                self.moved_bytes.fetch_add(bytes, Ordering::SeqCst);
            }
            WorkerEvent::Waits { .. } | WorkerEvent::Made(_) => {
                if self.is_rest() {
                    self.wake_all();
                }
            }
        }
    }

    fn lets_claim(&self, who: u64) -> bool {
        let pump = who.saturating_sub(self.bells.len() as u64);
        pump < self.claiming_pumps.load(Ordering::SeqCst)
    }

    fn rests<R: Wait>(&self, rt: &R, who: u64, turns: u64) {
        match self.bells.get(who as usize) {
            Some(bell) if self.is_rest() => bell.wait(rt, turns),
            _ => BackOff::SHORT.wait_after(rt, turns),
        }
    }

    fn ends_idle(&self) -> bool {
        false
    }
}

// Returns a bell for each of `parts` nodes.
fn bells_of(alloc: Global, parts: u8) -> Result<Vec<NodeBell>, AllocError> {
    let mut bells = Vec::with_capacity(alloc, usize::from(parts))?;
    for _part in 0..parts {
        bells.push(NodeBell::new())?;
    }
    Ok(bells)
}
