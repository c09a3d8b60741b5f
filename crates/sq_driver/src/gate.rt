// What a worker asks before each of its steps, and what it reports of them.
use std::sync::Wait;
use std::sync::atomic::AtomicU64;
use std::thread;
use std::time::Duration;

// The number of tries during which a waiting thread only yields; after more, it sleeps.
const TRIES_AWAKE: u64 = 256;

// How long a worker without work sleeps, in microseconds.
const SLEEP: u64 = 50;

/// What a worker asks its gate for: a step, or whether it continues after a receipt.
#[derive(Clone, Copy, Debug, PartialEq, Eq)]
pub enum NodeStep {
    /// A node takes a job, and submits it.
    Job,
    /// A node takes a request, and begins the tree node that it names.
    Request,
    /// A node cuts a chunk.
    Cut,
    /// A node sends a chunk.
    Send,
    /// A node receives a chunk.
    Recv,
    /// A node loads a chunk.
    Load,
    /// A node completes a tree node whose last chunk was loaded.
    Complete,
    /// A node resumes a waiting transaction.
    Resume,
    /// A pump takes a turn.
    Pump,
    /// A node continues after a step in which it wrote a receipt.
    Answered,
}

/// What a worker reports of a step that did something.
#[derive(Clone, Copy, Debug, PartialEq, Eq)]
pub enum WorkerEvent {
    /// A node wrote a receipt in this step.
    Answered(NodeStep),
    /// A node took a job, which now waits for rows.
    Waits {
        /// The id of the job.
        id: u64,
    },
    /// A segment is complete: the partition that it moves to has completed the last of its tree
    /// nodes.
    SegmentComplete,
    /// A node loaded a chunk.
    Loaded {
        /// How many families the chunk had, and how many bytes they have.
        families: u64,
        bytes: u64,
    },
    /// The worker performed this step, in which it did none of these.
    Made(NodeStep),
}

/// Decides whether the workers of a run continue, and is told what they did. All of them share it.
///
/// A worker has a number, `who`: that of a node is its partition's, `p`, and that of pump `u` of a
/// run of `P` partitions is `P + u`.
pub trait Gate: Sync {
    /// Returns true if worker `who` may perform `step`; otherwise the worker ends. It is called
    /// before each step, and with [`NodeStep::Answered`] after each receipt, once the teller of the
    /// node has it and [`Gate::did`] was called. If the answer to `Answered` is false, the worker
    /// ends after the step that wrote the receipt, which stays written. A call may delay the
    /// worker, and has to return.
    fn pass(&self, who: u64, step: NodeStep) -> bool;

    /// Called after each step in which worker `who` did something, in its thread. A gate that ends
    /// the worker for it does so at the next call of [`Gate::pass`].
    fn did(&self, _who: u64, _event: WorkerEvent) {}

    /// Returns true, the default, if pump `who` may claim now; otherwise it rests, and asks again in
    /// its next turn. It is called in each turn of a pump that may take it.
    fn lets_claim(&self, _who: u64) -> bool {
        true
    }

    /// Called after a turn in which worker `who` found no work; `turns` is how many such turns it
    /// has taken in a row. A call may delay the worker. By default it yields to other threads, and
    /// after 256 turns it sleeps for 50 microseconds. It isn't called after a turn that lacked
    /// memory, or while another worker has no thread yet.
    fn rests<R: Wait>(&self, rt: &R, _who: u64, turns: u64) {
        rest(rt, turns, SLEEP);
    }

    /// Returns true, the default, if a node ends once it is idle. Otherwise it continues until it
    /// may not pass, since more work may arrive. It is called after each turn of a node. A pump
    /// that is done ends in any case.
    fn ends_idle(&self) -> bool {
        true
    }
}

/// A gate, as the worker in one thread calls it. It isn't `Sync`: the checker covers no method of a
/// trait that calls a function with a bound that has `Sync` among its supertraits.
pub(crate) trait OwnGate {
    /// [`Gate::pass`].
    fn lets_pass(&self, who: u64, step: NodeStep) -> bool;

    /// [`Gate::did`].
    fn hears(&self, who: u64, event: WorkerEvent);

    /// [`Gate::lets_claim`].
    fn lets_pump_claim(&self, who: u64) -> bool;

    /// [`Gate::rests`].
    fn lets_rest<R: Wait>(&self, rt: &R, who: u64, turns: u64);

    /// [`Gate::ends_idle`].
    fn ends_when_idle(&self) -> bool;
}

impl<G: Gate> OwnGate for G {
    fn lets_pass(&self, who: u64, step: NodeStep) -> bool {
        self.pass(who, step)
    }

    fn hears(&self, who: u64, event: WorkerEvent) {
        self.did(who, event);
    }

    fn lets_pump_claim(&self, who: u64) -> bool {
        self.lets_claim(who)
    }

    fn lets_rest<R: Wait>(&self, rt: &R, who: u64, turns: u64) {
        self.rests(rt, who, turns);
    }

    fn ends_when_idle(&self) -> bool {
        self.ends_idle()
    }
}

/// A gate that lets each worker pass.
#[derive(Clone, Copy, Debug)]
pub struct OpenGate;

impl Gate for OpenGate {
    fn pass(&self, _who: u64, _step: NodeStep) -> bool {
        true
    }
}

/// Yields to other threads after each of the first 256 tries in a row that found nothing. After
/// each further one it sleeps for `tries` microseconds, but no longer than `longest`.
pub fn rest<R: Wait>(rt: &R, tries: u64, longest: u64) {
    if tries <= TRIES_AWAKE {
        thread::yield_now();
    } else {
        AtomicU64::new(0).park_timeout(rt, 0, Duration::from_micros(tries.min(longest)));
    }
}
