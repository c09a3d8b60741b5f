// Which workers have a thread, and whether they give up.
use std::sync::atomic::{AtomicBool, AtomicU64, Ordering};

/// How workers that were driven in threads ended.
#[derive(Clone, Copy, Debug, PartialEq, Eq)]
pub enum WorkersEnd {
    /// Each of them took its turns, or ended earlier because it was done or its gate ended it.
    Done,
    /// One of them had no work for about 3 seconds while a node or all pumps had no thread. Then
    /// all gave up.
    LacksThreads,
    /// One of them lacked memory for about 3 seconds, and could do nothing meanwhile. Then all gave
    /// up.
    LacksMemory,
}

/// Which of the workers that are driven together have started, and whether they give up.
#[derive(Drop)]
pub(crate) struct Attendance {
    nodes: u64,
    nodes_come: AtomicU64,
    // One pump is enough: those without a thread of their own take their turns after it.
    has_pump: AtomicBool,
    lacks_threads: AtomicBool,
    lacks_memory: AtomicBool,
}

impl Attendance {
    /// Returns the attendance of `nodes` nodes and `pumps` pumps, none of which has started.
    pub(crate) fn new(nodes: usize, pumps: usize) -> Attendance {
        Attendance {
            nodes: nodes as u64,
            nodes_come: AtomicU64::new(0),
            has_pump: AtomicBool::new(pumps == 0),
            lacks_threads: AtomicBool::new(false),
            lacks_memory: AtomicBool::new(false),
        }
    }

    /// Returns the attendance of a single worker, which waits for no other.
    pub(crate) fn alone() -> Attendance {
        Attendance::new(0, 0)
    }

    /// Records that a node has started. Each does so once.
    pub(crate) fn note_node(&self) {
        self.nodes_come.fetch_add(1, Ordering::SeqCst);
    }

    /// Records that a pump has started.
    pub(crate) fn note_pump(&self) {
        self.has_pump.store(true, Ordering::SeqCst);
    }

    /// Returns true if each node has started, and a pump if there are any.
    pub(crate) fn is_whole(&self) -> bool {
        self.nodes_come.load(Ordering::SeqCst) >= self.nodes && self.has_pump.load(Ordering::SeqCst)
    }

    /// Makes all give up, because one of them has no thread.
    pub(crate) fn lack_threads(&self) {
        self.lacks_threads.store(true, Ordering::SeqCst);
    }

    /// Makes all give up, because one of them lacks memory.
    pub(crate) fn lack_memory(&self) {
        self.lacks_memory.store(true, Ordering::SeqCst);
    }

    /// Returns whether they give up, and why.
    pub(crate) fn end(&self) -> WorkersEnd {
        if self.lacks_threads.load(Ordering::SeqCst) {
            WorkersEnd::LacksThreads
        } else if self.lacks_memory.load(Ordering::SeqCst) {
            WorkersEnd::LacksMemory
        } else {
            WorkersEnd::Done
        }
    }
}
