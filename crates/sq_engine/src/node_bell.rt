// How a node sleeps while nothing moves, and what wakes it.
use crate::back_off::BackOff;
use std::sync::Wait;
use std::sync::atomic::{AtomicU64, Ordering};
use std::time::Duration;

// How many turns in a row without work a node takes before it sleeps. They take about a
// millisecond.
const TURNS_AWAKE: u64 = 272;

// The longest sleep of a node before it looks for work by itself, in milliseconds.
const LONGEST_SLEEP: u64 = 50;

const AWAKE: u64 = 0;

const ASLEEP: u64 = 1;

/// The bell that wakes one node. A node that finds no work marks itself as asleep, and takes one
/// more turn before it sleeps. A thread that gives it work looks at the mark afterwards: either the
/// turn finds the work, or the thread sees the mark.
#[derive(Drop)]
pub(crate) struct NodeBell {
    state: AtomicU64,
}

impl NodeBell {
    pub(crate) fn new() -> NodeBell {
        NodeBell {
            state: AtomicU64::new(AWAKE),
        }
    }

    /// Delays the node, after `turns` turns in a row without work.
    pub(crate) fn wait<R: Wait>(&self, rt: &R, turns: u64) {
        if turns <= TURNS_AWAKE {
            BackOff::SHORT.wait_after(rt, turns);
        } else if self.state.load(Ordering::SeqCst) == ASLEEP {
            let longest = Duration::from_millis(LONGEST_SLEEP);
            self.state.park_timeout(rt, ASLEEP as u32, longest);
        } else {
            self.state.store(ASLEEP, Ordering::SeqCst);
        }
    }

    /// Wakes the node if it sleeps or is about to.
    pub(crate) fn ring(&self) {
        if self.state.load(Ordering::SeqCst) == ASLEEP {
            self.state.store(AWAKE, Ordering::SeqCst);
            self.state.wake_one();
        }
    }
}
