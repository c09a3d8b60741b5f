// How long a thread waits that found no work.
use sq_driver::rest;
use std::sync::Wait;

/// The waits of a thread that finds no work again and again. It yields to other threads at first,
/// and then sleeps, longer each time up to a limit.
#[derive(Clone, Copy, Debug)]
pub struct BackOff {
    // How many tries in a row found no work.
    tries: u64,
    // How many tries each one counts as.
    step: u64,
    // The longest sleep, in microseconds.
    longest: u64,
}

impl BackOff {
    /// Sleeps of at most 50 microseconds: while rows move or jobs are open.
    pub const SHORT: BackOff = BackOff {
        tries: 0,
        step: 1,
        longest: 50,
    };

    /// Sleeps of at most two milliseconds: while nothing is under way.
    pub const LONG: BackOff = BackOff {
        tries: 0,
        step: 1,
        longest: 2_000,
    };

    /// Sleeps of at most ten milliseconds, which are as long soon.
    pub(crate) const STEEP: BackOff = BackOff {
        tries: 0,
        step: 25,
        longest: 10_000,
    };

    /// Waits after a try that found no work.
    pub fn wait<R: Wait>(&mut self, rt: &R) {
        self.count();
        self.wait_after(rt, self.tries);
    }

    /// Waits as after `tries` tries in a row that found no work.
    pub fn wait_after<R: Wait>(self, rt: &R, tries: u64) {
        rest(rt, tries.saturating_mul(self.step), self.longest);
    }

    /// Counts a try that found no work, and returns how many there were in a row.
    pub fn count(&mut self) -> u64 {
        self.tries = self.tries.saturating_add(1);
        self.tries
    }

    /// Begins anew, after a try that found work.
    pub fn reset(&mut self) {
        self.tries = 0;
    }
}
