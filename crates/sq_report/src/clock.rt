// The time that a run takes.
use std::sync::atomic::{AtomicU64, Ordering};
use std::time::{Clock, Instant};

/// A stopwatch, which measures the time since it was started.
#[derive(Drop)]
pub struct Stopwatch<'a, C> {
    clock: &'a C,
    /// When it was started; `None` if the clock couldn't be read.
    start: Option<Instant>,
}

impl<'a, C: Clock> Stopwatch<'a, C> {
    /// A stopwatch that starts now.
    pub fn start(clock: &'a C) -> Stopwatch<'a, C> {
        Stopwatch {
            clock,
            start: Instant::now(clock).ok(),
        }
    }

    /// The microseconds since it was started; 0 if the clock can't be read.
    pub fn micros(&self) -> u64 {
        match (self.start, Instant::now(self.clock)) {
            (Some(start), Ok(now)) => {
                let micros = now.duration_since(start).as_micros();
                micros.min(u128::from(u64::MAX)) as u64
            }
            _ => 0,
        }
    }
}

// Stands for the beginning of a span that isn't running.
const STOPPED: u64 = u64::MAX;

/// Adds up the time between each beginning and the end that follows.
#[derive(Drop)]
pub(crate) struct Elapsed {
    began: AtomicU64,
    total: AtomicU64,
}

impl Elapsed {
    /// A total of 0, with no span running.
    pub(crate) fn new() -> Elapsed {
        Elapsed {
            began: AtomicU64::new(STOPPED),
            total: AtomicU64::new(0),
        }
    }

    /// Begins a span at `micros`.
    pub(crate) fn begin(&self, micros: u64) {
        self.began.store(micros, Ordering::SeqCst);
    }

    /// Ends the span at `micros`, if one is running.
    pub(crate) fn end(&self, micros: u64) {
        let began = self.began.swap(STOPPED, Ordering::SeqCst);
        self.total
            .fetch_add(micros.saturating_sub(began), Ordering::SeqCst);
    }

    /// The total, in microseconds.
    pub(crate) fn total(&self) -> u64 {
        self.total.load(Ordering::SeqCst)
    }
}
