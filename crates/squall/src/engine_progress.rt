// The progress of an engine, shown meanwhile.
use crate::progress::BLANK;
use sq_report::EngineFigures;
use std::sync::atomic::{AtomicBool, AtomicU64, Ordering};

// The shortest time between two updates of the line, in microseconds.
const PAUSE: u64 = 100_000;

/// Shows on standard error how many jobs are answered and open, and how far a move is: on one line,
/// which is rewritten ten times a second at most.
#[derive(Drop)]
pub struct EngineProgress<'a, E> {
    to: &'a E,
    is_shown: bool,
    // The time of the next update, in microseconds.
    due: AtomicU64,
    // Whether the line is written, and not removed since.
    is_written: AtomicBool,
}

impl<'a, E: Eprint> EngineProgress<'a, E> {
    /// The progress of an engine that hasn't begun, which is written only if `is_shown` is set.
    pub fn new(to: &'a E, is_shown: bool) -> EngineProgress<'a, E> {
        EngineProgress {
            to,
            is_shown,
            due: AtomicU64::new(0),
            is_written: AtomicBool::new(false),
        }
    }

    /// Returns whether the line is to be updated at `micros`.
    pub fn is_due(&self, micros: u64) -> bool {
        self.is_shown && micros >= self.due.load(Ordering::SeqCst)
    }

    /// Writes the line of `figures`, made at `micros`.
    pub fn say(&self, figures: &EngineFigures, micros: u64) {
        self.due
            .store(micros.saturating_add(PAUSE), Ordering::SeqCst);
        self.is_written.store(true, Ordering::SeqCst);
        let answered = figures.committed.saturating_add(figures.aborted);
        let open = figures.open;
        let _ = eprint!(self.to; "{BLANK}{answered} jobs answered, {open} open");
        if let Some(moving) = figures.moving {
            let (segments, complete) = (moving.all.segments, moving.all.complete);
            let families = moving.families;
            let _ = eprint!(self.to;
                ", {families} families moved, {complete} of {segments} segments"
            );
        }
    }

    /// Removes the line, if it is written. Call it before standard error gets other lines.
    pub fn clear(&self) {
        if self.is_written.swap(false, Ordering::SeqCst) {
            let _ = eprint!(self.to; "{BLANK}");
        }
    }
}
