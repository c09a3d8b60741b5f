// The file of an engine's figures, which is written each second.
use crate::outputs::explain_unwritten;
use sq_outputs::{NewFile, SystemFolder, file_to_write, save};
use sq_report::{EngineFigures, write_metrics};
use std::io;
use std::rt::Files;
use std::sync::atomic::{AtomicBool, AtomicU64, Ordering};

// The time between two writes, in microseconds.
const PAUSE: u64 = 1_000_000;

/// A file that gets the figures of an engine each second, as the text that Prometheus reads. Each
/// time it is written whole or not at all.
#[derive(Drop)]
pub struct MetricsFile<'a, T> {
    rt: &'a T,
    name: &'a str,
    // The time of the next write, in microseconds.
    due: AtomicU64,
    // Whether the last write failed.
    has_failed: AtomicBool,
}

impl<'a, T: Eprint + Files + AllocGlobal> MetricsFile<'a, T> {
    /// The file `name`, which is due at once.
    pub fn new(rt: &'a T, name: &'a str) -> MetricsFile<'a, T> {
        MetricsFile {
            rt,
            name,
            due: AtomicU64::new(0),
            has_failed: AtomicBool::new(false),
        }
    }

    /// Returns whether the file is to be written at `micros`.
    pub fn is_due(&self, micros: u64) -> bool {
        micros >= self.due.load(Ordering::SeqCst)
    }

    /// Writes `figures`, made at `micros`. If that fails, standard error gives the reason, once
    /// until a write succeeds. Returns whether they were written.
    pub fn write(&self, figures: &EngineFigures, micros: u64) -> bool {
        self.due
            .store(micros.saturating_add(PAUSE), Ordering::SeqCst);
        let saved = self.save(figures);
        let had_failed = self.has_failed.swap(saved.is_err(), Ordering::SeqCst);
        if let Err(error) = &saved {
            if !had_failed {
                explain_unwritten(self.rt, self.name, error);
            }
        }
        saved.is_ok()
    }

    // Saves figures in the file.
    fn save(&self, figures: &EngineFigures) -> io::Result<()> {
        let mut text = Vec::new(self.rt.alloc());
        write_metrics(&mut text, figures)?;
        let target = file_to_write(self.rt, self.name)?;
        let file = NewFile::new(self.rt.alloc(), target.as_str(), text.as_slice())?;
        match save(&mut SystemFolder::new(self.rt), &[file]) {
            Ok(()) => Ok(()),
            Err(unsaved) => Err(unsaved.error),
        }
    }
}
