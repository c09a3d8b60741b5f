// A bell by which a reader wakes an engine at rest.
use std::sync::Wait;
use std::thread::Parker;
use std::time::Duration;

/// A bell that a reader rings for an engine that waits for lines.
#[derive(Drop)]
pub struct Bell {
    parker: Parker,
}

impl Bell {
    /// A bell that hasn't been rung.
    pub fn new() -> Bell {
        Bell {
            parker: Parker::new(),
        }
    }

    /// Wakes the thread that waits for the bell, or lets its next wait return at once.
    pub fn ring(&self) {
        self.parker.unpark();
    }

    /// Sleeps until the bell rings, at most `longest` microseconds; not at all if it rang since the
    /// last wait.
    pub fn wait<R: Wait>(&self, rt: &R, longest: u64) {
        self.parker.park_timeout(rt, Duration::from_micros(longest));
    }
}

impl Default for Bell {
    fn default() -> Bell {
        Bell::new()
    }
}
