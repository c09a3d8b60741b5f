// Outputs that may be pipes.
ghost use Rattle.std.specs.Prelude.{◌≡◌};
ghost use Rattle.sq_outputs.specs.Pipes.{piped_contents};

use std::cell::Cell;
use std::io;
use std::io::{ErrorKind, Write};

/// A writer that may be a pipe, and notes when its reader has closed it.
#[derive(Drop)]
pub struct PipeEnd<'a, W: Write> {
    inner: W,
    // Whether its reader has closed it, for anybody who asks.
    is_closed: &'a Cell<bool>,
}

impl<'a, W: Write> PipeEnd<'a, W> {
    /// A writer over `inner`. `is_closed` becomes true once a call fails because the reader has
    /// closed the pipe.
    pub fn new(inner: W, is_closed: &'a Cell<bool>) -> PipeEnd<'a, W>
        ensures { piped_contents W.contents result ≡ W.contents inner }
    {
        PipeEnd { inner, is_closed }
    }

    // Notes why a call failed.
    fn note(&self, error: &io::Error) {
        if error.kind() == ErrorKind::BrokenPipe {
            self.is_closed.set(true);
        }
    }
}

impl<W: Write> Write for PipeEnd<'_, W> {
    ghost contents = { piped_contents W.contents };

    fn write(&mut self, buf: &[u8]) -> io::Result<usize> {
        let written = self.inner.write(buf);
        if let Err(error) = &written {
            self.note(error);
        }
        written
    }

    fn flush(&mut self) -> io::Result<()> {
        let flushed = self.inner.flush();
        if let Err(error) = &flushed {
            self.note(error);
        }
        flushed
    }
}
