// Writes of bytes, and the fault of a failed one.
ghost use Rattle.std.specs.Prelude.{◌≡◌, OnOk};
ghost use Rattle.std.specs.Io.KnownBytes.{Appends};

use sq_explain::meaning;
use std::io;
use std::io::Write;
use thiserror::Error;

/// A write failed. How many bytes were written isn't known.
#[derive(Clone, Copy, Debug, PartialEq, Eq, Error)]
#[error("{}", meaning(self.number()))]
pub struct WriteFault;

impl WriteFault {
    /// Returns the number that a user sees, 124.
    pub fn number(self) -> u16
        ensures { result ≡ 124 }
    {
        124
    }
}

impl From<io::Error> for WriteFault {
    fn from(_error: io::Error) -> WriteFault {
        WriteFault
    }
}

/// Writes all of `bytes`. Fails if a write fails.
#[inline(always)]
pub(crate) fn write_bytes<W: Write>(writer: &mut W, bytes: &[u8]) -> Result<(), WriteFault>
    ensures { OnOk result (Appends (W.contents writer.old) (W.contents writer.new) bytes.now) }
{
    writer.write_all(bytes)?;
    Ok(())
}
