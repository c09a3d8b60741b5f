// Messages about a command line that isn't carried out.
ghost use Rattle.clap.specs.Values.{kind_of};
ghost use Rattle.squall.specs.Session.{IsUsageStatus};

use crate::session::{REFUSED, explain_write};
use clap::Error;
use sq_text::WriteFault;
use std::io::ErrorKind;

/// Prints `clap`'s message about a command line: a requested help text to standard output, anything
/// else to standard error. Returns the exit status: 0 after a help text that was printed; else 2.
/// If the message can't be printed, standard error reports that, unless its reader has closed the
/// output.
pub fn print_usage<R: Print + Eprint + AllocGlobal>(rt: &R, error: &Error) -> u8
    ensures { IsUsageStatus (kind_of error.now) result }
{
    match error.print(rt) {
        Ok(()) if !error.use_stderr() => 0,
        Ok(()) => REFUSED,
        Err(failed) => {
            let is_closed = failed.kind() == ErrorKind::BrokenPipe;
            explain_write(rt, WriteFault, is_closed);
            REFUSED
        }
    }
}
