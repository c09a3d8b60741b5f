// Explanations of numbers.
ghost use Rattle.std.specs.Prelude.{◌≡◌};
ghost use Rattle.sq_explain.specs.Meanings.{Explains};
ghost use Rattle.squall.specs.Session.{explain_status, EndsAs};

use crate::session::{REFUSED, explain_write};
use sq_explain::explain;
use sq_text::WriteFault;
use std::cell::Cell;
use std::io::Write;

/// Writes what `number` means, what it is given to and what to do about it, or the same for all
/// numbers. Standard error reports a number that doesn't exist. Returns the exit status.
pub fn explanation<W: Write>(
    rt: &impl Eprint,
    writer: &mut W,
    number: Option<u16>,
    is_closed: &Cell<bool>,
) -> u8
    ensures { EndsAs (Explains number (W.contents writer.old)
        (W.contents writer.new)) explain_status result }
{
    let told = explain(writer, number).map_err(WriteFault::from);
    explain_told(rt, told, number, is_closed.get());
    explain_status(told)
}

// Writes to standard error that the number doesn't exist, or that a write failed, unless the output
// is closed.
fn explain_told(
    rt: &impl Eprint,
    told: Result<bool, WriteFault>,
    number: Option<u16>,
    is_closed: bool,
) {
    match told {
        Ok(is_told) => {
            if !is_told {
                refuse_number(rt, number);
            }
        }
        Err(fault) => explain_write(rt, fault, is_closed),
    }
}

// Writes to standard error that the number doesn't exist.
fn refuse_number(rt: &impl Eprint, number: Option<u16>) {
    if let Some(number) = number {
        let _ = eprintln!(rt;
            "squall: no fault, refusal or defect has the number {number} ('squall explain' tells all numbers)"
        );
    }
}

// The exit status after numbers were explained: 0, or 2 if the number doesn't exist or a write
// failed.
fn explain_status(told: Result<bool, WriteFault>) -> u8
    ensures { result ≡ explain_status told }
{
    match told {
        Ok(true) => 0,
        _ => REFUSED,
    }
}
