// Values of calls, and lines of output.
ghost use Rattle.std.specs.Prelude.{◌≡◌, Ok, IfOk};

use crate::unfinished::Unfinished;
use std::io;
use std::io::Write;

/// Returns the value of a call that isn't refused.
pub fn value_of<T, E: Drop>(outcome: Result<T, E>) -> Result<T, Unfinished>
    ensures { IfOk result (λ value. outcome ≡ Ok value) }
{
    match outcome {
        Ok(value) => Ok(value),
        Err(_) => Err(Unfinished::Refused),
    }
}

/// Writes a line. If that fails, the line is missing, and the output is judged to be wrong.
pub fn say<W: Write>(writer: &mut W, line: &str) {
    drop(writeln!(writer, "{line}"));
}

pub fn print_line<R: Print>(rt: &R, line: &str) {
    drop(rt.println(line));
}

/// Prints that there was no memory for `call`.
pub fn print_refused<R: Print>(rt: &R, call: &str) {
    drop(println!(rt; "refused {call}"));
}

pub fn print_text<R: Print>(rt: &R, text: &[u8]) {
    drop(io::writer(rt).write_all(text));
}
