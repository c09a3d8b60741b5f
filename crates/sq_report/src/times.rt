// How long the parts of a run took.
use std::io;
use std::io::Write;

/// How long the parts of a run took, in microseconds.
#[derive(Clone, Copy, Debug, PartialEq, Eq)]
pub struct Times {
    /// Until its input was read.
    pub reading: u64,
    /// While its threads ran, in all stages.
    pub threads: u64,
    /// While what a stage left was audited, folded, and prepared for the next one, in all stages.
    pub audits: u64,
}

/// Writes a line with `times` in milliseconds, with three decimals. Fails if the writer does.
pub fn write_times<W: Write>(writer: &mut W, times: Times) -> io::Result<()> {
    write_time(writer, "milliseconds: reading ", times.reading)?;
    write_time(writer, ", threads ", times.threads)?;
    write_time(writer, ", audits ", times.audits)?;
    writer.write_all(b"\n")
}

// Writes `front`, and then `micros` in milliseconds.
fn write_time<W: Write>(writer: &mut W, front: &str, micros: u64) -> io::Result<()> {
    let millis = micros / 1000;
    let rest = micros % 1000;
    write!(writer, "{front}{millis}.{rest:03}")
}
