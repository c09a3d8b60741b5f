// The figures of an engine as the text that Prometheus reads.
use crate::engine_figures::{EngineFigures, MoveFigures};
use crate::spread::Spread;
use std::io;
use std::io::Write;

/// Writes `figures` in the text format of Prometheus. A figure that isn't known has no line. Fails
/// if the writer does.
pub fn write_metrics<W: Write>(writer: &mut W, figures: &EngineFigures) -> io::Result<()> {
    let counts = [
        (
            "squall_jobs_committed_total",
            "Jobs committed",
            figures.committed,
        ),
        ("squall_jobs_aborted_total", "Jobs aborted", figures.aborted),
        ("squall_moves_total", "Moves that are done", figures.moves),
        (
            "squall_families_moved_total",
            "Families moved",
            figures.families,
        ),
        ("squall_bytes_moved_total", "Bytes moved", figures.bytes),
    ];
    for (name, help, count) in counts {
        write_metric(writer, name, help, "counter", count)?;
    }
    write_open(writer, &figures.open_at)?;
    write_waits(writer, figures.waits)?;
    write_move(writer, figures.moving)?;
    write_gauge(writer, "squall_pumps", "Pumps that claim", figures.pumps)?;
    if let Some(memory) = figures.memory {
        write_gauge(
            writer,
            "squall_memory_bytes",
            "Memory of the process",
            memory,
        )?;
    }
    write_head(
        writer,
        "squall_served_seconds",
        "Time since the start",
        "gauge",
    )?;
    writer.write_all(b"squall_served_seconds ")?;
    write_seconds(writer, figures.micros)
}

// Writes what a metric means, and its type.
fn write_head<W: Write>(writer: &mut W, name: &str, help: &str, form: &str) -> io::Result<()> {
    writeln!(writer, "# HELP {name} {help}.")?;
    writeln!(writer, "# TYPE {name} {form}")
}

// Writes a metric that has one number.
fn write_metric<W: Write>(
    writer: &mut W,
    name: &str,
    help: &str,
    form: &str,
    number: u64,
) -> io::Result<()> {
    write_head(writer, name, help, form)?;
    writeln!(writer, "{name} {number}")
}

// Writes a metric that may rise and fall.
fn write_gauge<W: Write>(writer: &mut W, name: &str, help: &str, number: u64) -> io::Result<()> {
    write_metric(writer, name, help, "gauge", number)
}

// Writes how many jobs are open at each partition.
fn write_open<W: Write>(writer: &mut W, open: &[u64]) -> io::Result<()> {
    write_head(
        writer,
        "squall_jobs_open",
        "Jobs without an answer, by partition",
        "gauge",
    )?;
    for (part, jobs) in open.iter().enumerate() {
        let jobs = *jobs;
        writeln!(writer, "squall_jobs_open{{partition=\"{part}\"}} {jobs}")?;
    }
    Ok(())
}

// Writes the waits of the jobs that were answered in the last second, if there are some.
fn write_waits<W: Write>(writer: &mut W, waits: Option<Spread>) -> io::Result<()> {
    let Some(spread) = waits else {
        return Ok(());
    };
    write_head(
        writer,
        "squall_wait_seconds",
        "How long jobs waited that were answered in the last second",
        "gauge",
    )?;
    writer.write_all(b"squall_wait_seconds{quantile=\"0.5\"} ")?;
    write_seconds(writer, spread.median)?;
    writer.write_all(b"squall_wait_seconds{quantile=\"0.99\"} ")?;
    write_seconds(writer, spread.p99)
}

// Writes the running move: all its figures are 0 at rest, and the estimate of what is left has no
// lines before a segment is complete.
fn write_move<W: Write>(writer: &mut W, moving: Option<MoveFigures>) -> io::Result<()> {
    let (segments, complete, rate) = match moving {
        Some(moving) => (moving.all.segments, moving.all.complete, moving.rate),
        None => (0, 0, 0),
    };
    let gauges = [
        (
            "squall_moving",
            "1 while rows move, else 0",
            u64::from(moving.is_some()),
        ),
        ("squall_segments", "Segments of the running move", segments),
        (
            "squall_segments_complete",
            "Those that are complete",
            complete,
        ),
        (
            "squall_families_per_second",
            "Families moved in a second, by the last second",
            rate,
        ),
    ];
    for (name, help, number) in gauges {
        write_gauge(writer, name, help, number)?;
    }
    if let Some(left) = moving.and_then(|moving| moving.left) {
        let (families, bytes) = (left.families, left.bytes);
        write_gauge(
            writer,
            "squall_families_left",
            "Families left, by estimate",
            families,
        )?;
        write_gauge(
            writer,
            "squall_bytes_left",
            "Bytes left, by estimate",
            bytes,
        )?;
    }
    Ok(())
}

// Writes `micros` in seconds, with six decimals.
fn write_seconds<W: Write>(writer: &mut W, micros: u64) -> io::Result<()> {
    let seconds = micros / 1_000_000;
    let rest = micros % 1_000_000;
    writeln!(writer, "{seconds}.{rest:06}")
}
