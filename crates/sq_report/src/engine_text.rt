// The figures of an engine after the words of its status.
use crate::engine_figures::{EngineFigures, LeftFigures, MoveFigures};
use std::alloc::Global;
use std::io;
use std::io::{ErrorKind, Write};

/// Returns the text of `figures` after the words of a line `status`: of a move that runs, and how
/// many jobs are open at each partition that has some. It is empty at rest with no open job. Fails
/// only if memory runs out.
pub fn status_text(alloc: Global, figures: &EngineFigures) -> io::Result<String> {
    let mut text = Vec::new(alloc);
    if let Some(moving) = figures.moving {
        write_move(&mut text, moving)?;
    }
    write_open(&mut text, &figures.open_at)?;
    match String::from_utf8(text) {
        Ok(text) => Ok(text),
        Err(_) => Err(io::Error::from(ErrorKind::InvalidData)),
    }
}

// Writes the figures of a move.
fn write_move<W: Write>(writer: &mut W, moving: MoveFigures) -> io::Result<()> {
    let MoveFigures {
        all,
        families,
        bytes,
        rate,
        ..
    } = moving;
    let (segments, complete) = (all.segments, all.complete);
    write!(
        writer,
        "; in all {complete} of {segments} segments, moved {families} families and {bytes} bytes"
    )?;
    write!(writer, ", {rate} families a second")?;
    match moving.left {
        Some(left) => write_left(writer, left),
        None => Ok(()),
    }
}

// Writes what is left of a move.
fn write_left<W: Write>(writer: &mut W, left: LeftFigures) -> io::Result<()> {
    let LeftFigures {
        families,
        bytes,
        millis,
    } = left;
    write!(writer, ", left about {families} families and {bytes} bytes")?;
    match millis {
        Some(millis) => write!(writer, " and {millis} ms"),
        None => Ok(()),
    }
}

// Writes how many jobs are open at each partition that has some.
fn write_open<W: Write>(writer: &mut W, open: &[u64]) -> io::Result<()> {
    let mut front = "; open";
    for (part, jobs) in open.iter().enumerate() {
        let jobs = *jobs;
        if jobs != 0 {
            write!(writer, "{front} {jobs} at {part}")?;
            front = ",";
        }
    }
    Ok(())
}
