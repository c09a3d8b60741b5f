// The lines of intervals, and the summary of an engine that was served.
use crate::moves::MoveTally;
use crate::serve_intervals::IntervalFigures;
use crate::spread::Spread;
use crate::tallies::{AnswerTally, EpochTally, MovedTally};
use std::io;
use std::io::Write;

/// Writes a heading, and a line for each of `intervals`: when it began, in milliseconds, how many
/// jobs were answered in it, the median, the 99th percentile and the longest of their waits in
/// microseconds (empty if there are none), how many families and bytes were moved in it, and how
/// many segments of the running stage were complete. Fails if the writer does.
pub(crate) fn write_interval_lines<W: Write>(
    writer: &mut W,
    intervals: &[IntervalFigures],
) -> io::Result<()> {
    writeln!(
        writer,
        "milliseconds,answered,median,p99,longest,families,bytes,segments"
    )?;
    for interval in intervals {
        write_interval(writer, *interval)?;
    }
    Ok(())
}

fn write_interval<W: Write>(writer: &mut W, interval: IntervalFigures) -> io::Result<()> {
    let IntervalFigures {
        answered,
        waits,
        moved,
        complete,
        ..
    } = interval;
    let millis = u128::from(interval.number) * 10;
    write!(writer, "{millis},{answered},")?;
    match waits {
        Some(spread) => write_spread(writer, spread)?,
        None => writer.write_all(b",,,")?,
    }
    let MovedTally { families, bytes } = moved;
    writeln!(writer, "{families},{bytes},{complete}")
}

fn write_spread<W: Write>(writer: &mut W, spread: Spread) -> io::Result<()> {
    let Spread {
        median,
        p99,
        longest,
    } = spread;
    write!(writer, "{median},{p99},{longest},")
}

/// Writes a summary with these parts. Fails if the writer does.
pub(crate) fn write_account<W: Write>(
    writer: &mut W,
    is_whole: bool,
    answers: AnswerTally,
    epochs: EpochTally,
    moves: &[MoveTally],
) -> io::Result<()> {
    if !is_whole {
        writer.write_all(b"memory ran out before all was recorded\n")?;
    }
    writer.write_all(b"jobs: ")?;
    write_answers(writer, answers)?;
    write_epochs(writer, epochs)?;
    for tally in moves {
        write_move(writer, *tally)?;
    }
    Ok(())
}

fn write_answers<W: Write>(writer: &mut W, answers: AnswerTally) -> io::Result<()> {
    let AnswerTally {
        committed,
        aborted,
        longest,
    } = answers;
    writeln!(
        writer,
        "committed {committed}, aborted {aborted}, longest wait {longest} us"
    )
}

fn write_epochs<W: Write>(writer: &mut W, tally: EpochTally) -> io::Result<()> {
    let EpochTally {
        epochs,
        longest,
        total,
        ..
    } = tally;
    writeln!(
        writer,
        "epochs: {epochs}, longest pause {longest} us, all pauses {total} us"
    )
}

fn write_move<W: Write>(writer: &mut W, tally: MoveTally) -> io::Result<()> {
    let MoveTally {
        segments,
        moved,
        began,
        done,
        answers,
    } = tally;
    let MovedTally { families, bytes } = moved;
    write!(
        writer,
        "move: segments {segments}, families {families}, bytes {bytes}, from {began} to {done} us, "
    )?;
    write_answers(writer, answers)
}
