// The moments of a run as comma-separated values.
use crate::moment::{Moment, TimedAnswer};
use std::io;
use std::io::Write;

/// Writes a heading, and a line for each of `moments`: the milliseconds, with three decimals, and
/// how many jobs and segments were done by then. An answer adds its partition, the job's id, the
/// microseconds since it was posted, and `yes` with the microseconds for which it waited for rows,
/// or `no`. These five fields are empty if a segment was completed. Fails if the writer does.
pub fn write_csv<W: Write>(writer: &mut W, moments: &[Moment]) -> io::Result<()> {
    writeln!(
        writer,
        "milliseconds,jobs,segments,partition,id,microseconds_since_post,waited,microseconds_waited"
    )?;
    for moment in moments {
        write_moment(writer, *moment)?;
    }
    Ok(())
}

fn write_moment<W: Write>(writer: &mut W, moment: Moment) -> io::Result<()> {
    let Moment { jobs, segments, .. } = moment;
    let millis = moment.micros / 1000;
    let rest = moment.micros % 1000;
    write!(writer, "{millis}.{rest:03},{jobs},{segments}")?;
    match moment.answer {
        Some(answer) => write_answer(writer, answer),
        None => writer.write_all(b",,,,,\n"),
    }
}

fn write_answer<W: Write>(writer: &mut W, answer: TimedAnswer) -> io::Result<()> {
    let TimedAnswer { part, id, .. } = answer;
    let micros = answer.micros_since_post;
    match answer.waited {
        Some(waited) => writeln!(writer, ",{part},{id},{micros},yes,{waited}"),
        None => writeln!(writer, ",{part},{id},{micros},no,"),
    }
}
