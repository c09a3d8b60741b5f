// The figures of a live run as text.
use crate::part_figures::PartFigures;
use crate::run_figures::{LinkFigures, RunFigures};
use crate::spread::Spread;
use crate::times::write_times;
use std::io;
use std::io::Write;

/// Writes the `figures` of a run as tables: of the links, of the partitions, of how long jobs took
/// at each partition, of how long those took that had waited, and of how long they had waited; and
/// the line of the times. If memory ran out before all was counted, a line before them says so.
/// Fails if the writer does.
pub fn write_figures<W: Write>(writer: &mut W, figures: &RunFigures) -> io::Result<()> {
    if !figures.is_whole {
        writer.write_all(b"memory ran out before all was counted\n")?;
    }
    write_links(writer, &figures.links)?;
    write_parts(writer, &figures.parts)?;
    write_spreads(writer, TimesOf::Answers, &figures.parts)?;
    write_spreads(writer, TimesOf::WaitedAnswers, &figures.parts)?;
    write_spreads(writer, TimesOf::Waits, &figures.parts)?;
    write_times(writer, figures.times)
}

fn write_links<W: Write>(writer: &mut W, links: &[LinkFigures]) -> io::Result<()> {
    writeln!(
        writer,
        "stage  link        root keys    families        rows         bytes      chunks"
    )?;
    for link in links {
        write_link(writer, *link)?;
    }
    Ok(())
}

fn write_link<W: Write>(writer: &mut W, link: LinkFigures) -> io::Result<()> {
    let LinkFigures {
        stage,
        src,
        dst,
        keys,
        families,
        rows,
        bytes,
        chunks,
    } = link;
    write!(writer, "{stage:>5}  {src:>2} -> {dst:<3}")?;
    writeln!(
        writer,
        "{keys:>12}{families:>12}{rows:>12}{bytes:>14}{chunks:>12}"
    )
}

fn write_parts<W: Write>(writer: &mut W, parts: &[PartFigures]) -> io::Result<()> {
    writeln!(writer, "partition   committed     aborted      waited")?;
    for part in parts {
        write_part(writer, *part)?;
    }
    Ok(())
}

fn write_part<W: Write>(writer: &mut W, part: PartFigures) -> io::Result<()> {
    let PartFigures {
        part,
        committed,
        aborted,
        waited,
        ..
    } = part;
    writeln!(writer, "{part:>9}{committed:>12}{aborted:>12}{waited:>12}")
}

// The times that a table shows.
#[derive(Clone, Copy)]
enum TimesOf {
    Answers,
    WaitedAnswers,
    Waits,
}

impl TimesOf {
    fn title(self) -> &'static str {
        match self {
            TimesOf::Answers => "microseconds from post to answer",
            TimesOf::WaitedAnswers => "of those that waited",
            TimesOf::Waits => "microseconds for which these waited for rows",
        }
    }

    fn spread(self, part: PartFigures) -> Option<Spread> {
        match self {
            TimesOf::Answers => part.answers,
            TimesOf::WaitedAnswers => part.waited_answers,
            TimesOf::Waits => part.waits,
        }
    }
}

// Writes the table of these times, with a line for each partition that has any.
fn write_spreads<W: Write>(
    writer: &mut W,
    times: TimesOf,
    parts: &[PartFigures],
) -> io::Result<()> {
    let title = times.title();
    writeln!(
        writer,
        "{title}\npartition      median   99 of 100     longest"
    )?;
    for part in parts {
        if let Some(spread) = times.spread(*part) {
            write_spread(writer, part.part, spread)?;
        }
    }
    Ok(())
}

fn write_spread<W: Write>(writer: &mut W, part: u8, spread: Spread) -> io::Result<()> {
    let Spread {
        median,
        p99,
        longest,
    } = spread;
    writeln!(writer, "{part:>9}{median:>12}{p99:>12}{longest:>12}")
}
