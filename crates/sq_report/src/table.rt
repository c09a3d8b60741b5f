// The table of a summary.
use crate::counts::{LinkCount, PartCount};
use crate::summary::Summary;
use std::io;
use std::io::Write;

/// Writes `summary` as a table: a heading and a line for each link, and a heading and a line for
/// each partition, with how many jobs have `waited` there. Fails if the writer does.
pub fn write_summary<W: Write>(
    writer: &mut W,
    summary: &Summary,
    waited: &[u64],
) -> io::Result<()> {
    writeln!(writer, "link        root keys    families      chunks")?;
    for link in summary.links() {
        write_link(writer, *link)?;
    }
    writeln!(writer, "partition   committed     aborted      waited")?;
    for (number, part) in summary.parts().iter().enumerate() {
        let PartCount { committed, aborted } = *part;
        let waits = waited.get(number).copied().unwrap_or(0);
        writeln!(writer, "{number:>9}{committed:>12}{aborted:>12}{waits:>12}")?;
    }
    Ok(())
}

fn write_link<W: Write>(writer: &mut W, link: LinkCount) -> io::Result<()> {
    let LinkCount {
        src,
        dst,
        keys,
        families,
        chunks,
    } = link;
    let (src, dst) = (src.number(), dst.number());
    writeln!(
        writer,
        "{src:>2} -> {dst:<3}{keys:>12}{families:>12}{chunks:>12}"
    )
}
