// The size of a move as lines.
use crate::proposal::proposal;
use crate::size::{MovePart, Size};
use sq_moves::{Config, Opening, Range};
use std::io;
use std::io::Write;

/// Writes the size of a move as lines: one for each reconfiguration range, in key order, one for
/// each segment, one for each stage, and the line of the sizes that are proposed.
pub(crate) fn write_lines<W: Write>(writer: &mut W, opening: &Opening) -> io::Result<()> {
    let recon = opening.recon();
    for range in recon.ranges() {
        let Range { lo, hi, src, dst } = *range;
        let (src, dst) = (src.number(), dst.number());
        write!(writer, "range {lo} {hi} {src} {dst}")?;
        write_size(writer, Size::of_part(opening, MovePart::RangePart(*range)))?;
    }
    for (seg, segment) in recon.segments().iter().enumerate() {
        write_segment(writer, opening, seg, *segment)?;
    }
    for stage in 0..recon.stages() {
        write!(writer, "stage {stage}")?;
        write_size(writer, Size::of_part(opening, MovePart::StagePart(stage)))?;
    }
    let Config {
        width,
        limit,
        capacity,
        ..
    } = proposal(opening);
    writeln!(writer, "config {width} {limit} {capacity}")
}

// Writes the line of segment number `seg`, with its stage if there is more than one.
fn write_segment<W: Write>(
    writer: &mut W,
    opening: &Opening,
    seg: usize,
    segment: Range,
) -> io::Result<()> {
    let recon = opening.recon();
    let Range { lo, hi, src, dst } = segment;
    let stage = recon.stage_on(src, dst);
    let (src, dst) = (src.number(), dst.number());
    write!(writer, "segment {seg} {lo} {hi} {src} {dst}")?;
    if recon.stages() > 1 {
        write!(writer, " stage {stage}")?;
    }
    write_size(writer, Size::of_segment(opening, segment))
}

// Writes the end of a line: a size.
fn write_size<W: Write>(writer: &mut W, size: Size) -> io::Result<()> {
    let Size {
        families,
        rows,
        bytes,
        chunks,
    } = size;
    writeln!(
        writer,
        " families {families} rows {rows} bytes {bytes} chunks {chunks}"
    )
}
