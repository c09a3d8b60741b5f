// The size of a move as a picture.
use crate::moves_svg::{
    begun_below, height_of, write_axis, write_column_end, write_column_head, write_numbers,
    write_open_segment, write_segment_end, write_top,
};
use crate::size::{MovePart, Size};
use crate::svg::write_end;
use sq_moves::{Opening, Range};
use std::io;
use std::io::Write;

/// Writes the size of a move as an SVG picture: the picture of what moves, with the size of each
/// reconfiguration range below its segments, the size of each segment, which appears under the
/// pointer, and the size of each stage below the columns.
pub(crate) fn write_picture<W: Write>(writer: &mut W, opening: &Opening) -> io::Result<()> {
    let recon = opening.recon();
    let ranges = recon.ranges();
    write_top(writer, ranges.len(), recon.stages())?;
    for (i, range) in ranges.iter().enumerate() {
        write_column(writer, opening, i, range)?;
    }
    for stage in 0..recon.stages() {
        let y = height_of(ranges.len(), stage) + 12;
        write!(writer, "<text x=\"8\" y=\"{y}\">stage {stage}")?;
        write_phrase(writer, Size::of_part(opening, MovePart::StagePart(stage)))?;
        writer.write_all(b"</text>\n")?;
    }
    write_end(writer)
}

// Writes the column of a range with its size, after `i` other columns.
fn write_column<W: Write>(
    writer: &mut W,
    opening: &Opening,
    i: usize,
    range: &Range,
) -> io::Result<()> {
    let recon = opening.recon();
    write_column_head(writer, i, range)?;
    let first = begun_below(recon.segments(), range.lo);
    let end = begun_below(recon.segments(), range.hi);
    write_axis(writer, first, end.saturating_sub(first))?;
    write_segments(writer, opening, range)?;
    write_end(writer)?;
    write_numbers(writer, first, end, recon.stage_on(range.src, range.dst))?;
    write_caption(writer, Size::of_part(opening, MovePart::RangePart(*range)))?;
    write_column_end(writer)
}

// Writes the segments of a range with their sizes.
fn write_segments<W: Write>(writer: &mut W, opening: &Opening, range: &Range) -> io::Result<()> {
    let segments = opening.recon().segments();
    for (seg, segment) in segments.iter().enumerate() {
        if range.lo <= segment.lo && segment.lo < range.hi {
            write_open_segment(writer, seg)?;
            write_phrase(writer, Size::of_segment(opening, *segment))?;
            write_segment_end(writer)?;
        }
    }
    Ok(())
}

// Writes a size, after the name of what has it.
fn write_phrase<W: Write>(writer: &mut W, size: Size) -> io::Result<()> {
    let Size {
        families,
        rows,
        bytes,
        chunks,
    } = size;
    write!(
        writer,
        ": {families} families, {rows} rows, {bytes} bytes, {chunks} chunks"
    )
}

// Writes a size, on two lines.
fn write_caption<W: Write>(writer: &mut W, size: Size) -> io::Result<()> {
    let Size {
        families,
        rows,
        bytes,
        chunks,
    } = size;
    writeln!(
        writer,
        "<text y=\"181\" font-size=\"10\">{families} families</text><text class=\"end\" x=\"144\" y=\"181\" font-size=\"10\">{rows} rows</text>"
    )?;
    writeln!(
        writer,
        "<text y=\"193\" font-size=\"10\">{bytes} bytes</text><text class=\"end\" x=\"144\" y=\"193\" font-size=\"10\">{chunks} chunks</text>"
    )
}
