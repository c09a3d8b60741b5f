// What moves, as a picture.
ghost use Rattle.std.specs.Prelude.{◌≡◌, ◌<◌, ◌^◌};
ghost use Rattle.sq_picture.specs.Pictures.{begun_below};

use crate::svg::{write_end, write_number, write_start, write_words};
use sq_moves::{Range, Recon};
use sq_plan::PartId;
use std::io;
use std::io::Write;

// The number of columns side by side.
const ACROSS: usize = 6;

// The labels to the left of the first column of each line.
const NAMES: &str =
    "<text x=\"-88\" y=\"14\">root keys</text><text x=\"-88\" y=\"52\">old owner</text>\
                     <text x=\"-88\" y=\"124\">new owner</text><text x=\"-88\" y=\"154\">segments</text>\n";

/// Returns the height of a picture of `count` columns, with `lines` lines of text below them.
pub fn height_of(count: usize, lines: u64) -> u128
    ensures { result < 2 ^ 100 }
{
    40 + (count as u128 + (ACROSS as u128 - 1)) / ACROSS as u128 * 196 + u128::from(lines) * 20
}

/// Writes a picture of `count` columns, with `lines` lines of text below them, up to the first
/// column. Like the functions below, fails if a write fails.
pub fn write_top<W: Write>(writer: &mut W, count: usize, lines: u64) -> io::Result<()> {
    let width = 96 + count.min(ACROSS).max(3) * 160;
    write_start(writer, width, height_of(count, lines), "What moves")?;
    let heading = if count == 0 {
        "Nothing moves: each root key keeps its owner."
    } else {
        "Root keys that move: from the left number to before the right one. Not to scale."
    };
    write_words(writer, "start", 8, 24, heading)
}

/// Writes column number `i`, from 0, of a range, up to its segments.
pub fn write_column_head<W: Write>(writer: &mut W, i: usize, range: &Range) -> io::Result<()> {
    let x = 96 + i % ACROSS * 160;
    let y = 40 + i as u128 / ACROSS as u128 * 196;
    writeln!(writer, "<g transform=\"translate({x},{y})\">")?;
    if i % ACROSS == 0 {
        writer.write_all(NAMES.as_bytes())?;
    }
    let Range { lo, hi, src, dst } = *range;
    writeln!(
        writer,
        "<text y=\"14\">{lo}</text><text class=\"end\" x=\"144\" y=\"14\">{hi}</text><path class=\"line\" d=\"M.5 18v8m0-4h143m0-4v8\"/>"
    )?;
    write_owner(writer, src, 32)?;
    write_owner(writer, dst, 104)?;
    writer.write_all(b"<path class=\"arrow\" d=\"M72 70v20m-4 0h8l-4 7z\"/>\n")
}

// Writes a box at the height `top` with the number of a partition, in its colour: partitions of
// nearly one hue, which are 21 numbers apart, differ in lightness.
fn write_owner<W: Write>(writer: &mut W, part: PartId, top: u64) -> io::Result<()>
    requires { top < 1000 }
{
    let number = u64::from(part.number());
    let hue = number * 137 % 360;
    let light = 34u64.saturating_sub(number / 21 * 6);
    writeln!(
        writer,
        "<rect y=\"{top}\" width=\"144\" height=\"32\" rx=\"4\" fill=\"hsl({hue},45%,{light}%)\"/>"
    )?;
    write_number(writer, "owner", 72, top + 20, "partition ", number)
}

/// Counts the segments that begin below `key`.
pub fn begun_below(segments: &[Range], key: u64) -> usize
    ensures { result ≡ begun_below segments.now key }
{
    segments.iter().filter(|segment| segment.lo < key).count()
}

/// Writes the start of the axis of `count` segments, from number `first` on.
pub fn write_axis<W: Write>(writer: &mut W, first: usize, count: usize) -> io::Result<()> {
    writeln!(
        writer,
        "<svg y=\"144\" width=\"144\" height=\"10\" viewBox=\"{first} 0 {count} 10\" preserveAspectRatio=\"none\">"
    )
}

/// Writes segment number `seg` on the axis, up to the end of the number in its tooltip, which more
/// text may follow.
pub fn write_open_segment<W: Write>(writer: &mut W, seg: usize) -> io::Result<()> {
    // Neighbouring segments have two shades.
    let class = if seg % 2 == 0 { "even" } else { "odd" };
    write!(
        writer,
        "<rect class=\"{class}\" x=\"{seg}\" width=\"1\" height=\"10\"><title>segment {seg}"
    )
}

/// Writes the end of a segment on the axis.
pub fn write_segment_end<W: Write>(writer: &mut W) -> io::Result<()> {
    writer.write_all(b"</title></rect>\n")
}

/// Writes the first and the last number of the segments from `first` on and before `end`, and their
/// stage.
pub fn write_numbers<W: Write>(
    writer: &mut W,
    first: usize,
    end: usize,
    stage: u64,
) -> io::Result<()> {
    write_number(writer, "start", 0, 168, "", first as u64)?;
    write_number(writer, "middle", 72, 168, "stage ", stage)?;
    if end > first && end - first > 1 {
        write_number(writer, "end", 144, 168, "", end as u64 - 1)?;
    }
    Ok(())
}

/// Writes the end of a column.
pub fn write_column_end<W: Write>(writer: &mut W) -> io::Result<()> {
    writer.write_all(b"</g>\n")
}

// Writes column number `i`, from 0, of a range. Its segments are numbered in key order.
fn write_column<W: Write>(
    writer: &mut W,
    recon: &Recon,
    i: usize,
    range: &Range,
) -> io::Result<()> {
    write_column_head(writer, i, range)?;
    let first = begun_below(recon.segments(), range.lo);
    let end = begun_below(recon.segments(), range.hi);
    write_axis(writer, first, end.saturating_sub(first))?;
    for seg in first..end {
        write_open_segment(writer, seg)?;
        write_segment_end(writer)?;
    }
    write_end(writer)?;
    write_numbers(writer, first, end, recon.stage_on(range.src, range.dst))?;
    write_column_end(writer)
}

/// Writes what moves as an SVG picture: a column for each reconfiguration range, in key order and
/// not to scale, with its keys, its old and its new owner in the partitions' colours, an arrow from
/// one to the other, and its segments with their numbers and their stage. Six columns are side by
/// side.
pub fn write_moves_svg<W: Write>(writer: &mut W, recon: &Recon) -> io::Result<()> {
    write_top(writer, recon.ranges().len(), 0)?;
    for (i, range) in recon.ranges().iter().enumerate() {
        write_column(writer, recon, i, range)?;
    }
    write_end(writer)
}
