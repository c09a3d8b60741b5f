// Writes the lines of what moves.
ghost use Rattle.std.specs.Prelude.{◌≡◌, nat_lt, OnOk};
ghost use Rattle.std.specs.List.{flat_map};
ghost use Rattle.std.specs.Io.KnownBytes.{Appends};
ghost use Rattle.sq_text.specs.Texts.{range_line, told_stage, segment_line, segment_lines, moves_text};
ghost use Rattle.sq_moves.specs.Prelude.{stages};

use sq_moves::{Range, Recon};
use std::io;
use std::io::Write;

// Writes the line of a reconfiguration range.
fn write_range<W: Write>(writer: &mut W, range: Range) -> io::Result<()>
    ensures { OnOk result (Appends (W.contents writer.old) (W.contents writer.new)
        (range_line range)) }
{
    let Range { lo, hi, src, dst } = range;
    let (src, dst) = (src.number(), dst.number());
    writeln!(writer, "range {lo} {hi} {src} {dst}")
}

// Writes the line of segment number `seg`, with its `stage` if there is one to name.
fn write_segment<W: Write>(
    writer: &mut W,
    seg: usize,
    segment: Range,
    stage: Option<u64>,
) -> io::Result<()>
    ensures { OnOk result (Appends (W.contents writer.old) (W.contents writer.new)
        (segment_line seg segment stage)) }
{
    let Range { lo, hi, src, dst } = segment;
    let (src, dst) = (src.number(), dst.number());
    match stage {
        Some(stage) => writeln!(writer, "segment {seg} {lo} {hi} {src} {dst} stage {stage}"),
        None => writeln!(writer, "segment {seg} {lo} {hi} {src} {dst}"),
    }
}

// Writes a line for each of `ranges`.
fn write_ranges<W: Write>(writer: &mut W, ranges: &[Range]) -> io::Result<()>
    ensures { OnOk result (Appends (W.contents writer.old) (W.contents writer.new)
        (flat_map range_line ranges.now)) }
{
    for range in ranges {
        write_range(writer, *range)?;
    }
    Ok(())
}

// Returns the stage of `segment` if the move has `several` stages.
fn told_stage(recon: &Recon, several: bool, segment: Range) -> Option<u64>
    requires { several ≡ nat_lt 1 (stages recon.now) }
    ensures { result ≡ told_stage recon.now segment }
{
    if several {
        Some(recon.stage_on(segment.src, segment.dst))
    } else {
        None
    }
}

// Writes the lines of the segments, numbered from 0.
fn write_segments<W: Write>(writer: &mut W, recon: &Recon) -> io::Result<()>
    ensures { OnOk result (Appends (W.contents writer.old) (W.contents writer.new)
        (segment_lines recon.now 0 recon.now.segments)) }
{
    let several = recon.stages() > 1;
    let segments = recon.segments();
    for (seg, segment) in segments.iter().enumerate() {
        let stage = told_stage(recon, several, *segment);
        write_segment(writer, seg, *segment, stage)?;
    }
    Ok(())
}

/// Writes what moves: a line for each reconfiguration range, in key order, and then one for each
/// segment, with its stage if there are several. Fails if a write fails.
pub fn write_moves<W: Write>(writer: &mut W, recon: &Recon) -> io::Result<()>
    ensures { OnOk result (Appends (W.contents writer.old) (W.contents writer.new)
        (moves_text recon.now)) }
{
    write_ranges(writer, recon.ranges())?;
    write_segments(writer, recon)
}
