// What moves, as JSON.
ghost use Rattle.std.specs.Prelude.{◌≡◌, Some, IfOk, map, string_bytes};
ghost use Rattle.serde_json.specs.Data.{array};
ghost use Rattle.serde_json.specs.Read.{read};
ghost use Rattle.serde_json.specs.View.{view, items_of};
ghost use Rattle.serde_json.specs.Written.{compact_text};
ghost use Rattle.sq_picture.specs.Json.{moved_range_data, segment_data, moves_data};

use serde_json::{Value, json};
use sq_moves::{Range, Recon};
use std::alloc::{AllocError, Global};

// Returns a reconfiguration range as JSON.
fn range_value(alloc: Global, range: Range) -> Result<Value, AllocError>
    ensures { IfOk result (λ value. view value ≡ moved_range_data range) }
{
    json!(in alloc; {"dst": range.dst.number(), "hi": range.hi, "lo": range.lo, "src": range.src.number()})
}

// Returns `ranges` as JSON, one for one.
fn ranges_value(alloc: Global, ranges: &[Range]) -> Result<Value, AllocError>
    ensures { IfOk result (λ value. view value
        ≡ array (items_of (map moved_range_data ranges.now))) }
{
    let mut values = Vec::with_capacity(alloc, ranges.len())?;
    for range in ranges {
        values.push_reserved(range_value(alloc, *range)?);
    }
    Ok(Value::Array(values))
}

// Returns a segment as JSON, with its stage.
fn segment_value(alloc: Global, recon: &Recon, segment: Range) -> Result<Value, AllocError>
    ensures { IfOk result (λ value. view value ≡ segment_data recon.now segment) }
{
    let stage = recon.stage_on(segment.src, segment.dst);
    json!(in alloc; {
        "dst": segment.dst.number(),
        "hi": segment.hi,
        "lo": segment.lo,
        "src": segment.src.number(),
        "stage": stage
    })
}

// Returns the segments as JSON, one for one.
fn segments_value(alloc: Global, recon: &Recon) -> Result<Value, AllocError>
    ensures { IfOk result (λ value. view value
        ≡ array (items_of (map (segment_data recon.now) recon.now.segments))) }
{
    let segments = recon.segments();
    let mut values = Vec::with_capacity(alloc, segments.len())?;
    for segment in segments {
        values.push_reserved(segment_value(alloc, recon, *segment)?);
    }
    Ok(Value::Array(values))
}

// Returns what moves as a JSON value.
fn moves_value(alloc: Global, recon: &Recon) -> Result<Value, AllocError>
    ensures { IfOk result (λ value. view value ≡ moves_data recon.now) }
{
    let ranges = ranges_value(alloc, recon.ranges())?;
    let segments = segments_value(alloc, recon)?;
    let stages = recon.stages();
    json!(in alloc; {"ranges": ranges, "segments": segments, "stages": stages})
}

/// Returns what moves in compact JSON: the ranges in key order, the segments in the order of their
/// numbers, each with its stage, and the number of stages. Reading the text returns this value
/// again. Fails only if memory runs out.
pub fn moves_json(alloc: Global, recon: &Recon) -> Result<String, AllocError>
    ensures compact { IfOk result (λ text. string_bytes text
        ≡ compact_text (moves_data recon.now)) }
    ensures reads_back { IfOk result (λ text. read (string_bytes text)
        ≡ Some (moves_data recon.now)) }
{
    moves_value(alloc, recon)?.to_string(alloc)
}
