// The size of a move as JSON.
use crate::proposal::proposal;
use crate::size::{MovePart, Size};
use serde_json::{Value, json};
use sq_moves::{Config, Opening, Range};
use std::alloc::{AllocError, Global};

/// Returns the size of a move as compact JSON: an object with the members `config` (the sizes that
/// are proposed), `ranges`, `segments`, `stage_sizes` and `stages`. Fails only if memory runs out.
pub(crate) fn sizes_json(alloc: Global, opening: &Opening) -> Result<String, AllocError> {
    let ranges = ranges_value(alloc, opening)?;
    let segments = segments_value(alloc, opening)?;
    let sizes = stages_value(alloc, opening)?;
    let stages = opening.recon().stages();
    let config = config_value(alloc, proposal(opening))?;
    let value = json!(in alloc; {
        "config": config,
        "ranges": ranges,
        "segments": segments,
        "stage_sizes": sizes,
        "stages": stages
    })?;
    value.to_string(alloc)
}

fn config_value(alloc: Global, config: Config) -> Result<Value, AllocError> {
    json!(in alloc; {
        "capacity": config.capacity,
        "limit": config.limit,
        "width": config.width
    })
}

fn ranges_value(alloc: Global, opening: &Opening) -> Result<Value, AllocError> {
    let mut values = Vec::new(alloc);
    for range in opening.recon().ranges() {
        values.push(range_value(alloc, opening, *range)?)?;
    }
    Ok(Value::Array(values))
}

fn range_value(alloc: Global, opening: &Opening, range: Range) -> Result<Value, AllocError> {
    let size = Size::of_part(opening, MovePart::RangePart(range));
    json!(in alloc; {
        "bytes": size.bytes,
        "chunks": size.chunks,
        "dst": range.dst.number(),
        "families": size.families,
        "hi": range.hi,
        "lo": range.lo,
        "rows": size.rows,
        "src": range.src.number()
    })
}

fn segments_value(alloc: Global, opening: &Opening) -> Result<Value, AllocError> {
    let mut values = Vec::new(alloc);
    for segment in opening.recon().segments() {
        values.push(segment_value(alloc, opening, *segment)?)?;
    }
    Ok(Value::Array(values))
}

fn segment_value(alloc: Global, opening: &Opening, segment: Range) -> Result<Value, AllocError> {
    let size = Size::of_segment(opening, segment);
    let stage = opening.recon().stage_on(segment.src, segment.dst);
    json!(in alloc; {
        "bytes": size.bytes,
        "chunks": size.chunks,
        "dst": segment.dst.number(),
        "families": size.families,
        "hi": segment.hi,
        "lo": segment.lo,
        "rows": size.rows,
        "src": segment.src.number(),
        "stage": stage
    })
}

fn stages_value(alloc: Global, opening: &Opening) -> Result<Value, AllocError> {
    let mut values = Vec::new(alloc);
    for stage in 0..opening.recon().stages() {
        values.push(stage_value(alloc, opening, stage)?)?;
    }
    Ok(Value::Array(values))
}

fn stage_value(alloc: Global, opening: &Opening, stage: u64) -> Result<Value, AllocError> {
    let size = Size::of_part(opening, MovePart::StagePart(stage));
    json!(in alloc; {
        "bytes": size.bytes,
        "chunks": size.chunks,
        "families": size.families,
        "rows": size.rows,
        "stage": stage
    })
}
