// The figures of an engine as JSON.
use crate::engine_figures::{EngineFigures, LeftFigures, MoveFigures};
use crate::spread::Spread;
use serde_json::{Value, json};
use std::alloc::{AllocError, Global};

/// Returns `figures` as compact JSON: one object, on one line. Fails only if memory runs out.
pub fn status_json(alloc: Global, figures: &EngineFigures) -> Result<String, AllocError> {
    let moving = moving_value(alloc, figures.moving)?;
    let open_at = numbers_value(alloc, &figures.open_at)?;
    let waits = waits_value(alloc, figures.waits)?;
    let memory = number_value(figures.memory);
    let state = if figures.moving.is_some() {
        "moving"
    } else {
        "at rest"
    };
    let status = json!(in alloc; {
        "aborted": figures.aborted,
        "bytes_moved": figures.bytes,
        "committed": figures.committed,
        "families_moved": figures.families,
        "memory_bytes": memory,
        "microseconds": figures.micros,
        "move": moving,
        "moves_done": figures.moves,
        "open": figures.open,
        "open_at": open_at,
        "pumps": figures.pumps,
        "state": state,
        "waits": waits
    })?;
    status.to_string(alloc)
}

// The running move; null at rest.
fn moving_value(alloc: Global, moving: Option<MoveFigures>) -> Result<Value, AllocError> {
    let Some(moving) = moving else {
        return Ok(Value::Null);
    };
    let left = left_value(alloc, moving.left)?;
    json!(in alloc; {
        "bytes_moved": moving.bytes,
        "families_a_second": moving.rate,
        "families_moved": moving.families,
        "left": left,
        "segments": moving.all.segments,
        "segments_complete": moving.all.complete,
        "stage_segments": moving.stage.segments,
        "stage_segments_complete": moving.stage.complete
    })
}

// The estimate of what is left of a move; null if there is none.
fn left_value(alloc: Global, left: Option<LeftFigures>) -> Result<Value, AllocError> {
    let Some(left) = left else {
        return Ok(Value::Null);
    };
    let millis = number_value(left.millis);
    json!(in alloc; {
        "about_bytes": left.bytes,
        "about_families": left.families,
        "about_milliseconds": millis
    })
}

// The waits of the last second; null if there are none.
fn waits_value(alloc: Global, waits: Option<Spread>) -> Result<Value, AllocError> {
    match waits {
        Some(spread) => json!(in alloc; {
            "longest": spread.longest,
            "median": spread.median,
            "p99": spread.p99
        }),
        None => Ok(Value::Null),
    }
}

fn numbers_value(alloc: Global, numbers: &[u64]) -> Result<Value, AllocError> {
    let mut values = Vec::new(alloc);
    for number in numbers {
        values.push(Value::from(*number))?;
    }
    Ok(Value::Array(values))
}

// A number; null if there is none.
fn number_value(number: Option<u64>) -> Value {
    match number {
        Some(number) => Value::from(number),
        None => Value::Null,
    }
}
