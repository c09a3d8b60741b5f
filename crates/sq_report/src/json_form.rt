// The figures of a live run as JSON.
use crate::part_figures::PartFigures;
use crate::run_figures::{LinkFigures, RunFigures};
use crate::spread::Spread;
use crate::times::Times;
use serde_json::{Value, json};
use std::alloc::{AllocError, Global};

/// Returns the `figures` of a run as compact JSON: one object, on one line. Fails only if memory
/// runs out.
pub fn figures_json(alloc: Global, figures: &RunFigures) -> Result<String, AllocError> {
    figures_value(alloc, figures)?.to_string(alloc)
}

// The figures of a run as a JSON value.
fn figures_value(alloc: Global, figures: &RunFigures) -> Result<Value, AllocError> {
    let links = links_value(alloc, &figures.links)?;
    let times = times_value(alloc, figures.times)?;
    let parts = parts_value(alloc, &figures.parts)?;
    let is_whole = figures.is_whole;
    json!(in alloc; {
        "links": links,
        "microseconds": times,
        "partitions": parts,
        "whole": is_whole
    })
}

// What moved along each link.
fn links_value(alloc: Global, links: &[LinkFigures]) -> Result<Value, AllocError> {
    let mut values = Vec::new(alloc);
    for link in links {
        values.push(link_value(alloc, *link)?)?;
    }
    Ok(Value::Array(values))
}

// What moved along a link.
fn link_value(alloc: Global, link: LinkFigures) -> Result<Value, AllocError> {
    json!(in alloc; {
        "bytes": link.bytes,
        "chunks": link.chunks,
        "dst": link.dst,
        "families": link.families,
        "keys": link.keys,
        "rows": link.rows,
        "src": link.src,
        "stage": link.stage
    })
}

// How jobs ended at each partition.
fn parts_value(alloc: Global, parts: &[PartFigures]) -> Result<Value, AllocError> {
    let mut values = Vec::new(alloc);
    for part in parts {
        values.push(part_value(alloc, *part)?)?;
    }
    Ok(Value::Array(values))
}

// How jobs ended at a partition.
fn part_value(alloc: Global, part: PartFigures) -> Result<Value, AllocError> {
    let answers = spread_value(alloc, part.answers)?;
    let waited_answers = spread_value(alloc, part.waited_answers)?;
    let waits = spread_value(alloc, part.waits)?;
    json!(in alloc; {
        "aborted": part.aborted,
        "answers": answers,
        "committed": part.committed,
        "partition": part.part,
        "waited": part.waited,
        "waited_answers": waited_answers,
        "waits": waits
    })
}

// The spread of times; null if there are none.
fn spread_value(alloc: Global, spread: Option<Spread>) -> Result<Value, AllocError> {
    match spread {
        Some(spread) => json!(in alloc; {
            "longest": spread.longest,
            "median": spread.median,
            "p99": spread.p99
        }),
        None => Ok(Value::Null),
    }
}

// How long the parts of the run took.
fn times_value(alloc: Global, times: Times) -> Result<Value, AllocError> {
    json!(in alloc; {
        "audits": times.audits,
        "reading": times.reading,
        "threads": times.threads
    })
}
