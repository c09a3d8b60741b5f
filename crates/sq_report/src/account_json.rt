// The summary of an engine as JSON.
use crate::moves::MoveTally;
use crate::tallies::{AnswerTally, EpochTally};
use serde_json::{Value, json};
use std::alloc::{AllocError, Global};

/// Returns a summary with these parts as compact JSON: one object, on one line. Fails only if
/// memory runs out.
pub(crate) fn account_json(
    alloc: Global,
    is_whole: bool,
    answers: AnswerTally,
    epochs: EpochTally,
    moves: &[MoveTally],
) -> Result<String, AllocError> {
    let jobs = jobs_value(alloc, answers)?;
    let moves = moves_value(alloc, moves)?;
    let pauses = json!(in alloc; {
        "all_pauses": epochs.total,
        "count": epochs.epochs,
        "longest_pause": epochs.longest
    })?;
    let account = json!(in alloc; {
        "epochs": pauses,
        "jobs": jobs,
        "moves": moves,
        "whole": is_whole
    })?;
    account.to_string(alloc)
}

// How many jobs were answered, and the longest wait of one.
fn jobs_value(alloc: Global, tally: AnswerTally) -> Result<Value, AllocError> {
    json!(in alloc; {
        "aborted": tally.aborted,
        "committed": tally.committed,
        "longest_wait": tally.longest
    })
}

fn moves_value(alloc: Global, moves: &[MoveTally]) -> Result<Value, AllocError> {
    let mut values = Vec::new(alloc);
    for tally in moves {
        values.push(move_value(alloc, *tally)?)?;
    }
    Ok(Value::Array(values))
}

fn move_value(alloc: Global, tally: MoveTally) -> Result<Value, AllocError> {
    let jobs = jobs_value(alloc, tally.answers)?;
    json!(in alloc; {
        "began": tally.began,
        "bytes": tally.moved.bytes,
        "done": tally.done,
        "families": tally.moved.families,
        "jobs": jobs,
        "segments": tally.segments
    })
}
