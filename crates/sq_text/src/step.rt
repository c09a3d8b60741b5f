// Reads the steps of a script.
ghost use Rattle.std.specs.Prelude.{◌≡◌, true, Err, ok_or};
ghost use Rattle.sq_rows.specs.ShortList.{short_items};
ghost use Rattle.sq_text.specs.Fields.{value_at_end};
ghost use Rattle.sq_text.specs.Steps.{pair_field, pull_field, step_with, verb_step, spelled, txn_in, txn_step, step_in, step_of, begins_txn};
ghost use Rattle.sq_text.specs.Words.{words_of};
ghost use Rattle.sq_text.specs.Faults.{IsParsed, IsParsedGivenMemory, IsStep};

use crate::fault::{LineFault, Malformed, ReadFault};
use crate::op::ops;
use crate::verb::Verb;
use crate::words::Words;
use sq_model::Step;
use sq_schema::{Op, Schema, ShortList, Txn};
use std::alloc::Global;

/// The most bytes of a line, without its end.
pub const MAX_LINE: usize = 65_536;

// Reads two numbers: a segment and a node, or a source and a destination.
#[tactic(auto, unfolding(crate::specs::Steps::pair_field))]
fn pair(words: &mut Words<'_>) -> Result<(u64, u64), Malformed>
    ensures { IsParsed (λ pair. (pair, words.new)) result (pair_field words.old) }
{
    Ok((words.number()?, words.number()?))
}

// Reads a segment, a node and a pull.
#[tactic(auto, unfolding(crate::specs::Steps::pull_field))]
fn pull(words: &mut Words<'_>) -> Result<(u64, u64, u32), Malformed>
    ensures { IsParsed (λ pull. (pull, words.new)) result (pull_field words.old) }
{
    let (seg, node) = pair(words)?;
    Ok((seg, node, words.small()?))
}

// Reads the fields of the step of this `verb`.
#[tactic(auto, unfolding(crate::specs::Steps::step_with))]
fn step(verb: Verb, words: &mut Words<'_>) -> Result<Step, Malformed>
    ensures { IsParsed (λ step. (step, words.new)) result (step_with verb words.old) }
{
    match verb {
        Verb::Prepare => Ok(Step::Prepare(words.number()?)),
        Verb::Start => Ok(Step::Start),
        Verb::Resume => Ok(Step::Resume(words.number()?)),
        Verb::Split => pair(words).map(|(seg, node)| Step::Split { seg, node }),
        Verb::Claim => pull(words).map(|(seg, node, pull)| Step::Claim { seg, node, pull }),
        Verb::Begin => pull(words).map(|(seg, node, pull)| Step::Begin { seg, node, pull }),
        Verb::Cut => pair(words).map(|(src, dst)| Step::Cut { src, dst }),
        Verb::Push => pair(words).map(|(src, dst)| Step::Push { src, dst }),
        Verb::Pop => pair(words).map(|(src, dst)| Step::Pop { src, dst }),
        Verb::Load => pair(words).map(|(src, dst)| Step::Load { src, dst }),
        Verb::Complete => pull(words).map(|(seg, node, pull)| Step::Complete { seg, node, pull }),
        Verb::Report => Ok(Step::Report(words.number()?)),
        Verb::Next => Ok(Step::Next),
        Verb::Finish => Ok(Step::Finish),
        Verb::Fold => Ok(Step::Fold(words.number()?)),
        Verb::Status => pair(words).map(|(seg, node)| Step::Status { seg, node }),
    }
}

// Reads the step of a line that begins with `verb`; `words` hold its fields and nothing else.
fn verb_step(verb: Verb, mut words: Words<'_>) -> Result<Step, LineFault>
    ensures { result ≡ ok_or (value_at_end (step_with verb words.entry)) LineFault.NotAStep }
{
    let step = step(verb, &mut words).map_err(|_| LineFault::NotAStep)?;
    match words.next() {
        Some(_) => Err(LineFault::NotAStep),
        None => Ok(step),
    }
}

// Reads a transaction's line: a partition, an id, a root key, and operations.
#[tactic(auto, unfolding(crate::specs::Steps::txn_in))]
fn txn_line(
    alloc: Global,
    mut words: Words<'_>,
) -> Result<(u64, u64, u64, ShortList<Op>), ReadFault>
    ensures { IsParsedGivenMemory (λ txn. spelled txn.0 txn.1 txn.2 (short_items txn.3)) result
        (txn_in words.entry) }
{
    let part = words.number()?;
    let id = words.number()?;
    let root = words.number()?;
    Ok((part, id, root, ops(alloc, words)?))
}

// Reads the step of a line that begins with `txn`.
fn submit(alloc: Global, schema: &Schema, words: Words<'_>) -> Result<Step, LineFault>
    ensures { IsStep result (txn_step schema.now (txn_in words.entry)) }
{
    let (part, id, root, ops) = match txn_line(alloc, words) {
        Ok(line) => line,
        Err(ReadFault::Malformed) => return Err(LineFault::NotAStep),
        Err(ReadFault::Memory) => return Err(LineFault::Memory),
    };
    match Txn::of(schema, id, root, ops) {
        Ok(txn) => Ok(Step::Submit(part, txn)),
        Err(fault) => Err(LineFault::Txn(fault)),
    }
}

/// Reads the step that `line` spells; one space separates each word from the next.
///
/// Refused with [`LineFault::TooLong`] if the line has over [`MAX_LINE`] bytes, with
/// [`LineFault::NotAStep`] if its words aren't of a step's form, and with [`LineFault::Txn`] if
/// `schema` refuses its transaction. [`LineFault::Memory`] may replace any answer to a line that
/// begins with `txn`.
pub fn read_step(alloc: Global, schema: &Schema, line: &[u8]) -> Result<Step, LineFault>
    ensures step { IsStep result (step_of schema.now line.now) }
    ensures memory { result ≡ Err LineFault.Memory → begins_txn (words_of line.now) ≡ true }
{
    if line.len() > MAX_LINE {
        return Err(LineFault::TooLong);
    }
    let mut words = Words::of(line);
    let Some(first) = words.next() else {
        return Err(LineFault::NotAStep);
    };
    if first == b"txn".as_slice() {
        return submit(alloc, schema, words);
    }
    let Some(verb) = Verb::of(first) else {
        return Err(LineFault::NotAStep);
    };
    verb_step(verb, words)
}
