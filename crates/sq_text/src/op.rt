// Reads the operations of a transaction.
ghost use Rattle.sq_rows.specs.ShortList.{short_items};
ghost use Rattle.sq_text.specs.Ops.{op_with, ops_in};
ghost use Rattle.sq_text.specs.Faults.{IsParsedGivenMemory};

use crate::fault::{Malformed, ReadFault};
use crate::verb::OpName;
use crate::words::Words;
use sq_schema::{Op, ShortList};
use std::alloc::Global;

// Reads the fields of the operation `name`.
#[tactic(auto, unfolding(crate::specs::Ops::op_with))]
fn op(alloc: Global, name: OpName, words: &mut Words<'_>) -> Result<Op, ReadFault>
    ensures { IsParsedGivenMemory (λ op. (op, words.new)) result (op_with name words.old) }
{
    let key = words.key()?;
    match name {
        OpName::Get => Ok(Op::Get(key)),
        OpName::Put => Ok(Op::Put(key, words.row(alloc)?)),
        OpName::Add => Ok(Op::Add(key, words.signed()?)),
        OpName::Del => Ok(Op::Del(key)),
        OpName::Check => Ok(Op::Check(key, words.signed()?)),
    }
}

// The capacity of a list when it gets its second operation; it grows if more follow.
const SEVERAL: usize = 4;

// Reads operations up to the end of `words`.
pub(crate) fn ops(alloc: Global, mut words: Words<'_>) -> Result<ShortList<Op>, ReadFault>
    ensures { IsParsedGivenMemory short_items result (ops_in words.entry) }
{
    let mut ops = ShortList::new(alloc);
    while let Some(word) = words.next() {
        let name = OpName::of(word).ok_or(Malformed)?;
        ops.push(alloc, SEVERAL, op(alloc, name, &mut words)?)?;
    }
    Ok(ops)
}
