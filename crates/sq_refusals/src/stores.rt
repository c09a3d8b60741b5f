// Tries the calls of a store of families.
ghost use Rattle.std.specs.Prelude.{IfOk, IsTrue};
ghost use Rattle.sq_store.specs.StoreValue.{roots_differ, has_none_of};

use crate::printing::{say, value_of};
use crate::unfinished::Unfinished;
use sq_model::{Answer, Step};
use sq_moves::Extent;
use sq_plan::PartId;
use sq_schema::{Family, ROOT_END, Reply, Schema, Txn};
use sq_store::{Cut, FamilyStore, SlabStore, VecStore};
use sq_text::{read_step, write_answer, write_at};
use std::alloc::{AllocError, Global};
use std::io::Write;

const LINES: [&str; 3] = [
    "txn 0 1 5 put 0 0 5 61",
    "txn 0 2 6 put 0 0 7 -",
    "txn 0 3 5 add 0 0 1",
];

// The families of all root keys.
const ALL: Extent = Extent {
    lo: 0,
    hi: ROOT_END,
};

/// Tries the calls of a `VecStore`.
pub fn try_vec_store<W: Write>(alloc: Global, writer: &mut W) -> Result<(), Unfinished> {
    say(writer, "starts");
    let txns = transactions(alloc)?;
    say(writer, "opened");
    make_calls(writer, &mut VecStore::new(alloc), &txns)
}

/// Tries the calls of a `SlabStore`.
pub fn try_block_store<W: Write>(alloc: Global, writer: &mut W) -> Result<(), Unfinished> {
    say(writer, "starts");
    let txns = transactions(alloc)?;
    say(writer, "opened");
    make_calls(writer, &mut SlabStore::new(alloc), &txns)
}

// Returns the transactions of [`LINES`].
fn transactions(alloc: Global) -> Result<Vec<Txn>, Unfinished> {
    let mut txns = Vec::with_capacity(alloc, LINES.len())?;
    for line in LINES {
        match read_step(alloc, &Schema::largest(), line.as_bytes())? {
            Step::Submit(_, txn) => txns.push(txn)?,
            _ => return Err(Unfinished::Malformed),
        }
    }
    Ok(txns)
}

// Applies transactions, and takes a family out and gives it back. A call that is refused is made
// once more.
fn make_calls<W: Write, S: FamilyStore>(
    writer: &mut W,
    store: &mut S,
    txns: &[Txn],
) -> Result<(), Unfinished> {
    for txn in txns {
        apply(writer, store, txn)?;
    }
    let cut = take(writer, store)?;
    give(writer, store, cut.families)
}

fn apply<W: Write, S: FamilyStore>(
    writer: &mut W,
    store: &mut S,
    txn: &Txn,
) -> Result<(), Unfinished> {
    let reply = apply_twice(writer, store, txn)?;
    let id = txn.id();
    drop(write_answer(writer, &Answer::Replied { id, reply }));
    dump(writer, store);
    Ok(())
}

fn apply_twice<W: Write, S: FamilyStore>(
    writer: &mut W,
    store: &mut S,
    txn: &Txn,
) -> Result<Reply, Unfinished> {
    match store.apply(txn) {
        Ok(reply) => Ok(reply),
        Err(_) => {
            say(writer, "refused apply");
            dump(writer, store);
            value_of(store.apply(txn))
        }
    }
}

// Takes the first family out.
fn take<W: Write, S: FamilyStore>(writer: &mut W, store: &mut S) -> Result<Cut, Unfinished>
    ensures differ { IfOk result (λ cut. IsTrue (roots_differ cut.families.items)) }
    ensures absent { IfOk result
        (λ cut. IsTrue (has_none_of (S.contents store.new) cut.families.items)) }
{
    let cut = take_twice(writer, store)?;
    write_roots(writer, "took", &cut.families);
    dump(writer, store);
    Ok(cut)
}

fn take_twice<W: Write, S: FamilyStore>(writer: &mut W, store: &mut S) -> Result<Cut, Unfinished>
    ensures differ { IfOk result (λ cut. IsTrue (roots_differ cut.families.items)) }
    ensures absent { IfOk result
        (λ cut. IsTrue (has_none_of (S.contents store.new) cut.families.items)) }
{
    match take_once(store) {
        Ok(cut) => Ok(cut),
        Err(_) => {
            say(writer, "refused take");
            dump(writer, store);
            value_of(take_once(store))
        }
    }
}

fn take_once<S: FamilyStore>(store: &mut S) -> Result<Cut, AllocError>
    ensures differ { IfOk result (λ cut. IsTrue (roots_differ cut.families.items)) }
    ensures absent { IfOk result
        (λ cut. IsTrue (has_none_of (S.contents store.new) cut.families.items)) }
{
    Ok(store.take(ALL, 64)?)
}

// Gives families back.
fn give<W: Write, S: FamilyStore>(
    writer: &mut W,
    store: &mut S,
    families: Vec<Family>,
) -> Result<(), Unfinished>
    requires differ { IsTrue (roots_differ families.items) }
    requires absent { IsTrue (has_none_of (S.contents store.old) families.items) }
{
    if let Err(back) = store.give(families) {
        say(writer, "refused give");
        write_roots(writer, "back", &back);
        dump(writer, store);
        value_of(store.give(back))?;
    }
    say(writer, "gave");
    dump(writer, store);
    Ok(())
}

// Writes the root key of each family after `word`.
fn write_roots<W: Write>(writer: &mut W, word: &str, families: &[Family]) {
    for family in families {
        let root = family.root().number();
        drop(writeln!(writer, "{word} {root}"));
    }
}

// Writes the families by rising root key.
fn dump<W: Write, S: FamilyStore>(writer: &mut W, store: &S) {
    let mut at = 0;
    for _family in 0..ROOT_END {
        let Some(family) = store.walk(at) else {
            break;
        };
        drop(write_at(writer, PartId::new(0), family));
        at = family.root().number() + 1;
    }
}
