// The text of what is gathered of a run.
use crate::printing::print_text;
use crate::unfinished::Unfinished;
use sq_gather::{ClosedLink, Gathered};
use sq_model::Answer;
use sq_moves::{NODES, NodeId, Status};
use sq_node::Receipt;
use sq_plan::PartId;
use sq_store::{FamilyStore, SlabStore};
use sq_text::{WriteFault, write_answer, write_at, write_way};
use std::alloc::Global;
use std::io::Write;

/// Prints the families of each partition; for each link the notes of its chunks and its chunks
/// under way; for each segment the nodes that aren't free; `receipts`. If there is no memory for
/// the text, it prints nothing.
pub fn print_gathered<R: Print>(
    rt: &R,
    alloc: Global,
    gathered: &Gathered,
    receipts: &[Receipt],
) -> Result<(), Unfinished> {
    let mut text = Vec::new(alloc);
    // A write to a vector fails only if memory runs out.
    if write_gathered(&mut text, gathered, receipts).is_err() {
        return Err(Unfinished::Memory);
    }
    print_text(rt, &text);
    Ok(())
}

/// Prints the families of each partition, or nothing if there is no memory for the text.
pub fn print_rows<R: Print>(rt: &R, alloc: Global, stores: &[SlabStore]) -> Result<(), Unfinished> {
    let mut text = Vec::new(alloc);
    if write_stores(&mut text, stores).is_err() {
        return Err(Unfinished::Memory);
    }
    print_text(rt, &text);
    Ok(())
}

/// Prints `receipts`, or nothing if there is no memory for the text.
pub fn print_receipts<R: Print>(
    rt: &R,
    alloc: Global,
    receipts: &[Receipt],
) -> Result<(), Unfinished> {
    let mut text = Vec::new(alloc);
    if write_receipts(&mut text, receipts).is_err() {
        return Err(Unfinished::Memory);
    }
    print_text(rt, &text);
    Ok(())
}

fn write_gathered(
    text: &mut Vec<u8>,
    gathered: &Gathered,
    receipts: &[Receipt],
) -> Result<(), WriteFault> {
    write_stores(text, &gathered.stores)?;
    write_links(text, &gathered.links)?;
    write_trees(text, &gathered.statuses)?;
    write_receipts(text, receipts)
}

// The families of each partition.
fn write_stores(text: &mut Vec<u8>, stores: &[SlabStore]) -> Result<(), WriteFault> {
    for (part, store) in (0..u8::MAX).zip(stores) {
        write_store(text, PartId::new(part), store)?;
    }
    Ok(())
}

// The families of a partition, as a dump has them.
fn write_store(text: &mut Vec<u8>, part: PartId, store: &SlabStore) -> Result<(), WriteFault> {
    let mut at = 0;
    for _family in 0..store.len() {
        // There are as many as are counted.
        let Some(family) = store.walk(at) else {
            return Err(WriteFault);
        };
        write_at(text, part, family)?;
        at = family.root().number() + 1;
    }
    Ok(())
}

fn write_links(text: &mut Vec<u8>, links: &[ClosedLink]) -> Result<(), WriteFault> {
    for link in links {
        write_link(text, link)?;
    }
    Ok(())
}

// The notes of a link, and its chunks under way, as a dump has them.
fn write_link(text: &mut Vec<u8>, link: &ClosedLink) -> Result<(), WriteFault> {
    write_notes(text, link)?;
    for chunk in &link.under_way {
        write_way(text, &chunk.note(), chunk.families())?;
    }
    Ok(())
}

fn write_notes(text: &mut Vec<u8>, link: &ClosedLink) -> Result<(), WriteFault> {
    for note in &link.notes {
        let (src, dst, number) = (note.src.number(), note.dst.number(), note.number);
        let (seg, node) = (note.seg.number(), note.node.number());
        let (lo, hi, last) = (note.lo, note.hi, note.last);
        writeln!(
            text,
            "note {src} {dst} {number} {seg} {node} {lo} {hi} {last}"
        )?;
    }
    Ok(())
}

// The tree of each segment.
fn write_trees(text: &mut Vec<u8>, trees: &[[Status; NODES]]) -> Result<(), WriteFault> {
    for statuses in trees {
        write_statuses(text, statuses)?;
    }
    Ok(())
}

// The nodes of a tree that aren't free.
fn write_statuses(text: &mut Vec<u8>, statuses: &[Status; NODES]) -> Result<(), WriteFault> {
    for (node, status) in NodeId::all().iter().zip(statuses) {
        write_status(text, node.number(), *status)?;
    }
    Ok(())
}

// A node, unless it is free.
fn write_status(text: &mut Vec<u8>, node: u64, status: Status) -> Result<(), WriteFault> {
    if status == Status::Free {
        return Ok(());
    }
    writeln!(text, "node {node} {status:?}")?;
    Ok(())
}

// The receipts, each with its root key and its position before its answer.
fn write_receipts(text: &mut Vec<u8>, receipts: &[Receipt]) -> Result<(), WriteFault> {
    for receipt in receipts {
        write_receipt(text, receipt)?;
    }
    Ok(())
}

fn write_receipt(text: &mut Vec<u8>, receipt: &Receipt) -> Result<(), WriteFault> {
    let (root, position) = (receipt.txn.root().number(), receipt.position);
    write!(text, "receipt {root} {position} ")?;
    let id = receipt.txn.id();
    match receipt.reply.clone() {
        Ok(reply) => write_answer(text, &Answer::Replied { id, reply }),
        Err(_) => Err(WriteFault),
    }
}
