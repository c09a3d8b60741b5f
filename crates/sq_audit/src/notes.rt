// Whether the notes of links are well formed.
ghost use Rattle.std.specs.Prelude.{◌≡◌, [], true, reverse, slice_index_or, IsTrue, IfOk};
ghost use Rattle.std.specs.Option.{option_copied};
ghost use Rattle.std.specs.Bool.{Decides};
ghost use Rattle.sq_gather.specs.Prelude.{is_node, is_begun, status_at, goes, AreNumbered, IsLinkNote, IsLinkPlaced};
ghost use Rattle.sq_audit.specs.Notes.{LinksPlaced, AreOfLast, HoldTheirKeys, AreLinkNotes};

use crate::tiles::tile;
use sq_gather::{
    Chunk, ClosedLink, Gathered, NODES, NodeId, Note, Opening, PartId, Range, SegId, Status,
};
use std::alloc::{AllocError, Global};

/// Returns true if the notes of each link are numbered from 0, are about begun nodes of the link's
/// segments and tile them, and the chunks under way are those of the last notes.
pub(crate) fn links_fit(alloc: Global, opening: &Opening, g: &Gathered) -> Result<bool, AllocError>
    ensures { IfOk result (λ fit. Decides fit (LinksPlaced opening.now g.now)) }
{
    for link in &g.links {
        if !link_fits(alloc, opening, g, link)? {
            return Ok(false);
        }
    }
    Ok(true)
}

// Returns true if this holds of the notes and the chunks of `link`.
fn link_fits(
    alloc: Global,
    opening: &Opening,
    g: &Gathered,
    link: &ClosedLink,
) -> Result<bool, AllocError>
    ensures { IfOk result (λ fits. Decides fits (IsLinkPlaced opening.now g.now link.now)) }
{
    if !are_of_last(&link.under_way, &link.notes) {
        return Ok(false);
    }
    if !are_numbered(&link.notes) {
        return Ok(false);
    }
    if !are_link_notes(opening, g, link) {
        return Ok(false);
    }
    tile(alloc, opening, &link.notes)
}

// Returns true if the chunks are those of the last notes, in the same order.
fn are_of_last(chunks: &[Chunk], notes: &[Note]) -> bool
    ensures last { Decides result (AreOfLast chunks.now notes.now) }
    ensures within { result ≡ true → HoldTheirKeys chunks.now }
{
    let Some(loaded) = notes.len().checked_sub(chunks.len()) else {
        return false;
    };
    for (at, chunk) in chunks.iter().enumerate() {
        if chunk.note() != notes[loaded + at] {
            return false;
        }
        // For the proof alone: a chunk's families have keys that its note covers, as every chunk's
        // have.
        chunk.families();
    }
    true
}

// Returns true if the notes, the oldest first, are numbered from 0.
fn are_numbered(notes: &[Note]) -> bool
    ensures { Decides result (AreNumbered (reverse notes.now)) }
{
    for (at, note) in notes.iter().enumerate() {
        if note.number != at as u64 {
            return false;
        }
    }
    true
}

// Returns true if each note of `link` belongs to it.
fn are_link_notes(opening: &Opening, g: &Gathered, link: &ClosedLink) -> bool
    ensures { Decides result (AreLinkNotes opening.now g.now link.now) }
{
    for note in &link.notes {
        if !is_link_note(opening, g, link, note) {
            return false;
        }
    }
    true
}

// Returns true if `note` goes along `link`, and is about a begun node of one of its segments, which
// the stage moves.
fn is_link_note(opening: &Opening, g: &Gathered, link: &ClosedLink, note: &Note) -> bool
    ensures { Decides result (IsLinkNote opening.now g.now link.now note.now) }
{
    if note.src != link.src {
        return false;
    }
    if note.dst != link.dst {
        return false;
    }
    let segment = opening.recon().segments().get(note.seg.index());
    if !goes(segment, link.src, link.dst) {
        return false;
    }
    if opening.recon().stage_on(link.src, link.dst) != g.stage {
        return false;
    }
    is_begun(status_of(&g.statuses, note.seg, note.node))
}

// Returns true if the segment exists and goes from `src` to `dst`.
fn goes(segment: Option<&Range>, src: PartId, dst: PartId) -> bool
    ensures { result ≡ goes (option_copied segment.entry) src dst }
{
    match segment {
        Some(segment) => segment.src == src && segment.dst == dst,
        None => false,
    }
}

// Returns the status of node `node` in the tree of segment `seg`, or `Free` if there is no such
// segment.
fn status_of(statuses: &[[Status; NODES]], seg: SegId, node: NodeId) -> Status
    ensures status { result ≡ status_at (slice_index_or statuses.now seg []) node }
    ensures node { IsTrue (is_node node) }
{
    let place = node.index();
    match statuses.get(seg.index()) {
        Some(statuses) => statuses[place],
        None => Status::Free,
    }
}

// Returns true if the source gave up a node with this status.
fn is_begun(status: Status) -> bool
    ensures { result ≡ is_begun status }
{
    matches!(status, Status::Partial(_) | Status::Complete(_))
}
