// The keys that notes cover, and where the notes place these keys.
ghost use Rattle.std.specs.Prelude.{◌≡◌, ◌≤◌, ◌++◌, nat_le, length, find, IfOk, OnOk};
ghost use Rattle.std.specs.Option.{option_map};
ghost use Rattle.std.specs.List.{flat_map};
ghost use Rattle.std.specs.List.Sorted.{IsPermutation, IsNonDecreasingBy};
ghost use Rattle.sq_gather.specs.Prelude.{owner_in, loads_of, loaded_count};
ghost use Rattle.sq_audit.specs.Spans.{marked_of, marked_in, marked, notes_of, first_key, is_over, AreByKey, part_by};

use sq_gather::{ClosedLink, Note, Opening, PartId, Root};
use std::alloc::{AllocError, Global};

/// A note that covers keys, and whether its chunk was loaded.
#[derive(Clone, Copy, Debug)]
pub(crate) struct Span<'a> {
    pub(crate) note: &'a Note,
    pub(crate) loaded: bool,
}

/// Returns the notes of the loaded chunks of `link`.
pub(crate) fn loads(link: &ClosedLink) -> &[Note]
    ensures { result.now ≡ loads_of link.now }
{
    &link.notes[..loaded_count(link)]
}

// Returns how many chunks of `link` were loaded.
fn loaded_count(link: &ClosedLink) -> usize
    ensures count { result ≡ loaded_count link.now }
    ensures within { result ≤ length link.now.notes }
{
    link.notes.len().saturating_sub(link.under_way.len())
}

/// Returns the notes of `links` that cover keys, sorted by their first keys.
pub(crate) fn by_key(alloc: Global, links: &[ClosedLink]) -> Result<Vec<Span<'_>>, AllocError>
    ensures all { IfOk result (λ spans. IsPermutation (flat_map notes_of links.now)
        (marked_in spans.items)) }
    ensures sorted { IfOk result (λ spans. IsNonDecreasingBy first_key (marked_in spans.items)) }
{
    let mut spans = Vec::new(alloc);
    for link in links {
        add_link(&mut spans, link)?;
    }
    spans.sort_by_key(|span| span.note.lo)?;
    Ok(spans)
}

// Adds the notes of `link` that cover keys.
fn add_link<'a>(spans: &mut Vec<Span<'a>>, link: &'a ClosedLink) -> Result<(), AllocError>
    ensures { OnOk result (marked_in spans.new.items
        ≡ marked_in spans.old.items ++ notes_of link.now) }
{
    let count = loaded_count(link);
    add(spans, &link.notes[..count], true)?;
    add(spans, &link.notes[count..], false)
}

// Adds those of `notes` that cover keys.
fn add<'a>(spans: &mut Vec<Span<'a>>, notes: &'a [Note], loaded: bool) -> Result<(), AllocError>
    ensures { OnOk result (marked_in spans.new.items
        ≡ marked_in spans.old.items ++ marked loaded notes.now) }
{
    for note in notes {
        if note.lo < note.hi {
            spans.push(Span { note, loaded })?;
        }
    }
    Ok(())
}

/// Returns the partition where the notes of the stage place `root`, or `None` if it is under way.
pub(crate) fn part_of(opening: &Opening, stage: u64, spans: &[Span], root: Root) -> Option<PartId>
    requires { AreByKey (marked_in spans.now) }
    ensures { result ≡ part_by opening.now stage root (find (is_over root) (marked_in spans.now)) }
{
    let Some(span) = covering(spans, root.number()) else {
        return Some(owner_in(opening, stage, root));
    };
    if span.loaded {
        Some(span.note.dst)
    } else {
        None
    }
}

// Returns the owner of `root` when the stage began: the new owner if the root key had moved before,
// else the old one.
fn owner_in(opening: &Opening, stage: u64, root: Root) -> PartId
    ensures { result ≡ owner_in opening.now stage root }
{
    let old = opening.old_plan().owner(root);
    let new = opening.new_plan().owner(root);
    if old != new && opening.recon().stage_on(old, new) < stage {
        new
    } else {
        old
    }
}

fn covering<'a>(spans: &[Span<'a>], key: u64) -> Option<Span<'a>>
    requires { AreByKey (marked_in spans.now) }
    ensures { option_map marked_of result ≡ find (is_over key) (marked_in spans.now) }
{
    let count = spans.partition_point(
        |span: &Span| -> bool
            ensures { result ≡ nat_le span.now.note.now.lo key }
        { span.note.lo <= key },
    );
    let last = spans[..count].last()?;
    if key < last.note.hi {
        Some(*last)
    } else {
        None
    }
}
