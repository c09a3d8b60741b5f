// Whether each family is where the notes place its root key.
ghost use Rattle.std.specs.Prelude.{◌≡◌, ℕ, find, IfOk, Some, slice_get};
ghost use Rattle.std.specs.Bool.{Decides};
ghost use Rattle.sq_gather.specs.Prelude.{AreDisjoint, cut_notes, HasEachPart};
ghost use Rattle.sq_audit.specs.Notes.{LinksPlaced};
ghost use Rattle.sq_audit.specs.Located.{entry_of, entries_in, ListsAll};
ghost use Rattle.sq_audit.specs.Spans.{marked_in, AreByKey, IsPlacedBy};
ghost use Rattle.sq_audit.specs.Fits.{ArePlaced};

use crate::located::{Located, Site};
use crate::spans::{Span, by_key, part_of};
use sq_gather::{Gathered, Opening};
use std::alloc::{AllocError, Global};

/// Returns true if each family in `all` is where the notes place its root key. The notes are
/// placed, and no two of them share a key.
pub(crate) fn are_placed(
    alloc: Global,
    opening: &Opening,
    g: &Gathered,
    all: &[Located],
) -> Result<bool, AllocError>
    requires parts { HasEachPart opening.now g.now }
    requires links { LinksPlaced opening.now g.now }
    requires apart { AreDisjoint (cut_notes g.now) }
    requires listed { ListsAll g.now (entries_in all.now) }
    ensures { IfOk result (λ placed. Decides placed (ArePlaced opening.now g.now)) }
{
    let spans = by_key(alloc, &g.links)?;
    for located in all {
        if !is_placed(opening, g.stage, &spans, located) {
            return Ok(false);
        }
    }
    Ok(true)
}

// Returns true if the family is in a chunk, or in the store where the notes of the stage place its
// root key.
fn is_placed(opening: &Opening, stage: u64, spans: &[Span], located: &Located) -> bool
    requires { AreByKey (marked_in spans.now) }
    ensures { Decides result (IsPlacedBy opening.now stage (marked_in spans.now)
        (entry_of located.now)) }
{
    let Site::Store(part) = located.site else {
        return true;
    };
    match part_of(opening, stage, spans, located.family.root()) {
        Some(at) => u32::from(at.number()) == part,
        None => false,
    }
}
