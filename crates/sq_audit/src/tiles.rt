// Whether notes tile their nodes.
ghost use Rattle.std.specs.Prelude.{◌≡◌, reverse, slice_get, IfOk};
ghost use Rattle.std.specs.Bool.{Decides};
ghost use Rattle.sq_gather.specs.Prelude.{extent_in, Tiles};
ghost use Rattle.sq_audit.specs.Notes.{FollowsNewest, IsPart};

use sq_gather::{Extent, NodeId, Note, Opening, Recon, SegId};
use std::alloc::{AllocError, Global};
use std::collections::BTreeMap;

/// Returns true if the notes, the oldest first, tile their nodes from the low ends on.
pub(crate) fn tile(alloc: Global, opening: &Opening, notes: &[Note]) -> Result<bool, AllocError>
    ensures { IfOk result (λ tile. Decides tile (Tiles opening.now (reverse notes.now))) }
{
    let mut newest = BTreeMap::new(alloc);
    for note in notes {
        let node = (note.seg.number(), note.node.number());
        let extent = extent_of(opening.recon(), note.seg, note.node);
        if !continues(extent, newest.get(&node).copied(), *note) {
            return Ok(false);
        }
        newest.insert(node, *note)?;
    }
    Ok(true)
}

// Returns the extent of a node, which is empty if there is no such segment.
fn extent_of(recon: &Recon, seg: SegId, node: NodeId) -> Extent
    ensures { result ≡ extent_in recon.now.width (slice_get recon.now.segments seg) node }
{
    recon.extent(seg, node).unwrap_or(Extent { lo: 0, hi: 0 })
}

// Returns true if `note` begins where `newest`, the newest note of its node, ends, or at the start
// of `extent` if there is none. A note after the node's last one fails.
fn continues(extent: Extent, newest: Option<Note>, note: Note) -> bool
    ensures { Decides result (FollowsNewest extent newest note) }
{
    match newest {
        Some(newest) if newest.last => false,
        Some(newest) => is_part(extent, newest.hi, note),
        None => is_part(extent, extent.lo, note),
    }
}

// Returns true if `note` begins at `from`, ends at most at the end of `extent`, and is last exactly
// if it ends there.
fn is_part(extent: Extent, from: u64, note: Note) -> bool
    ensures { Decides result (IsPart extent from note) }
{
    if note.lo != from || note.hi < from || note.hi > extent.hi {
        return false;
    }
    note.last == (note.hi == extent.hi)
}
