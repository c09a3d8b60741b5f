// Cuts chunks out of a store.
ghost use Rattle.std.specs.Prelude.{◌≡◌, ◌≤◌, IfOk, OnErr};
ghost use Rattle.sq_store.specs.Prelude.{without_between};
ghost use Rattle.sq_store.specs.NextChunk.{next_chunk};

use crate::chunk::{Chunk, Note};
use crate::store::{Cut, FamilyStore};
use sq_moves::Extent;
use std::alloc::AllocError;

/// Cuts the next chunk out of `store`: families of `rest`, the rest of a node, by rising root key;
/// the first, and then as many as fit with it into `limit` bytes. The chunk ends at the root key of
/// the first family that it doesn't take, or at the end of `rest`, and is the node's last exactly
/// if it ends there. Its note is otherwise `base`. If memory runs out, the store stays as it was.
pub fn cut_next<S: FamilyStore>(
    store: &mut S,
    base: Note,
    rest: Extent,
    limit: u64,
) -> Result<Chunk, AllocError>
    ensures chunk { IfOk result (λ chunk. chunk
        ≡ next_chunk (S.contents store.old) base rest limit) }
    ensures store { IfOk result (λ chunk. S.contents store.new
        ≡ without_between (S.contents store.old) rest.lo chunk.note.hi) }
    ensures err { OnErr result (S.contents store.new ≡ S.contents store.old) }

    ensures from { rest.lo ≤ rest.hi → IfOk result (λ chunk. rest.lo ≤ chunk.note.hi) }
    ensures upto { IfOk result (λ chunk. chunk.note.hi ≤ rest.hi) }
{
    let Cut {
        families,
        end,
        last,
    } = store.take(rest, limit)?;
    let note = Note {
        lo: rest.lo,
        hi: end,
        last,
        ..base
    };
    Ok(Chunk::new(note, families))
}
