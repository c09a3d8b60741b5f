// The owners of root keys before and after a move, as JSON.
ghost use Rattle.std.specs.Prelude.{◌≡◌, IfOk};
ghost use Rattle.serde_json.specs.View.{view};
ghost use Rattle.sq_picture.specs.Asked.{IsAnyText};
ghost use Rattle.sq_picture.specs.KeyData.{ends_data, placed_data, key_data};

use crate::asked::OpeningTelling;
use crate::owners::{range_with, told_leaf};
use serde_json::{Value, json};
use sq_moves::{Leaf, Opening, Range, SegId};
use sq_schema::Root;
use sq_world::Told;
use std::alloc::{AllocError, Global};
use std::io;
use std::io::Write;

/// Writes the owners of root keys as JSON, one object a line: `key`, and its owners, `old` before
/// the move and `new` after it; for a root key that moves its `range`, with `lo` and `hi`, and its
/// `stage`; and perhaps its `segment` and `leaf`.
#[derive(Drop)]
pub struct OwnersAsJson<'a> {
    /// The root keys, in the order of the lines.
    pub keys: &'a [Root],
    /// Whether segments and leaves are written.
    pub tells_leaves: bool,
}

impl OpeningTelling for OwnersAsJson<'_> {
    ghost tells = { λ _. IsAnyText };

    fn tell<W: Write>(&self, alloc: Global, writer: &mut W, opening: &Opening) -> io::Result<Told> {
        let Ok(text) = keys_text(alloc, opening, self.keys, self.tells_leaves) else {
            return Ok(Told::NoMemory);
        };
        writer.write_all(text.as_bytes())?;
        Ok(Told::Written)
    }
}

// The lines of root keys. Fails only if memory runs out.
fn keys_text(
    alloc: Global,
    opening: &Opening,
    keys: &[Root],
    tells_leaves: bool,
) -> Result<String, AllocError> {
    let mut text = String::new(alloc);
    for key in keys {
        let value = key_value(alloc, opening, *key, tells_leaves)?;
        text.push_str(value.to_string(alloc)?.as_str())?;
        text.push('\n')?;
    }
    Ok(text)
}

// Returns a root key as JSON: its owners, and where it moves.
fn key_value(
    alloc: Global,
    opening: &Opening,
    root: Root,
    tells_leaf: bool,
) -> Result<Value, AllocError>
    ensures { IfOk result (λ value. view value ≡ key_data tells_leaf opening.now root) }
{
    let recon = opening.recon();
    let place = told_leaf(recon, root, tells_leaf);
    placed_value(alloc, opening, root, range_with(recon, root), place)
}

// The same of a root key that moves in `range` and is at `place`, a segment and a leaf of it.
fn placed_value(
    alloc: Global,
    opening: &Opening,
    root: Root,
    range: Option<Range>,
    place: Option<(SegId, Leaf)>,
) -> Result<Value, AllocError>
    ensures { IfOk result (λ value. view value ≡ placed_data opening.now root range place) }
{
    let key = root.number();
    let old = opening.old_plan().owner(root).number();
    let new = opening.new_plan().owner(root).number();
    let Some(range) = range else {
        return json!(in alloc; {"key": key, "new": new, "old": old});
    };
    let stage = opening.recon().stage_on(range.src, range.dst);
    let range = ends_value(alloc, range)?;
    match place {
        None => json!(in alloc; {
            "key": key,
            "new": new,
            "old": old,
            "range": range,
            "stage": stage
        }),
        Some((segment, leaf)) => json!(in alloc; {
            "key": key,
            "leaf": leaf.number(),
            "new": new,
            "old": old,
            "range": range,
            "segment": segment.number(),
            "stage": stage
        }),
    }
}

// Returns the ends of a range as JSON.
fn ends_value(alloc: Global, range: Range) -> Result<Value, AllocError>
    ensures { IfOk result (λ value. view value ≡ ends_data range) }
{
    json!(in alloc; {"hi": range.hi, "lo": range.lo})
}
