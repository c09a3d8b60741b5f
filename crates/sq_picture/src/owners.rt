// The owners of root keys before and after a move.
ghost use Rattle.std.specs.Prelude.{◌≡◌, OnOk};
ghost use Rattle.std.specs.Io.KnownBytes.{Appends};
ghost use Rattle.std.specs.List.{flat_map};
ghost use Rattle.sq_picture.specs.Owners.{range_with, key_range_text, told_leaf, leaf_text};
ghost use Rattle.sq_picture.specs.Owners.{key_owners_text, owner_line, IsOwnersText};

use crate::asked::OpeningTelling;
use sq_moves::{Leaf, Opening, Range, Recon, SegId};
use sq_schema::Root;
use sq_world::Told;
use std::alloc::Global;
use std::io;
use std::io::Write;

/// Writes the owners of root keys, one line each: the owner before the move and the one after it,
/// and for a root key that moves its range, its stage, and perhaps its segment and leaf.
#[derive(Drop)]
pub struct OwnersAsLines<'a> {
    /// The root keys, in the order of the lines.
    pub keys: &'a [Root],
    /// Whether segments and leaves are written.
    pub tells_leaves: bool,
}

impl OpeningTelling for OwnersAsLines<'_> {
    ghost tells = { λ owners. IsOwnersText owners.tells_leaves owners.keys.now };

    fn tell<W: Write>(
        &self,
        _alloc: Global,
        writer: &mut W,
        opening: &Opening,
    ) -> io::Result<Told> {
        write_owners(writer, opening, self.keys, self.tells_leaves)?;
        Ok(Told::Written)
    }
}

// Writes the lines of root keys.
fn write_owners<W: Write>(
    writer: &mut W,
    opening: &Opening,
    keys: &[Root],
    tells_leaves: bool,
) -> io::Result<()>
    ensures { OnOk result (Appends (W.contents writer.old) (W.contents writer.new)
        (flat_map (owner_line tells_leaves opening.now) keys.now)) }
{
    for key in keys {
        write_owner(writer, opening, *key, tells_leaves)?;
    }
    Ok(())
}

// Writes the line of a root key.
fn write_owner<W: Write>(
    writer: &mut W,
    opening: &Opening,
    root: Root,
    tells_leaf: bool,
) -> io::Result<()>
    ensures { OnOk result (Appends (W.contents writer.old) (W.contents writer.new)
        (owner_line tells_leaf opening.now root)) }
{
    write_owners_of(writer, opening, root)?;
    write_range_with(writer, opening.recon(), root)?;
    write_leaf(writer, told_leaf(opening.recon(), root, tells_leaf))?;
    writeln!(writer, "")
}

// Writes a root key, and its owner by either plan.
fn write_owners_of<W: Write>(writer: &mut W, opening: &Opening, root: Root) -> io::Result<()>
    ensures { OnOk result (Appends (W.contents writer.old) (W.contents writer.new)
        (key_owners_text opening.now root)) }
{
    let key = root.number();
    let old = opening.old_plan().owner(root).number();
    let new = opening.new_plan().owner(root).number();
    write!(writer, "key {key} {old} {new}")
}

/// The reconfiguration range that contains a root key.
pub(crate) fn range_with(recon: &Recon, root: Root) -> Option<Range>
    ensures { result ≡ range_with recon.now root }
{
    let key = root.number();
    let ranges = recon.ranges();
    for range in ranges {
        if range.lo <= key && key < range.hi {
            return Some(*range);
        }
    }
    None
}

// Writes the range and the stage of a root key, if it moves.
fn write_range_with<W: Write>(writer: &mut W, recon: &Recon, root: Root) -> io::Result<()>
    ensures { OnOk result (Appends (W.contents writer.old) (W.contents writer.new)
        (key_range_text recon.now (range_with recon.now root))) }
{
    match range_with(recon, root) {
        Some(Range { lo, hi, src, dst }) => {
            let stage = recon.stage_on(src, dst);
            write!(writer, " range {lo} {hi} stage {stage}")
        }
        None => Ok(()),
    }
}

/// The segment and the leaf of a root key; `None` if it doesn't move, or if they aren't asked for.
pub(crate) fn told_leaf(recon: &Recon, root: Root, tells_leaf: bool) -> Option<(SegId, Leaf)>
    ensures { result ≡ told_leaf tells_leaf recon.now root }
{
    if tells_leaf { recon.find(root) } else { None }
}

// Writes a segment and a leaf of it, if there is one.
fn write_leaf<W: Write>(writer: &mut W, place: Option<(SegId, Leaf)>) -> io::Result<()>
    ensures { OnOk result (Appends (W.contents writer.old) (W.contents writer.new)
        (leaf_text place)) }
{
    match place {
        Some((seg, leaf)) => {
            let (seg, leaf) = (seg.number(), leaf.number());
            write!(writer, " segment {seg} leaf {leaf}")
        }
        None => Ok(()),
    }
}
