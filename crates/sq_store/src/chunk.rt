// Chunks and their notes.
ghost use Rattle.std.specs.Prelude.{◌≡◌, ◌↔◌, [], length, IsTrue};
ghost use Rattle.sq_store.specs.ChunkValue.{are_within, AreKeyed};

use sq_moves::{NodeId, SegId};
use sq_plan::PartId;
use sq_schema::Family;
use std::marker::Model;

/// What a chunk covers: the root keys of a node from `lo` up to, not including, `hi`, moving from
/// `src` to `dst`.
#[derive(Clone, Copy, Debug, PartialEq, Eq)]
pub struct Note {
    /// The partition that cut the chunk.
    pub src: PartId,
    /// The partition that loads the chunk.
    pub dst: PartId,
    /// The chunk's number among those from `src` to `dst`, from 0.
    pub number: u64,
    pub seg: SegId,
    /// The node of the segment's split tree.
    pub node: NodeId,
    /// The first key that the chunk covers.
    pub lo: u64,
    /// The key after the last.
    pub hi: u64,
    /// True if this is the last chunk of its node.
    pub last: bool,
}

/// A note, and the families of the keys that it covers, by rising root key, each with a log of its
/// own root key. To a contract it is a `ChunkValue`.
#[derive(Debug, Drop)]
pub struct Chunk {
    note: Note,
    families: Vec<Family>,
}

impl Model for Chunk {
    ghost use Rattle.std.specs.Prelude.{IsTrue};
    ghost use Rattle.sq_store.specs.ChunkValue.{ChunkValue, are_within, AreKeyed};

    ghost Value = { ChunkValue };

    ghost view = { λ c. record { note = c.note; families = c.families.items } };

    ghost invariant = { λ c. IsTrue (are_within c.note.lo c.note.hi c.families.items)
        × AreKeyed c.families.items };
}

impl Chunk {
    /// Creates a chunk of `families`. Their root keys rise strictly from the note's `lo` on and
    /// stay below its `hi`, and each log is of its own root key, as it is in every family.
    pub fn new(note: Note, families: Vec<Family>) -> Chunk
        requires within { IsTrue (are_within note.lo note.hi families.items) }
        requires keyed { AreKeyed families.items }
        ensures { result ≡ record { note = note; families = families.items } }
    {
        Chunk { note, families }
    }

    /// Returns the note.
    pub fn note(&self) -> Note
        ensures { result ≡ self.now.note }
    {
        self.note
    }

    /// Returns the families by rising root key; the note covers all of their root keys.
    pub fn families(&self) -> &[Family]
        ensures families { result.now ≡ self.now.families }
        ensures within { IsTrue (are_within self.now.note.lo self.now.note.hi self.now.families) }
        ensures keyed { AreKeyed self.now.families }
    {
        self.families.as_slice()
    }

    /// Returns the number of families.
    pub fn len(&self) -> usize
        ensures { result ≡ length self.now.families }
    {
        self.families.len()
    }

    /// Returns true if the chunk has no family.
    pub fn is_empty(&self) -> bool
        ensures { IsTrue result ↔ (self.now.families ≡ []) }
    {
        self.families.is_empty()
    }

    /// Returns the note and the families, uncopied; [`Chunk::new`] takes no memory to put them
    /// together again.
    pub fn into_parts(self) -> (Note, Vec<Family>)
        ensures note { result.0 ≡ self.note }
        ensures families { result.1.items ≡ self.families }
        ensures within { IsTrue (are_within self.note.lo self.note.hi self.families) }
        ensures keyed { AreKeyed self.families }
    {
        let Chunk { note, families } = self;
        (note, families)
    }
}
