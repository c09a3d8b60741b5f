// Counts chunks as families come.
ghost use Rattle.std.specs.Prelude.{◌≡◌, ◌+◌, Some, None};
ghost use Rattle.sq_picture.specs.Cutting.{room_behind, chunks_more};
ghost use Rattle.sq_picture.specs.Sizes.{in_64_bits};

/// The chunks of the families of a node, one family after another, if the node is cut in one go.
#[derive(Clone, Copy)]
pub(crate) struct Cutting {
    /// How many bytes a chunk holds.
    pub(crate) limit: u64,
    /// How many chunks there are so far.
    pub(crate) chunks: u64,
    /// The room left in the last chunk, in bytes; `None` if that is empty.
    pub(crate) room: Option<u64>,
}

impl Cutting {
    /// One empty chunk, before the first family.
    pub(crate) fn new(limit: u64) -> Cutting
        ensures { result ≡ record { limit = limit; chunks = 1; room = None } }
    {
        Cutting {
            limit,
            chunks: 1,
            room: None,
        }
    }

    /// Takes one more family, of `size` bytes.
    pub(crate) fn take(&mut self, size: u64)
        ensures limit { self.new.limit ≡ self.old.limit }
        ensures chunks { self.new.chunks
            ≡ in_64_bits (self.old.chunks + chunks_more self.old.room size) }
        ensures room { self.new.room ≡ Some (room_behind self.old.limit self.old.room size) }
    {
        let chunks = self.chunks;
        match self.room {
            Some(room) if size <= room => {
                self.room = Some(room - size);
            }
            Some(_) => {
                self.chunks = chunks.saturating_add(1);
                self.room = Some(self.limit.saturating_sub(size));
            }
            None => {
                self.room = Some(self.limit.saturating_sub(size));
            }
        }
    }
}
