// Laws of the chunks that are cut out of a store.
ghost use Rattle.std.specs.Prelude.{ℕ};
ghost use Rattle.sq_moves.specs.declared.recon.Extent.{Extent};
ghost use Rattle.sq_store.specs.Prelude.{StoreValue, HoldsByRoot};
ghost use Rattle.sq_store.specs.declared.chunk.Note.{Note};
ghost use Rattle.sq_store.specs.ChunkLaws.{HasCovered, LeavesOthers};
ghost use Rattle.sq_store.specs.NextChunk.{next_chunk};

/// A chunk takes every family whose root key its note covers, and leaves every other.
pub fn takes_what_its_note_covers()
    ensures taken { (store : StoreValue) (base : Note) (rest : Extent) (limit root : ℕ)
        → HoldsByRoot store → HasCovered store (next_chunk store base rest limit) root }
    ensures left { (store : StoreValue) (base : Note) (rest : Extent) (limit root : ℕ)
        → LeavesOthers store rest.lo (next_chunk store base rest limit) root }
{}
