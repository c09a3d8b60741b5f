// Laws of what a partition gave up and loaded, and of the transactions that it runs or lets wait.
ghost use Rattle.std.specs.Prelude.{◌≡◌, ◌≢◌, ℕ, ◌<◌, ◌==◌, ◌&&◌, ◌||◌, ◌∷◌, [], true, Bool, List, Option, Some, position, slice_get};
ghost use Rattle.std.specs.List.{list_all};
ghost use Rattle.sq_moves.specs.declared.node.TheConstants.{LEAVES};
ghost use Rattle.sq_moves.specs.Prelude.{is_above};
ghost use Rattle.sq_store.specs.declared.chunk.Note.{Note};
ghost use Rattle.sq_store.specs.ChunkValue.{ChunkValue, covers};
ghost use Rattle.sq_moves.specs.declared.recon.Extent.{Extent};
ghost use Rattle.sq_moves.specs.declared.recon.Link.{Link};
ghost use Rattle.sq_exec.specs.declared.run.Run.{Run};
ghost use Rattle.sq_exec.specs.GivenUp.{is_given_up, given_up_with};
ghost use Rattle.sq_schema.specs.Prelude.{TxnValue};
ghost use Rattle.sq_store.specs.StoreValue.{StoreValue};
ghost use Rattle.sq_exec.specs.declared.location.Location.{Location};
ghost use Rattle.sq_exec.specs.CoreValue.{CoreValue};
ghost use Rattle.sq_exec.specs.Location.{location, is_coming_here, route};
ghost use Rattle.sq_exec.specs.Laws.{HasRowsAt, IsOnItsWay, GoesFirst, TilesNodes, HasNoneOf, AreTiles, one_is_last, covered_to, runs_after, work_on};
ghost use Rattle.sq_exec.specs.Moving.{with_work};
ghost use Rattle.sq_exec.specs.OutLink.{OutLinkValue, new_out_link, IsCut};
ghost use Rattle.sq_exec.specs.Serving.{is_ready_here};
ghost use Rattle.sq_exec.specs.Runs.{is_loaded, is_met, is_whole, runs_with};

/// A chunk adds to what is loaded exactly the keys that its note covers, whichever chunks came
/// before, and its node is whole if the chunk is its last.
pub fn a_chunk_adds_what_its_note_covers()
    ensures keys { (runs : List Run) (note : Note) (key : ℕ)
        → is_loaded (runs_with runs note) key ≡ (is_loaded runs key || covers note key) }
    ensures whole { (runs : List Run) (note : Note) (node : ℕ)
        → is_whole (runs_with runs note) node
        ≡ (is_whole runs node || ((note.node == node) && note.last)) }
{}

/// A node that is begun gives up exactly its leaves.
pub fn a_node_gives_up_its_leaves()
    ensures { (leaves : List Bool) (node leaf : ℕ) → leaf < LEAVES
        → is_given_up (given_up_with leaves node) leaf
        ≡ (is_given_up leaves leaf || is_above node leaf) }
{}

/// A chunk meets what is loaded exactly if a key that its note covers is loaded.
pub fn a_chunk_meets_the_keys_that_are_loaded()
    ensures meets { (runs : List Run) (note : Note) → is_met runs note ≡ true
        → (key : ℕ) × (covers note key ≡ true) × (is_loaded runs key ≡ true) }
    ensures met { (runs : List Run) (note : Note) (key : ℕ) → covers note key ≡ true
        → is_loaded runs key ≡ true
        → is_met runs note ≡ true }
{}

/// In the stage in which a root key moves, a partition runs transactions on it only as the source
/// that hasn't given it up, or as the destination that has loaded it.
pub fn runs_what_it_has_not_given_up_or_has_loaded()
    ensures { (core : CoreValue) (root : ℕ) (at : Location) → location core root ≡ Some at
        → at.stage ≡ core.stage
        → at.src ≢ at.dst → route core root ≡ core.part
        → HasRowsAt core at }
{}

/// A root key is coming to a partition exactly if the move has started, and the key moves there in
/// the running stage and isn't loaded yet.
pub fn comes_until_it_is_loaded()
    ensures comes { (core : CoreValue) (root : ℕ) → is_coming_here core root ≡ true
        → (at : Location) × IsOnItsWay core root at }
    ensures coming { (core : CoreValue) (root : ℕ) (at : Location) → IsOnItsWay core root at
        → is_coming_here core root ≡ true }
{}

/// The first waiting transaction found ready is ready, and no earlier one is.
pub fn none_before_the_first_is_ready()
    ensures { (core : CoreValue) (place : ℕ) (txn : TxnValue)
        → position (is_ready_here core) core.waiting ≡ Some place
        → slice_get core.waiting place ≡ Some txn → GoesFirst core place txn }
{}

/// At the source's end of a link the notes of each tree node tile its keys from the low end: a note
/// is last exactly if it ends at the high end, and no note follows that one. This holds before
/// anything is begun, and still holds as nodes are begun, each once, as chunks are cut, and as they
/// are sent.
pub fn notes_tile_their_nodes()
    ensures starts { (keys : ℕ → ℕ → Extent) → TilesNodes keys new_out_link }
    ensures begins { (keys : ℕ → ℕ → Extent) (out : OutLinkValue) (seg node pull : ℕ)
        → TilesNodes keys out
        → HasNoneOf out seg node → TilesNodes keys (with_work out (work_on keys seg node pull)) }
    ensures cuts { (keys : ℕ → ℕ → Extent) (limit : ℕ) (ends : Link) (out after : OutLinkValue)
        (store left : StoreValue) (note : Note) → TilesNodes keys out
        → IsCut limit ends out store note after left → TilesNodes keys after }
    ensures sends { (keys : ℕ → ℕ → Extent) (out : OutLinkValue) (outbox : Option ChunkValue)
        → TilesNodes keys out → TilesNodes keys (record out { outbox = outbox }) }
{}

/// What is loaded of a node whose notes come in order is one run, from its low end to the end of
/// the notes. The run is whole once the last note came.
pub fn a_node_is_loaded_as_one_run()
    ensures { (lo hi node : ℕ) (note : Note) (notes : List Note)
        → AreTiles lo hi (note ∷ notes)
        → list_all (λ n. n.node == node) (note ∷ notes) ≡ true
        → runs_after [] (note ∷ notes) ≡ record {
          node = node;
          lo = lo;
          hi = covered_to lo (note ∷ notes);
          whole = one_is_last (note ∷ notes);
        } ∷ [] }
{}
