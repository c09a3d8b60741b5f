// What each step of a node does to it, and that it keeps the invariants of the node.
ghost use Rattle.std.specs.Prelude.{◌≡◌, ◌<◌, ℕ, Bool, List, length, true, false, Some, None, IfSome, Contains};
ghost use mathlib.Core.Option.{some};
ghost use lib.ListN.{get_elem?};
ghost use Rattle.sq_schema.specs.Prelude.{TxnValue};
ghost use Rattle.sq_moves.specs.declared.status.Status.{Status};
ghost use Rattle.sq_moves.specs.declared.status.Status.TheVariants.{Partial, Complete};
ghost use Rattle.sq_moves.specs.Prelude.{is_begun, status_at, IsGrown};
ghost use Rattle.sq_store.specs.Prelude.{StoreValue};
ghost use Rattle.sq_store.specs.declared.chunk.Note.{Note};
ghost use Rattle.sq_store.specs.ChunkValue.{ChunkValue, IsChunk};
ghost use Rattle.sq_moves.specs.declared.recon.Range.{Range};
ghost use Rattle.sq_moves.specs.Prelude.{OpeningValue, IsOpening};
ghost use Rattle.sq_exec.specs.declared.outcome.Outcome.{Outcome};
ghost use Rattle.sq_exec.specs.declared.outcome.Resumed.{Resumed};
ghost use Rattle.sq_exec.specs.Prelude.{CoreValue, is_whole, out_at, inbox_at, loaded_at, may_load, CutsFor, IsTaken, IsResumed};
ghost use Rattle.sq_shared.specs.declared.view.View.{View};
ghost use Rattle.sq_shared.specs.Rule.{IsTreeOf};
ghost use Rattle.sq_shared.specs.Plays.{Won};
ghost use Rattle.sq_node_model.specs.NodeValue.{NodeAtWork, node_of};
ghost use Rattle.sq_node_model.specs.Steps.{node_cut, node_sent, node_received, node_completed};
ghost use Rattle.sq_node_model.specs.BeganWith.{BeganWith, CanBegin, first_began};
ghost use Rattle.sq_node_model.specs.BegunHolds.{IsBegunOver};
ghost use Rattle.sq_node_model.specs.Cores.{IsCoreOf, OpensWith};
ghost use Rattle.sq_node_model.specs.AtWork.{Keeps, KeepsAlways, KeepsInStage, KeepsAsReceiver, NewNodesHold, HasNoneToLoadFrom, LoadsOne, LoadsAs, ServesAs};
ghost use Rattle.sq_node_model.specs.AtWork.{with_partition, with_views, DidNoMore, WonWord, WinsAs, WinsBegin, WinsBeginOutward, begun_value};
ghost use Rattle.sq_node_model.specs.AtWork.{once_begun, once_sent, once_received, once_completed, once_served};

/// A stage may begin with the families of the opening rows.
pub fn an_opening_can_begin()
    ensures { (o : OpeningValue) → CanBegin o (first_began o) }
{}

/// A partition that opens with the families of the root keys that it owns is a node that keeps all
/// its invariants before any step of its thread.
pub fn a_new_node_holds()
    ensures { (o : OpeningValue) (began : BeganWith) (part : ℕ) (store : StoreValue)
        → part < o.old.parts → CanBegin o began → OpensWith o began part store
        → NewNodesHold o began part store }
{}

/// Looks, splits and claims change nothing of a node.
pub fn a_look_keeps_a_node()
    ensures { (node : NodeAtWork) (now : ℕ → View)
        → DidNoMore node.views now → KeepsAlways node (with_views node now) }
{}

/// A node keeps its invariants as it begins a tree node that moves out of it: its seat wins the
/// word, and its partition gives the keys up.
pub fn a_begin_keeps_a_node()
    ensures step { (o : OpeningValue) (i : ℕ) (node : NodeAtWork) (word : WonWord) (segment : Range)
        → IsOpening o → WinsBegin o i node word segment
        → node_of (once_begun node word) ≡ begun_value node word segment }
    ensures keeps { (o : OpeningValue) (began : BeganWith) (node : NodeAtWork) (word : WonWord)
        → IsOpening o → WinsBeginOutward o began.stage node word
        → Keeps o began node (once_begun node word) }
{}

/// A node keeps its invariants as it cuts a chunk.
pub fn a_cut_keeps_a_node()
    ensures step { (node : NodeAtWork) (new : CoreValue) (dst : ℕ) (note : Note)
        → (cuts : CutsFor node.core dst note new)
        → node_of (with_partition node new) ≡ node_cut (node_of node) dst cuts.out cuts.store }
    ensures keeps { (o : OpeningValue) (began : BeganWith) (node : NodeAtWork) (new : CoreValue)
        (dst : ℕ) (note : Note)
        → IsOpening o → CutsFor node.core dst note new
        → Keeps o began node (with_partition node new) }
{}

/// A node keeps its invariants as it sends the chunk of an outbox.
pub fn a_send_keeps_a_node()
    ensures step { (node : NodeAtWork) (dst : ℕ) (chunk : ChunkValue)
        → (out_at node.core dst).outbox ≡ Some chunk
        → node_of (once_sent node dst chunk) ≡ node_sent (node_of node) dst chunk }
    ensures keeps { (node : NodeAtWork) (dst : ℕ) (chunk : ChunkValue)
        → (out_at node.core dst).outbox ≡ Some chunk
        → KeepsAlways node (once_sent node dst chunk) }
{}

/// A node keeps its invariants as it receives a chunk, any chunk, into an empty inbox.
pub fn a_receive_keeps_a_node()
    ensures step { (node : NodeAtWork) (src : ℕ) (chunk : ChunkValue)
        → src < length node.core.inboxes
        → node_of (once_received node src chunk) ≡ node_received (node_of node) src chunk }
    ensures keeps { (node : NodeAtWork) (src : ℕ) (chunk : ChunkValue)
        → src < length node.core.inboxes → inbox_at node.core src ≡ None
        → KeepsAlways node (once_received node src chunk) }
{}

/// A node keeps its invariants as it loads a chunk that can be loaded.
pub fn a_load_keeps_a_node()
    ensures step { (o : OpeningValue) (i : ℕ) (node : NodeAtWork) (new : CoreValue) (src : ℕ)
        → IsCoreOf o i node.core → (loads : LoadsOne node src new)
        → LoadsAs node new src loads.step.chunk }
    ensures keeps { (node : NodeAtWork) (new : CoreValue) (src : ℕ)
        → LoadsOne node src new → KeepsAsReceiver src node (with_partition node new) }
{}

/// A node keeps its invariants as it completes a tree node whose last chunk it loaded.
pub fn a_complete_keeps_a_node()
    ensures step { (node : NodeAtWork) (word : WonWord)
        → WinsAs Complete node word
        → node_of (once_completed node word)
        ≡ node_completed (node_of node) word.seg word.node word.pull }
    ensures keeps { (node : NodeAtWork) (word : WonWord)
        → is_whole (loaded_at node.core word.seg) word.node ≡ true → WinsAs Complete node word
        → KeepsAlways node (once_completed node word) }
{}

/// A node keeps its invariants as it takes a transaction: one that runs gets a receipt, one that
/// waits or is forwarded gets none.
pub fn a_submit_keeps_a_node()
    ensures step { (node : NodeAtWork) (new : CoreValue) (waits : Bool) (txn : TxnValue)
        (outcome : Outcome)
        → IsTaken waits node.core txn outcome new → ServesAs node new txn outcome }
    ensures keeps { (node : NodeAtWork) (new : CoreValue) (waits : Bool) (txn : TxnValue)
        (outcome : Outcome)
        → IsTaken waits node.core txn outcome new
        → KeepsInStage node (once_served node new txn outcome) }
{}

/// A node keeps its invariants as it resumes a waiting transaction.
pub fn a_resume_keeps_a_node()
    ensures step { (node : NodeAtWork) (new : CoreValue) (resumed : Resumed)
        → IsResumed node.core resumed new
        → ServesAs node new resumed.txn resumed.outcome }
    ensures keeps { (node : NodeAtWork) (new : CoreValue) (resumed : Resumed)
        → IsResumed node.core resumed new
        → KeepsInStage node (once_served node new resumed.txn resumed.outcome) }
{}

/// A chunk that came and belongs here can be loaded, unless it covers a root key that was loaded.
pub fn what_belongs_here_can_be_loaded()
    ensures { (node : NodeAtWork) (src : ℕ)
        → IfSome (inbox_at node.core src) IsChunk → may_load node.core src ≡ false
        → HasNoneToLoadFrom src node }
{}

/// Splits and claims lead from a free tree to every tree that threads share.
pub fn seats_grow_a_tree()
    ensures { (statuses : List Status) (views : List View) → IsTreeOf statuses views
        → IsGrown (status_at statuses) }
{}

/// A tree node that a seat began is begun, and no seat begins a tree node twice.
pub fn a_seat_begins_once()
    ensures begun { (statuses : List Status) (views : List View) (v : View) (at n pull : ℕ)
        → IsTreeOf statuses views → get_elem? views at ≡ some v
        → Contains v.begun (n, pull) → is_begun (status_at statuses n) ≡ true }
    ensures once { (v w : View) (n pull other : ℕ) → Won v n (Partial pull) w
        → Contains v.begun (n, other) → ⊥ }
{}

/// No two begun nodes of a tree share a root key.
pub fn begun_nodes_share_no_key()
    ensures { (o : OpeningValue) (status : ℕ → Status) (seg root n m : ℕ)
        → IsOpening o → IsGrown status → IsBegunOver o status seg root n
        → IsBegunOver o status seg root m → n ≡ m }
{}
