// Laws of what is gathered, whatever the threads did.
ghost use Rattle.std.specs.Prelude.{◌≡◌, ℕ, List, [], slice_get, Some};
ghost use Rattle.sq_store.specs.Prelude.{StoreValue};
ghost use Rattle.sq_moves.specs.Prelude.{OpeningValue, IsOpening};
ghost use Rattle.sq_node_model.specs.NodeValue.{NodeValue};
ghost use Rattle.sq_node_model.specs.Cores.{OpensWith};
ghost use Rattle.sq_node_model.specs.AtWork.{NewNodesHold};
ghost use Rattle.sq_schema.specs.Prelude.{TableValue};
ghost use Rattle.sq_node_model.specs.Folded.{folded_opening, folded_gathered, IsFolded};
ghost use Rattle.sq_node_model.specs.Next.{IsStageDone, IsStageOver, IsNextMove, next_began, onward_began};
ghost use Rattle.sq_node_model.specs.BeganWith.{BeganWith, CanBegin};
ghost use Rattle.sq_node_model.specs.Gathered.{GatheredLink, GatheredValue, Gathers};
ghost use Rattle.sq_node_model.specs.Placed.{IsPlaced, GoOn};

/// What is gathered of all nodes is placed, if each node keeps its invariants and each tree and
/// each link is closed: the chunks under way are those of the last notes; each family is in one
/// place, where the notes place it; each opening root key has a family, with the base that it had;
/// and the receipts name each log position once and record what was done there.
pub fn what_is_gathered_is_placed()
    ensures placed { (o : OpeningValue) (began : BeganWith) (nodes : List NodeValue)
        (g : GatheredValue)
        → IsOpening o → CanBegin o began → Gathers o began nodes g → IsPlaced o g }
    ensures grows { (o : OpeningValue) (began : BeganWith) (nodes : List NodeValue)
        (g : GatheredValue)
        → IsOpening o → CanBegin o began → Gathers o began nodes g → GoOn began g }
{}

/// If a stage is over, the next one can begin with what was gathered: the new nodes, which open
/// with its stores, keep all their invariants before any step of their threads.
pub fn the_next_stage_begins()
    ensures can { (o : OpeningValue) (g : GatheredValue)
        → IsStageOver o g → CanBegin o (next_began o g) }
    ensures holds { (o : OpeningValue) (g : GatheredValue) (q : ℕ) (store : StoreValue)
        → IsStageOver o g → slice_get g.stores q ≡ Some store
        → NewNodesHold o (next_began o g) q store }
{}

/// If the last stage of a move is over, a following move can begin with what was gathered: each
/// partition opens with its store.
pub fn the_next_move_begins()
    ensures can { (o next : OpeningValue) (g : GatheredValue)
        → IsStageOver o g → IsNextMove o g next → CanBegin next (onward_began o g) }
    ensures opens { (o next : OpeningValue) (g : GatheredValue) (q : ℕ) (store : StoreValue)
        → IsStageOver o g → IsNextMove o g next → slice_get g.stores q ≡ Some store
        → OpensWith next (onward_began o g) q store }
{}

/// What was gathered of a stage that is over stays so once the logs of its families are folded: it
/// is placed, with its segments complete, under an opening whose table has their rows, and without
/// receipts.
pub fn what_is_folded_is_placed()
    ensures { (o : OpeningValue) (g : GatheredValue) (table : TableValue)
        (stores : List StoreValue)
        → IsStageOver o g → IsFolded o g table stores
        → IsStageOver (folded_opening o table) (folded_gathered g stores) }
{}

/// If what was gathered is placed and the segments of its stage are complete, no chunk is under
/// way.
pub fn nothing_is_under_way()
    ensures { (o : OpeningValue) (g : GatheredValue) (i : ℕ) (link : GatheredLink)
        → IsPlaced o g → IsStageDone o g → slice_get g.links i ≡ Some link
        → link.under_way ≡ [] }
{}
