//! Laws of the workers of a run. The functions do nothing: each states a law, which the checker
//! proves.
ghost use Rattle.std.specs.Prelude.{ℕ, Bool, List, All};
ghost use Rattle.sq_moves.specs.Prelude.{OpeningValue, IsOpening};
ghost use Rattle.sq_shared.specs.Pump.{PumpValue};
ghost use Rattle.sq_node_model.specs.Prelude.{ReceiptValue, BeganWith, first_began};
ghost use Rattle.sq_node.specs.Prelude.{FabricValue, NodeState, IsNodeOf, HoldsUnder, IsOpened};
ghost use Rattle.sq_driver.specs.Nodes.{AllDriven};
ghost use Rattle.sq_driver.specs.declared.teller.TellingNode.{TellingNode};
ghost use Rattle.sq_driver.specs.Begun.{BeginStage};
ghost use Rattle.sq_driver.specs.Told.{ListsEach, ListsWhatIsWritten, AllDrivenTelling, nodes_of};
ghost use Rattle.sq_driver.specs.Pumps.{HasAllSeats, AllPumpsDriven};

use crate::teller::Teller;

/// The nodes and the pumps that a run opens with can be driven, and the invariant of nodes
/// (`NodeHolds`) holds of each node as the first stage begins.
pub fn opened_workers_can_be_driven()
    ensures nodes { (o : OpeningValue) (count : ℕ) (fabric : FabricValue) (nodes : List NodeState)
        (pumps : List PumpValue)
        → IsOpened o count fabric nodes pumps → All (IsNodeOf fabric) nodes }
    ensures pumps { (o : OpeningValue) (count : ℕ) (fabric : FabricValue) (nodes : List NodeState)
        (pumps : List PumpValue)
        → IsOpened o count fabric nodes pumps → All (HasAllSeats fabric) pumps }
    ensures hold { (o : OpeningValue) (count : ℕ) (fabric : FabricValue) (nodes : List NodeState)
        (pumps : List PumpValue)
        → IsOpened o count fabric nodes pumps → All (HoldsUnder o (first_began o)) nodes }
{}

/// The nodes and the pumps that a stage of a run begins with can be driven.
pub fn resumed_workers_can_be_driven()
    ensures nodes { (fabric : FabricValue) (nodes : List NodeState) (pumps : List PumpValue)
        → BeginStage fabric nodes pumps → All (IsNodeOf fabric) nodes }
    ensures pumps { (fabric : FabricValue) (nodes : List NodeState) (pumps : List PumpValue)
        → BeginStage fabric nodes pumps → All (HasAllSeats fabric) pumps }
{}

/// The invariant of nodes holds of all nodes of a run after they were driven, under each opening,
/// and each beginning of a stage, under which it held before.
pub fn driven_nodes_hold()
    ensures { (fabric : FabricValue) (o : OpeningValue) (began : BeganWith)
        (old new : List NodeState)
        → IsOpening o → AllDriven fabric old new → All (HoldsUnder o began) old
        → All (HoldsUnder o began) new }
{}

/// Workers that were driven still belong to their fabric, and can be driven again.
pub fn driven_workers_stay()
    ensures nodes { (fabric : FabricValue) (old new : List NodeState) → AllDriven fabric old new
        → All (IsNodeOf fabric) new }
    ensures pumps { (fabric : FabricValue) (old new : List PumpValue)
        → AllPumpsDriven fabric old new → All (HasAllSeats fabric) new }
{}

/// Nodes that were driven with their tellers were driven, so each law of driven nodes holds of
/// them.
pub fn nodes_with_tellers_are_driven<T: Teller>()
    ensures { (fabric : FabricValue) (old new : List (TellingNode T))
        → AllDrivenTelling T.Tells fabric old new → AllDriven fabric (nodes_of old) (nodes_of new) }
{}

/// The list of a teller that didn't break off has grown by exactly the receipts that its node
/// wrote, each once, in their order. `told` is its list, and `goes_on` says whether it didn't break
/// off; for a teller that never does, it is always true.
pub fn what_is_told_is_what_is_written<T: Teller>()
    ensures { (told : T → List ReceiptValue) (goes_on : T → Bool)
        → ListsEach T.Tells told goes_on → ListsWhatIsWritten T.Tells told goes_on }
{}
