// Laws of runs, and of what can be gathered.
ghost use Rattle.std.specs.Prelude.{ℕ, List};
ghost use Rattle.sq_moves.specs.Prelude.{OpeningValue};
ghost use Rattle.sq_shared.specs.Seats.{AreSeatsOf, OnlyClaimed};
ghost use Rattle.sq_shared.specs.Pump.{PumpValue};
ghost use Rattle.sq_node_model.specs.Prelude.{BeganWith, first_began};
ghost use Rattle.sq_node.specs.Prelude.{FabricValue, NodeState};
ghost use Rattle.sq_gather.specs.Gathered.{AreAllOf, HoldsInStage, IsPumpOf};
ghost use Rattle.sq_gather.specs.Reopened.{IsRunInStage, OpensRun, StaysInStage, AllStay, AllPumpsStay};

/// What a run opens with is a run in its first stage.
pub fn a_run_begins()
    ensures { (o : OpeningValue) (count : ℕ) (fabric : FabricValue) (nodes : List NodeState)
        (pumps : List PumpValue)
        → OpensRun o count fabric nodes pumps
        → IsRunInStage o (first_began o) fabric nodes pumps }
{}

/// A run stays a run if each of its nodes and pumps still belongs to it, and the invariant of nodes
/// still holds.
pub fn a_run_goes_on()
    ensures { (fabric : FabricValue) (old new : List NodeState) (before after : List PumpValue)
        → AllStay fabric old new → AllPumpsStay fabric before after
        → StaysInStage fabric old before new after }
{}

/// A run can be gathered: its nodes and pumps are all that it has, and what is gathered is placed
/// and continues what its stage began with.
pub fn a_run_can_be_gathered()
    ensures all { (o : OpeningValue) (began : BeganWith) (fabric : FabricValue)
        (nodes : List NodeState) (pumps : List PumpValue)
        → IsRunInStage o began fabric nodes pumps → AreAllOf fabric nodes pumps }
    ensures placed { (o : OpeningValue) (began : BeganWith) (fabric : FabricValue)
        (nodes : List NodeState) (pumps : List PumpValue)
        → IsRunInStage o began fabric nodes pumps → HoldsInStage o began fabric nodes }
{}

/// A pump that took turns still belongs to the run, and its seats began and completed nothing.
pub fn a_pump_stays_a_pump()
    ensures { (fabric : FabricValue) (old new : PumpValue) → IsPumpOf fabric old
        → AreSeatsOf fabric.trees new.seats
        → OnlyClaimed old.seats new.seats → IsPumpOf fabric new }
{}
