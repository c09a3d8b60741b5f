// Laws of runs.
ghost use Rattle.std.specs.Prelude.{◌≡◌};
ghost use Rattle.sq_moves.specs.OpeningValue.{OpeningValue};
ghost use Rattle.sq_model.specs.Trace.{Trace};
ghost use Rattle.sq_transition.specs.WorldValue.{WorldValue};
ghost use Rattle.sq_transition.specs.Holds.{Holds};
ghost use Rattle.sq_world.specs.Dump.{dump};

/// A history has one dump: two worlds that it leads to have the same one.
pub fn a_history_has_one_dump()
    ensures { (o : OpeningValue) (t : Trace) (one other : WorldValue) → Holds o t one
        → Holds o t other → dump one ≡ dump other }
{}
