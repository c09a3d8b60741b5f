// Laws of each step.
ghost use Rattle.std.specs.Prelude.{◌≡◌, ℕ};
ghost use Rattle.std.specs.FinMap.{get};
ghost use Rattle.sq_moves.specs.Prelude.{OpeningValue};
ghost use Rattle.sq_store.specs.ChunkValue.{ChunkValue};
ghost use Rattle.sq_exec.specs.CoreValue.{CoreValue};
ghost use Rattle.sq_model.specs.Trace.{Trace};
ghost use Rattle.sq_transition.specs.EachStep.{EachStepKeepsHeadline};
ghost use Rattle.sq_transition.specs.Holds.{ChunkHolds, CoreHolds};

/// Each step leads from a world of its history to one of the longer history: if the answers so far
/// were legal and the world is the one that the steps lead to, then the next answer is legal too,
/// all moves stay orderly, and the world after it is again the one that the steps lead to.
pub fn each_step_keeps_the_headline()
    ensures { EachStepKeepsHeadline }
{}

/// A history determines all that a chunk and a partition hold: two of its chunks with the same note
/// are one chunk, and two of its partitions with the same number have the same families and the
/// same waiting transactions.
pub fn a_history_tells_what_each_holds()
    ensures chunks { (o : OpeningValue) (t : Trace) (one other : ChunkValue) → ChunkHolds o t one
        → ChunkHolds o t other
        → one.note ≡ other.note → one ≡ other }
    ensures families { (o : OpeningValue) (t : Trace) (part : ℕ) (one other : CoreValue) (root : ℕ)
        → CoreHolds o t part one → CoreHolds o t part other
        → get one.store root ≡ get other.store root }
    ensures waiting { (o : OpeningValue) (t : Trace) (part : ℕ) (one other : CoreValue)
        → CoreHolds o t part one → CoreHolds o t part other → one.waiting ≡ other.waiting }
{}
