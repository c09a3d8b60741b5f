// Worlds.
ghost use Rattle.std.specs.Prelude.{◌≡◌, [], ◌∷◌, None, IfOk, IfErr};
ghost use Rattle.sq_moves.specs.Prelude.{OpeningValue, IsOpeningOf, opening_fault, IsOpening};
ghost use Rattle.sq_model.specs.Prelude.{Trace, IsLegal};
ghost use Rattle.sq_transition.specs.Prelude.{IsTransition, Holds, KeepsHeadline, IsAsPlanned};
ghost use Rattle.sq_world.specs.History.{IsNotOpened};

use crate::state::State;
use sq_model::{Answer, Phase, Step};
use sq_moves::{Config, GivenRow, Opening, RefusedOpening, Status};
use sq_plan::Plan;
use sq_schema::Schema;
use sq_store::{Chunk, SlabStore};
use sq_text::WriteFault;
use std::alloc::Global;
use std::io::Write;
use std::marker::Model;

/// A partitioned database whose rows move between partitions while transactions run: partitions,
/// split trees, links and a leader. To a contract it is a `WorldValue` that some legal history
/// leads to.
#[derive(Drop)]
pub struct World {
    state: State,
}

impl Model for World {
    ghost use Rattle.std.specs.Coded.{codes};
    ghost use Rattle.sq_store.specs.Prelude.{store_coded};
    ghost use Rattle.sq_transition.specs.Prelude.{WorldValue};
    ghost use Rattle.sq_world.specs.Reached.{IsReached};

    ghost Value = { WorldValue };

    ghost coded = { Prim.hlevel (codes, store_coded) };

    ghost view = { λ w. w.state };

    ghost invariant = { λ w. IsReached w.state };
}

/// Why a world doesn't open, and what it was to open with.
#[derive(Debug, Drop)]
pub enum NotOpened {
    /// The opening has a fault, or memory for it ran out. The plans and the rows are returned.
    Refused(RefusedOpening),
    /// There is no memory for a world of this opening, which is returned.
    Memory(Opening),
}

impl World {
    /// Opens the world of two plans with these sizes and rows, before any step. If it is refused,
    /// what it was to open with is returned, with the first fault as in [`Opening::new`], which
    /// also says what replaces it if memory runs out; [`NotOpened::Memory`] is returned only
    /// without a fault.
    pub fn open(
        alloc: Global,
        schema: Schema,
        old: Plan,
        new: Plan,
        config: Config,
        rows: Vec<GivenRow>,
    ) -> Result<World, NotOpened>
        ensures faultless { IfOk result (λ _. opening_fault schema old new config rows.items
            ≡ None) }
        ensures opened { IfOk result (λ world. (o : OpeningValue)
            × IsOpeningOf schema old new config rows.items o
            × IsOpening o × Holds o [] world) }
        ensures refused { IfErr result (IsNotOpened schema old new config rows.items) }
    {
        match Opening::new(alloc, schema, old, new, config, rows) {
            Ok(opening) => World::from_opening(alloc, opening).map_err(NotOpened::Memory),
            Err(refused) => Err(NotOpened::Refused(refused)),
        }
    }

    /// Opens the world of `opening`, before any step. If memory runs out, `opening` is returned as
    /// it was.
    pub fn from_opening(alloc: Global, opening: Opening) -> Result<World, Opening>
        ensures opened { IfOk result (λ world. IsOpening opening × Holds opening [] world) }
        ensures back { IfErr result (λ back. back ≡ opening) }
    {
        Ok(World {
            state: State::open(alloc, opening)?,
        })
    }

    /// Executes `step` and returns its answer: the one that the rules of the move determine, or
    /// that memory ran out, and then nothing changed.
    ///
    /// Whatever the steps before it were: if their history determines their answers and leads to
    /// this world, the same holds with this step added. No row is lost, duplicated or read stale.
    /// If this step ends the move, each root key is at its owner in the new plan.
    pub fn step(&mut self, step: &Step) -> Answer
        ensures step_result { IsTransition self.old step.now result self.new }
        ensures headline { (o : OpeningValue) (t : Trace) → IsOpening o → IsLegal o t
            → Holds o t self.old
            → KeepsHeadline o ((step.now, result) ∷ t) self.new }
        ensures finished { (o : OpeningValue) (t : Trace) → IsOpening o → IsLegal o t
            → Holds o t self.old
            → step.now ≡ Step.Finish → result ≡ Answer.Done
            → IsAsPlanned o ((step.now, result) ∷ t) }
    {
        self.state.step(step)
    }
}

// Readers.
impl World {
    ghost use Rattle.std.specs.Prelude.{OnOk};
    ghost use Rattle.std.specs.Option.{option_copied};
    ghost use Rattle.std.specs.Io.KnownBytes.{Appends};
    ghost use Rattle.sq_model.specs.Prelude.{phase as phase_after, stage as stage_after};
    ghost use Rattle.sq_transition.specs.Prelude.{running_stage, phase_of};
    ghost use Rattle.sq_world.specs.Readers.{store_at, chunk_at, status_there, IsStoreAfter, IsChunkAfter, status_after};
    ghost use Rattle.sq_world.specs.Dump.{dump};

    /// Returns the phase of the leader, as its history determines it.
    pub fn phase(&self) -> Phase
        ensures phase { result ≡ phase_of self.now.leader }
        ensures by_history { (o : OpeningValue) (t : Trace) → Holds o t self.now
            → result ≡ phase_after t }
    {
        self.state.phase()
    }

    /// Returns the running stage, as the history determines it: 0 before the start, and the last
    /// one once the move has ended.
    pub fn stage(&self) -> u64
        ensures stage { result ≡ running_stage self.now }
        ensures by_history { (o : OpeningValue) (t : Trace) → Holds o t self.now
            → result ≡ stage_after t }
    {
        self.state.stage()
    }

    /// Returns the families of partition `part`, exactly those that the history places there;
    /// `None` if there is no such partition.
    pub fn store(&self, part: u64) -> Option<&SlabStore>
        ensures store { option_copied result ≡ store_at self.now part }
        ensures by_history { (o : OpeningValue) (t : Trace) → Holds o t self.now
            → IsStoreAfter o t part (option_copied result) }
    {
        self.state.store(part)
    }

    /// Returns chunk number `i`, from 0, of those that were cut from `src` for `dst` and aren't
    /// loaded yet, the oldest first, as the history determines, with exactly the families that its
    /// note covers; `None` if there is none.
    pub fn under_way(&self, src: u64, dst: u64, i: u64) -> Option<&Chunk>
        ensures chunk { option_copied result ≡ chunk_at self.now src dst i }
        ensures by_history { (o : OpeningValue) (t : Trace) → IsOpening o → IsLegal o t
            → Holds o t self.now
            → IsChunkAfter o t src dst i (option_copied result) }
    {
        self.state.under_way(src, dst, i)
    }

    /// Returns the status of `node` in segment `seg`, as the history determines it; `None` if there
    /// is no such segment or node.
    pub fn status(&self, seg: u64, node: u64) -> Option<Status>
        ensures status { result ≡ status_there self.now seg node }
        ensures by_history { (o : OpeningValue) (t : Trace) → Holds o t self.now
            → result ≡ status_after o t seg node }
    {
        self.state.status(seg, node)
    }

    /// Writes the phase, each partition with its families, and each link with its chunks under way.
    /// Fails if a write fails.
    pub fn write_dump<W: Write>(&self, writer: &mut W) -> Result<(), WriteFault>
        ensures { OnOk result (Appends (W.contents writer.old) (W.contents writer.new)
            (dump self.now)) }
    {
        self.state.write_dump(writer)
    }
}
