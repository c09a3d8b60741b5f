// One partition.
ghost use Rattle.std.specs.Prelude.{◌≡◌, ◌↔◌, ◌<◌, true, List, IsTrue, length, map};
ghost use Rattle.std.specs.Option.{option_copied};
ghost use Rattle.std.specs.List.{list_all};
ghost use Rattle.sq_exec.specs.Waiting.{Arrival, txns_of, numbers_of};
ghost use Rattle.sq_exec.specs.CoreValue.{out_at, inbox_at, entered_core, folded_core};
ghost use Rattle.sq_exec.specs.Kept.{IsCore};

use crate::given_up::GivenUp;
use crate::out_link::OutLink;
use crate::run::Run;
use crate::waiting::Waiting;
use sq_moves::Recon;
use sq_plan::{PartId, Plan};
use sq_store::{Chunk, FamilyStore};
use std::marker::Model;

mod moving;
mod open;
mod serving;

/// One partition: its families, the transactions that wait at it, and its ends of the links. To a
/// contract it is a `CoreValue`, with whether there is room for what the next Begin adds, and the
/// arrival numbers of the waiting transactions.
#[derive(Drop)]
pub struct PartCore<S: FamilyStore> {
    part: PartId,
    plan: Plan,
    recon: Recon,
    limit: u64,
    log_limit: u64,
    started: bool,
    stage: u64,
    store: S,
    waiting: Waiting,
    outs: Vec<OutLink>,
    inboxes: Vec<Option<Chunk>>,
    given_up: Vec<GivenUp>,
    loaded: Vec<Vec<Run>>,
}

impl<S: FamilyStore> Model for PartCore<S> {
    ghost use Rattle.std.specs.Coded.{codes};
    ghost use Rattle.sq_store.specs.Prelude.{store_coded};
    ghost use Rattle.sq_exec.specs.CoreValue.{PartCoreValue};

    ghost Value = { PartCoreValue };

    ghost coded = { Prim.hlevel (codes, store_coded) };

    ghost use Rattle.std.specs.List.{list_all};
    ghost use Rattle.sq_exec.specs.Waiting.{numbers_of};
    ghost use Rattle.sq_exec.specs.CoreInside.{core_inside};
    ghost use Rattle.sq_exec.specs.Kept.{IsCore};

    ghost view = { λ p. record {
      core = core_inside S.contents p;
      has_room = list_all (λ out. out.has_room) p.outs.items;
      numbering = record { numbers = numbers_of p.waiting.arrivals; next = p.waiting.next };
    } };

    ghost invariant = { λ p. IsCore (core_inside S.contents p) p.waiting.arrivals };
}

/// What a closed partition returns.
#[derive(Debug, Drop)]
pub struct CoreParts<S> {
    /// The families.
    pub store: S,
    /// The waiting transactions, in their order of arrival. All are due.
    pub waiting: Waiting,
    /// For each partition, the chunk that came from it and isn't loaded yet.
    pub inboxes: Vec<Option<Chunk>>,
    /// For each partition, the end of the link to it: the notes of all chunks that were cut, and
    /// the chunk that isn't sent yet.
    pub outs: Vec<OutLink>,
}

impl<S: FamilyStore> PartCore<S> {
    /// Starts the move at this partition.
    pub fn start(&mut self)
        ensures core { self.new.core ≡ record self.old.core { started = true } }
        ensures room { self.new.has_room ≡ self.old.has_room }
        ensures numbering { self.new.numbering ≡ self.old.numbering }
    {
        self.started = true;
    }

    /// Enters `stage` of the move, whatever stage it is in. It takes no memory.
    pub fn enter(&mut self, stage: u64)
        ensures { self.new ≡ record self.old { core = entered_core stage self.old.core } }
    {
        self.waiting.make_all_due();
        self.stage = stage;
    }

    /// Folds the logs of the families: each family restarts from its rows, and families without
    /// rows are dropped. It takes no memory.
    pub fn fold(&mut self)
        ensures core { self.new.core ≡ folded_core self.old.core }
        ensures room { self.new.has_room ≡ self.old.has_room }
        ensures numbering { self.new.numbering ≡ self.old.numbering }
    {
        self.store.fold();
    }

    /// Returns the number of this partition.
    pub fn part(&self) -> PartId
        ensures { result ≡ self.now.core.part }
    {
        self.part
    }

    /// Returns the number of partitions.
    pub fn parts(&self) -> u8
        ensures parts { result ≡ self.now.core.plan.parts }
        ensures kept { (arrivals : List Arrival) × IsCore self.now.core arrivals }
    {
        self.plan.parts()
    }

    /// Returns true if a transaction waits.
    pub fn has_waiting(&self) -> bool
        ensures { IsTrue result ↔ (0 < length self.now.core.waiting) }
    {
        !self.waiting.is_empty()
    }

    /// Returns the chunk that came from `src` and isn't loaded yet; `None` if there is none. There
    /// is a place for one from each partition.
    pub fn inbox(&self, src: PartId) -> Option<&Chunk>
        ensures chunk { option_copied result ≡ inbox_at self.now.core src }
        ensures places { length self.now.core.inboxes ≡ self.now.core.plan.parts }
    {
        self.inboxes.get(usize::from(src.number()))?.as_ref()
    }

    /// Returns the chunk for `dst` that was cut and isn't sent yet; `None` if there is none.
    pub fn outbox(&self, dst: PartId) -> Option<&Chunk>
        ensures { option_copied result ≡ (out_at self.now.core dst).outbox }
    {
        self.outs.get(usize::from(dst.number()))?.outbox()
    }

    /// Returns the families.
    pub fn store(&self) -> &S
        ensures { S.contents result.now ≡ self.now.core.store }
    {
        &self.store
    }

    /// Closes the partition and returns what it holds, uncopied. All waiting transactions are made
    /// due, even those whose rows haven't come, so that the caller takes them one after another in
    /// their order of arrival.
    pub fn close(self) -> CoreParts<S>
        ensures store { S.contents result.store ≡ self.core.store }
        ensures waiting { txns_of result.waiting.arrivals ≡ self.core.waiting }
        ensures due { list_all (λ a. a.is_due) result.waiting.arrivals ≡ true }
        ensures inboxes { result.inboxes.items ≡ self.core.inboxes }
        ensures outs { map (λ out. out.link) result.outs.items ≡ self.core.outs }
        ensures numbers { numbers_of result.waiting.arrivals ≡ self.numbering.numbers }
        ensures next { result.waiting.next ≡ self.numbering.next }
        ensures kept { IsCore self.core result.waiting.arrivals }
    {
        let PartCore {
            store,
            mut waiting,
            inboxes,
            outs,
            ..
        } = self;
        waiting.make_all_due();
        CoreParts {
            store,
            waiting,
            inboxes,
            outs,
        }
    }
}
