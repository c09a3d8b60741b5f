// Opens a partition.
ghost use Rattle.std.specs.Prelude.{◌≡◌, true, replicate, length, map, IfOk, IfErr, IsSome, IsTrue, []};
ghost use Rattle.std.specs.List.{list_all};
ghost use Rattle.std.specs.FinMap.{get, insert};
ghost use Rattle.sq_schema.specs.Rows.{is_rooted};
ghost use Rattle.sq_store.specs.Opened.{opened_family};
ghost use Rattle.sq_exec.specs.GivenUp.{none_given_up};
ghost use Rattle.sq_exec.specs.OutLink.{new_out_link};
ghost use Rattle.sq_exec.specs.CoreValue.{opened_core, entered_core, has_ends};

use crate::given_up::GivenUp;
use crate::out_link::OutLink;
use crate::part_core::PartCore;
use crate::run::Run;
use crate::waiting::Waiting;
use sq_moves::{Opening, Recon};
use sq_plan::{PartId, Plan};
use sq_schema::{Root, Rows};
use sq_store::{Chunk, FamilyStore, Place, SlabStore};
use std::alloc::{AllocError, Global};

// The parts of a partition other than its families.
#[derive(Drop)]
struct Places {
    plan: Plan,
    recon: Recon,
    outs: Vec<OutLink>,
    inboxes: Vec<Option<Chunk>>,
    given_up: Vec<GivenUp>,
    loaded: Vec<Vec<Run>>,
}

impl<S: FamilyStore> PartCore<S> {
    /// Opens partition `part` before the move, with the families of `store`. If memory runs out,
    /// `store` is returned.
    pub fn open(alloc: Global, opening: &Opening, part: PartId, store: S) -> Result<PartCore<S>, S>
        ensures ok { IfOk result (λ opened. opened.core
            ≡ opened_core opening.now part (S.contents store)) }
        ensures numbering { IfOk result (λ opened. opened.numbering
            ≡ record { numbers = []; next = 0 }) }
        ensures store_returned { IfErr result (λ back. S.contents back ≡ S.contents store) }
    {
        PartCore::open_at(alloc, opening, part, store, 0)
    }

    /// Opens partition `part` before the move, with the families of `store`; the first transaction
    /// that waits gets the arrival number `next`. If memory runs out, `store` is returned.
    pub fn open_at(
        alloc: Global,
        opening: &Opening,
        part: PartId,
        store: S,
        next: u64,
    ) -> Result<PartCore<S>, S>
        ensures ok { IfOk result (λ opened. opened.core
            ≡ opened_core opening.now part (S.contents store)) }
        ensures numbering { IfOk result (λ opened. opened.numbering
            ≡ record { numbers = []; next = next }) }
        ensures store_returned { IfErr result (λ back. S.contents back ≡ S.contents store) }
    {
        let Ok(places) = Places::new(alloc, opening) else {
            return Err(store);
        };
        Ok(PartCore {
            part,
            plan: places.plan,
            recon: places.recon,
            limit: opening.config().limit,
            log_limit: opening.config().log_limit,
            started: false,
            stage: 0,
            store,
            waiting: Waiting::new(alloc, next),
            outs: places.outs,
            inboxes: places.inboxes,
            given_up: places.given_up,
            loaded: places.loaded,
        })
    }

    /// Opens partition `part` in `stage` of the move, with the families of `store`, before any node
    /// was begun and any chunk loaded. Its move hasn't started. If memory runs out, `store` is
    /// returned.
    pub fn open_in_stage(
        alloc: Global,
        opening: &Opening,
        part: PartId,
        stage: u64,
        store: S,
    ) -> Result<PartCore<S>, S>
        ensures ok { IfOk result (λ opened. opened.core
            ≡ entered_core stage (opened_core opening.now part (S.contents store))) }
        ensures numbering { IfOk result (λ opened. opened.numbering
            ≡ record { numbers = []; next = 0 }) }
        ensures store_returned { IfErr result (λ back. S.contents back ≡ S.contents store) }
    {
        let mut opened = PartCore::open(alloc, opening, part, store)?;
        opened.enter(stage);
        Ok(opened)
    }
}

impl PartCore<SlabStore> {
    /// Replaces the family of `root` by one that starts from `rows`, which have rows of other
    /// tables only under the root row. The family is looked for at `near` first, which becomes the
    /// place before it. It takes no memory.
    pub(crate) fn fill(&mut self, root: Root, rows: Rows, near: &mut Place)
        requires here { IsSome (get self.old.core.store root) }
        requires rooted { IsTrue (is_rooted rows) }
        ensures { self.new.core ≡ record self.old.core {
          store = insert self.old.core.store root (opened_family (root, rows));
        } }
    {
        self.store.fill(root, rows, near);
    }
}

impl Places {
    // Creates the other parts, all empty.
    fn new(alloc: Global, opening: &Opening) -> Result<Places, AllocError>
        ensures plan { IfOk result (λ places. places.plan ≡ opening.now.old) }
        ensures recon { IfOk result (λ places. places.recon ≡ opening.now.recon) }
        ensures outs { IfOk result (λ places. map (λ out. out.link) places.outs.items
            ≡ replicate opening.now.old.parts new_out_link) }
        ensures inboxes { IfOk result (λ places. places.inboxes.items
            ≡ replicate opening.now.old.parts None) }
        ensures given_up { IfOk result (λ places. places.given_up.items
            ≡ replicate (length opening.now.recon.segments) none_given_up) }
        ensures ends { IfOk result (λ _. list_all
            (has_ends opening.now.old.parts) opening.now.recon.segments ≡ true) }
        ensures loaded { IfOk result (λ places. map (λ runs. runs.items) places.loaded.items
            ≡ replicate (length opening.now.recon.segments) []) }
    {
        let parts = usize::from(opening.old_plan().parts());
        let segments = opening.recon().segments().len();
        Ok(Places {
            plan: opening.old_plan().clone()?,
            recon: opening.recon().clone()?,
            outs: out_links(alloc, parts)?,
            inboxes: inboxes(alloc, parts)?,
            given_up: given_up(alloc, segments)?,
            loaded: loaded(alloc, segments)?,
        })
    }
}

// Creates `count` ends of links, before any node was begun.
fn out_links(alloc: Global, count: usize) -> Result<Vec<OutLink>, AllocError>
    ensures { IfOk result (λ outs. map (λ out. out.link) outs.items
        ≡ replicate count new_out_link) }
{
    let mut outs = Vec::new(alloc);
    for _made in 0..count {
        outs.push(OutLink::new(alloc))?;
    }
    Ok(outs)
}

// Creates `count` empty inboxes.
fn inboxes(alloc: Global, count: usize) -> Result<Vec<Option<Chunk>>, AllocError>
    ensures { IfOk result (λ inboxes. inboxes.items ≡ replicate count None) }
{
    let mut inboxes = Vec::new(alloc);
    for _made in 0..count {
        inboxes.push(None)?;
    }
    Ok(inboxes)
}

// Creates an empty set of leaves for each of `count` segments.
fn given_up(alloc: Global, count: usize) -> Result<Vec<GivenUp>, AllocError>
    ensures { IfOk result (λ given_up. given_up.items ≡ replicate count none_given_up) }
{
    let mut given_up = Vec::new(alloc);
    for _made in 0..count {
        given_up.push(GivenUp::new())?;
    }
    Ok(given_up)
}

// Creates an empty list of runs for each of `count` segments.
fn loaded(alloc: Global, count: usize) -> Result<Vec<Vec<Run>>, AllocError>
    ensures { IfOk result (λ loaded. map (λ runs. runs.items) loaded.items ≡ replicate count []) }
{
    let mut loaded = Vec::new(alloc);
    for _made in 0..count {
        loaded.push(Vec::new(alloc))?;
    }
    Ok(loaded)
}
