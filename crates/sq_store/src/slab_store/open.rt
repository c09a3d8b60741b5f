// Opens a store.
ghost use Rattle.std.specs.Prelude.{◌≡◌, IfOk, IsSome, IsTrue};
ghost use Rattle.std.specs.FinMap.{empty, get, insert};
ghost use Rattle.sq_schema.specs.Rows.{is_rooted};
ghost use Rattle.sq_store.specs.Opened.{blank, opened_families, opened_family};
ghost use Rattle.sq_store.specs.StoreValue.{with_families};

use crate::owned::OwnedEntries;
use crate::putting::{put_at, put_behind};
use crate::runs::Runs;
use crate::search::{Place, find_near};
use crate::slab_store::SlabStore;
use sq_plan::{PartId, Plan};
use sq_schema::{Family, Root, Rows, Table};
use std::alloc::{AllocError, Global};

impl SlabStore {
    /// Opens a store with the families of the root keys that `part` owns, each with a copy of its
    /// rows.
    pub fn opened(
        alloc: Global,
        plan: &Plan,
        part: PartId,
        table: &Table,
    ) -> Result<SlabStore, AllocError>
        ensures { IfOk result (λ store.
            store ≡ with_families empty (opened_families plan.now part table.now)) }
    {
        let mut runs = Runs::new(alloc);
        for (root, rows) in OwnedEntries::new(plan, part, table) {
            let family = Family::opened(alloc, *root, rows.clone()?);
            // Called for what it ensures, that the number is below `ROOT_END`.
            let _ = root.number();
            put_behind(&mut runs, family)?;
        }
        Ok(SlabStore { runs })
    }

    /// Opens a store with a family without rows for each root key that `part` owns.
    pub fn opened_blank(
        alloc: Global,
        plan: &Plan,
        part: PartId,
        table: &Table,
    ) -> Result<SlabStore, AllocError>
        ensures { IfOk result (λ store. store
            ≡ with_families empty (opened_families plan.now part (blank table.now))) }
    {
        let mut runs = Runs::new(alloc);
        for (root, _rows) in OwnedEntries::new(plan, part, table) {
            // Called for what it ensures, that the number is below `ROOT_END`.
            let _ = root.number();
            put_behind(&mut runs, Family::empty(alloc, *root))?;
        }
        Ok(SlabStore { runs })
    }

    /// Replaces the family of `root` by one that starts from `rows`, which have rows of other
    /// tables only under the root row. The family is looked for at `near` first, which becomes the
    /// place before it, so falling root keys need no search. It takes no memory.
    pub fn fill(&mut self, root: Root, rows: Rows, near: &mut Place)
        requires here { IsSome (get self.old root) }
        requires rooted { IsTrue (is_rooted rows) }
        ensures { self.new ≡ insert self.old root (opened_family (root, rows)) }
    {
        if let Some((run, at)) = find_near(&self.runs, root, *near) {
            let family = Family::opened(self.runs.allocator(), root, rows);
            put_at(&mut self.runs, run, at, family);
            *near = Place::before(run, at);
        }
    }
}
