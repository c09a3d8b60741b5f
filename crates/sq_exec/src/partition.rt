// The partitions of an opening.
ghost use Rattle.std.specs.Prelude.{◌≡◌, map, IfOk};
ghost use Rattle.std.specs.List.{range_with_len};
ghost use Rattle.sq_exec.specs.Opened.{blank_part, with_opened, AreBlank, IsOpenStore};

use crate::part_core::PartCore;
use sq_moves::Opening;
use sq_plan::{PartId, Plan};
use sq_schema::Table;
use sq_store::{Place, SlabStore};
use std::alloc::{AllocError, Global};

/// Returns the families of the root keys that `part` owns before the move.
pub fn open_store(alloc: Global, opening: &Opening, part: PartId) -> Result<SlabStore, AllocError>
    ensures { IfOk result (IsOpenStore opening.now part) }
{
    let store = SlabStore::opened(alloc, opening.old_plan(), part, opening.table())?;
    Ok(store)
}

/// Opens all partitions of the plan before the move, which hasn't started, with a family without
/// rows for each root key that has rows in the opening.
pub fn open_blank_partitions(
    alloc: Global,
    opening: &Opening,
) -> Result<Vec<PartCore<SlabStore>>, AllocError>
    ensures { IfOk result (λ cores. map (λ part. part.core) cores.items
        ≡ map (blank_part opening.now) (range_with_len 0 opening.now.old.parts)) }
{
    let mut cores = Vec::new(alloc);
    for number in 0..opening.old_plan().parts() {
        cores.push(open_blank_partition(alloc, opening, PartId::new(number))?)?;
    }
    Ok(cores)
}

// Opens partition `part` with families without rows.
fn open_blank_partition(
    alloc: Global,
    opening: &Opening,
    part: PartId,
) -> Result<PartCore<SlabStore>, AllocError>
    ensures { IfOk result (λ opened. opened.core ≡ blank_part opening.now part) }
{
    let store = SlabStore::opened_blank(alloc, opening.old_plan(), part, opening.table())?;
    match PartCore::open(alloc, opening, part, store) {
        Ok(core) => Ok(core),
        Err(_) => Err(AllocError),
    }
}

/// Moves the rows of `table` into the families of `cores`, the partitions of `plan` with a family
/// without rows for each root key. It takes no memory.
pub fn fill_partitions(cores: &mut [PartCore<SlabStore>], plan: &Plan, mut table: Table)
    requires { AreBlank plan.now table (map (λ part. part.core) cores.old) }
    ensures { map (λ part. part.core) cores.new
        ≡ map (with_opened plan.now table) (map (λ part. part.core) cores.old) }
{
    let mut near = Place::new();
    while let Some((root, rows)) = table.pop() {
        let at = usize::from(plan.owner(root).number());
        cores[at].fill(root, rows, &mut near);
    }
}
