// Continuing a run from what was gathered: in the next stage of a move, or in another move.
ghost use Rattle.std.specs.Prelude.{◌≡◌, ◌+◌, ◌≤◌, length, IfOk, IfErr, OnOk};
ghost use Rattle.sq_schema.specs.Prelude.{TableValue};
ghost use Rattle.sq_shared.specs.declared.numbers.TheConstants.{MAX_PUMPS};
ghost use Rattle.sq_moves.specs.Prelude.{IsOpening};
ghost use Rattle.sq_node_model.specs.Prelude.{folded_opening};
ghost use Rattle.sq_node.specs.Prelude.{IsFabric, IsReopened, AllHoldAsBegun};
ghost use Rattle.sq_gather.specs.Gathered.{AreAllOf};
ghost use Rattle.sq_gather.specs.Reopened.{IsNextStageOf, IsFirstStageAfter};

use crate::gathered::Gathered;
use sq_moves::Opening;
use sq_node::{Fabric, RunParts, Unresumed};
use std::alloc::Global;

// The stage that a move begins with.
const FIRST_STAGE: u64 = 0;

/// Opens the stage after the one that `g` was gathered of: what a run shares in that stage, its
/// nodes with the families and the jobs in `g`, and `pumps` pumps. It keeps the receipts in `g`. If
/// `g` is placed and its segments are complete, under `opening` or one that differs only in its
/// rows, this is a run of that opening.
///
/// `g` is returned unchanged if it doesn't have the families and the jobs of as many partitions as
/// `opening` has, if there is no further stage, or if memory runs out.
pub fn reopen(
    alloc: Global,
    opening: &Opening,
    g: Gathered,
    pumps: u32,
) -> Result<RunParts, Gathered>
    requires { pumps ≤ MAX_PUMPS }
    ensures reopened { IfOk result
        (λ run. IsReopened opening.now (g.stage + 1) g.stores g.receipts pumps run.fabric
        run.nodes.items run.pumps.items) }
    ensures run { IfOk result (λ run. (table : TableValue)
        → IsNextStageOf (folded_opening opening.now table) g run.fabric run.nodes.items
        run.pumps.items) }
    ensures all { IfOk result (λ run. AreAllOf run.fabric run.nodes.items run.pumps.items) }
    ensures pumps { IfOk result (λ run. length run.pumps.items ≡ pumps) }
    ensures returned { IfErr result (λ back. back ≡ g) }
{
    let Some(next) = g.stage.checked_add(1) else {
        return Err(g);
    };
    let opened = resume(alloc, opening, next, g, pumps)?;
    Ok(opened)
}

/// Opens the first stage of another move from `g`, which was gathered of the last stage of a move:
/// what a run shares in it, its nodes with the families and the jobs in `g`, and `pumps` pumps. It
/// keeps the receipts in `g`. If `g` is placed and its segments are complete, and `next`, or an
/// opening that differs from it only in its rows, is of a move that follows, this is a run of that
/// opening.
///
/// `g` is returned unchanged if `next` has another number of partitions, or if memory runs out.
pub fn move_on(alloc: Global, next: &Opening, g: Gathered, pumps: u32) -> Result<RunParts, Gathered>
    requires { pumps ≤ MAX_PUMPS }
    ensures reopened { IfOk result
        (λ run. IsReopened next.now 0 g.stores g.receipts pumps run.fabric run.nodes.items
        run.pumps.items) }
    ensures run { IfOk result (λ run. (table : TableValue)
        → IsFirstStageAfter (folded_opening next.now table) g run.fabric run.nodes.items
        run.pumps.items) }
    ensures all { IfOk result (λ run. AreAllOf run.fabric run.nodes.items run.pumps.items) }
    ensures pumps { IfOk result (λ run. length run.pumps.items ≡ pumps) }
    ensures returned { IfErr result (λ back. back ≡ g) }
{
    let opened = resume(alloc, next, FIRST_STAGE, g, pumps)?;
    Ok(opened)
}

// Returns what a run shares in a stage of a move, its nodes with what `g` has, and `pumps` pumps.
// `g` is returned unchanged if it has another number of partitions, if there is no such stage, or
// if memory runs out.
fn resume(
    alloc: Global,
    opening: &Opening,
    stage: u64,
    g: Gathered,
    pumps: u32,
) -> Result<RunParts, Gathered>
    requires { pumps ≤ MAX_PUMPS }
    ensures run { IfOk result (λ run. IsReopened opening.now stage g.stores g.receipts pumps
        run.fabric run.nodes.items run.pumps.items) }
    ensures holds { IfOk result (λ run. (table : TableValue)
        → AllHoldAsBegun (folded_opening opening.now table) run.fabric g.stores
        run.nodes.items) }
    ensures all { IfOk result (λ run. AreAllOf run.fabric run.nodes.items run.pumps.items) }
    ensures stores { OnOk result (length g.stores ≡ opening.now.old.parts) }
    ensures opening { OnOk result (IsOpening opening.now) }
    ensures fabric { IfOk result (λ run. IsFabric run.fabric) }
    ensures returned { IfErr result (λ back. back ≡ g) }
{
    match Fabric::resumed(alloc, opening, stage, g.stores, g.left, g.receipts, pumps) {
        Ok(opened) => Ok(opened),
        Err(
            Unresumed {
                stores,
                left,
                receipts,
            },
        ) => Err(Gathered {
            stores,
            left,
            receipts,
            ..g
        }),
    }
}
