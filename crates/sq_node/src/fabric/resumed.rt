// Continuing a run in a stage.
ghost use Rattle.std.specs.Prelude.{◌≡◌, ◌↔◌, ◌≤◌, length, IfOk, IfErr, OnOk, IsTrue};
ghost use Rattle.sq_schema.specs.Prelude.{TableValue};
ghost use Rattle.sq_shared.specs.declared.numbers.TheConstants.{MAX_PUMPS};
ghost use Rattle.sq_moves.specs.Prelude.{IsSetUp};
ghost use Rattle.sq_node_model.specs.Prelude.{folded_opening};
ghost use Rattle.sq_node.specs.FabricValue.{IsFabric};
ghost use Rattle.sq_node.specs.Opened.{IsReopened, AllHoldAsBegun, HasStageFor};

use super::Fabric;
use super::left::{open_rooms, post_left};
use super::open::open_run;
use crate::receipt::Receipt;
use crate::run_parts::RunParts;
use sq_history::History;
use sq_moves::Opening;
use sq_schema::Txn;
use sq_store::SlabStore;
use std::alloc::Global;

/// The arguments of a stage that doesn't begin, unchanged.
#[derive(Debug, Drop)]
pub struct Unresumed {
    /// The families of each partition.
    pub stores: Vec<SlabStore>,
    /// The jobs that were left at each partition.
    pub left: Vec<Vec<Txn>>,
    /// The history of receipts of earlier stages.
    pub receipts: History<Receipt>,
}

impl Fabric {
    /// Returns what stage `stage` of a run shares, the nodes of partitions with the families in
    /// `stores`, and `pumps` pumps. The move has started. The jobs in `left` count as posted, and
    /// not as answered: the first of them are in the queue of their partition, in their order, and
    /// the partition's node forwards the others, for which the queue has no room or memory runs
    /// out.
    ///
    /// Nothing of this depends on the rows of `opening`: what holds of the nodes also holds under
    /// each opening that differs only in its rows.
    ///
    /// Everything is returned if the families or the jobs are not those of as many partitions as
    /// there are, if there is no such stage, or if memory runs out.
    pub fn resumed(
        alloc: Global,
        opening: &Opening,
        stage: u64,
        stores: Vec<SlabStore>,
        left: Vec<Vec<Txn>>,
        receipts: History<Receipt>,
        pumps: u32,
    ) -> Result<RunParts, Unresumed>
        requires { pumps ≤ MAX_PUMPS }
        ensures run { IfOk result (λ run. IsReopened opening.now stage stores.items receipts.items
            pumps run.fabric run.nodes.items run.pumps.items) }
        ensures set_up { OnOk result (IsSetUp opening.now) }
        ensures fabric { IfOk result (λ run. IsFabric run.fabric) }
        ensures holds { IfOk result (λ run. (table : TableValue)
            → AllHoldAsBegun (folded_opening opening.now table)
            run.fabric stores.items run.nodes.items) }
        ensures fits { OnOk result (HasStageFor opening.now stage (length stores.items)
            (length left.items)) }
        ensures stores { IfErr result (λ back. back.stores.items ≡ stores.items) }
        ensures left { IfErr result (λ back. back.left.items ≡ left.items) }
        ensures receipts { IfErr result (λ back. back.receipts.items ≡ receipts.items) }
    {
        if !fits(opening, stage, stores.len(), left.len()) {
            return Err(Unresumed {
                stores,
                left,
                receipts,
            });
        }
        let Ok(rooms) = open_rooms(alloc, left.as_slice()) else {
            return Err(Unresumed {
                stores,
                left,
                receipts,
            });
        };
        match open_run(alloc, opening, stage, stores, pumps) {
            Ok(opened) => {
                let RunParts {
                    mut fabric,
                    mut nodes,
                    pumps,
                } = opened;
                fabric.receipts = receipts;
                post_left(&mut fabric, &mut nodes, left, rooms);
                Ok(RunParts {
                    fabric,
                    nodes,
                    pumps,
                })
            }
            Err(stores) => Err(Unresumed {
                stores,
                left,
                receipts,
            }),
        }
    }
}

// Returns true if `opening` has this stage, and as many partitions as there are stores and lists of
// jobs.
fn fits(opening: &Opening, stage: u64, stores: usize, left: usize) -> bool
    ensures { IsTrue result ↔ HasStageFor opening.now stage stores left }
{
    let parts = usize::from(opening.old_plan().parts());
    stores == parts && left == parts && stage < opening.recon().stages()
}
