// Gathering a run.
ghost use Rattle.std.specs.Prelude.{IfOk, IfErr, ◌≡◌};
ghost use Rattle.sq_moves.specs.Prelude.{OpeningValue, IsOpening};
ghost use Rattle.sq_node_model.specs.Prelude.{IsPlaced, GoOn, BeganWith};
ghost use Rattle.sq_gather.specs.Gathered.{AreAllOf, IsGathered, HoldsInStage};

use crate::gathered::Gathered;
use crate::gathering::Gathering;
use sq_node::{FabricParts, RunParts};
use std::alloc::Global;
use std::sync::Wait;

/// Gathers what a run left, after its threads are done. `run` has all of its nodes and pumps, each
/// once, in any order. Each tree and each link is closed, and what the nodes left is put together
/// in the order of their partitions, after the receipts of earlier stages.
///
/// All memory is allocated first. If it runs out, or if there is no node, `run` is returned
/// unchanged.
pub fn gather<R: Wait>(rt: &R, alloc: Global, run: RunParts) -> Result<Gathered, RunParts>
    requires { AreAllOf run.fabric run.nodes.items run.pumps.items }
    ensures gathered { IfOk result (IsGathered run.fabric run.nodes.items run.pumps.items) }
    ensures placed { IfOk result (λ g. (o : OpeningValue) (began : BeganWith)
        → IsOpening o → HoldsInStage o began run.fabric run.nodes.items → IsPlaced o g) }
    ensures grows { IfOk result (λ g. (o : OpeningValue) (began : BeganWith)
        → IsOpening o → HoldsInStage o began run.fabric run.nodes.items → GoOn began g) }
    ensures returned { IfErr result (λ back. back ≡ run) }
{
    if run.nodes.is_empty() {
        return Err(run);
    }
    let Ok(mut gathering) = Gathering::reserve(alloc, &run.fabric, &run.nodes, run.pumps.len())
    else {
        return Err(run);
    };
    let RunParts {
        fabric,
        mut nodes,
        pumps,
    } = run;
    nodes.sort_unstable_by_key(|node| node.part().number());
    let FabricParts {
        stage,
        trees,
        seats,
        links,
        receipts,
        jobs,
        ..
    } = fabric.into_parts();
    gathering.add_receipts(&receipts);
    gathering.add_nodes(nodes);
    gathering.add_pumps(pumps);
    Ok(gathering.close(rt, stage, trees, seats, links, jobs))
}
