// The state that a world opens in.
ghost use Rattle.std.specs.Prelude.{◌≡◌, ℕ, [], map, IfOk, IfErr};
ghost use Rattle.std.specs.List.{range_with_len};
ghost use Rattle.sq_moves.specs.Prelude.{IsSetUp};
ghost use Rattle.sq_transition.specs.Prelude.{Holds};
ghost use Rattle.sq_exec.specs.Prelude.{blank_part};
ghost use Rattle.sq_world.specs.Openings.{AreNewTrees, AreNewQueues};

use crate::queue::Queue;
use crate::state::State;
use sq_exec::{PartCore, fill_partitions, open_blank_partitions};
use sq_leader::{Idle, Leader};
use sq_moves::{Opening, PlainTree, Range, Recon};
use sq_store::SlabStore;
use std::alloc::{AllocError, Global};

// The parts of a state that aren't in its opening; the families have no rows yet.
#[derive(Drop)]
struct Fresh {
    moves: Recon,
    cores: Vec<PartCore<SlabStore>>,
    trees: Vec<PlainTree>,
    queues: Vec<Queue>,
}

impl State {
    /// Creates the state that a world opens in. The rows of `opening` are moved, once all memory is
    /// taken. If memory runs out, `opening` is returned.
    pub fn open(alloc: Global, opening: Opening) -> Result<State, Opening>
        ensures opened { IfOk result (Holds opening []) }
        ensures set_up { IfOk result (λ _. IsSetUp opening) }
        ensures back { IfErr result (λ back. back ≡ opening) }
    {
        let Ok(mut fresh) = fresh_state(alloc, &opening) else {
            return Err(opening);
        };
        let parts = opening.into_parts();
        let table = parts.table;
        fill_partitions(&mut fresh.cores, &parts.old, table);
        let leader = Leader::Idle(Idle::new(&parts.old, fresh.moves));
        Ok(State {
            alloc,
            tables: parts.schema.tables(),
            old_plan: parts.old,
            new_plan: parts.new,
            recon: parts.recon,
            config: parts.config,
            leader,
            cores: fresh.cores,
            trees: fresh.trees,
            queues: fresh.queues,
        })
    }
}

// Creates the parts of a state that aren't in `opening`.
fn fresh_state(alloc: Global, opening: &Opening) -> Result<Fresh, AllocError>
    ensures cores { IfOk result (λ fresh. map (λ part. part.core) fresh.cores.items
        ≡ map (blank_part opening.now) (range_with_len 0 opening.now.old.parts)) }
    ensures moves { IfOk result (λ fresh. fresh.moves ≡ opening.now.recon) }
    ensures trees { IfOk result
        (λ fresh. AreNewTrees opening.now.recon.segments fresh.trees.items) }
    ensures queues { IfOk result
        (λ fresh. AreNewQueues opening.now.recon.ranges fresh.queues.items) }
{
    Ok(Fresh {
        moves: opening.recon().clone()?,
        cores: open_blank_partitions(alloc, opening)?,
        trees: trees(alloc, opening.recon().segments())?,
        queues: queues(alloc, opening.recon())?,
    })
}

// Creates a tree for each segment, with all nodes free.
fn trees(alloc: Global, segments: &[Range]) -> Result<Vec<PlainTree>, AllocError>
    ensures { IfOk result (λ trees. AreNewTrees segments.now trees.items) }
{
    let mut trees = Vec::new(alloc);
    for _segment in segments {
        trees.push(PlainTree::new())?;
    }
    Ok(trees)
}

// Creates an empty queue for each link of a reconfiguration.
fn queues(alloc: Global, recon: &Recon) -> Result<Vec<Queue>, AllocError>
    ensures { IfOk result (λ queues. AreNewQueues recon.now.ranges queues.items) }
{
    let mut queues = Vec::new(alloc);
    for link in recon.links() {
        queues.push(Queue::new(alloc, *link)?)?;
    }
    Ok(queues)
}
