// Whole runs of a world.
ghost use Rattle.std.specs.Prelude.{◌≡◌, length, IfOk, IfErr};
ghost use Rattle.sq_model.specs.declared.step.Phase.{Phase};
ghost use Rattle.sq_transition.specs.Prelude.{phase_of, KeepsHeadline, IsAsPlanned};
ghost use Rattle.sq_world.specs.History.{history_of};

use crate::world::World;
use sq_model::{Answer, Step};
use sq_moves::Opening;
use std::alloc::Global;

/// Opens a world and executes `steps` one after another. Returns the world that they lead to, and
/// their answers. If there is no memory for the world or for the list of answers, no step is
/// executed and `opening` is returned as it was.
///
/// The steps with their answers are a history: it determines these answers, its moves are in order,
/// and it leads to this world. If the move has ended, each root key is at its owner in the new
/// plan.
pub fn run_world(
    alloc: Global,
    opening: Opening,
    steps: &[Step],
) -> Result<(World, Vec<Answer>), Opening>
    ensures each { IfOk result (λ ran. length ran.1.items ≡ length steps.now) }
    ensures ran { IfOk result (λ ran. KeepsHeadline opening
        (history_of steps.now ran.1.items) ran.0) }
    ensures finished { IfOk result (λ ran. phase_of ran.0.leader ≡ Phase.Ended
        → IsAsPlanned opening (history_of steps.now ran.1.items)) }
    ensures back { IfErr result (λ back. back ≡ opening) }
{
    let Ok(mut answers) = Vec::with_capacity(alloc, steps.len()) else {
        return Err(opening);
    };
    let mut world = World::from_opening(alloc, opening)?;
    for step in steps {
        answers.push_reserved(world.step(step));
    }
    Ok((world, answers))
}
