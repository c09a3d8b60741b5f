// A script that is being written, step by step.
ghost use Rattle.std.specs.Prelude.{◌≡◌, ◌<◌, [], OnOk};
ghost use Rattle.sq_world.specs.Scripts.{is_refusal};
ghost use Rattle.sq_world.specs.Drafts.{DraftGoesOn};

use crate::move_step::{MoveStep, write_step};
use crate::no_script::NoScript;
use crate::world::World;
use sq_model::Answer;
use std::alloc::Global;

/// The script so far, and the world in which its steps were executed.
#[derive(Drop)]
pub(crate) struct Draft {
    pub(crate) world: World,
    pub(crate) text: Vec<u8>,
    /// How many more lines the script may have.
    pub(crate) room: u64,
}

impl Draft {
    /// Creates an empty script for `world`, with room for `room` lines.
    pub(crate) fn new(alloc: Global, world: World, room: u64) -> Draft
        ensures world { result.world ≡ world }
        ensures empty { result.text.items ≡ [] }
    {
        Draft {
            world,
            text: Vec::new(alloc),
            room,
        }
    }

    /// Executes the next step, writes its line, and returns its answer, which isn't a refusal.
    pub(crate) fn make(&mut self, step: MoveStep) -> Result<Answer, NoScript>
        ensures goes_on { OnOk result (DraftGoesOn self.old self.new) }
        ensures room { OnOk result (self.new.room < self.old.room) }
    {
        let Some(room) = self.room.checked_sub(1) else {
            return Err(NoScript::TooLong);
        };
        let answer = self.world.step(&step.step());
        // These steps are refused only if memory runs out.
        if is_refused(&answer) {
            return Err(NoScript::Memory);
        }
        write_step(&mut self.text, step)?;
        self.room = room;
        Ok(answer)
    }
}

fn is_refused(answer: &Answer) -> bool
    ensures { result ≡ is_refusal answer.now }
{
    match answer {
        Answer::Refused(_) => true,
        _ => false,
    }
}
