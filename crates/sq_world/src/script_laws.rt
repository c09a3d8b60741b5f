//! Laws of scripts of a whole move. The functions do nothing: each states a law, which the checker
//! proves.
ghost use Rattle.sq_world.specs.Lines.{NumbersFit, IsReadBack};

use crate::move_step::MoveStep;

/// The line of each step is read as this step.
pub fn each_line_is_read()
    ensures { (step : MoveStep) → NumbersFit step → IsReadBack step }
{}
