// One step of any kind.
ghost use Rattle.sq_transition.specs.Prelude.{IsTransition};
ghost use Rattle.sq_world.specs.Sound.{IsSound};

use crate::state::State;
use sq_model::{Answer, Step};

impl State {
    /// Executes `step` and returns its answer.
    pub fn step(&mut self, step: &Step) -> Answer
        requires { IsSound self.old }
        ensures { IsTransition self.old step.now result self.new }
    {
        let result = match step {
            Step::Prepare(part) => self.prepare(*part),
            Step::Start => self.start(),
            Step::Submit(part, txn) => self.submit(*part, txn),
            Step::Resume(part) => self.resume(*part),
            Step::Split { seg, node } => self.split(*seg, *node),
            Step::Claim { seg, node, pull } => self.claim(*seg, *node, *pull),
            Step::Begin { seg, node, pull } => self.begin(*seg, *node, *pull),
            Step::Cut { src, dst } => self.cut(*src, *dst),
            Step::Push { src, dst } => self.push(*src, *dst),
            Step::Pop { src, dst } => self.pop(*src, *dst),
            Step::Load { src, dst } => self.load(*src, *dst),
            Step::Complete { seg, node, pull } => self.complete(*seg, *node, *pull),
            Step::Report(part) => self.report(*part),
            Step::Next => self.next(),
            Step::Finish => self.finish(),
            Step::Fold(part) => self.fold(*part),
            Step::Status { seg, node } => self.status_of(*seg, *node),
        };
        match result {
            Ok(answer) => answer,
            Err(refusal) => Answer::Refused(refusal),
        }
    }
}
