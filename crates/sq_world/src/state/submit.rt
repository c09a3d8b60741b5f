// Transactions that are submitted, and those that waited.
ghost use Rattle.std.specs.Prelude.{◌≡◌, length};
ghost use Rattle.sq_model.specs.declared.step.Step.{Step};
ghost use Rattle.sq_transition.specs.Prelude.{is_root_given_up, sent_to, submitted, submit_refused, resume_refused, submit_result, resume_result, IsResult};
ghost use Rattle.sq_world.specs.Results.{answer_of};
ghost use Rattle.sq_world.specs.Sound.{IsSound};

use crate::state::State;
use sq_exec::{Outcome, ResumeFault, Resumed, SubmitFault};
use sq_model::{Answer, Refusal};
use sq_moves::Status;
use sq_plan::PartId;
use sq_schema::{Root, Txn};

impl State {
    /// Submits `txn` at partition `part`. If memory runs out, nothing changes.
    pub(crate) fn submit(&mut self, part: u64, txn: &Txn) -> Result<Answer, Refusal>
        requires { IsSound self.old }
        ensures { IsResult (Step.Submit part txn.now) self.old (submit_result self.old part txn.now)
            (answer_of result) self.new }
    {
        self.check_part(part)?;
        match self.cores[part as usize].submit(txn) {
            Ok(outcome) => Ok(self.submitted(txn, outcome)),
            Err(fault) => Err(submit_refusal(fault)),
        }
    }

    /// Runs the first waiting transaction at partition `part` that can run. If memory runs out,
    /// nothing changes.
    pub(crate) fn resume(&mut self, part: u64) -> Result<Answer, Refusal>
        requires { IsSound self.old }
        ensures { IsResult (Step.Resume part) self.old (resume_result self.old part)
            (answer_of result) self.new }
    {
        self.check_part(part)?;
        match self.cores[part as usize].resume() {
            Ok(Resumed { txn, outcome }) => {
                let Outcome::Done(reply) = outcome else {
                    unreachable!()
                };
                Ok(Answer::Resumed { txn, reply })
            }
            Err(fault) => Err(resume_refusal(fault)),
        }
    }

    // Turns a partition's outcome into the step's answer.
    fn submitted(&self, txn: &Txn, outcome: Outcome) -> Answer
        requires { length self.now.trees ≡ length self.now.recon.segments }
        ensures { result ≡ submitted self.now txn.now outcome }
    {
        let id = txn.id();
        match outcome {
            Outcome::Done(reply) => Answer::Replied { id, reply },
            Outcome::Moved(who) => Answer::Moved {
                id,
                to: self.sent_to(txn.root(), who),
            },
            Outcome::Waits(seg, leaf) => Answer::Waits { id, seg, leaf },
        }
    }

    // Returns where a transaction on `root` is forwarded to, if a partition forwards it to `who`.
    fn sent_to(&self, root: Root, who: PartId) -> PartId
        requires { length self.now.trees ≡ length self.now.recon.segments }
        ensures { result ≡ sent_to self.now root who }
    {
        if self.is_given_up(root) {
            self.new_plan.owner(root)
        } else {
            who
        }
    }

    // Returns true if the node over `root` was begun.
    fn is_given_up(&self, root: Root) -> bool
        requires { length self.now.trees ≡ length self.now.recon.segments }
        ensures { result ≡ is_root_given_up self.now root }
    {
        let Some(at) = self.recon.find(root) else {
            return false;
        };
        let (seg, leaf) = at;
        let tree = &self.trees[seg.index()];
        matches!(
            tree.status(tree.covering(leaf)),
            Status::Partial(_) | Status::Complete(_)
        )
    }
}

// Returns why a transaction was refused.
fn submit_refusal(fault: SubmitFault) -> Refusal
    ensures { result ≡ submit_refused fault }
{
    match fault {
        SubmitFault::WaitFull => Refusal::WaitFull,
        SubmitFault::LogFull => Refusal::LogFull,
        SubmitFault::Memory => Refusal::Memory,
    }
}

// Returns why no waiting transaction was resumed.
fn resume_refusal(fault: ResumeFault) -> Refusal
    ensures { result ≡ resume_refused fault }
{
    match fault {
        ResumeFault::NoneReady => Refusal::NoneReady,
        ResumeFault::LogFull => Refusal::LogFull,
        ResumeFault::Memory => Refusal::Memory,
    }
}
