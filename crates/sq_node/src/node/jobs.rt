// The steps of a node on jobs.
ghost use Rattle.std.specs.Prelude.{◌≡◌, ◌⊎◌, ◌++◌, option_to_list};
ghost use Rattle.sq_store.specs.Prelude.{log_length};
ghost use Rattle.sq_node.specs.NodeState.{IsNodeOf, position_before};
ghost use Rattle.sq_node.specs.Holds.{DoesAndKeeps};
ghost use Rattle.sq_node.specs.Steps.{JobStep, ResumeStep};

use super::Node;
use crate::fabric::Fabric;
use crate::receipt::Receipt;
use crate::stepped::Stepped;
use sq_exec::{Outcome, PartCore, ResumeFault, Resumed, SubmitFault};
use sq_schema::{Reply, Txn};
use sq_store::SlabStore;
use std::sync::Wait;

impl Node {
    /// Takes a job, and submits it. If it is answered, its receipt is returned. If it belongs to
    /// another partition, it is forwarded, and if it is refused, it is posted here again. If it has
    /// to wait, the leaf that it waits for is claimed.
    pub fn step_job<R: Wait>(&mut self, rt: &R, fabric: &Fabric) -> (Stepped, Option<Receipt>)
        requires { IsNodeOf fabric.now self.old }
        ensures step { DoesAndKeeps fabric.now JobStep self.old result.0 self.new }
        ensures receipt { self.new.receipts ≡ self.old.receipts ++ option_to_list result.1 }
    {
        if self.desk.reserve().is_err() || self.puller.reserve().is_err() {
            return (Stepped::Memory, None);
        }
        let Some(job) = fabric.take_job(rt, self.core.part()) else {
            return (Stepped::Nothing, None);
        };
        let outcome = match self.core.submit(&job) {
            Ok(outcome) => outcome,
            Err(fault) => {
                self.desk.post(rt, fabric, self.core.part(), job);
                return (refusal(fault), None);
            }
        };
        match outcome {
            Outcome::Done(reply) => {
                self.effort.add_answer(job.ops().len());
                let receipt = receipt(&self.core, job, reply);
                self.desk.add(&receipt);
                fabric.count_answer();
                (Stepped::Did, Some(receipt))
            }
            Outcome::Moved(to) => {
                self.effort.add_post();
                self.desk.post(rt, fabric, to, job);
                (Stepped::Did, None)
            }
            Outcome::Waits(seg, leaf) => {
                self.effort.add_wait(job.id(), job.ops().len());
                drop(job);
                let shared = fabric.shared();
                let _ = self
                    .puller
                    .reactive(rt, &shared, &mut self.seats, seg, leaf);
                (Stepped::Did, None)
            }
        }
    }

    /// Resumes a waiting transaction, if one can run. If it is answered, its receipt is returned.
    pub fn step_resume<R: Wait>(&mut self, rt: &R, fabric: &Fabric) -> (Stepped, Option<Receipt>)
        requires { IsNodeOf fabric.now self.old }
        ensures step { DoesAndKeeps fabric.now ResumeStep self.old result.0 self.new }
        ensures receipt { self.new.receipts ≡ self.old.receipts ++ option_to_list result.1 }
    {
        if self.desk.reserve().is_err() {
            return (Stepped::Memory, None);
        }
        let Resumed { txn, outcome } = match self.core.resume() {
            Ok(resumed) => resumed,
            Err(ResumeFault::Memory) => return (Stepped::Memory, None),
            Err(ResumeFault::NoneReady | ResumeFault::LogFull) => return (Stepped::Nothing, None),
        };
        match outcome {
            Outcome::Done(reply) => {
                self.effort.add_answer(txn.ops().len());
                let receipt = receipt(&self.core, txn, reply);
                self.desk.add(&receipt);
                fabric.count_answer();
                (Stepped::Did, Some(receipt))
            }
            Outcome::Moved(to) => {
                self.effort.add_post();
                self.desk.post(rt, fabric, to, txn);
                (Stepped::Did, None)
            }
            Outcome::Waits(_, _) => {
                drop(txn);
                (Stepped::Did, None)
            }
        }
    }
}

// Returns the outcome of a step whose transaction was refused.
fn refusal(fault: SubmitFault) -> Stepped
    ensures { (result ≡ Stepped.Nothing) ⊎ (result ≡ Stepped.Memory) }
{
    match fault {
        SubmitFault::Memory => Stepped::Memory,
        SubmitFault::WaitFull | SubmitFault::LogFull => Stepped::Nothing,
    }
}

// Returns the receipt of a transaction that a partition has just answered with `reply`.
fn receipt(core: &PartCore<SlabStore>, txn: Txn, reply: Reply) -> Receipt
    ensures { result ≡ record {
      txn = txn;
      position = position_before (log_length core.now.core.store txn.root) reply;
      reply = reply;
    } }
{
    let after = core.position(txn.root());
    let position = match &reply {
        Reply::Committed(_) => after.saturating_sub(1),
        Reply::Aborted { .. } => after,
    };
    Receipt {
        txn,
        position,
        reply,
    }
}
