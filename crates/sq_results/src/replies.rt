// The answers of a run's jobs.
ghost use Rattle.std.specs.Prelude.{◌≡◌, ◌++◌, ◌∷◌, [], is_some, IfOk, OnOk};
ghost use Rattle.std.specs.List.{flat_map};
ghost use Rattle.std.specs.Io.KnownBytes.{Appends};
ghost use Rattle.sq_results.specs.Answered.{IsToldAfter, told_of, reply_lines, unanswered_count};

use sq_model::Answer;
use sq_node::Receipt;
use sq_text::{WriteFault, write_answer};
use std::alloc::{AllocError, Global};
use std::collections::HashMap;
use std::io::Write;
use std::marker::Model;

/// The ids of jobs, in the order in which they are posted, and the answers. Contracts see a
/// `RepliesValue`.
#[derive(Drop)]
pub struct Replies {
    ids: Vec<u64>,
    // By the id of the job.
    told: HashMap<u64, Answer>,
}

impl Model for Replies {
    ghost use Rattle.sq_results.specs.Answered.{RepliesValue};

    ghost Value = { RepliesValue };

    ghost view = { λ r. record { ids = r.ids.items; told = r.told.entries } };
}

impl Replies {
    /// Replies of no jobs.
    pub fn new(alloc: Global) -> Replies
        ensures { result ≡ record { ids = []; told = [] } }
    {
        Replies {
            ids: Vec::new(alloc),
            told: HashMap::new(alloc),
        }
    }

    /// Adds the posted job `id`, after those before. Fails if memory runs out.
    pub fn post(&mut self, id: u64) -> Result<(), AllocError>
        ensures { OnOk result (self.new ≡ record self.old { ids = self.old.ids ++ id ∷ [] }) }
    {
        self.ids.push(id)?;
        Ok(())
    }

    /// Records the answers in receipts. Of several with the same id the first counts. Fails if
    /// memory runs out.
    pub fn take(&mut self, receipts: &[Receipt]) -> Result<(), AllocError>
        ensures { OnOk result (IsToldAfter self.old receipts.now self.new) }
    {
        for receipt in receipts {
            self.take_one(receipt)?;
        }
        Ok(())
    }

    // Records the answer of a receipt, unless one with its id was recorded.
    fn take_one(&mut self, receipt: &Receipt) -> Result<(), AllocError>
        ensures { OnOk result (IsToldAfter self.old (receipt.now ∷ []) self.new) }
    {
        if self.told.contains_key(&receipt.txn.id()) {
            return Ok(());
        }
        let answer = Answer::Replied {
            id: receipt.txn.id(),
            reply: receipt.reply.clone()?,
        };
        self.told.insert(receipt.txn.id(), answer)?;
        Ok(())
    }

    /// Writes a line for each job that was answered, in the order in which the jobs were posted,
    /// and returns how many weren't answered. Fails if a write does.
    pub fn write<W: Write>(&self, writer: &mut W) -> Result<u64, WriteFault>
        ensures lines { OnOk result (Appends (W.contents writer.old) (W.contents writer.new)
            (flat_map (reply_lines self.now.told) self.now.ids)) }
        ensures unanswered { IfOk result (λ count. count ≡ unanswered_count self.now) }
    {
        let mut unanswered = 0;
        for id in &self.ids {
            if !self.write_reply(writer, *id)? {
                unanswered += 1;
            }
        }
        Ok(unanswered)
    }

    // Writes the answer of the job `id`, and returns whether it has one.
    fn write_reply<W: Write>(&self, writer: &mut W, id: u64) -> Result<bool, WriteFault>
        ensures lines { OnOk result (Appends (W.contents writer.old) (W.contents writer.new)
            (reply_lines self.now.told id)) }
        ensures answered { IfOk result (λ answered. answered ≡ is_some (told_of self.now.told id)) }
    {
        match self.told.get(&id) {
            Some(answer) => {
                write_answer(writer, answer)?;
                Ok(true)
            }
            None => Ok(false),
        }
    }
}
