// Random jobs.
use crate::dice::Dice;
use crate::failure::Failure;
use crate::plans::schema;
use crate::workload::Workload;
use sq_audit::Job;
use sq_plan::PartId;
use sq_schema::{Op, RowKey, Schema, Txn};
use std::alloc::Global;

/// The jobs of a workload, with the ids 0, 1, 2 and so on.
#[derive(Drop)]
pub struct JobSource {
    schema: Schema,
    dice: Dice,
    workload: Workload,
    // How many jobs were made so far.
    made: u64,
}

impl JobSource {
    /// A source that has made no job yet.
    pub fn new(workload: Workload) -> JobSource {
        JobSource {
            schema: schema(),
            dice: Dice::new(workload.seed),
            workload,
            made: 0,
        }
    }

    /// How many jobs there are.
    pub fn jobs(&self) -> u64 {
        self.workload.jobs
    }

    /// How many jobs were made so far.
    pub fn made(&self) -> u64 {
        self.made
    }

    /// Returns whether all jobs were made.
    pub fn is_spent(&self) -> bool {
        self.made >= self.workload.jobs
    }

    /// The next job, and its root key. Fails if memory runs out.
    pub fn make(&mut self, alloc: Global) -> Result<(Job, u64), Failure> {
        let part = PartId::new(self.dice.below(u64::from(self.workload.parts.max(1))) as u8);
        let root = self.dice.below(self.workload.roots.max(1));
        match add_one(alloc, self.schema, self.made, root) {
            Some(txn) => {
                self.made = self.made.saturating_add(1);
                Ok((Job { part, txn }, root))
            }
            None => Err(Failure::Memory),
        }
    }
}

// A transaction that adds 1 to the number of a root key.
fn add_one(alloc: Global, schema: Schema, id: u64, root: u64) -> Option<Txn> {
    let row = RowKey { table: 0, sub: 0 };
    let ops = vec![in alloc; Op::Add(row, 1)].ok()?;
    Txn::new(&schema, id, root, ops).ok()
}
