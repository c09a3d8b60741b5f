// Runs transactions on the rows of one root key.
ghost use Rattle.std.specs.Prelude.{◌≡◌, ◌∷◌, [], None, OnOk, OnErr, IfOk};
ghost use Rattle.sq_schema.specs.declared.schema.TheConstants.{MAX_TABLES};
ghost use Rattle.sq_schema.specs.Effect.{ops_outcome, reply_of, rows_after, effect, reply};
ghost use Rattle.sq_schema.specs.Refusals.{op_fault};

use crate::one_op::run_one;
use crate::pending::{RunOutcome, Stop, run};
use crate::txn::{Op, OpAnswers, Reply, Txn};
use sq_rows::{Rows, ShortList};
use std::alloc::{AllocError, Global};

impl Txn {
    /// Runs the transaction on the `rows` of its root key and returns its reply. If it aborts, or
    /// memory runs out, `rows` stay as they were.
    pub fn apply_to(&self, alloc: Global, rows: &mut Rows) -> Result<Reply, AllocError>
        ensures reply { IfOk result (λ r. r ≡ reply rows.old self.now) }
        ensures rows { OnOk result (rows.new ≡ effect rows.old self.now) }
        ensures err { OnErr result (rows.new ≡ rows.old) }
    {
        if let [op] = self.ops() {
            return apply_one(rows, op);
        }
        let RunOutcome {
            reply,
            writes,
            size,
        } = run(alloc, rows, self.ops())?;
        if let Reply::Committed(_) = reply {
            rows.write_all(writes, size)?;
        }
        Ok(reply)
    }

    // Runs the transaction on `rows`, which stay as they were if memory runs out.
    pub(crate) fn run_on(&self, alloc: Global, rows: &mut Rows) -> Result<(), AllocError>
        ensures ok { OnOk result (rows.new ≡ effect rows.old self.now) }
        ensures err { OnErr result (rows.new ≡ rows.old) }
    {
        self.apply_to(alloc, rows)?;
        Ok(())
    }
}

// Runs a transaction whose only operation is `op`.
fn apply_one(rows: &mut Rows, op: &Op) -> Result<Reply, AllocError>
    requires { op_fault MAX_TABLES op.now ≡ None }
    ensures reply { IfOk result (λ r. r ≡ reply_of (ops_outcome 0 (op.now ∷ []) rows.old)) }
    ensures rows { OnOk result (rows.new
        ≡ rows_after rows.old (ops_outcome 0 (op.now ∷ []) rows.old)) }
    ensures err { OnErr result (rows.new ≡ rows.old) }
{
    match run_one(rows, op) {
        Ok(answer) => Ok(Reply::Committed(OpAnswers::of(ShortList::One(answer)))),
        Err(Stop::Abort(cause)) => Ok(Reply::Aborted { at: 0, cause }),
        Err(Stop::Memory) => Err(AllocError),
    }
}
