// Runs operations on the rows of a root key, without a write before all of them have run.
ghost use Rattle.std.specs.Prelude.{◌≡◌, ◌≤◌, ◌++◌, ◌∷◌, [], None, length, IfOk, IfSome, OnOk};
ghost use Rattle.std.specs.Option.{option_copied};
ghost use Rattle.sq_rows.specs.declared.row.TheConstants.{MAX_NOTE};
ghost use Rattle.sq_schema.specs.declared.schema.TheConstants.{MAX_TABLES};
ghost use Rattle.sq_schema.specs.Refusals.{ops_fault};
ghost use Rattle.sq_schema.specs.Runs.{EndsBy};

use crate::txn::{Cause, Op, OpAnswer, OpAnswers, Reply};
use crate::written_keys::WrittenKeys;
use sq_rows::rows::weight;
use sq_rows::{Row, RowKey, RowWrite, Rows, ShortList};
use std::alloc::{AllocError, Global};
use std::marker::Model;

/// Rows with pending writes: all operations of a transaction run before the first write is
/// performed. To a contract it is a `PendingValue`.
#[derive(Drop)]
pub(crate) struct PendingRows<'a> {
    alloc: Global,
    rows: &'a Rows,
    writes: ShortList<RowWrite>,
    most: usize,
    written: WrittenKeys,
    count: usize,
    size: u64,
}

impl<'a> Model for PendingRows<'a> {
    ghost use Rattle.sq_schema.specs.Pending.{PendingValue, IsPending};
    ghost use Rattle.sq_rows.specs.ShortList.{short_items};
    ghost use Rattle.sq_schema.specs.WrittenKeys.{AreMarked};

    ghost Value = { PendingValue };

    ghost view = { λ d. record { base = d.rows.now; writes = short_items d.writes } };

    ghost invariant = { λ d.
        IsPending (record { base = d.rows.now; writes = short_items d.writes }) d.count d.size
        × AreMarked d.written.marks (short_items d.writes) };
}

/// Why an operation has no answer.
#[derive(Clone, Copy)]
pub(crate) enum Stop {
    Abort(Cause),
    Memory,
}

/// The outcome of running operations.
#[derive(Drop)]
pub(crate) struct RunOutcome {
    /// The reply to their transaction.
    pub(crate) reply: Reply,
    /// The writes still to be performed; empty if an operation aborted.
    pub(crate) writes: ShortList<RowWrite>,
    /// The size in bytes of a family with the rows after these writes.
    pub(crate) size: u64,
}

impl From<Cause> for Stop {
    ghost use Rattle.std.specs.Prelude.{◌≡◌};
    ghost use Rattle.sq_schema.specs.declared.pending.Stop.TheVariants.{Abort};

    ghost from_gives = { λ cause stop. stop ≡ Abort cause };

    fn from(cause: Cause) -> Stop {
        Stop::Abort(cause)
    }
}

impl From<AllocError> for Stop {
    ghost use Rattle.std.specs.Prelude.{◌≡◌};
    ghost use Rattle.sq_schema.specs.declared.pending.Stop.TheVariants.{Memory};

    ghost from_gives = { λ _ stop. stop ≡ Memory };

    fn from(_error: AllocError) -> Stop {
        Stop::Memory
    }
}

impl<'a> PendingRows<'a> {
    ghost use Rattle.sq_rows.specs.RowList.{row_at};
    ghost use Rattle.sq_schema.specs.Effect.{op_outcome};
    ghost use Rattle.sq_schema.specs.Refusals.{op_fault};
    ghost use Rattle.sq_rows.specs.Writes.{count_of_row, size_of_row, is_write};
    ghost use Rattle.sq_schema.specs.Pending.{pending_rows};
    ghost use Rattle.sq_schema.specs.Runs.{ComesTo};

    // Creates the pending rows of `rows`, without writes; at most `most` writes follow.
    fn new(alloc: Global, rows: &'a Rows, most: usize) -> PendingRows<'a>
        ensures rows { result.base ≡ rows.now }
        ensures writes { result.writes ≡ [] }
    {
        PendingRows {
            alloc,
            count: rows.len(),
            size: rows.size(),
            rows,
            writes: ShortList::new(alloc),
            most,
            written: WrittenKeys::new(),
        }
    }

    // Returns the row of `key` after the pending writes.
    fn get(&self, key: RowKey) -> Option<&Row>
        ensures row { option_copied result ≡ row_at (pending_rows self.now) key }
        ensures short { IfSome result (λ row. length row.now.note ≤ MAX_NOTE) }
    {
        if !self.written.may_have(key) {
            return self.rows.get(key);
        }
        match self
            .writes
            .as_slice()
            .iter()
            .rev()
            .find(|write| write.0 == key)
        {
            Some((_, row)) => row.as_ref(),
            None => self.rows.get(key),
        }
    }

    // Adds a write of `key`, whose row has the weight `old` so far.
    fn write(&mut self, key: RowKey, old: (usize, u64), row: Option<Row>) -> Result<(), AllocError>
        requires short { IfSome row (λ row. length row.note ≤ MAX_NOTE) }
        requires count { old.0 ≡ count_of_row (row_at (pending_rows self.old) key) }
        requires size { old.1 ≡ size_of_row (row_at (pending_rows self.old) key) }
        ensures base { self.new.base ≡ self.old.base }
        ensures ok { OnOk result (self.new.writes ≡ self.old.writes ++ (key, row) ∷ []) }
    {
        let (old_count, old_size) = old;
        let (new_count, new_size) = weight(row.as_ref());
        self.writes.push(self.alloc, self.most, (key, row))?;
        self.written.add(key);
        self.count = self.count + new_count - old_count;
        self.size = self.size + new_size - old_size;
        Ok(())
    }

    fn run(&mut self, op: &Op) -> Result<OpAnswer, Stop>
        requires { op_fault MAX_TABLES op.now ≡ None }
        ensures base { self.new.base ≡ self.old.base }
        ensures outcome { ComesTo (op_outcome (pending_rows self.old) op.now)
            (pending_rows self.new) result }
    {
        match op {
            Op::Get(key) => self.find(*key),
            Op::Put(key, row) => self.put(*key, row),
            Op::Add(key, by) => self.add(*key, *by),
            Op::Del(key) => self.del(*key),
            Op::Check(key, least) => self.check(*key, *least),
        }
    }

    fn find(&self, key: RowKey) -> Result<OpAnswer, Stop>
        ensures { ComesTo (op_outcome (pending_rows self.now) (Op.Get key))
            (pending_rows self.now) result }
    {
        match self.get(key) {
            Some(row) => Ok(OpAnswer::Found(Some(row.clone()?))),
            None => Ok(OpAnswer::Found(None)),
        }
    }

    fn put(&mut self, key: RowKey, row: &Row) -> Result<OpAnswer, Stop>
        requires { length row.now.note ≤ MAX_NOTE }
        ensures base { self.new.base ≡ self.old.base }
        ensures outcome { ComesTo (op_outcome (pending_rows self.old) (Op.Put key row.now))
            (pending_rows self.new) result }
    {
        if key.table != 0 && self.get(RowKey::ROOT).is_none() {
            return Err(Stop::Abort(Cause::NoRoot));
        }
        let old = weight(self.get(key));
        self.write(key, old, Some(row.clone()?))?;
        Ok(OpAnswer::Done)
    }

    fn add(&mut self, key: RowKey, by: i64) -> Result<OpAnswer, Stop>
        ensures base { self.new.base ≡ self.old.base }
        ensures outcome { ComesTo (op_outcome (pending_rows self.old) (Op.Add key by))
            (pending_rows self.new) result }
    {
        let row = self.get(key).ok_or(Cause::Absent)?;
        let old = weight(Some(row));
        let number = row.number().checked_add(by).ok_or(Cause::Range)?;
        let row = row.with_number(number)?;
        self.write(key, old, Some(row))?;
        Ok(OpAnswer::Number(number))
    }

    fn del(&mut self, key: RowKey) -> Result<OpAnswer, Stop>
        ensures base { self.new.base ≡ self.old.base }
        ensures outcome { ComesTo (op_outcome (pending_rows self.old) (Op.Del key))
            (pending_rows self.new) result }
    {
        let old = weight(Some(self.get(key).ok_or(Cause::Absent)?));
        if key == RowKey::ROOT && self.count != 1 {
            return Err(Stop::Abort(Cause::Children));
        }
        self.write(key, old, None)?;
        Ok(OpAnswer::Done)
    }

    fn check(&self, key: RowKey, least: i64) -> Result<OpAnswer, Stop>
        ensures { ComesTo (op_outcome (pending_rows self.now) (Op.Check key least))
            (pending_rows self.now) result }
    {
        let row = self.get(key).ok_or(Cause::Absent)?;
        if row.number() < least {
            return Err(Stop::Abort(Cause::Small));
        }
        Ok(OpAnswer::Done)
    }
}

// Runs `ops` on `rows`, up to the first that aborts. `rows` stay as they are.
pub(crate) fn run(alloc: Global, rows: &Rows, ops: &[Op]) -> Result<RunOutcome, AllocError>
    requires { ops_fault MAX_TABLES ops.now ≡ None }
    ensures { IfOk result (EndsBy rows.now ops.now) }
{
    let mut pending = PendingRows::new(alloc, rows, ops.len());
    let mut answers = ShortList::new(alloc);
    for (at, op) in ops.iter().enumerate() {
        match pending.run(op) {
            Ok(answer) => answers.push(alloc, ops.len(), answer)?,
            Err(Stop::Abort(cause)) => {
                return Ok(RunOutcome {
                    reply: Reply::Aborted { at, cause },
                    writes: ShortList::new(alloc),
                    size: rows.size(),
                });
            }
            Err(Stop::Memory) => return Err(AllocError),
        }
    }
    let PendingRows {
        alloc: _,
        rows: _,
        writes,
        most: _,
        written: _,
        count: _,
        size,
    } = pending;
    Ok(RunOutcome {
        reply: Reply::Committed(OpAnswers::of(answers)),
        writes,
        size,
    })
}
