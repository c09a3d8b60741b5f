// Runs the only operation of a transaction. It writes in place, since no later operation can abort.
ghost use Rattle.std.specs.Prelude.{◌≡◌, ◌≤◌, None, length, OnErr};
ghost use Rattle.sq_rows.specs.declared.row.TheConstants.{MAX_NOTE};
ghost use Rattle.sq_schema.specs.declared.schema.TheConstants.{MAX_TABLES};
ghost use Rattle.sq_schema.specs.Effect.{op_outcome};
ghost use Rattle.sq_schema.specs.Refusals.{op_fault};
ghost use Rattle.sq_schema.specs.Runs.{ComesTo};

use crate::pending::Stop;
use crate::txn::{Cause, Op, OpAnswer};
use sq_rows::{NotAdded, Row, RowKey, Rows};

/// Runs `op` on `rows`, which stay as they were if it aborts or memory runs out.
pub(crate) fn run_one(rows: &mut Rows, op: &Op) -> Result<OpAnswer, Stop>
    requires { op_fault MAX_TABLES op.now ≡ None }
    ensures outcome { ComesTo (op_outcome rows.old op.now) rows.new result }
    ensures err { OnErr result (rows.new ≡ rows.old) }
{
    match op {
        Op::Get(key) => find(rows, *key),
        Op::Put(key, row) => put(rows, *key, row),
        Op::Add(key, by) => add(rows, *key, *by),
        Op::Del(key) => del(rows, *key),
        Op::Check(key, least) => check(rows, *key, *least),
    }
}

fn find(rows: &Rows, key: RowKey) -> Result<OpAnswer, Stop>
    ensures { ComesTo (op_outcome rows.now (Op.Get key)) rows.now result }
{
    match rows.get(key) {
        Some(row) => Ok(OpAnswer::Found(Some(row.clone()?))),
        None => Ok(OpAnswer::Found(None)),
    }
}

fn put(rows: &mut Rows, key: RowKey, row: &Row) -> Result<OpAnswer, Stop>
    requires { length row.now.note ≤ MAX_NOTE }
    ensures outcome { ComesTo (op_outcome rows.old (Op.Put key row.now)) rows.new result }
    ensures err { OnErr result (rows.new ≡ rows.old) }
{
    if key.table != 0 && !rows.has_root() {
        return Err(Stop::Abort(Cause::NoRoot));
    }
    match rows.insert(key, row.clone()?) {
        Ok(()) => Ok(OpAnswer::Done),
        Err(_) => Err(Stop::Memory),
    }
}

fn add(rows: &mut Rows, key: RowKey, by: i64) -> Result<OpAnswer, Stop>
    ensures outcome { ComesTo (op_outcome rows.old (Op.Add key by)) rows.new result }
    ensures err { OnErr result (rows.new ≡ rows.old) }
{
    match rows.add(key, by) {
        Ok(number) => Ok(OpAnswer::Number(number)),
        Err(NotAdded::Absent) => Err(Stop::Abort(Cause::Absent)),
        Err(NotAdded::Range) => Err(Stop::Abort(Cause::Range)),
    }
}

fn del(rows: &mut Rows, key: RowKey) -> Result<OpAnswer, Stop>
    ensures outcome { ComesTo (op_outcome rows.old (Op.Del key)) rows.new result }
    ensures err { OnErr result (rows.new ≡ rows.old) }
{
    if rows.get(key).is_none() {
        return Err(Stop::Abort(Cause::Absent));
    }
    if key == RowKey::ROOT && rows.len() != 1 {
        return Err(Stop::Abort(Cause::Children));
    }
    rows.remove(key)?;
    Ok(OpAnswer::Done)
}

fn check(rows: &Rows, key: RowKey, least: i64) -> Result<OpAnswer, Stop>
    ensures { ComesTo (op_outcome rows.now (Op.Check key least)) rows.now result }
{
    let row = rows.get(key).ok_or(Cause::Absent)?;
    if row.number() < least {
        return Err(Stop::Abort(Cause::Small));
    }
    Ok(OpAnswer::Done)
}
