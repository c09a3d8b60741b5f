// Transactions and their replies.
ghost use Rattle.std.specs.Prelude.{◌≡◌, ◌≤◌, None, length, IfOk, IfErr, OnOk};
ghost use Rattle.std.specs.Option.{option_map};
ghost use Rattle.std.specs.Result.{result_err};

use crate::fault::TxnFault;
use crate::op_list::OpList;
use crate::root::Root;
use crate::schema::{Schema, check_key, check_row};
use sq_rows::{Row, RowKey, ShortList};
use std::alloc::AllocError;
use std::fmt::{self, Debug, Formatter, Write};
use std::marker::Model;

/// The most operations of a transaction.
pub const MAX_OPS: usize = 64;

/// One operation of a transaction, on a row of its root key.
#[derive(Clone, Debug, PartialEq, Eq, Drop)]
pub enum Op {
    /// Returns the row, or that there is none.
    Get(RowKey),
    /// Puts the row, new or in place of the present one. Aborts if the row is of a table other than
    /// the root table and there is no root row.
    Put(RowKey, Row),
    /// Adds to the row's number and returns the sum. Aborts if there is no row, or if the sum
    /// exceeds an `i64`.
    Add(RowKey, i64),
    /// Deletes the row. Aborts if there is no row, or if it is the root row and there is another
    /// row.
    Del(RowKey),
    /// Aborts if there is no row, or if its number is below the given one.
    Check(RowKey, i64),
}

impl Op {
    ghost use Rattle.sq_schema.specs.Refusals.{op_fault};

    // Refuses a key or a row that doesn't fit a schema of `tables` tables.
    fn check(&self, tables: u8) -> Result<(), TxnFault>
        ensures { result_err result ≡ op_fault tables self.now }
    {
        match self {
            Op::Get(key) | Op::Add(key, _) | Op::Del(key) | Op::Check(key, _) => {
                check_key(tables, *key)
            }
            Op::Put(key, row) => check_row(tables, *key, row),
        }
    }
}

/// The answer of an operation.
#[derive(Clone, Debug, PartialEq, Eq, Drop)]
pub enum OpAnswer {
    /// The row of a `Get`, or that there is none.
    Found(Option<Row>),
    /// The sum of an `Add`.
    Number(i64),
    /// The answer of a `Put`, `Del` or `Check`, which return no value.
    Done,
}

/// Why an operation aborts its transaction.
#[derive(Clone, Copy, Debug, PartialEq, Eq)]
pub enum Cause {
    /// There is no such row.
    Absent,
    /// The row's number is below the required one.
    Small,
    /// The sum exceeds an `i64`.
    Range,
    /// There is no root row.
    NoRoot,
    /// The root row has other rows under it.
    Children,
}

/// The answers of a transaction's operations, in their order. To a contract they are the list.
#[derive(Drop)]
pub struct OpAnswers {
    answers: ShortList<OpAnswer>,
}

impl Model for OpAnswers {
    ghost use Rattle.std.specs.Prelude.{List};
    ghost use Rattle.sq_rows.specs.ShortList.{short_items};
    ghost use Rattle.sq_schema.specs.declared.txn.OpAnswer.{OpAnswer};

    ghost Value = { List OpAnswer };

    ghost view = { λ a. short_items a.answers };
}

impl OpAnswers {
    ghost use Rattle.sq_rows.specs.ShortList.{short_items};

    pub fn new(answers: Vec<OpAnswer>) -> OpAnswers
        ensures { result ≡ answers.items }
    {
        OpAnswers::of(ShortList::of(answers))
    }

    pub(crate) fn of(answers: ShortList<OpAnswer>) -> OpAnswers
        ensures { result ≡ short_items answers }
    {
        OpAnswers { answers }
    }

    pub fn as_slice(&self) -> &[OpAnswer]
        ensures { result.now ≡ self.now }
    {
        self.answers.as_slice()
    }
}

impl Debug for OpAnswers {
    fn fmt<W: Write>(&self, f: &mut Formatter<W>) -> fmt::Result {
        f.debug_list().entries(self.as_slice()).finish()
    }
}

impl PartialEq for OpAnswers {
    ghost use Rattle.std.specs.Cmp.Lexicographic.{lists_per};
    ghost use Rattle.sq_schema.specs.contracts.txn.OpAnswerPartialEq.TheImpl.Laws as answer;
    ghost use Rattle.sq_schema.specs.Equal.Txns.{answers_eq};

    ghost eq = { answers_eq };

    ghost laws = { lists_per answer.laws-law };

    fn eq(&self, other: &OpAnswers) -> bool {
        self.as_slice() == other.as_slice()
    }
}

impl Eq for OpAnswers {
    ghost use Rattle.std.specs.Cmp.Lexicographic.{lists_equiv};
    ghost use Rattle.sq_schema.specs.contracts.txn.OpAnswerEq.TheImpl.Laws as answer;

    ghost laws = { lists_equiv answer.laws-law };
}

impl Clone for OpAnswers {
    ghost is_clone = { λ answers copy. copy ≡ answers };

    fn clone(&self) -> Result<OpAnswers, AllocError> {
        Ok(OpAnswers {
            answers: self.answers.clone()?,
        })
    }
}

/// The reply to a transaction.
#[derive(Clone, Debug, PartialEq, Eq, Drop)]
pub enum Reply {
    /// It committed, with these answers.
    Committed(OpAnswers),
    /// It changed nothing.
    Aborted {
        /// The position of the operation that aborted it, from 0.
        at: usize,
        cause: Cause,
    },
}

/// A transaction on one root key: 1 to [`MAX_OPS`] operations. To a contract it is a `TxnValue`.
#[derive(Debug, Drop)]
pub struct Txn {
    id: u64,
    root: Root,
    ops: OpList,
}

impl Model for Txn {
    ghost use Rattle.std.specs.Prelude.{◌≡◌, None};
    ghost use Rattle.sq_schema.specs.declared.schema.TheConstants.{MAX_TABLES};
    ghost use Rattle.sq_schema.specs.TxnValue.{TxnValue};
    ghost use Rattle.sq_schema.specs.OpList.{ops_of};
    ghost use Rattle.sq_schema.specs.Refusals.{txn_fault};

    ghost Value = { TxnValue };

    ghost view = { λ t. record { id = t.id; root = t.root; ops = ops_of t.ops } };

    ghost invariant = { λ t. txn_fault MAX_TABLES t.root (ops_of t.ops) ≡ None };
}

impl Txn {
    ghost use Rattle.sq_rows.specs.ShortList.{short_items};
    ghost use Rattle.sq_schema.specs.declared.schema.TheConstants.{MAX_TABLES};
    ghost use Rattle.sq_schema.specs.Refusals.{ops_fault, txn_fault};

    /// Creates the transaction `id` on the root key `root`. If it is refused, `ops` are returned
    /// with the first of these faults: the count of operations, the root key, and then for each
    /// operation its table, its sub key and its note.
    pub fn new(
        schema: &Schema,
        id: u64,
        root: u64,
        ops: Vec<Op>,
    ) -> Result<Txn, (TxnFault, Vec<Op>)>
        ensures fault { option_map (λ refused. refused.0) (result_err result)
            ≡ txn_fault schema.now root ops.items }
        ensures ok { IfOk result (λ txn. txn ≡ record { id = id; root = root; ops = ops.items }) }
        ensures ops_returned { IfErr result (λ refused. refused.1.items ≡ ops.items) }
    {
        match Txn::check(schema, root, &ops) {
            Ok(root) => Ok(Txn {
                id,
                root,
                ops: OpList::of(ShortList::of(ops)),
            }),
            Err(fault) => Err((fault, ops)),
        }
    }

    /// Like [`Txn::new`], for operations that need no list if there is only one. If it is refused,
    /// `ops` are dropped.
    pub fn of(schema: &Schema, id: u64, root: u64, ops: ShortList<Op>) -> Result<Txn, TxnFault>
        ensures fault { result_err result ≡ txn_fault schema.now root (short_items ops) }
        ensures ok { IfOk result (λ txn. txn
            ≡ record { id = id; root = root; ops = short_items ops }) }
    {
        Ok(Txn {
            id,
            root: Txn::check(schema, root, ops.as_slice())?,
            ops: OpList::of(ops),
        })
    }

    // Returns the root key, if the schema allows the transaction.
    fn check(schema: &Schema, root: u64, ops: &[Op]) -> Result<Root, TxnFault>
        ensures fault { result_err result ≡ txn_fault schema.now root ops.now }
        ensures ok { IfOk result (λ key. key ≡ root) }
        ensures sound { OnOk result (txn_fault MAX_TABLES root ops.now ≡ None) }
    {
        if ops.is_empty() || ops.len() > MAX_OPS {
            return Err(TxnFault::BadOps);
        }
        let Some(key) = Root::new(root) else {
            return Err(TxnFault::BadRoot);
        };
        let tables = schema.tables();
        for op in ops {
            op.check(tables)?;
        }
        Ok(key)
    }

    pub fn id(&self) -> u64
        ensures { result ≡ self.now.id }
    {
        self.id
    }

    pub fn root(&self) -> Root
        ensures { result ≡ self.now.root }
    {
        self.root
    }

    /// Returns the same transaction; if it has several operations, its clones share them, so that
    /// passing it on copies no operation. If memory runs out, it is dropped.
    pub fn share(self) -> Result<Txn, AllocError>
        ensures { IfOk result (λ txn. txn ≡ self) }
    {
        Ok(Txn {
            id: self.id,
            root: self.root,
            ops: self.ops.share()?,
        })
    }

    /// Returns the operations, 1 to [`MAX_OPS`].
    pub fn ops(&self) -> &[Op]
        ensures ops { result.now ≡ self.now.ops }
        ensures some { 1 ≤ length result.now }
        ensures few { length result.now ≤ MAX_OPS }
        ensures sound { ops_fault MAX_TABLES result.now ≡ None }
    {
        self.ops.as_slice()
    }
}

impl PartialEq for Txn {
    ghost use Rattle.std.specs.Cmp.{and_per, on_per, partial_equiv_from_equiv, nat_eq_equiv};
    ghost use Rattle.std.specs.Cmp.Lexicographic.{lists_per};
    ghost use Rattle.sq_schema.specs.contracts.txn.OpPartialEq.TheImpl.Laws as op;
    ghost use Rattle.sq_schema.specs.Equal.Txns.{txn_eq};

    ghost eq = { txn_eq };

    ghost laws = { and_per (on_per (λ t. t.id) (partial_equiv_from_equiv nat_eq_equiv))
        (and_per (on_per (λ t. t.root) (partial_equiv_from_equiv nat_eq_equiv))
        (on_per (λ t. t.ops) (lists_per op.laws-law))) };

    fn eq(&self, other: &Txn) -> bool {
        self.id == other.id && self.root == other.root && self.ops() == other.ops()
    }
}

impl Eq for Txn {
    ghost use Rattle.std.specs.Cmp.{and_equiv, on_equiv, nat_eq_equiv};
    ghost use Rattle.std.specs.Cmp.Lexicographic.{lists_equiv};
    ghost use Rattle.sq_schema.specs.contracts.txn.OpEq.TheImpl.Laws as op;

    ghost laws = { and_equiv (on_equiv (λ t. t.id) nat_eq_equiv)
        (and_equiv (on_equiv (λ t. t.root) nat_eq_equiv)
        (on_equiv (λ t. t.ops) (lists_equiv op.laws-law))) };
}

impl Clone for Txn {
    ghost is_clone = { λ txn copy. copy ≡ txn };

    fn clone(&self) -> Result<Txn, AllocError> {
        Ok(Txn {
            id: self.id,
            root: self.root,
            ops: self.ops.clone()?,
        })
    }
}
