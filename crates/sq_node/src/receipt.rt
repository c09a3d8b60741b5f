// Receipts of transactions.
use sq_schema::{Reply, Txn};
use std::marker::Model;

/// The answer to a transaction. To a contract it is a `ReceiptValue`.
#[derive(Debug, Drop)]
pub struct Receipt {
    /// The transaction.
    pub txn: Txn,
    /// How many transactions the log of its root key held before this one.
    pub position: u64,
    /// The answer.
    pub reply: Reply,
}

impl Model for Receipt {
    ghost use Rattle.sq_node_model.specs.Prelude.{ReceiptValue};

    ghost Value = { ReceiptValue };

    ghost view = { λ r. record { txn = r.txn; position = r.position; reply = r.reply } };
}
