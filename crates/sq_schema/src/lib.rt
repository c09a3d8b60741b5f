//! Families and transactions of one root key, and what a transaction does to its rows.
#![tactic(auto)]

mod apply;
mod family;
mod fault;
pub mod laws;
mod one_op;
mod op_list;
mod pending;
mod root;
mod root_list;
mod schema;
mod table;
mod txn;
mod written_keys;

pub use family::{Family, MAX_LOG};
pub use fault::{ApplyFault, OUT_OF_MEMORY, RowFault, TxnFault};
pub use root::{ROOT_END, Root};
pub use schema::{MAX_TABLES, Schema};
pub use sq_rows::{EntryIter, MAX_NOTE, Row, RowIter, RowKey, Rows, ShortList};
pub use table::Table;
pub use txn::{Cause, MAX_OPS, Op, OpAnswer, OpAnswers, Reply, Txn};
