// Commands to a store, and their answers.
use crate::store::Cut;
use sq_moves::Extent;
use sq_schema::{ApplyFault, Family, Reply, Txn};
use std::alloc::AllocError;

/// A command to a store.
#[derive(Debug, Drop)]
pub enum StoreCommand {
    /// Runs a transaction.
    Apply(Txn),
    /// Takes families of an extent out, with a limit in bytes.
    Take(Extent, u64),
    /// Puts families in.
    Give(Vec<Family>),
}

/// The answer to a command.
#[derive(Debug, Drop)]
pub enum StoreAnswer {
    /// The reply to the transaction, or why it didn't run.
    Applied(Result<Reply, ApplyFault>),
    /// The families that were taken, unless memory ran out.
    Taken(Result<Cut, AllocError>),
    /// The families were put in; they are returned if memory ran out.
    Given(Result<(), Vec<Family>>),
    /// The families are returned, since two of them have the same root key or the store has one of
    /// their root keys.
    NotGiven(Vec<Family>),
}
