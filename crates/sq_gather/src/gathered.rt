// What is gathered of a run.
ghost use Rattle.std.specs.Prelude.{map};
ghost use Rattle.std.specs.Coded.{codes};
ghost use Rattle.sq_store.specs.Prelude.{store_coded};
ghost use Rattle.sq_node_model.specs.Prelude.{GatheredValue};

use crate::links::ClosedLink;
use sq_history::History;
use sq_moves::{NODES, Status};
use sq_node::Receipt;
use sq_schema::Txn;
use sq_store::SlabStore;
use std::marker::Model;

/// What a run left, after its threads are done. To a contract it is a `GatheredValue`.
#[derive(Debug, Drop)]
pub struct Gathered {
    /// The stage that ran.
    pub stage: u64,
    /// The families of each partition.
    pub stores: Vec<SlabStore>,
    /// The links, by source and then by destination.
    pub links: Vec<ClosedLink>,
    /// The statuses of the nodes of each segment's tree, from node 1 on.
    pub statuses: Vec<[Status; NODES]>,
    /// The history of receipts: those of earlier stages, then those of each partition, in the order
    /// in which they were written.
    pub receipts: History<Receipt>,
    /// The unanswered jobs of each partition: first those that waited there, in their order, then
    /// those that were pending for it, then those in its queue.
    pub left: Vec<Vec<Txn>>,
}

impl Model for Gathered {
    ghost Value = { GatheredValue };

    ghost coded = { Prim.hlevel (codes, store_coded) };

    ghost view = { λ g. record {
      stage = g.stage;
      stores = g.stores.items;
      links = g.links.items;
      statuses = g.statuses.items;
      receipts = g.receipts.items;
      left = map (λ jobs. jobs.items) g.left.items;
    } };
}
