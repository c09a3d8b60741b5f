// Who is given a node's receipts.
ghost use Rattle.sq_node_model.specs.Prelude.{ReceiptValue};

use sq_node::{Node, Receipt};
use std::sync::Wait;

/// Takes the receipts of one node, in the thread that drives it.
pub trait Teller {
    /// How `tell` changes a teller.
    ghost Tells: { Self → ReceiptValue → Self → Type 0 };

    /// Takes a receipt of its node, as soon as it is written. The node keeps no copy. It may wait.
    fn tell<R: Wait>(&mut self, rt: &R, receipt: Receipt)
        ensures { Tells self.old receipt self.new };
}

/// A node, and its teller.
#[derive(Drop)]
pub struct TellingNode<T> {
    pub node: Node,
    /// The teller, to which each receipt that the node writes is moved.
    pub teller: T,
}
