// A stage of a run, in its parts.

use crate::fabric::Fabric;
use crate::node::Node;
use sq_shared::Pump;

/// A stage of a run, in its parts.
#[derive(Drop)]
pub struct RunParts {
    /// What its nodes and its pumps share.
    pub fabric: Fabric,
    /// The nodes, one for each partition, in their order.
    pub nodes: Vec<Node>,
    pub pumps: Vec<Pump>,
}
