// What partitions and pumps share.
use crate::request::Request;
use crate::tree::StatusTree;
use crossbeam_queue::ArrayQueue;
use sq_moves::Recon;

/// What all partitions and pumps of a reconfiguration share.
#[derive(Clone, Copy)]
pub struct Shared<'a> {
    /// The reconfiguration.
    pub recon: &'a Recon,
    /// The split tree of each segment.
    pub trees: &'a [StatusTree],
    /// The request queue of each partition.
    pub requests: &'a [ArrayQueue<Request>],
}
