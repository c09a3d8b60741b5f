// Requests from one partition to another.
use sq_moves::{NodeId, Recon, SegId};
use sq_plan::PartId;

/// A request to begin a node of a segment for a pull. Its numbers are not checked: the partition
/// that takes it looks at the node, whose status alone decides.
#[derive(Clone, Copy, Debug, PartialEq, Eq)]
pub struct Request {
    /// The number of the segment.
    pub seg: u64,
    /// The number of the node in the segment's split tree.
    pub node: u64,
    /// The pull that claimed the node.
    pub pull: u32,
}

/// A request that isn't sent yet, and the partition that it is for.
#[derive(Clone, Copy, Debug, PartialEq, Eq)]
pub struct PendingRequest {
    /// The partition that the node leaves.
    pub src: PartId,
    pub request: Request,
}

impl PendingRequest {
    ghost use Rattle.std.specs.Prelude.{◌≡◌, ◌<◌, length, slice_get, Some};
    ghost use Rattle.sq_moves.specs.declared.recon.Range.{Range};
    ghost use Rattle.sq_shared.specs.Wins.{request_for};

    /// Returns the request of pull `pull` for node `node` of segment `seg`.
    pub(crate) fn new(recon: &Recon, seg: SegId, node: NodeId, pull: u32) -> PendingRequest
        requires { seg < length recon.now.segments }
        ensures { (segment : Range) × (slice_get recon.now.segments seg ≡ Some segment)
            × (result ≡ request_for segment seg node pull) }
    {
        let segment = recon.segments()[seg.index()];
        PendingRequest {
            src: segment.src,
            request: Request {
                seg: seg.number(),
                node: node.number(),
                pull,
            },
        }
    }
}
