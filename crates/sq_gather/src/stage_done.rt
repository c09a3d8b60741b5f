// Whether the segments of the gathered stage are complete.
ghost use Rattle.std.specs.Prelude.{◌≡◌, ◌≤◌, ◌*◌, ◌^◌, ℕ};
ghost use Rattle.std.specs.Bool.{Decides};
ghost use Rattle.sq_moves.specs.Prelude.{reading_within, is_complete_reading, status_at, IsGrown};
ghost use Rattle.sq_node_model.specs.Prelude.{is_complete_in, IsStageDone, AllGrown};

use crate::gathered::Gathered;
use sq_moves::{NODES, NodeId, Opening, SegId, Status};

impl Gathered {
    /// Returns true if each segment of the gathered stage is complete.
    pub fn is_stage_done(&self, opening: &Opening) -> bool
        requires { AllGrown self.now.statuses }
        ensures { Decides result (IsStageDone opening.now self.now) }
    {
        let recon = opening.recon();
        for place in 0..recon.segments().len() {
            let Some(seg) = SegId::new(place as u64) else {
                unreachable!()
            };
            if recon.stage_of(seg) == self.stage && !self.is_whole(seg) {
                return false;
            }
        }
        true
    }

    // Returns true if segment `seg` is complete. One without statuses isn't.
    fn is_whole(&self, seg: SegId) -> bool
        requires { AllGrown self.now.statuses }
        ensures { result ≡ is_complete_in self.now seg }
    {
        match self.statuses.get(seg.index()) {
            Some(statuses) => reads_complete(statuses, NodeId::WHOLE),
            None => false,
        }
    }
}

/// Returns true if the live node `node` reads complete: it is complete, or it is split and both of
/// its halves read complete. The contract holds for any depth that reaches the leaves.
pub fn reads_complete(statuses: &[Status; NODES], node: NodeId) -> bool
    requires { IsGrown (status_at statuses.now) }
    ensures { (depth : ℕ) → 32 ≤ node * 2 ^ depth
        → result ≡ is_complete_reading (reading_within depth (status_at statuses.now) node) }
{
    match statuses[node.index()] {
        Status::Complete(_) => true,
        Status::Split => {
            reads_complete(statuses, node.low_half()) && reads_complete(statuses, node.high_half())
        }
        Status::Free | Status::Claimed(_) | Status::Partial(_) => false,
    }
}
