// The events of an engine.
use crate::open_jobs::PostFault;
use sq_audit::Job;
use sq_node::Receipt;
use sq_plan::{PartId, Plan};

/// What happened in an engine. Contracts speak of the list of all events of an engine; in memory
/// there is no such list.
#[derive(Debug, Drop)]
pub enum Event {
    /// This job was posted.
    Posts(Job),
    /// This job of a client was returned to it, for this reason.
    Refuses(Job, PostFault),
    /// This receipt of the partition arrived, and its job is answered.
    Answers(PartId, Receipt),
    /// This receipt of the partition arrived, and no open job has its transaction.
    Drops(PartId, Receipt),
    /// Receipts that were written didn't arrive.
    Loses,
    /// A client asked for nothing.
    Rests,
    /// A client asked for the end of the epoch.
    Ends,
    /// A move to this plan began.
    MovesTo(Plan),
}
