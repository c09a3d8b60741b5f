// Watching a live run.
use sq_audit::Job;
use sq_driver::{Collector, Gate, OpenGate, TellingNode};
use sq_gather::Gathered;
use sq_moves::Opening;
use sq_node::Receipt;

/// A gate of a live run that is also called as the run proceeds: once its input is read, in each
/// stage, and at its end. If memory or threads are lacking, only [`Watch::stage_ends`] and
/// [`Watch::ends`] may still be called.
pub trait Watch: Gate {
    /// Called once the input is read: `_jobs` are to be posted, in this order.
    fn posts(&self, _jobs: &[Job]) {}

    /// Called once the input is read, before the first thread starts: `_jobs` jobs are posted, and
    /// `_segments` segments move.
    fn begins(&self, _jobs: u64, _segments: u64) {}

    /// Called before the threads of each stage start.
    fn stage_begins(&self) {}

    /// Called after the last thread of each stage has ended, with the stage's nodes in the order of
    /// their partitions, each with the teller that collected its receipts of this stage.
    fn stage_ends(&self, _pairs: &[TellingNode<Collector>]) {}

    /// Called after [`Watch::stage_ends`] with what was gathered of the stage, before it is audited
    /// or folded, and with all receipts so far.
    fn gathers(&self, _gathered: &Gathered, _told: &[Receipt]) {}

    /// Called once the last stage of a run was judged: `_left` is what that stage left, `_told` are
    /// the receipts, and its audit, if it had one, used `_opening` and `_jobs`. By default all four
    /// are freed. It isn't called if the audit before a fold finds a defect.
    fn leaves(&self, _left: Gathered, _told: Vec<Receipt>, _opening: Opening, _jobs: Vec<Job>) {}

    /// Called after the last thread has ended, before the run's line is written.
    fn ends(&self) {}
}

impl Watch for OpenGate {}
