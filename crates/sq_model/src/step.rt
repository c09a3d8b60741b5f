// The steps of a reconfiguration, and its phases.
use sq_schema::Txn;

/// One step. Its numbers may be any: wrong ones are refused.
#[derive(Debug, Drop)]
pub enum Step {
    /// Prepares this partition for the reconfiguration.
    Prepare(u64),
    /// Starts the move, at the leader.
    Start,
    /// Submits this transaction at this partition.
    Submit(u64, Txn),
    /// Runs the first waiting transaction at this partition that can run.
    Resume(u64),
    /// Splits a node of a segment, so that its halves move separately.
    Split {
        seg: u64,
        node: u64,
    },
    /// Claims a node of a segment for a pull.
    Claim {
        seg: u64,
        node: u64,
        /// The pull: odd for a reactive one, even for an asynchronous one.
        pull: u32,
    },
    /// Gives a claimed node up, at its source.
    Begin {
        seg: u64,
        node: u64,
        /// The pull that claimed the node.
        pull: u32,
    },
    /// Cuts the next chunk for a destination, at its source.
    Cut {
        src: u64,
        dst: u64,
    },
    /// Pushes the chunk that was cut onto its link.
    Push {
        src: u64,
        dst: u64,
    },
    /// Pops the oldest chunk off the link, at the destination.
    Pop {
        src: u64,
        dst: u64,
    },
    /// Loads the popped chunk, at the destination.
    Load {
        src: u64,
        dst: u64,
    },
    /// Completes a node whose last chunk is loaded.
    Complete {
        seg: u64,
        node: u64,
        /// The pull that began the node.
        pull: u32,
    },
    /// Reports that all that moves to this partition is complete.
    Report(u64),
    /// Ends the running stage and enters the next one, at the leader.
    Next,
    /// Ends the reconfiguration, at the leader.
    Finish,
    /// Folds the logs of this partition, after the reconfiguration has ended: each family restarts
    /// from its rows.
    Fold(u64),
    /// Reads the status of a node of a segment, which changes nothing.
    Status {
        seg: u64,
        node: u64,
    },
}

/// The phase that the leader is in.
#[derive(Clone, Copy, Debug, PartialEq, Eq)]
pub enum Phase {
    /// No partition has prepared.
    Idle,
    /// At least one partition has prepared.
    Preparing,
    /// The move has started.
    Moving,
    /// The move has ended.
    Ended,
}
