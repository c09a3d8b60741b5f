// Where an engine is.
use sq_gather::Gathered;
use sq_node::RunParts;

/// Where an engine is.
#[derive(Drop)]
pub(crate) enum At {
    /// In an epoch, which is a stage of a move, or rest.
    Running(RunParts),
    /// Between two epochs.
    Between {
        /// What the last epoch left.
        gathered: Gathered,
        /// Whether the opening in force is that of the next move, whose first stage is due.
        is_due: bool,
    },
    /// In a call that changes it.
    Changing,
}
