// The figures of a live run.
use crate::part_figures::PartFigures;
use crate::times::Times;

/// What moved along a link in a stage.
#[derive(Clone, Copy, Debug, PartialEq, Eq)]
pub struct LinkFigures {
    pub stage: u64,
    /// The partition that the link leads from.
    pub src: u8,
    /// The partition that it leads to.
    pub dst: u8,
    /// How many root keys its chunks cover, with families or without.
    pub keys: u64,
    /// How many families these root keys have once the stage has ended.
    pub families: u64,
    /// How many rows these families have.
    pub rows: u64,
    /// How many bytes these families have.
    pub bytes: u64,
    /// How many chunks were cut for it.
    pub chunks: u64,
}

/// The figures of a live run.
#[derive(Debug, Drop)]
pub struct RunFigures {
    /// Whether memory sufficed to count all.
    pub is_whole: bool,
    /// What moved along each link, stage by stage.
    pub links: Vec<LinkFigures>,
    /// How jobs ended at each partition.
    pub parts: Vec<PartFigures>,
    /// How long the parts of the run took.
    pub times: Times,
}
