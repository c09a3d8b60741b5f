// What a desk shows of itself to a watch.
use crate::desk::{AskedTxn, MoveProgress};
use crate::sides::SideQueues;
use sq_engine::StageProgress;

/// What a desk shows of itself to the watch of its engine.
#[derive(Clone, Copy)]
pub struct DeskFigures<'a> {
    moving: Option<MoveProgress>,
    pumps: u64,
    sides: &'a SideQueues<AskedTxn>,
}

impl<'a> DeskFigures<'a> {
    /// What a desk shows whose move, if there is one, has come as far as `moving`, that lets `pumps`
    /// pumps claim, and at which the jobs in `sides` wait.
    pub(crate) fn new(
        moving: Option<MoveProgress>,
        pumps: u64,
        sides: &'a SideQueues<AskedTxn>,
    ) -> DeskFigures<'a> {
        DeskFigures {
            moving,
            pumps,
            sides,
        }
    }

    /// The progress of the stage that runs; `None` at rest.
    pub fn stage(&self) -> Option<StageProgress> {
        match self.moving {
            Some(moving) => Some(moving.stage),
            None => None,
        }
    }

    /// How many pumps claim.
    pub fn pumps(&self) -> u64 {
        self.pumps
    }

    /// How many partitions there are.
    pub fn parts(&self) -> u8 {
        self.sides.parts()
    }

    /// How many jobs wait at the desk for the queue of partition `part`.
    pub fn waiting_at(&self, part: u8) -> u64 {
        if part < self.sides.parts() {
            self.sides.waiting_at(usize::from(part)) as u64
        } else {
            0
        }
    }
}
