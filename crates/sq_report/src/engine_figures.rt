// The figures of an engine that is served.
use crate::spread::Spread;
use crate::tallies::MovedTally;

/// The figures of an engine that is served, at one time.
#[derive(Drop)]
pub struct EngineFigures {
    /// For how many microseconds the engine has been served.
    pub micros: u64,
    /// How many jobs were committed, and how many aborted.
    pub committed: u64,
    pub aborted: u64,
    /// How many jobs have no answer, and how many of them belong to each partition.
    pub open: u64,
    pub open_at: Vec<u64>,
    /// How long jobs waited that were answered in the last second: of many, one in two, four or
    /// more is measured. `None` if there are none.
    pub waits: Option<Spread>,
    /// How many moves are done, and how many families and bytes have been moved in all moves.
    pub moves: u64,
    pub families: u64,
    pub bytes: u64,
    /// The running move; `None` at rest.
    pub moving: Option<MoveFigures>,
    /// How many pumps claim.
    pub pumps: u64,
    /// How many bytes of memory the process has; `None` if the system doesn't say it.
    pub memory: Option<u64>,
}

/// The figures of a move that runs.
#[derive(Clone, Copy, Debug)]
pub struct MoveFigures {
    /// How many segments move in the running stage, and how many of them are complete.
    pub stage: Share,
    /// The same of all stages.
    pub all: Share,
    /// How many families and bytes have been moved.
    pub families: u64,
    pub bytes: u64,
    /// How many families were moved a second, by the last second.
    pub rate: u64,
    /// What is left, by estimate; `None` while no segment is complete.
    pub left: Option<LeftFigures>,
}

/// How many segments there are, and how many of them are complete.
#[derive(Clone, Copy, Debug)]
pub struct Share {
    pub segments: u64,
    pub complete: u64,
}

/// An estimate of what is left to move.
#[derive(Clone, Copy, Debug)]
pub struct LeftFigures {
    pub families: u64,
    pub bytes: u64,
    /// How many milliseconds the rest takes at the rate of the last second; `None` if nothing was
    /// moved in it.
    pub millis: Option<u64>,
}

/// The estimate of what is left if `moved` was moved for the segments that are complete of `all`,
/// at `rate` families a second: the segments that are left have as much as those that are complete.
/// Returns `None` if none is complete.
pub(crate) fn left_of(all: Share, moved: MovedTally, rate: u64) -> Option<LeftFigures> {
    if all.complete == 0 {
        return None;
    }
    let families = share_left(moved.families, all);
    Some(LeftFigures {
        families,
        bytes: share_left(moved.bytes, all),
        millis: millis_for(families, rate),
    })
}

// How much is left if `moved` belongs to the segments that are complete; 0 if none is.
fn share_left(moved: u64, all: Share) -> u64 {
    let left = all.segments.saturating_sub(all.complete);
    let product = u128::from(moved).saturating_mul(u128::from(left));
    match product.checked_div(u128::from(all.complete)) {
        Some(share) => share.min(u128::from(u64::MAX)) as u64,
        None => 0,
    }
}

// How many milliseconds `families` take at `rate` families a second; `None` at the rate 0.
fn millis_for(families: u64, rate: u64) -> Option<u64> {
    let product = u128::from(families).saturating_mul(1_000);
    let millis = product.checked_div(u128::from(rate))?;
    Some(millis.min(u128::from(u64::MAX)) as u64)
}
