// Families in parts, each checked in a thread of its own.
ghost use Rattle.std.specs.Prelude.{◌<◌, map, IfOk};
ghost use Rattle.sq_audit.specs.InThreads.{IsSaidOfAll};
ghost use Rattle.sq_audit.specs.Told.{said_by};

use crate::told::Found;
use std::alloc::AllocError;

/// The largest number of parts.
const PARTS: usize = 8;

/// The fewest families that are worth a thread.
const FEWEST: usize = 2_048;

/// Returns how many of `families` families go into one part: at least [`FEWEST`].
pub(crate) fn part_size(families: usize) -> usize
    ensures { 0 < result }
{
    (families / PARTS + 1).max(FEWEST)
}

/// Returns true if in every part each family was found to start from its opening rows. The first
/// part that failed decides: its error is returned, or false.
pub(crate) fn all_start(said: &[Result<Found, AllocError>]) -> Result<bool, AllocError>
    ensures { IfOk result (λ all. IsSaidOfAll all (map (said_by (λ found. found.start)) said.now)) }
{
    for one in said {
        match one {
            Ok(found) => {
                if !found.start {
                    return Ok(false);
                }
            }
            Err(_) => return Err(AllocError),
        }
    }
    Ok(true)
}

/// Returns true if in every part the log of each family was found to be told. The first part that
/// failed decides: its error is returned, or false.
pub(crate) fn all_known(said: &[Result<Found, AllocError>]) -> Result<bool, AllocError>
    ensures { IfOk result (λ all. IsSaidOfAll all (map (said_by (λ found. found.known)) said.now)) }
{
    for one in said {
        match one {
            Ok(found) => {
                if !found.known {
                    return Ok(false);
                }
            }
            Err(_) => return Err(AllocError),
        }
    }
    Ok(true)
}
