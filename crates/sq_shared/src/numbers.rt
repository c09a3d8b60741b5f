// The numbers of pulls.
ghost use Rattle.std.specs.Prelude.{◌≡◌, ◌<◌};
ghost use Rattle.sq_shared.specs.Numbers.{reactive_pull, pump_pull};

use sq_plan::PartId;

/// The partitions that may pull have numbers below this, and so do the pumps.
pub const MAX_OWNERS: u32 = 64;

/// The largest number of pumps in a run.
pub const MAX_PUMPS: u32 = 16;

/// The most claims that one partition or pump wins: up to this many, its pull numbers fit in 32
/// bits.
pub const MAX_CLAIMS: u32 = 33_554_432;

/// Returns the number, which is odd, of the next reactive pull of partition `part`, which has won
/// `won` claims.
pub(crate) fn reactive_pull(part: PartId, won: u32) -> u32
    requires part { part < MAX_OWNERS }
    requires won { won < MAX_CLAIMS }
    ensures { result ≡ reactive_pull part won }
{
    2 * (u32::from(part.number()) + MAX_OWNERS * won) + 1
}

/// Returns the number, which is even, of the next asynchronous pull of pump `pump`, which has won
/// `won` claims.
pub(crate) fn pump_pull(pump: u32, won: u32) -> u32
    requires pump { pump < MAX_OWNERS }
    requires won { won < MAX_CLAIMS }
    ensures { result ≡ pump_pull pump won }
{
    2 * (pump + MAX_OWNERS * won)
}
