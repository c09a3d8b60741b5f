// The spread of times.
ghost use Rattle.std.specs.Prelude.{◌≡◌, ◌<◌, ◌≤◌};
ghost use Rattle.sq_report.specs.Spreads.{ranked, IsSpreadOf};

/// The spread of some times, in microseconds.
#[derive(Clone, Copy, Debug, PartialEq, Eq)]
pub struct Spread {
    /// At least half of them are no longer than this.
    pub median: u64,
    /// At least 99 of 100 are no longer than this: the 99th percentile.
    pub p99: u64,
    /// The longest.
    pub longest: u64,
}

/// The spread of `times`; `None` if there are none.
pub fn spread_of(mut times: Vec<u64>) -> Option<Spread>
    ensures { IsSpreadOf times.items result }
{
    times.sort_unstable();
    if times.is_empty() {
        return None;
    }
    Some(Spread {
        median: ranked(&times, 50),
        p99: ranked(&times, 99),
        longest: ranked(&times, 100),
    })
}

// The time at the rank of `percent`: the shortest of the sorted times such that at least `percent`
// of 100 are no longer.
fn ranked(times: &[u64], percent: u8) -> u64
    requires some { 0 < percent }
    requires within { percent ≤ 100 }
    ensures { result ≡ ranked times.now percent }
{
    let rank = (times.len() as u128 * u128::from(percent)).div_ceil(100) as usize;
    let place = rank.saturating_sub(1);
    times.get(place).copied().unwrap_or(0)
}
