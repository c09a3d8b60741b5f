// How many jobs wait for rows, over time.
ghost use Rattle.std.specs.Prelude.{◌≡◌, ◌++◌, map, IfOk};
ghost use Rattle.std.specs.List.Sorted.{IsPermutation, IsNonDecreasing};
ghost use Rattle.sq_report.specs.Waiting.{times_within, latest, number_waiting};
ghost use Rattle.sq_report.specs.Waiting.{most_of, wait_count};

use std::alloc::{AllocError, Global};

/// When jobs began to wait, when those were answered, and when stages began, each in microseconds
/// and in any order.
#[derive(Debug, Drop)]
pub(crate) struct WaitTimes {
    pub(crate) begins: Vec<u64>,
    pub(crate) ends: Vec<u64>,
    pub(crate) stages: Vec<u64>,
}

/// How many jobs wait from a moment on.
#[derive(Clone, Copy, Debug, PartialEq, Eq)]
pub(crate) struct WaitCount {
    /// The microseconds since the run began.
    pub(crate) micros: u64,
    pub(crate) jobs: u64,
}

impl WaitTimes {
    /// Returns all of them, in ascending order. Fails if memory runs out.
    pub(crate) fn all(&self, alloc: Global) -> Result<Vec<u64>, AllocError>
        ensures sorted { IfOk result (λ times. IsNonDecreasing times.items) }
        ensures all { IfOk result (λ times. IsPermutation
            (self.now.begins.items ++ self.now.ends.items ++ self.now.stages.items) times.items) }
    {
        let mut times = Vec::from_slice(alloc, &self.begins)?;
        times.extend_from_slice(&self.ends)?;
        times.extend_from_slice(&self.stages)?;
        times.sort_unstable();
        Ok(times)
    }

    /// How many jobs wait from each of `times` on. Fails if memory runs out.
    pub(crate) fn waiting_from(
        &self,
        alloc: Global,
        times: &[u64],
    ) -> Result<Vec<WaitCount>, AllocError>
        ensures { IfOk result
            (λ waiting. waiting.items ≡ map (wait_count self.now) times.now) }
    {
        times
            .iter()
            .map(|micros| WaitCount {
                micros: *micros,
                jobs: self.number_waiting(*micros),
            })
            .collect(alloc)
    }

    // How many jobs wait at `micros`: those that began to wait in the stage that runs then, but for
    // those that were answered. If one still waits as its stage ends, it is posted anew in the next.
    fn number_waiting(&self, micros: u64) -> u64
        ensures { result ≡ number_waiting self.now micros }
    {
        let from = latest(&self.stages, micros);
        let begun = times_within(&self.begins, from, micros);
        let over = times_within(&self.ends, from, micros);
        begun.saturating_sub(over)
    }
}

/// The most jobs that wait at one of these moments.
pub(crate) fn most_of(waiting: &[WaitCount]) -> u64
    ensures { result ≡ most_of waiting.now }
{
    waiting.iter().fold(0, |most, here| most.max(here.jobs))
}

// The latest of these times up to `micros`; 0 if there is none.
fn latest(times: &[u64], micros: u64) -> u64
    ensures { result ≡ latest times.now micros }
{
    let past = times.iter().filter(|time| **time <= micros);
    past.fold(0, |latest, time| latest.max(*time))
}

// How many of these times lie within `from` and `to`.
fn times_within(times: &[u64], from: u64, to: u64) -> u64
    ensures { result ≡ times_within times.now from to }
{
    let within = times.iter().filter(|time| from <= **time && **time <= to);
    within.count() as u64
}
