// How an engine that is served is closed.
ghost use Rattle.std.specs.Prelude.{◌≡◌, ◌⊎◌, ◌^◌, ◌<◌, length, sum_by, OnOk, IfErr, Some, IsSome};
ghost use Rattle.sq_engine.specs.Engine.{Keeps, HasClosed, rows_in, verdict_on};
ghost use Rattle.sq_serving.specs.declared.ending.ServeEnding.TheVariants.{Memory};
ghost use Rattle.sq_serving.specs.Becoming.{desk_value};
ghost use Rattle.sq_engine.specs.Ending.{logged_in};
ghost use Rattle.sq_serving.specs.Ends.{families_with_rows, ClosedEndsBy, ClosesWith};

use crate::desk::ServeDesk;
use crate::ending::{InputOutcome, ServeEnding};
use sq_audit::Verdict;
use sq_engine::Engine;
use sq_store::SlabStore;
use std::alloc::Global;
use std::io::Write;
use std::sync::Wait;

/// Closes an engine at rest, and returns how it ends; if a job waits beside its queue, the engine
/// continues instead.
pub(crate) fn close_unless_jobs_wait<T: Wait, W: Write + Drop>(
    rt: &T,
    alloc: Global,
    engine: &mut Engine,
    desk: &ServeDesk<W>,
) -> Result<(), ServeEnding>
    ensures continues { OnOk result (engine.new ≡ engine.old) }
    ensures ends { IfErr result (λ ending. ClosesWith ending engine.old engine.new
        (desk_value W.contents desk.now)) }
{
    if desk.sides.waiting() > 0 {
        return Ok(());
    }
    Err(close_unless_stopped(rt, alloc, engine, desk))
}

// Closes an engine, unless its desk has stopped, and returns how it ends.
fn close_unless_stopped<T: Wait, W: Write + Drop>(
    rt: &T,
    alloc: Global,
    engine: &mut Engine,
    desk: &ServeDesk<W>,
) -> ServeEnding
    requires { sum_by length desk.now.sides ≡ 0 }
    ensures { ClosesWith result engine.old engine.new (desk_value W.contents desk.now) }
{
    match desk.stop_ending() {
        Some(ending) => ending,
        None => {
            let input = desk.end.unwrap_or(InputOutcome::Broken);
            close(rt, alloc, engine, input)
        }
    }
}

// Closes an engine whose input ended with `input`, and returns how it ends.
fn close<T: Wait>(rt: &T, alloc: Global, engine: &mut Engine, input: InputOutcome) -> ServeEnding
    ensures { (HasClosed engine.old engine.new × ClosedEndsBy engine.new (Some input) result)
        ⊎ ((result ≡ Memory) × Keeps engine.old engine.new) }
{
    match engine.close(rt, alloc) {
        Ok(verdict) => judge_closed(engine, verdict, input),
        Err(_) => ServeEnding::Memory,
    }
}

// Returns how a closed engine ends with `verdict` whose input ended with `input`.
fn judge_closed(engine: &Engine, verdict: Verdict, input: InputOutcome) -> ServeEnding
    requires verdict { verdict ≡ verdict_on engine.now.jobs }
    requires rows { IsSome (rows_in engine.now) }
    ensures { ClosedEndsBy engine.now (Some input) result }
{
    match verdict {
        Verdict::Sound => {
            let Some(stores) = engine.rows() else {
                unreachable!()
            };
            ServeEnding::Sound {
                families: count_families(stores),
                committed: count_logged(stores),
                input,
            }
        }
        Verdict::Unsound(defect) => ServeEnding::Unsound(defect),
    }
}

// Returns how many families in `stores` have rows; the most that 64 bits count if they are more.
fn count_families(stores: &[SlabStore]) -> u64
    ensures { sum_by families_with_rows stores.now < 2 ^ 64
        → result ≡ sum_by families_with_rows stores.now }
{
    let mut count: u64 = 0;
    for store in stores {
        count = count.saturating_add(count_with_rows(store));
    }
    count
}

// Returns the same of one store.
fn count_with_rows(store: &SlabStore) -> u64
    ensures { families_with_rows store.now < 2 ^ 64 → result ≡ families_with_rows store.now }
{
    let mut count: u64 = 0;
    for family in store.families() {
        if !family.rows().is_empty() {
            count = count.saturating_add(1);
        }
    }
    count
}

// Returns how many transactions the logs of the families in `stores` have; the most that 64 bits
// count if they are more.
fn count_logged(stores: &[SlabStore]) -> u64
    ensures { sum_by logged_in stores.now < 2 ^ 64 → result ≡ sum_by logged_in stores.now }
{
    let mut count: u64 = 0;
    for store in stores {
        count = count.saturating_add(count_in(store));
    }
    count
}

// Returns the same of one store.
fn count_in(store: &SlabStore) -> u64
    ensures { logged_in store.now < 2 ^ 64 → result ≡ logged_in store.now }
{
    let mut count: u64 = 0;
    for family in store.families() {
        count = count.saturating_add(family.position());
    }
    count
}
