// The texts of a sample input.
ghost use Rattle.std.specs.Prelude.{IfOk};
ghost use Rattle.sq_plan.specs.PlanValue.{PlanValue};
ghost use Rattle.sq_command.specs.Texts.{IsPlanText};

use crate::jobs::write_jobs;
use crate::plans::{write_new, write_old};
use crate::rows::write_rows;
use crate::sizes::DemoSizes;
use sq_plan::{Plan, PlanFault};
use std::alloc::Global;

/// The texts of a sample input.
#[derive(Debug, Drop)]
pub struct DemoTexts {
    /// The plan before the move.
    pub old: Vec<u8>,
    /// The plan after the move.
    pub new: Vec<u8>,
    /// The rows, as lines of a header.
    pub rows: Vec<u8>,
    /// The sizes, and the jobs.
    pub jobs: Vec<u8>,
}

impl DemoTexts {
    ghost use Rattle.sq_command.specs.Texts.{IsDemo};

    /// The texts of a sample input with these sizes. Before the move each partition owns a
    /// contiguous share of the root keys, in the order of the partitions; the move gives the first
    /// eighth of partition 0's share to the others. Each plan is read before it is returned. Fails
    /// only if memory runs out.
    pub fn of(alloc: Global, sizes: &DemoSizes) -> Result<DemoTexts, PlanFault>
        ensures { IfOk result IsDemo }
    {
        let (old, plan) = old_plan(alloc, sizes)?;
        let new = new_plan(alloc, sizes)?;
        let rows = rows_of(alloc, sizes)?;
        let jobs = jobs_of(alloc, sizes, &plan)?;
        Ok(DemoTexts {
            old,
            new,
            rows,
            jobs,
        })
    }
}

// The plan before the move, and its text.
fn old_plan(alloc: Global, sizes: &DemoSizes) -> Result<(Vec<u8>, Plan), PlanFault>
    ensures { IfOk result (λ found. IsPlanText found.1 found.0.items) }
{
    let mut text = Vec::new(alloc);
    if write_old(&mut text, sizes).is_err() {
        return Err(PlanFault::Memory);
    }
    let plan = Plan::read(alloc, &text)?;
    Ok((text, plan))
}

// The text of the plan after the move.
fn new_plan(alloc: Global, sizes: &DemoSizes) -> Result<Vec<u8>, PlanFault>
    ensures { IfOk result (λ text. (plan : PlanValue) × IsPlanText plan text.items) }
{
    let mut text = Vec::new(alloc);
    if write_new(&mut text, sizes).is_err() {
        return Err(PlanFault::Memory);
    }
    let _plan = Plan::read(alloc, &text)?;
    Ok(text)
}

// The text of the rows.
fn rows_of(alloc: Global, sizes: &DemoSizes) -> Result<Vec<u8>, PlanFault> {
    let mut text = Vec::new(alloc);
    match write_rows(&mut text, sizes) {
        Ok(()) => Ok(text),
        Err(_) => Err(PlanFault::Memory),
    }
}

// The text of the sizes and the jobs.
fn jobs_of(alloc: Global, sizes: &DemoSizes, old: &Plan) -> Result<Vec<u8>, PlanFault> {
    let mut text = Vec::new(alloc);
    match write_jobs(&mut text, sizes, old) {
        Ok(()) => Ok(text),
        Err(_) => Err(PlanFault::Memory),
    }
}
