// Writes a plan as JSON.
ghost use Rattle.std.specs.Prelude.{◌≡◌, IfOk};
ghost use Rattle.serde_json.specs.Data.{array};
ghost use Rattle.serde_json.specs.View.{view};
ghost use Rattle.sq_plan.specs.Spelling.{range_data, ranges_data, plan_data};

use crate::plan::{Plan, PlanRange};
use crate::version::Version;
use serde_json::{Value, json};
use std::alloc::{AllocError, Global};

// Returns `range` as JSON.
fn range_value(alloc: Global, range: PlanRange) -> Result<Value, AllocError>
    ensures { IfOk result (λ value. view value ≡ range_data range) }
{
    json!(in alloc; [range.lo, range.hi, range.owner.number()])
}

// Returns `ranges` as JSON, one for one.
fn ranges_value(alloc: Global, ranges: &[PlanRange]) -> Result<Value, AllocError>
    ensures { IfOk result (λ value. view value ≡ array (ranges_data ranges.now)) }
{
    let mut values = Vec::with_capacity(alloc, ranges.len())?;
    for range in ranges {
        values.push_reserved(range_value(alloc, *range)?);
    }
    Ok(Value::Array(values))
}

// Returns `plan` as JSON.
pub(crate) fn plan_value(alloc: Global, plan: &Plan) -> Result<Value, AllocError>
    ensures { IfOk result (λ value. view value ≡ plan_data plan.now) }
{
    let ranges = ranges_value(alloc, plan.ranges())?;
    let parts = plan.parts();
    match plan.version() {
        Version::First => json!(in alloc; {"partitions": parts, "ranges": ranges, "version": 1}),
        Version::Second(stages) => {
            json!(in alloc; {"partitions": parts, "ranges": ranges, "stages": stages.name(), "version": 2})
        }
    }
}
