// Plans with stages that aren't read.
ghost use Rattle.std.specs.Prelude.{◌≡◌, IfOk};
ghost use Rattle.serde_json.specs.View.{view};
ghost use Rattle.sq_plan.specs.Reading.{json_of};
ghost use Rattle.sq_input.specs.Stages.{leaves_stages_unread, has_unread_stages};

use serde_json::Value;
use std::alloc::{AllocError, Global};

/// Returns whether `text` is a plan of version 1 that has stages, which only version 2 reads. Fails
/// if memory runs out.
pub fn has_unread_stages(alloc: Global, text: &[u8]) -> Result<bool, AllocError>
    ensures { IfOk result (λ unread. unread ≡ has_unread_stages (json_of text.now)) }
{
    match Value::from_slice(alloc, text) {
        Ok(plan) => Ok(leaves_stages_unread(&plan)),
        Err(error) if error.is_memory() => Err(AllocError),
        Err(_) => Ok(false),
    }
}

// Returns whether a plan is of version 1 and has stages.
fn leaves_stages_unread(plan: &Value) -> bool
    ensures { result ≡ leaves_stages_unread (view plan.now) }
{
    plan.get("version").and_then(Value::as_u64) == Some(1) && plan.get("stages").is_some()
}
