// A plan with its text.
ghost use Rattle.std.specs.Prelude.{◌≡◌, IfOk};
ghost use Rattle.sq_plan.specs.PlanText.{plan_text};
ghost use Rattle.sq_plan.specs.PlanValue.{owner};

use sq_plan::{PartId, Plan};
use sq_schema::Root;
use std::alloc::AllocError;
use std::marker::Model;

/// A plan with its text. Contracts see the plan.
#[derive(Drop)]
pub struct PlanText {
    text: String,
    plan: Plan,
}

impl Model for PlanText {
    ghost use Rattle.std.specs.Prelude.{◌≡◌, string_bytes};
    ghost use Rattle.sq_plan.specs.PlanValue.{PlanValue};
    ghost use Rattle.sq_plan.specs.PlanText.{plan_text};

    ghost Value = { PlanValue };

    ghost view = { λ p. p.plan };

    ghost invariant = { λ p. string_bytes p.text ≡ plan_text p.plan };
}

impl PlanText {
    /// A copy of `plan` with its text. Fails if memory runs out.
    pub fn of(plan: &Plan) -> Result<PlanText, AllocError>
        ensures { IfOk result (λ text. text ≡ plan.now) }
    {
        let text = plan.write()?;
        let plan = plan.clone()?;
        Ok(PlanText { text, plan })
    }

    pub fn as_str(&self) -> &str
        ensures { result.now ≡ plan_text self.now }
    {
        self.text.as_str()
    }

    /// The partition that owns `root` by the plan.
    pub fn owner(&self, root: Root) -> PartId
        ensures { result ≡ owner self.now root }
    {
        self.plan.owner(root)
    }
}
