//! Laws of plans, and of JSON values that spell them. The functions do nothing: each states a law,
//! which the checker proves.
ghost use Rattle.std.specs.Prelude.{◌≡◌, ℕ, ◌<◌, ◌↔◌, length, slice_index_or, true, Ok};
ghost use Rattle.serde_json.specs.Data.{Data};
ghost use Rattle.sq_schema.specs.declared.root.TheConstants.{ROOT_END};
ghost use Rattle.sq_plan.specs.declared.plan.PlanRange.{PlanRange};
ghost use Rattle.sq_plan.specs.PlanValue.{PlanValue, IsPlan, IsHolder, holds, owner};
ghost use Rattle.sq_plan.specs.Spelling.{Spells};
ghost use Rattle.sq_plan.specs.Reading.{plan_of, plan_in};
ghost use Rattle.sq_plan.specs.PlanText.{plan_text};

/// A plan is read from a JSON value exactly if the value spells it, whatever the order of the
/// checks.
pub fn each_plan_is_read()
    ensures { (value : Data) (plan : PlanValue)
        → (plan_of value ≡ Ok plan) ↔ (Spells value plan × IsPlan plan) }
{}

/// The text that is written for a plan is read back as this plan.
pub fn each_plan_is_read_back()
    ensures { (plan : PlanValue) → IsPlan plan → plan_in (plan_text plan) ≡ Ok plan }
{}

/// Exactly one range of a plan holds each root key, and each key that a range holds has the range's
/// owner.
pub fn one_range_holds_each_key()
    ensures one { (plan : PlanValue) (key : ℕ) → IsPlan plan → key < ROOT_END
        → (range : PlanRange) × IsHolder plan key range }
    ensures each { (plan : PlanValue) (key i : ℕ) (range : PlanRange) → IsPlan plan
        → i < length plan.ranges → range ≡ slice_index_or plan.ranges i range
        → holds range key ≡ true → owner plan key ≡ range.owner }
{}
