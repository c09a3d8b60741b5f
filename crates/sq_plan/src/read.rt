// Reads a plan from JSON.
ghost use Rattle.std.specs.Prelude.{◌≡◌, ◌^◌, ◌<◌, ◌≤◌, ◌⊎◌, nat_lt, List, length, true, Some, None, Err, MatchResult, IfOk, IsOk, IsSomeAnd, option_map};
ghost use Rattle.std.specs.List.{list_all};
ghost use Rattle.sq_plan.specs.declared.plan.PlanRange.{PlanRange};
ghost use Rattle.sq_plan.specs.PlanFields.{layout, HasRanges, AreFieldsOf, ChecksTo};
ghost use Rattle.serde_json.specs.View.{view, items_view};
ghost use Rattle.sq_plan.specs.Reading.{ReadsPlan, json_of, whole_at, text_at, stages_at, version_by, parts_limit_by, range_in, ranges_in, plan_of as plan_of_json};

use crate::fault::PlanFault;
use crate::part::PartId;
use crate::plan::{FIRST_MAX_PARTS, MAX_PARTS, MAX_RANGES, Plan, PlanRange};
use crate::version::{Stages, Version};
use serde_json::Value;
use sq_schema::ROOT_END;
use std::alloc::{AllocError, Global};
use std::marker::Model;

/// A range as it is in JSON, whose owner isn't necessarily a partition. To a contract it is the
/// range.
#[derive(Clone, Copy, Debug, PartialEq, Eq)]
pub struct JsonRange {
    pub lo: u64,
    /// The key after the last.
    pub hi: u64,
    pub owner: u64,
}

impl Model for JsonRange {
    ghost use Rattle.sq_plan.specs.declared.plan.PlanRange.{PlanRange};

    ghost Value = { PlanRange };

    ghost view = { λ r. record { lo = r.lo; hi = r.hi; owner = r.owner } };

    ghost inverse = { λ r. record { lo = r.lo; hi = r.hi; owner = r.owner } };
}

impl JsonRange {
    /// Reads a range from `item`, an array of three whole numbers; `None` if `item` is anything
    /// else.
    pub fn of(item: &Value) -> Option<JsonRange>
        ensures { result ≡ range_in (view item.now) }
    {
        let [lo, hi, owner] = item.as_array()?.as_slice() else {
            return None;
        };
        Some(JsonRange {
            lo: lo.as_u64()?,
            hi: hi.as_u64()?,
            owner: owner.as_u64()?,
        })
    }

    // Returns the range, whose owner is the number of a partition.
    fn range(self) -> PlanRange
        requires { self.owner < 2 ^ 8 }
        ensures { result ≡ self }
    {
        PlanRange {
            lo: self.lo,
            hi: self.hi,
            owner: PartId::new(self.owner as u8),
        }
    }
}

// Reads the JSON value that `bytes` spell.
pub(crate) fn json_in(alloc: Global, bytes: &[u8]) -> Result<Value, PlanFault>
    ensures { MatchResult result
        (λ value. json_of bytes.now ≡ Some (view value))
        (λ fault. ((fault ≡ PlanFault.Memory) × (0 < length bytes.now))
        ⊎ ((fault ≡ PlanFault.NotJson) × (json_of bytes.now ≡ None))) }
{
    match Value::from_slice(alloc, bytes) {
        Ok(value) => Ok(value),
        Err(error) if error.is_memory() => Err(PlanFault::Memory),
        Err(_) => Err(PlanFault::NotJson),
    }
}

// Returns the whole number of the field `name`.
fn whole_number(value: &Value, name: &str) -> Option<u64>
    ensures { result ≡ whole_at name.now (view value.now) }
{
    value.get(name).and_then(Value::as_u64)
}

/// What was found about the items of `ranges`, each of them three whole numbers.
#[derive(Clone, Copy)]
struct Layout {
    /// True if the ranges follow one another from 0 to the end of the root keys, none of them
    /// empty.
    tiling: bool,
    /// True if each owner is one of the partitions.
    owned: bool,
}

// Checks the items; `None` if one isn't three whole numbers.
fn layout_of(items: &[Value], parts: u64) -> Option<Layout>
    ensures { result ≡ option_map (layout parts) (ranges_in (items_view items.now)) }
{
    let mut at = 0;
    let mut ordered = true;
    let mut owned = true;
    for item in items {
        let entry = JsonRange::of(item)?;
        ordered = ordered && entry.lo == at && entry.lo < entry.hi;
        owned = owned && entry.owner < parts;
        at = entry.hi;
    }
    Some(Layout {
        tiling: ordered && at == ROOT_END,
        owned,
    })
}

// Returns the text of the field `name`.
fn text<'a>(value: &'a Value, name: &str) -> Option<&'a str>
    ensures { option_map (λ text. text.now) result ≡ text_at name.now (view value.now) }
{
    value.get(name).and_then(Value::as_str)
}

/// The fields of a plan.
#[derive(Clone, Copy)]
struct PlanFields<'a> {
    /// The text of `stages`, in the second version.
    stages: Option<&'a str>,
    parts: u64,
    items: &'a [Value],
    layout: Layout,
}

// Returns the text of `stages`, a field that only the second version requires.
fn stages_in(value: &Value, version: u64) -> Option<Option<&str>>
    ensures { option_map (λ stages. option_map (λ text. text.now) stages) result
        ≡ stages_at version (view value.now) }
{
    if version == 1 {
        Some(None)
    } else {
        text(value, "stages").map(Some)
    }
}

// Returns the fields, or the fault of the first of their checks that fails.
fn fields_of(value: &Value) -> Result<PlanFields<'_>, PlanFault>
    ensures { MatchResult result
        (AreFieldsOf (view value.now))
        (λ fault. plan_of_json (view value.now) ≡ Err fault) }
{
    let version = whole_number(value, "version").ok_or(PlanFault::Shape)?;
    if version != 1 && version != 2 {
        return Err(PlanFault::Version);
    }
    let parts = whole_number(value, "partitions").ok_or(PlanFault::Shape)?;
    let items = value
        .get("ranges")
        .and_then(Value::as_array)
        .ok_or(PlanFault::Shape)?;
    let layout = layout_of(items, parts).ok_or(PlanFault::Shape)?;
    let stages = stages_in(value, version).ok_or(PlanFault::Shape)?;
    Ok(PlanFields {
        stages,
        parts,
        items,
        layout,
    })
}

// Returns the most partitions of a plan with these `stages`.
fn parts_limit(stages: Option<&str>) -> u64
    ensures limit { result ≡ parts_limit_by (option_map (λ text. text.now) stages.entry) }
    ensures bound { result ≤ MAX_PARTS }
{
    if stages.is_some() {
        MAX_PARTS
    } else {
        FIRST_MAX_PARTS
    }
}

// Returns the version of a plan with these `stages`; `None` if their text is unknown.
fn version_by(stages: Option<&str>) -> Option<Version>
    ensures { result ≡ version_by (option_map (λ text. text.now) stages.entry) }
{
    match stages {
        None => Some(Version::First),
        Some(name) => Stages::of(name.as_bytes()).map(Version::Second),
    }
}

/// The parts of a plan other than its ranges.
#[derive(Clone, Copy)]
struct Heading {
    version: Version,
    parts: u8,
}

// Returns the parts of the plan other than its ranges, or the fault of the first check that fails.
fn heading_of(fields: PlanFields<'_>) -> Result<Heading, PlanFault>
    ensures { (ranges : List PlanRange) → HasRanges fields.entry ranges
        → ChecksTo fields.entry ranges result }
{
    if !(1..=parts_limit(fields.stages)).contains(&fields.parts) {
        return Err(PlanFault::PartitionCount);
    }
    if fields.items.len() > MAX_RANGES {
        return Err(PlanFault::TooManyRanges);
    }
    if !fields.layout.tiling {
        return Err(PlanFault::RangeOrder);
    }
    if !fields.layout.owned {
        return Err(PlanFault::PartitionNumber);
    }
    match version_by(fields.stages) {
        Some(version) => Ok(Heading {
            version,
            parts: fields.parts as u8,
        }),
        None => Err(PlanFault::BadStages),
    }
}

fn ranges_of(alloc: Global, items: &[Value]) -> Result<Vec<PlanRange>, AllocError>
    requires { IsSomeAnd (ranges_in (items_view items.now))
        (λ ranges. list_all (λ range. nat_lt range.owner (2 ^ 8)) ranges ≡ true) }
    ensures { IfOk result (λ ranges. ranges_in (items_view items.now) ≡ Some ranges.items) }
{
    let mut ranges = Vec::with_capacity(alloc, items.len())?;
    for item in items {
        let Some(entry) = JsonRange::of(item) else {
            unreachable!()
        };
        ranges.push_reserved(entry.range());
    }
    Ok(ranges)
}

// Returns the plan that a JSON value spells. Memory is taken only after every check.
pub(crate) fn plan_of(alloc: Global, value: &Value) -> Result<Plan, PlanFault>
    ensures gives { ReadsPlan result (plan_of_json (view value.now)) }
    ensures memory { result ≡ Err PlanFault.Memory → IsOk (plan_of_json (view value.now)) }
{
    let fields = fields_of(value)?;
    let heading = heading_of(fields)?;
    match ranges_of(alloc, fields.items) {
        Ok(ranges) => Ok(Plan::of(heading.version, heading.parts, ranges)),
        Err(AllocError) => Err(PlanFault::Memory),
    }
}
