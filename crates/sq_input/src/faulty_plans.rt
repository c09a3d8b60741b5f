// Why a text isn't a plan.
ghost use Rattle.std.specs.Prelude.{◌≡◌};
ghost use Rattle.sq_input.specs.Ranges.{gap, stranger};

use serde_json::{Category, Value};
use sq_plan::{JsonRange, PlanFault};
use sq_schema::ROOT_END;
use std::alloc::Global;
use std::fmt;
use std::fmt::{Display, Formatter, Write};

/// Where a text departs from the form of a plan. Ranges, lines and columns are counted from 1.
#[derive(Clone, Copy, Debug, PartialEq, Eq)]
pub enum PlanFlaw {
    /// It isn't JSON from here on.
    NotJson {
        line: usize,
        column: usize,
    },
    /// Its JSON ends too soon.
    Ends {
        line: usize,
        column: usize,
    },
    /// It isn't an object.
    NotAnObject,
    /// This field is missing.
    Missing(&'static str),
    /// This field isn't of the kind that it needs.
    NotOfKind {
        field: &'static str,
        kind: &'static str,
    },
    /// A range isn't a list of three whole numbers.
    NotThreeNumbers {
        at: usize,
    },
    NoRange,
    /// A range doesn't begin where the one before it ends, or the first one at 0.
    Begins {
        at: usize,
        lo: u64,
        wanted: u64,
    },
    Empty {
        at: usize,
        lo: u64,
        hi: u64,
    },
    /// The last range, whose number is `at`, doesn't end where the root keys do.
    EndsAt {
        at: usize,
        hi: u64,
    },
    /// A range belongs to a partition that the plan doesn't have.
    Owner {
        at: usize,
        owner: u64,
        partitions: u64,
    },
}

impl Display for PlanFlaw {
    fn fmt<W: Write>(&self, f: &mut Formatter<W>) -> fmt::Result {
        match *self {
            PlanFlaw::NotJson { line, column } => {
                write!(f, "it isn't JSON at its line {line}, column {column}")
            }
            PlanFlaw::Ends { line, column } => {
                write!(
                    f,
                    "its JSON ends too soon, at its line {line}, column {column}"
                )
            }
            PlanFlaw::NotAnObject => f.write_str("it isn't an object"),
            PlanFlaw::Missing(field) => write!(f, "it has no field '{field}'"),
            PlanFlaw::NotOfKind { field, kind } => write!(f, "its field '{field}' isn't {kind}"),
            PlanFlaw::NotThreeNumbers { at } => {
                write!(f, "its range {at} isn't a list of three whole numbers")
            }
            PlanFlaw::NoRange => f.write_str("it has no range"),
            PlanFlaw::Begins { at, lo, wanted } => {
                write!(f, "its range {at} begins at {lo} instead of {wanted}")
            }
            PlanFlaw::Empty { at, lo, hi } => {
                write!(f, "its range {at} is empty, from {lo} to {hi}")
            }
            PlanFlaw::EndsAt { at, hi } => {
                write!(
                    f,
                    "its range {at}, the last one, ends at {hi} instead of {ROOT_END}"
                )
            }
            PlanFlaw::Owner {
                at,
                owner,
                partitions,
            } => write!(
                f,
                "its range {at} belongs to partition {owner} of {partitions}, which are numbered from 0"
            ),
        }
    }
}

/// Where `text`, which was refused with `fault`, departs from the form of a plan. Returns `None` if
/// the fault leaves nothing to add, or if memory runs out.
pub fn plan_flaw(alloc: Global, fault: PlanFault, text: &[u8]) -> Option<PlanFlaw> {
    match Value::from_slice(alloc, text) {
        Ok(plan) => match fault {
            PlanFault::Shape => shape_flaw(&plan),
            PlanFault::RangeOrder => order_flaw(&ranges_of(alloc, &plan)?),
            PlanFault::PartitionNumber => {
                owner_flaw(&ranges_of(alloc, &plan)?, plan.get("partitions")?.as_u64()?)
            }
            _ => None,
        },
        Err(error) => {
            let (line, column) = (error.line(), error.column());
            match error.classify() {
                Category::Memory => None,
                Category::Eof => Some(PlanFlaw::Ends { line, column }),
                _ => Some(PlanFlaw::NotJson { line, column }),
            }
        }
    }
}

// The first field that is missing or isn't of its kind.
fn shape_flaw(plan: &Value) -> Option<PlanFlaw> {
    if !plan.is_object() {
        return Some(PlanFlaw::NotAnObject);
    }
    field_flaw(plan, "version", FieldKind::Number)
        .or_else(|| field_flaw(plan, "partitions", FieldKind::Number))
        .or_else(|| field_flaw(plan, "ranges", FieldKind::List))
        .or_else(|| item_flaw(plan))
        .or_else(|| field_flaw(plan, "stages", FieldKind::Text))
}

/// The kind of value that a field needs.
#[derive(Clone, Copy, Debug, PartialEq, Eq)]
enum FieldKind {
    Number,
    List,
    Text,
}

impl FieldKind {
    // The kind in words.
    fn name(self) -> &'static str {
        match self {
            FieldKind::Number => "a whole number below 2^64",
            FieldKind::List => "a list",
            FieldKind::Text => "a text",
        }
    }

    // Returns whether a value is of this kind.
    fn admits(self, value: &Value) -> bool {
        match self {
            FieldKind::Number => value.is_u64(),
            FieldKind::List => value.is_array(),
            FieldKind::Text => value.is_string(),
        }
    }
}

// What is wrong with a field that needs a value of kind `kind`.
fn field_flaw(plan: &Value, field: &'static str, kind: FieldKind) -> Option<PlanFlaw> {
    match plan.get(field) {
        None => Some(PlanFlaw::Missing(field)),
        Some(value) if kind.admits(value) => None,
        Some(_) => Some(PlanFlaw::NotOfKind {
            field,
            kind: kind.name(),
        }),
    }
}

// The first range that isn't three whole numbers.
fn item_flaw(plan: &Value) -> Option<PlanFlaw> {
    let items = plan.get("ranges")?.as_array()?;
    let at = items.iter().position(|item| JsonRange::of(item).is_none())?;
    Some(PlanFlaw::NotThreeNumbers {
        at: at.saturating_add(1),
    })
}

// The ranges of a plan; `None` if one of them isn't a range, or if memory runs out.
fn ranges_of(alloc: Global, plan: &Value) -> Option<Vec<JsonRange>> {
    let mut ranges = Vec::new(alloc);
    for item in plan.get("ranges")?.as_array()?.as_slice() {
        ranges.push(JsonRange::of(item)?).ok()?;
    }
    Some(ranges)
}

// The first range that doesn't begin where the one before it ends, or is empty; else what is wrong
// with the last one.
fn order_flaw(ranges: &[JsonRange]) -> Option<PlanFlaw>
    ensures { result ≡ gap 0 0 ranges.now }
{
    let mut at = 0;
    let mut end = 0;
    for range in ranges {
        let JsonRange { lo, hi, .. } = *range;
        at += 1;
        if lo != end {
            return Some(PlanFlaw::Begins {
                at,
                lo,
                wanted: end,
            });
        }
        if hi <= lo {
            return Some(PlanFlaw::Empty { at, lo, hi });
        }
        end = hi;
    }
    if at == 0 {
        Some(PlanFlaw::NoRange)
    } else if end == ROOT_END {
        None
    } else {
        Some(PlanFlaw::EndsAt { at, hi: end })
    }
}

// The first range whose owner isn't one of the partitions.
fn owner_flaw(ranges: &[JsonRange], partitions: u64) -> Option<PlanFlaw>
    ensures { result ≡ stranger partitions 0 ranges.now }
{
    let mut at = 0;
    for range in ranges {
        let owner = range.owner;
        at += 1;
        if owner >= partitions {
            return Some(PlanFlaw::Owner {
                at,
                owner,
                partitions,
            });
        }
    }
    None
}
