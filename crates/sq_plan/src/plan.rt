// Plans.
ghost use Rattle.std.specs.Prelude.{◌≡◌, ◌<◌, ◌≤◌, nat_le, length, string_bytes, IfOk};

use crate::fault::PlanFault;
use crate::part::PartId;
use crate::read::{json_in, plan_of};
use crate::version::Version;
use crate::write::plan_value;
use sq_schema::Root;
use std::alloc::{AllocError, Global};
use std::marker::Model;

/// The most partitions of a plan.
pub const MAX_PARTS: u64 = 64;

/// The most partitions of a plan of the first version.
pub const FIRST_MAX_PARTS: u64 = 16;

/// The most ranges of a plan.
pub const MAX_RANGES: usize = 256;

/// The root keys from `lo` up to, not including, `hi`, and the partition that owns them.
#[derive(Clone, Copy, Debug, PartialEq, Eq)]
pub struct PlanRange {
    pub lo: u64,
    /// The key after the last.
    pub hi: u64,
    pub owner: PartId,
}

/// A partition plan: the version of its format; 1 to [`MAX_PARTS`] partitions, at most
/// [`FIRST_MAX_PARTS`] in the first version; and at most [`MAX_RANGES`] ranges, sorted, nonempty
/// and without gaps from 0 to [`sq_schema::ROOT_END`], each owned by one of the partitions. To a
/// contract it is a `PlanValue`.
#[derive(Debug, Drop)]
pub struct Plan {
    version: Version,
    parts: u8,
    ranges: Vec<PlanRange>,
}

impl Model for Plan {
    ghost use Rattle.sq_plan.specs.PlanValue.{PlanValue, IsPlan};

    ghost Value = { PlanValue };

    ghost view = { λ p. record { version = p.version; parts = p.parts; ranges = p.ranges.items } };

    ghost invariant = { λ p.
        IsPlan (record { version = p.version; parts = p.parts; ranges = p.ranges.items }) };
}

impl Plan {
    ghost use Rattle.std.specs.Prelude.{Ok, Err, Some, None};
    ghost use Rattle.serde_json.specs.Data.{Data};
    ghost use Rattle.sq_plan.specs.PlanValue.{PlanValue, IsPlan, owner};
    ghost use Rattle.sq_plan.specs.Spelling.{Spells};
    ghost use Rattle.sq_plan.specs.Reading.{ReadsPlan, json_of, plan_in};
    ghost use Rattle.sq_plan.specs.PlanText.{plan_text};

    // Creates a plan of this `version` with `parts` partitions and these `ranges`.
    pub(crate) fn of(version: Version, parts: u8, ranges: Vec<PlanRange>) -> Plan
        requires { IsPlan (record { version = version; parts = parts; ranges = ranges.items }) }
        ensures { result ≡ record { version = version; parts = parts; ranges = ranges.items } }
    {
        Plan {
            version,
            parts,
            ranges,
        }
    }

    /// Reads the plan that `bytes` spell in JSON, as
    /// `{"version":1,"partitions":P,"ranges":[[lo,hi,owner],..]}`, or with `"version":2` and
    /// `"stages":"one"` or `"stages":"auto"`: the fields in any order, other fields among them.
    /// Otherwise refused with the fault of the first check that fails, in the order of
    /// [`PlanFault`]. Unless `bytes` are empty, [`PlanFault::Memory`] may replace any answer.
    pub fn read(alloc: Global, bytes: &[u8]) -> Result<Plan, PlanFault>
        // The result is the plan, or the fault of the first check that fails.
        ensures exact { ReadsPlan result (plan_in bytes.now) }
        // The result is a plan, and the bytes spell it.
        ensures found { IfOk result (λ plan. IsPlan plan
            × ((value : Data) × (json_of bytes.now ≡ Some value) × Spells value plan)) }
        // Every plan that bytes spell is read from them, unless memory runs out.
        ensures only { (value : Data) (plan : PlanValue) → json_of bytes.now ≡ Some value
            → Spells value plan → IsPlan plan → ReadsPlan result (Ok plan) }
        // `NotJson` is returned only for bytes that aren't JSON.
        ensures no_json { result ≡ Err PlanFault.NotJson → json_of bytes.now ≡ None }
        ensures memory { result ≡ Err PlanFault.Memory → 0 < length bytes.now }
    {
        let value = json_in(alloc, bytes)?;
        plan_of(alloc, &value)
    }

    /// Writes the plan in compact JSON, as
    /// `{"partitions":P,"ranges":[[lo,hi,owner],..],"version":1}`, in the second version with
    /// `"stages"` before `"version"`. The ranges are written as they are, none merged. Fails only
    /// if memory runs out.
    pub fn write(&self) -> Result<String, AllocError>
        ensures text { IfOk result (λ text. string_bytes text ≡ plan_text self.now) }
        // Reading the text returns the plan again.
        ensures reads_back { IfOk result (λ text. plan_in (string_bytes text) ≡ Ok self.now) }
    {
        let alloc = *self.ranges.allocator();
        plan_value(alloc, self)?.to_string(alloc)
    }

    /// Returns the owner of `root`.
    pub fn owner(&self, root: Root) -> PartId
        ensures owner { result ≡ owner self.now root }
        ensures exists { result < self.now.parts }
    {
        let key = root.number();
        let at = self.ranges.as_slice().partition_point(
            |range: &PlanRange| -> bool
                ensures { result ≡ nat_le range.now.hi key }
            { range.hi <= key },
        );
        self.ranges[at].owner
    }

    /// Returns the version of the plan's format.
    pub fn version(&self) -> Version
        ensures { result ≡ self.now.version }
    {
        self.version
    }

    /// Returns the number of partitions, from 1 to [`MAX_PARTS`].
    #[tactic(auto, using(crate::proofs::Checks::parts_bound))]
    pub fn parts(&self) -> u8
        ensures parts { result ≡ self.now.parts }
        ensures bound { result ≤ MAX_PARTS }
        ensures plan { IsPlan self.now }
    {
        self.parts
    }

    /// Returns the ranges, in key order.
    pub fn ranges(&self) -> &[PlanRange]
        ensures ranges { result.now ≡ self.now.ranges }
        ensures plan { IsPlan self.now }
    {
        &self.ranges
    }
}

impl Clone for Plan {
    ghost is_clone = { λ plan copy. copy ≡ plan };

    fn clone(&self) -> Result<Plan, AllocError> {
        Ok(Plan {
            version: self.version,
            parts: self.parts,
            ranges: self.ranges.clone()?,
        })
    }
}
