// Plans between which root keys move, and the opening of an engine.
ghost use Rattle.std.specs.Prelude.{◌<◌};

use crate::deed::PlanChoice;
use crate::dice::Dice;
use crate::failure::Failure;
use sq_moves::{Config, GivenRow, Opening};
use sq_plan::Plan;
use sq_schema::{MAX_LOG, Schema};
use std::alloc::{AllocError, Global};
use std::io;
use std::io::Write;

pub const PARTS: u8 = 4;

/// How many root keys have rows.
pub const ROOTS: u64 = 30;

const SPREAD: &[u8] = br#"{"version":2,"partitions":4,"stages":"auto",
"ranges":[[0,8,0],[8,16,1],[16,24,2],[24,4294967296,3]]}"#;

const GATHERED: &[u8] = br#"{"version":1,"partitions":4,"ranges":[[0,30,0],[30,4294967296,3]]}"#;

// How a plan begins that has a range for every five root keys.
const IN_ONE_STAGE: &[u8] = br#"{"version":2,"partitions":4,"stages":"one","ranges":["#;

const IN_STAGES: &[u8] = br#"{"version":2,"partitions":4,"stages":"auto","ranges":["#;

const RANGE_ROOTS: u64 = 5;

// A leaf covers one root key, a chunk holds 64 bytes, and the queue of a link one chunk. A log has
// no limit.
const CONFIG: Config = Config {
    width: 1,
    limit: 64,
    capacity: 1,
    log_limit: MAX_LOG,
};

/// The schema: one table.
pub(crate) fn schema() -> Schema {
    Schema::new(1).unwrap()
}

/// The plan that `choice` names.
pub(crate) fn plan_of(alloc: Global, choice: PlanChoice) -> Result<Plan, Failure> {
    match choice {
        PlanChoice::Spread => read_plan(alloc, SPREAD),
        PlanChoice::Gathered => read_plan(alloc, GATHERED),
        PlanChoice::Any(seed) => any_plan(alloc, &mut Dice::new(seed)),
    }
}

// The plan that `text` spells.
fn read_plan(alloc: Global, text: &[u8]) -> Result<Plan, Failure> {
    match Plan::read(alloc, text) {
        Ok(plan) => Ok(plan),
        Err(_) => Err(Failure::Memory),
    }
}

fn any_plan(alloc: Global, dice: &mut Dice) -> Result<Plan, Failure> {
    let mut text = Vec::new(alloc);
    match write_plan(&mut text, dice) {
        Ok(()) => read_plan(alloc, &text),
        Err(_) => Err(Failure::Memory),
    }
}

// Writes any plan.
fn write_plan(text: &mut Vec<u8>, dice: &mut Dice) -> io::Result<()> {
    text.write_all(if dice.below(2) == 0 {
        IN_ONE_STAGE
    } else {
        IN_STAGES
    })?;
    for range in 0..ROOTS / RANGE_ROOTS {
        write_range(text, range * RANGE_ROOTS, dice.below(u64::from(PARTS)))?;
    }
    text.write_all(b"[30,4294967296,3]]}")
}

// Writes the range of five root keys that begins at `lo`.
fn write_range(text: &mut Vec<u8>, lo: u64, part: u64) -> io::Result<()>
    requires { lo < 30 }
{
    write!(text, "[{lo},{},{part}],", lo + RANGE_ROOTS)
}

/// An opening at this plan, at which nothing moves, and each root key has the number 0.
pub fn opening_at(alloc: Global, choice: PlanChoice) -> Result<Opening, Failure> {
    let old = plan_of(alloc, choice)?;
    let new = plan_of(alloc, choice)?;
    let Ok(rows) = rows(alloc) else {
        return Err(Failure::Memory);
    };
    match Opening::new(alloc, schema(), old, new, CONFIG, rows) {
        Ok(opening) => Ok(opening),
        Err(_) => Err(Failure::Memory),
    }
}

// One row for each root key.
fn rows(alloc: Global) -> Result<Vec<GivenRow>, AllocError> {
    let mut rows = Vec::new(alloc);
    for root in 0..ROOTS {
        rows.push(GivenRow {
            root,
            table: 0,
            sub: 0,
            number: 0,
            note: Vec::new(alloc),
        })?;
    }
    Ok(rows)
}
