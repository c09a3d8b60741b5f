// What the lines after a header ask of an engine.
ghost use Rattle.std.specs.Prelude.{◌≡◌, ◌≢◌, ◌≤◌, true, drop, length, Some, None, Ok, Err};
ghost use Rattle.sq_plan.specs.Reading.{plan_in};
ghost use Rattle.sq_text.specs.Numbers.{unsigned_in};
ghost use Rattle.sq_text.specs.Steps.{step_of, begins_txn};
ghost use Rattle.sq_text.specs.Words.{words_of};
ghost use Rattle.sq_serving.specs.ServeLines.{word_alone, numbered, with_number, pumps_to, chunk_to, owner_of};
ghost use Rattle.sq_serving.specs.ServeLines.{move_to, rows_to, job_of_step, word_or_job, serve_line_of, IsServeLine, TakesMemory};
ghost use Rattle.sq_serving.specs.declared.serve_line.ServeLine.TheVariants as kind;

use crate::rows_file::RowsFile;
use crate::serve_fault::ServeFault;
use sq_model::Step;
use sq_plan::{Plan, PlanFault};
use sq_schema::{Root, Schema, Txn};
use sq_text::{LineFault, MAX_LINE, read_step, unsigned};
use std::alloc::{AllocError, Global};

/// What a line after the header asks of an engine.
#[derive(Debug, Drop)]
pub enum ServeLine {
    /// To post a job: a transaction, to the partition with this number.
    Job { part: u64, txn: Txn },
    /// To move rows to the places of this plan.
    Move(Plan),
    /// To say how many answers were found sound.
    Fold,
    /// For the progress of a move.
    Status,
    /// For the same as JSON.
    StatusJson,
    Rows,
    /// To write the rows into this file.
    RowsTo(RowsFile),
    /// For the plan in force.
    Plan,
    /// To let all pumps rest.
    Pause,
    /// To let the pumps go on.
    Resume,
    /// To let only this many pumps claim.
    Pumps(u64),
    /// To cut chunks of at most this many bytes in the moves that later lines ask for.
    Chunk(u64),
    /// To drop the move that waits last.
    Drop,
    /// For the owner of this root key.
    Owner(Root),
}

// How a line begins that asks for a move.
const MOVE: &[u8] = b"move ";

// How a line begins that asks for the rows in a file.
const ROWS: &[u8] = b"rows ";

// How lines begin that end with a number.
const PUMPS: &[u8] = b"pumps ";

const CHUNK: &[u8] = b"chunk ";

const OWNER: &[u8] = b"owner ";

/// Returns what a line after the header asks of an engine: `txn P ID ROOT OP..`, in the form of
/// [`read_step`], `move JSON`, `rows FILE`, `pumps N`, `chunk BYTES`, `owner ROOT`,
/// `status json`, or one of the words `fold`, `status`, `rows`, `plan`, `pause`, `resume` and `drop` alone.
///
/// Fails with [`ServeFault::TooLong`] if the line has over [`MAX_LINE`] bytes, with
/// [`ServeFault::NotAServeLine`] if it is none of these or the name of the file isn't UTF-8, with
/// [`ServeFault::Txn`] if the schema doesn't have its transaction, and with [`ServeFault::Plan`] if
/// its text isn't a plan. [`ServeFault::Memory`] may replace any result for a line that begins with
/// `txn`, `move` or `rows`.
pub fn read_serve_line(alloc: Global, schema: &Schema, line: &[u8]) -> Result<ServeLine, ServeFault>
    ensures asks { IsServeLine result (serve_line_of schema.now line.now) }
    ensures memory { result ≡ Err ServeFault.Memory → TakesMemory line.now }
{
    if line.len() > MAX_LINE {
        return Err(ServeFault::TooLong);
    }
    if line.starts_with(MOVE) {
        return move_to(alloc, &line[MOVE.len()..]);
    }
    if line.starts_with(ROWS) {
        return rows_to(alloc, &line[ROWS.len()..]);
    }
    match word_alone(line) {
        Some(asks) => Ok(asks),
        None => numbered_or_job(alloc, schema, line),
    }
}

// What a line asks that is a word and a number, or else its job.
fn numbered_or_job(alloc: Global, schema: &Schema, line: &[u8]) -> Result<ServeLine, ServeFault>
    ensures asks { IsServeLine result
        (word_or_job None (numbered line.now) (step_of schema.now line.now)) }
    ensures memory { result ≡ Err ServeFault.Memory → begins_txn (words_of line.now) ≡ true }
{
    match numbered(line) {
        Some(asks) => asks,
        None => job_of(alloc, schema, line),
    }
}

// What a line asks that is a word and a number.
#[tactic(auto, unfolding(crate::specs::ServeLines::numbered))]
fn numbered(line: &[u8]) -> Option<Result<ServeLine, ServeFault>>
    ensures asks { result ≡ numbered line.now }
    ensures no_memory { result ≢ Some (Err ServeFault.Memory) }
{
    if line.starts_with(PUMPS) {
        Some(pumps_to(number_after(line)))
    } else if line.starts_with(CHUNK) {
        Some(chunk_to(number_after(line)))
    } else if line.starts_with(OWNER) {
        Some(owner_of(number_after(line)))
    } else {
        None
    }
}

// The number that the bytes after a word of five letters and a space spell.
fn number_after(line: &[u8]) -> Option<u64>
    requires { 6 ≤ length line.now }
    ensures { result ≡ unsigned_in (drop 6 line.now) }
{
    unsigned(&line[6..])
}

// A request to let only `count` pumps claim.
fn pumps_to(count: Option<u64>) -> Result<ServeLine, ServeFault>
    ensures asks { result ≡ with_number pumps_to count }
    ensures no_memory { result ≢ Err ServeFault.Memory }
{
    match count {
        Some(count) => Ok(ServeLine::Pumps(count)),
        None => Err(ServeFault::NotAServeLine),
    }
}

// A request to cut chunks of at most `bytes` in later moves.
fn chunk_to(bytes: Option<u64>) -> Result<ServeLine, ServeFault>
    ensures asks { result ≡ with_number chunk_to bytes }
    ensures no_memory { result ≢ Err ServeFault.Memory }
{
    match bytes {
        Some(bytes) => Ok(ServeLine::Chunk(bytes)),
        None => Err(ServeFault::NotAServeLine),
    }
}

// A request for the owner of the root key with this number.
fn owner_of(root: Option<u64>) -> Result<ServeLine, ServeFault>
    ensures asks { result ≡ with_number owner_of root }
    ensures no_memory { result ≢ Err ServeFault.Memory }
{
    match root {
        Some(root) => owner_of_root(root),
        None => Err(ServeFault::NotAServeLine),
    }
}

// The same of a number.
fn owner_of_root(root: u64) -> Result<ServeLine, ServeFault>
    ensures asks { result ≡ owner_of root }
    ensures no_memory { result ≢ Err ServeFault.Memory }
{
    match Root::new(root) {
        Some(root) => Ok(ServeLine::Owner(root)),
        None => Err(ServeFault::NotAServeLine),
    }
}

// What a line asks that is one of these words, or `status json`.
#[tactic(auto, unfolding(crate::specs::ServeLines::word_alone))]
fn word_alone(line: &[u8]) -> Option<ServeLine>
    ensures { result ≡ word_alone line.now }
{
    if line == b"fold".as_slice() {
        Some(ServeLine::Fold)
    } else if line == b"status".as_slice() {
        Some(ServeLine::Status)
    } else if line == b"status json".as_slice() {
        Some(ServeLine::StatusJson)
    } else if line == b"rows".as_slice() {
        Some(ServeLine::Rows)
    } else if line == b"plan".as_slice() {
        Some(ServeLine::Plan)
    } else if line == b"pause".as_slice() {
        Some(ServeLine::Pause)
    } else if line == b"resume".as_slice() {
        Some(ServeLine::Resume)
    } else if line == b"drop".as_slice() {
        Some(ServeLine::Drop)
    } else {
        None
    }
}

// A request to move to the plan that `text` spells.
fn move_to(alloc: Global, text: &[u8]) -> Result<ServeLine, ServeFault>
    ensures { IsServeLine result (move_to (plan_in text.now)) }
{
    match Plan::read(alloc, text) {
        Ok(plan) => Ok(ServeLine::Move(plan)),
        Err(PlanFault::Memory) => Err(ServeFault::Memory),
        Err(fault) => Err(ServeFault::Plan(fault)),
    }
}

// A request for the rows in the file that `name` spells.
fn rows_to(alloc: Global, name: &[u8]) -> Result<ServeLine, ServeFault>
    ensures { IsServeLine result (rows_to name.now) }
{
    match str::from_utf8(name) {
        Ok(name) => rows_to_file(alloc, name),
        Err(_) => Err(ServeFault::NotAServeLine),
    }
}

// A request for the rows in the file `name`.
fn rows_to_file(alloc: Global, name: &str) -> Result<ServeLine, ServeFault>
    ensures { IsServeLine result (Ok (kind.RowsTo name.now)) }
{
    match RowsFile::new(alloc, name) {
        Ok(file) => Ok(ServeLine::RowsTo(file)),
        Err(AllocError) => Err(ServeFault::Memory),
    }
}

// The job that a line spells.
fn job_of(alloc: Global, schema: &Schema, line: &[u8]) -> Result<ServeLine, ServeFault>
    ensures job { IsServeLine result (job_of_step (step_of schema.now line.now)) }
    ensures memory { result ≡ Err ServeFault.Memory → begins_txn (words_of line.now) ≡ true }
{
    match read_step(alloc, schema, line) {
        Ok(step) => job_in(step),
        Err(fault) => Err(fault_of(fault)),
    }
}

// The job that a step submits; any other step isn't a request.
fn job_in(step: Step) -> Result<ServeLine, ServeFault>
    ensures job { result ≡ job_of_step (Ok step) }
    ensures no_memory { result ≢ Err ServeFault.Memory }
{
    match step {
        Step::Submit(part, txn) => Ok(ServeLine::Job { part, txn }),
        _ => Err(ServeFault::NotAServeLine),
    }
}

// The fault of a line that spells no step.
fn fault_of(fault: LineFault) -> ServeFault
    ensures fault { Err result ≡ job_of_step (Err fault) }
    ensures memory { result ≡ ServeFault.Memory → fault ≡ LineFault.Memory }
{
    match fault {
        LineFault::NotAStep => ServeFault::NotAServeLine,
        LineFault::TooLong => ServeFault::TooLong,
        LineFault::Txn(fault) => ServeFault::Txn(fault),
        LineFault::Memory => ServeFault::Memory,
    }
}
