// Reads the header of an input.
ghost use Rattle.std.specs.Prelude.{◌≡◌, ◌≤◌, ◌+◌, codes, IfOk, IfErr, IfSome, OnOk};
ghost use Rattle.sq_schema.specs.Prelude.{rows_in};
ghost use Rattle.sq_moves.specs.Prelude.{value_of};
ghost use Rattle.sq_text.specs.Words.{words_of};
ghost use Rattle.sq_text.specs.Coming.{Leaves};
ghost use Rattle.sq_text.specs.Faults.{IsParsed, IsParsedGivenMemory};
ghost use Rattle.sq_text.specs.InputFaults.{IsRead, IsReadGivenMemory};
ghost use Rattle.sq_text.specs.Located.{line_number};
ghost use Rattle.sq_text.specs.HeaderFields.{config_in, given_in};
ghost use Rattle.sq_text.specs.Header.{next_line, line_as, behind, plan_behind, config_of, given_of, IsReadBefore, first_lines, row_taken, rows_taken, header_of, plans_of, Opens, StopsAt};

use crate::fault::{Malformed, ReadFault};
use crate::input_fault::InputFault;
use crate::located::{InputLine, LocatedFault};
use crate::note::note;
use crate::reader::{LineReader, Next};
use crate::step::MAX_LINE;
use crate::words::Words;
use sq_moves::{Config, GivenRow, LOG_LIMIT, Opening};
use sq_plan::{Plan, PlanFault};
use sq_schema::{RowKey, Schema};
use std::alloc::Global;
use std::io::Read;

// Reads the next line; its bytes are then in `lines`.
fn next_line<R: Read>(lines: &mut LineReader<R>) -> Result<(), InputFault>
    ensures line { Leaves lines.old lines.new
        (λ all left. IsRead (λ _. (lines.new.piece, left)) result (next_line all)) }
    ensures one_line { lines.old.lines_left ≤ lines.new.lines_left + 1 }
    ensures fewer { OnOk result (lines.old.lines_left ≡ lines.new.lines_left + 1) }
{
    match lines.next_read(MAX_LINE) {
        Next::Line if lines.piece().len() <= MAX_LINE => Ok(()),
        Next::Line | Next::Long => Err(InputFault::LineTooLong),
        Next::Rest | Next::End => Err(InputFault::BadHeader),
        Next::Failed => Err(InputFault::ReadFailed),
        Next::TooMany => Err(InputFault::TooLong),
        Next::Unread => unreachable!(),
    }
}

// Returns the rest of `bytes` after `front`; refused unless they begin with it.
fn behind<'a>(front: &[u8], bytes: &'a [u8]) -> Result<&'a [u8], InputFault>
    ensures { IsRead (λ text. text.now) result (behind front.now bytes.now) }
{
    if bytes.starts_with(front) {
        Ok(&bytes[front.len()..])
    } else {
        Err(InputFault::BadHeader)
    }
}

// Reads the plan of a `line` that begins with `front`.
fn plan(alloc: Global, front: &[u8], line: &[u8]) -> Result<Plan, InputFault>
    ensures { IsReadGivenMemory (λ plan. plan) result (plan_behind front.now line.now) }
{
    let text = behind(front, line)?;
    match Plan::read(alloc, text) {
        Ok(plan) => Ok(plan),
        Err(PlanFault::Memory) => Err(InputFault::Memory),
        Err(fault) => Err(InputFault::Plan(fault)),
    }
}

// Reads the plan of the next line, which begins with `front`.
fn plan_line<R: Read>(
    alloc: Global,
    front: &[u8],
    lines: &mut LineReader<R>,
) -> Result<Plan, InputFault>
    ensures plan { Leaves lines.old lines.new
        (λ all left. IsReadGivenMemory (λ plan. (plan, left)) result
        (line_as (plan_behind front.now) all)) }
    ensures one_line { lines.old.lines_left ≤ lines.new.lines_left + 1 }
{
    next_line(lines)?;
    plan(alloc, front, lines.piece())
}

// Reads the sizes from `words`, which hold nothing else.
#[tactic(auto, unfolding(crate::specs::HeaderFields::config_in))]
fn config(mut words: Words<'_>) -> Result<Config, Malformed>
    ensures { IsParsed (λ config. config) result (config_in words.entry) }
{
    let width = words.number()?;
    let limit = words.number()?;
    let capacity = words.number()?;
    match words.next() {
        Some(_) => Err(Malformed),
        None => Ok(Config {
            width,
            limit,
            capacity,
            log_limit: LOG_LIMIT,
        }),
    }
}

// Reads the sizes of a `config` line.
fn sizes(line: &[u8]) -> Result<Config, InputFault>
    ensures { IsRead (λ config. config) result (config_of line.now) }
{
    let text = behind(b"config ", line)?;
    config(Words::of(text)).map_err(|_| InputFault::BadHeader)
}

// Reads the sizes of the next line.
fn config_line<R: Read>(lines: &mut LineReader<R>) -> Result<Config, InputFault>
    ensures config { Leaves lines.old lines.new
        (λ all left. IsReadGivenMemory (λ config. (config, left)) result (line_as config_of all)) }
    ensures one_line { lines.old.lines_left ≤ lines.new.lines_left + 1 }
{
    next_line(lines)?;
    sizes(lines.piece())
}

// Reads an opening row from `words`, which hold nothing else.
#[tactic(auto, unfolding(crate::specs::HeaderFields::given_in))]
fn given(alloc: Global, mut words: Words<'_>) -> Result<GivenRow, ReadFault>
    ensures { IsParsedGivenMemory value_of result (given_in words.entry) }
{
    let root = words.number()?;
    let RowKey { table, sub } = words.key()?;
    let number = words.signed()?;
    let word = words.next_long().ok_or(Malformed)?;
    let note = note(alloc, word)?;
    match words.next() {
        Some(_) => Err(ReadFault::Malformed),
        None => Ok(GivenRow {
            root,
            table,
            sub,
            number,
            note,
        }),
    }
}

// Reads the opening row of a `row` line.
fn row(alloc: Global, line: &[u8]) -> Result<GivenRow, InputFault>
    ensures { IsReadGivenMemory value_of result (given_of line.now) }
{
    let text = behind(b"row ", line)?;
    match given(alloc, Words::of(text)) {
        Ok(row) => Ok(row),
        Err(ReadFault::Malformed) => Err(InputFault::BadHeader),
        Err(ReadFault::Memory) => Err(InputFault::Memory),
    }
}

// Reads the opening row of the next line.
fn row_line<R: Read>(alloc: Global, lines: &mut LineReader<R>) -> Result<GivenRow, InputFault>
    ensures row { Leaves lines.old lines.new
        (λ all left. IsReadGivenMemory (λ row. (value_of row, left)) result
        (line_as given_of all)) }
    ensures one_line { lines.old.lines_left ≤ lines.new.lines_left + 1 }
    ensures fewer { OnOk result (lines.old.lines_left ≡ lines.new.lines_left + 1) }
{
    next_line(lines)?;
    row(alloc, lines.piece())
}

/// The plans and sizes of an input's first three lines.
#[derive(Drop)]
struct FirstLines {
    old: Plan,
    new: Plan,
    config: Config,
}

// Reads the plans and sizes of the first three lines.
fn first_lines<R: Read>(
    alloc: Global,
    lines: &mut LineReader<R>,
) -> Result<FirstLines, LocatedFault>
    ensures first { Leaves lines.old lines.new
        (λ all left. IsReadBefore (λ first. first) result left (first_lines all)) }
    ensures stops { IfErr result (λ refused. StopsAt refused lines.old lines.new) }
    ensures three_lines { lines.old.lines_left ≤ lines.new.lines_left + 3 }
{
    let old = match plan_line(alloc, b"old ", lines) {
        Ok(old) => old,
        Err(fault) => return Err(fault.at(InputLine::Old)),
    };
    let new = match plan_line(alloc, b"new ", lines) {
        Ok(new) => new,
        Err(fault) => return Err(fault.at(InputLine::New)),
    };
    match config_line(lines) {
        Ok(config) => Ok(FirstLines { old, new, config }),
        Err(fault) => Err(fault.at(InputLine::Config)),
    }
}

// Adds the row of the next line to `opening`; `at` is its number, from 0.
fn take_row<R: Read>(
    alloc: Global,
    lines: &mut LineReader<R>,
    at: usize,
    opening: &mut Opening,
) -> Result<(), LocatedFault>
    ensures row { Leaves lines.old lines.new
        (λ all left. IsReadBefore (λ _. rows_in opening.new.table) result left
        (row_taken opening.old.tables (rows_in opening.old.table) at all)) }
    ensures kept { opening.new ≡ record opening.old { table = opening.new.table } }
    ensures one_line { lines.old.lines_left ≤ lines.new.lines_left + 1 }
    ensures fewer { OnOk result (lines.old.lines_left ≡ lines.new.lines_left + 1) }
    ensures line { IfErr result (λ refused. IfSome refused.line (λ line. line_number line
        ≡ at + 4)) }
{
    let given = match row_line(alloc, lines) {
        Ok(given) => given,
        Err(InputFault::Memory) => return Err(InputFault::Memory.at_no_line()),
        Err(fault) => return Err(fault.at(InputLine::Row(at))),
    };
    if let Err((fault, _)) = opening.take_row(at, given) {
        return Err(LocatedFault::from(fault));
    }
    Ok(())
}

/// Adds the rows of the next lines to `opening`, as long as lines begin with `row `. Stops at the
/// first row that is refused, with the fault that [`read_header`] names; the fault numbers rows
/// from the first one read here. The rows before it stay in `opening`. [`InputFault::Memory`] may
/// replace any answer.
pub fn take_rows<R: Read>(
    alloc: Global,
    lines: &mut LineReader<R>,
    opening: &mut Opening,
) -> Result<(), LocatedFault>
    ensures rows { Leaves lines.old lines.new
        (λ all left. IsReadBefore (λ _. rows_in opening.new.table) result left
        (rows_taken opening.old.tables (rows_in opening.old.table) 0 all)) }
    ensures kept { opening.new ≡ record opening.old { table = opening.new.table } }
    ensures stops { IfErr result (λ refused. IfSome refused.line
        (λ line. lines.old.lines_left + 3 ≤ lines.new.lines_left + line_number line)) }
{
    let most = lines.lines_left();
    while lines.begins_read(b"row ") {
        let at = most - lines.lines_left();
        take_row(alloc, lines, at as usize, opening)?;
    }
    Ok(())
}

/// Reads the header of an input and returns its opening; the lines left are those of the script.
///
/// The lines are `old JSON` and `new JSON`, each with a plan; `config W L C`, the width of a leaf,
/// the bytes of a chunk and the chunks of a link's queue; and then, as long as lines begin with
/// `row `, opening rows: `row ROOT T S N NOTE`. Each line is judged before the next one is read. A
/// refusal is the first fault in the order of the lines, with its line; no later line was taken.
/// The faults are: the fault of a plan; a line that is missing or malformed; a line of over
/// [`MAX_LINE`] bytes, as soon as they arrived; a read that fails; an input with too many lines;
/// for the plans and the sizes, at the third line, the fault that [`Opening::without_rows`] finds;
/// and for each row the one that [`Opening::take_row`] finds. [`InputFault::Memory`] may replace
/// any answer.
pub fn read_header<R: Read>(
    alloc: Global,
    schema: Schema,
    lines: &mut LineReader<R>,
) -> Result<Opening, LocatedFault>
    ensures header { Leaves lines.old lines.new
        (λ all left. Opens schema result left (header_of schema all)) }
    ensures stops { IfErr result (λ refused. StopsAt refused lines.old lines.new) }
{
    let mut opening = read_plans(alloc, schema, lines)?;
    take_rows(alloc, lines, &mut opening)?;
    Ok(opening)
}

/// Reads the plans and the sizes, the first three lines of an input, and returns them as an opening
/// without rows. A refusal is the first fault in the order of the lines, as in [`read_header`].
/// What follows these lines isn't looked at. [`InputFault::Memory`] may replace any answer.
pub fn read_plans<R: Read>(
    alloc: Global,
    schema: Schema,
    lines: &mut LineReader<R>,
) -> Result<Opening, LocatedFault>
    ensures plans { Leaves lines.old lines.new
        (λ all left. Opens schema result left (plans_of all)) }
    ensures stops { IfErr result (λ refused. StopsAt refused lines.old lines.new) }
    ensures three_lines { lines.old.lines_left ≤ lines.new.lines_left + 3 }
{
    let first = first_lines(alloc, lines)?;
    match Opening::without_rows(alloc, schema, first.old, first.new, first.config) {
        Ok(opening) => Ok(opening),
        Err(refused) => Err(LocatedFault::from(refused.fault)),
    }
}
