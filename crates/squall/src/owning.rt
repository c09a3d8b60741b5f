// The owners of root keys before and after a move.
ghost use Rattle.std.specs.Prelude.{◌≡◌, IfOk, string_bytes};
ghost use Rattle.sq_schema.specs.declared.schema.TheConstants.{MAX_TABLES};
ghost use Rattle.sq_picture.specs.Asked.{TellsOpening};
ghost use Rattle.squall.specs.Session.{widest_config, OwnersAs, EndsOwners};

use crate::flaws::{tell_segments, tell_unread_stages};
use crate::plans::lines_of_plans;
use crate::session::{exit_status, explain, explain_write, refuse_for_memory};
use crate::source::Source;
use sq_command::{Input, Plans};
use sq_input::{Recalling, RecordLines};
use sq_moves::MAX_WIDTH;
use sq_picture::{OwnersAsJson, OwnersAsLines, tell_opening};
use sq_schema::Root;
use sq_text::{InputLine, LocatedFault, WriteFault};
use sq_world::Ending;
use std::alloc::{AllocError, Global};
use std::cell::Cell;
use std::io::{Read, Write};
use std::rt::Files;

/// Which plans own root keys, and how that is written.
#[derive(Clone, Copy)]
pub struct OwnersTelling<'a> {
    pub plans: Plans<'a>,
    /// How many root keys a leaf has; `None` if segments and leaves aren't written.
    pub width: Option<u32>,
    /// Whether each root key is written as a JSON value.
    pub json: bool,
}

/// Writes which partition owns each of `keys` by the plan of either file, and where it moves.
/// Standard error explains the fault of a plan. Returns the exit status.
pub fn owners<T: Print + Eprint + Files + AllocGlobal, W: Write>(
    rt: &T,
    writer: &mut W,
    telling: OwnersTelling<'_>,
    keys: &[u32],
    is_closed: &Cell<bool>,
) -> u8
    ensures { EndsOwners keys.now telling.entry.width telling.entry.json (W.contents writer.old)
        (W.contents writer.new) result }
{
    let OwnersTelling { plans, width, json } = telling;
    let lines = match lines_of_plans(rt, plans) {
        Ok(lines) => lines,
        Err(status) => return status,
    };
    let Ok(roots) = roots_of(rt.alloc(), keys) else {
        return refuse_for_memory(rt);
    };
    let Ok(config) = config_line(rt.alloc(), width) else {
        return refuse_for_memory(rt);
    };
    let mut reader = Recalling::new(rt.alloc(), lines.as_slice().chain(config.as_bytes()));
    let tells_leaves = width.is_some();
    let told = tell_owners(rt.alloc(), &mut reader, writer, &roots, tells_leaves, json);
    explain_owners(rt, plans, &reader, told, is_closed);
    exit_status(told)
}

// Writes the owners of root keys by the plans in `reader`, as JSON if `json` is set.
fn tell_owners<R: Read, W: Write>(
    alloc: Global,
    reader: &mut R,
    writer: &mut W,
    keys: &[Root],
    tells_leaves: bool,
    json: bool,
) -> Result<Ending, WriteFault>
    ensures { IfOk result (TellsOpening (OwnersAs json tells_leaves keys.now) MAX_TABLES
        (R.remaining reader.old) (W.contents writer.old) (W.contents writer.new)) }
{
    if json {
        let telling = OwnersAsJson { keys, tells_leaves };
        tell_opening(alloc, reader, writer, &telling)
    } else {
        let telling = OwnersAsLines { keys, tells_leaves };
        tell_opening(alloc, reader, writer, &telling)
    }
}

// The root keys with these numbers.
fn roots_of(alloc: Global, keys: &[u32]) -> Result<Vec<Root>, AllocError>
    ensures { IfOk result (λ roots. roots.items ≡ keys.now) }
{
    let mut roots = Vec::with_capacity(alloc, keys.len())?;
    for key in keys {
        let Some(root) = Root::new(u64::from(*key)) else {
            unreachable!()
        };
        roots.push(root)?;
    }
    Ok(roots)
}

// The line of the sizes, with leaves of this width; if there is none, with the widest leaves, which
// make the fewest segments.
fn config_line(alloc: Global, width: Option<u32>) -> Result<String, AllocError>
    ensures { IfOk result (λ line. string_bytes line ≡ widest_config width) }
{
    let width = width.map_or(MAX_WIDTH, u64::from);
    format!(in alloc; "config {width} 64 1\n")
}

// Writes to standard error what the fault of a plan means, and which plan has stages that aren't
// read.
fn explain_owners<T: Eprint + Files + AllocGlobal, R: Read>(
    rt: &T,
    plans: Plans<'_>,
    reader: &Recalling<R>,
    told: Result<Ending, WriteFault>,
    is_closed: &Cell<bool>,
) {
    let rows = Cell::new(None);
    let records = RecordLines::new(rt.alloc());
    let input = Input {
        file: None,
        plans: Some(plans),
    };
    let source = Source {
        input,
        rows: &rows,
        records: &records,
        is_closed,
    };
    match told {
        Ok(Ending::Done | Ending::Stopped(_)) => {}
        Ok(Ending::Fault(located)) => explain_fault(rt, &source, reader, located),
        Err(fault) => explain_write(rt, fault, is_closed.get()),
    }
    tell_unread_stages(rt, &source, reader);
}

// Writes to standard error what the fault of a plan means. A fault of both plans belongs to no line
// of the files.
fn explain_fault<T: Eprint + Files + AllocGlobal, R: Read>(
    rt: &T,
    source: &Source<'_>,
    reader: &Recalling<R>,
    located: LocatedFault,
) {
    if located.line == Some(InputLine::Config) {
        explain(rt, source, reader, &located.fault.at_no_line());
        tell_segments(rt, reader, &located);
    } else {
        explain(rt, source, reader, &located);
    }
}
