// The rows of an engine that is served.
ghost use Rattle.std.specs.Prelude.{◌≡◌, ◌⊎◌, false, ℕ, List, Option, IfOk, IsSome, Some, None};
ghost use Rattle.sq_engine.specs.declared.engine.NotEnded.TheVariants as unended;
ghost use Rattle.sq_engine.specs.Engine.{rows_in};
ghost use Rattle.sq_serving.specs.Becoming.{desk_value, WritesBytes};
ghost use Rattle.sq_serving.specs.Rows.{IsRowsText, GivesRows, RowsAreGiven, TellsRowsOrSpeaks, not_ended_line, AnswersRows};
ghost use Rattle.sq_serving.specs.Rows.{LeavesStores, LeavesRows};
ghost use Rattle.sq_serving.specs.Service.{LeavesAtEnd};

use crate::desk::{AskedRows, ServeDesk};
use crate::ending::ServeEnding;
use crate::line_place::LinePlace;
use crate::portions::line_ends;
use crate::rows_file::RowsFile;
use crate::serve_answer::ServeAnswer;
use crate::telling::unread_refusal;
use crate::watch::ServeWatch;
use sq_engine::{Engine, NotEnded};
use sq_results::write_stored_rows;
use sq_schema::OUT_OF_MEMORY;
use sq_store::SlabStore;
use std::alloc::Global;
use std::io;
use std::io::Write;
use std::sync::Wait;

// The number of the refusal if rows move.
const MOVING: u16 = 217;

// The number of the refusal if a file can't be written.
const UNWRITTEN: u16 = 124;

/// Who gets the rows that an engine leaves at its end.
pub trait RowsLeft {
    // It was handed these lines of rows, or none since memory ran out for them; or it wants no rows.
    ghost Leaves: { Self → Option (List ℕ) → Type 0 };

    /// Returns whether the rows are wanted.
    fn wants_rows(&self) -> bool
        ensures { result ≡ false → Leaves self.now None };

    /// Takes the lines of the rows, by rising root key and then by key.
    fn leaves_rows(&self, lines: Vec<u8>)
        ensures { Leaves self.now (Some lines.items) };

    /// Records that memory ran out for the lines of the rows.
    fn lacks_rows(&self)
        ensures { Leaves self.now None };
}

/// Hands the rows of an engine to `watch`, if it wants them and the engine was closed.
pub(crate) fn leave_rows<V: RowsLeft>(
    alloc: Global,
    engine: &Engine,
    ending: ServeEnding,
    watch: &V,
)
    ensures { LeavesAtEnd (V.Leaves watch.now) ending engine.now }
{
    match ending {
        ServeEnding::Sound { .. } | ServeEnding::Unsound(_) => {
            leave_engine_rows(alloc, engine, watch);
        }
        ServeEnding::NoHeader(_)
        | ServeEnding::Memory
        | ServeEnding::Threads
        | ServeEnding::Unwritten => {}
    }
}

// Hands the rows of an engine to `watch`, if it wants them and no epoch runs.
fn leave_engine_rows<V: RowsLeft>(alloc: Global, engine: &Engine, watch: &V)
    ensures { LeavesRows (V.Leaves watch.now) (rows_in engine.now) }
{
    match engine.rows() {
        Some(stores) => leave_stored_rows(alloc, stores, watch),
        None => {}
    }
}

// Hands the rows of `stores` to `watch`, if it wants them.
fn leave_stored_rows<V: RowsLeft>(alloc: Global, stores: &[SlabStore], watch: &V)
    ensures { LeavesStores (V.Leaves watch.now) stores.now }
{
    if watch.wants_rows() {
        leave_wanted_rows(alloc, stores, watch)
    }
}

// Hands the rows of `stores` to `watch`.
fn leave_wanted_rows<V: RowsLeft>(alloc: Global, stores: &[SlabStore], watch: &V)
    ensures { LeavesStores (V.Leaves watch.now) stores.now }
{
    match rows_text(alloc, stores) {
        Ok(text) => watch.leaves_rows(text),
        Err(_) => watch.lacks_rows(),
    }
}

/// Writes the rows of an engine at rest, or has them saved in the file that a line names. If rows
/// move, the line is refused with 217; if memory runs out, it is answered with a fault.
pub(crate) fn tell_rows<R: Wait, W: Write + Drop, V: ServeWatch>(
    rt: &R,
    alloc: Global,
    engine: &mut Engine,
    desk: &mut ServeDesk<W>,
    watch: &V,
    asked: AskedRows,
)
    ensures tells { TellsRowsOrSpeaks engine.old (desk_value W.contents desk.old)
        engine.new (desk_value W.contents desk.new) }
    ensures answers { AnswersRows (V.Saves watch.now) asked engine.old
        (desk_value W.contents desk.old) engine.new (desk_value W.contents desk.new) }
{
    match engine.end_epoch(rt, alloc) {
        Ok(()) => give_engine_rows(alloc, engine, desk, watch, asked),
        Err(why) => say_not_ended(desk, watch, why, asked.place),
    }
}

// Answers a line that asks for rows with the reason why they can't be had.
fn say_not_ended<W: Write + Drop, V: ServeWatch>(
    desk: &mut ServeDesk<W>,
    watch: &V,
    why: NotEnded,
    place: LinePlace,
)
    ensures { WritesBytes (not_ended_line why place) (desk_value W.contents desk.old)
        (desk_value W.contents desk.new) }
{
    match why {
        NotEnded::Moving => desk.say_refused(watch, unread_refusal(MOVING, place)),
        NotEnded::Memory => desk.say_fault(watch, unread_refusal(OUT_OF_MEMORY, place)),
    }
}

// Writes the rows of an engine between two epochs, or has them saved. If memory runs out, the line
// is answered with a fault.
fn give_engine_rows<W: Write + Drop, V: ServeWatch>(
    alloc: Global,
    engine: &Engine,
    desk: &mut ServeDesk<W>,
    watch: &V,
    asked: AskedRows,
)
    requires { IsSome (rows_in engine.now) }
    ensures { RowsAreGiven (V.Saves watch.now) engine.now asked.file
        (desk_value W.contents desk.old) (desk_value W.contents desk.new)
        ⊎ WritesBytes (not_ended_line unended.Memory asked.place)
        (desk_value W.contents desk.old) (desk_value W.contents desk.new) }
{
    let Some(stores) = engine.rows() else {
        unreachable!()
    };
    match rows_text(alloc, stores) {
        Ok(text) => give_rows(desk, watch, &text, asked),
        Err(_) => desk.say_fault(watch, unread_refusal(OUT_OF_MEMORY, asked.place)),
    }
}

// The lines of the rows of `stores`. Fails if memory runs out.
fn rows_text(alloc: Global, stores: &[SlabStore]) -> io::Result<Vec<u8>>
    ensures { IfOk result (λ text. IsRowsText stores.now text.items) }
{
    let mut text = Vec::new(alloc);
    write_stored_rows(alloc, &mut text, stores)?;
    Ok(text)
}

// Writes the lines of rows, or has them saved in the file that is asked for.
fn give_rows<W: Write + Drop, V: ServeWatch>(
    desk: &mut ServeDesk<W>,
    watch: &V,
    lines: &[u8],
    asked: AskedRows,
)
    ensures { GivesRows (V.Saves watch.now) asked.file lines.now
        (desk_value W.contents desk.old) (desk_value W.contents desk.new) }
{
    let AskedRows { place, file } = asked;
    match file {
        None => desk.say_rows(lines),
        Some(file) => save_rows(desk, watch, &file, lines, place),
    }
}

// Has the lines of rows saved in a file, and writes how many there are, or that the file can't be
// written.
fn save_rows<W: Write + Drop, V: ServeWatch>(
    desk: &mut ServeDesk<W>,
    watch: &V,
    file: &RowsFile,
    lines: &[u8],
    place: LinePlace,
)
    ensures { GivesRows (V.Saves watch.now) (Some file.now) lines.now
        (desk_value W.contents desk.old) (desk_value W.contents desk.new) }
{
    match watch.save(file.name(), lines) {
        Ok(()) => desk.say(ServeAnswer::Rows {
            count: line_ends(lines) as u64,
        }),
        Err(_) => desk.say_refused(watch, unread_refusal(UNWRITTEN, place)),
    }
}
