// An engine behind a pipe.
ghost use Rattle.std.specs.Prelude.{◌≡◌, ◌≤◌, [], IfOk, IfErr};
ghost use Rattle.rtrb.specs.Ring.{received};
ghost use Rattle.sq_shared.specs.declared.numbers.TheConstants.{MAX_PUMPS};
ghost use Rattle.sq_serving.specs.Becoming.{desk_value};
ghost use Rattle.sq_serving.specs.Steps.{EndsForWant};
ghost use Rattle.sq_serving.specs.Service.{first_desk, ServesOpening, ServesSome, ServesWriter};

use crate::bell::Bell;
use crate::desk::{DeskConfig, ServeDesk};
use crate::ending::ServeEnding;
use crate::feed::{FEED_ROOM, Fed, wait_for};
use crate::feeds::{Feeds, Header};
use crate::line_place::LinePlaces;
use crate::outlet::Outlet;
use crate::plan_text::PlanText;
use crate::reading::read_all;
use crate::rows::{RowsLeft, leave_rows};
use crate::service::run_epochs;
use crate::sides::SideQueues;
use crate::telling::tell_ending;
use crate::watch::ServeWatch;
use rtrb::{Consumer, RingBuffer};
use sq_engine::{ChunkLimit, Engine};
use sq_moves::Opening;
use std::alloc::{AllocError, Global};
use std::io::{Read, Write};
use std::sync::{Arc, Wait};
use std::thread::{Builder, Threads};

/// The options of an engine that is served.
#[derive(Clone, Copy, Debug)]
pub struct ServeConfig {
    pub pumps: u32,
    /// Whether the input ends after its first line that is refused or has a fault.
    pub is_strict: bool,
}

/// The lines that a reader hands on, and the bell that it rings for them.
#[derive(Drop)]
struct HandedLines {
    feed: Consumer<Fed>,
    bell: Arc<Bell, Global>,
}

/// What a reader hands on.
#[derive(Drop)]
struct Handed {
    header: Consumer<Header>,
    lines: HandedLines,
}

/// Serves an engine until its input ends: reads a header and then lines from `input`, and writes
/// the answers to `writer`. Returns the writer, and how the engine ended. `places` maps the number
/// of a line to its place; `watch` saves the rows that a line `rows FILE` asks for, learns why a
/// line is refused, and gets the rows at the end if it wants them.
pub fn serve<T, I, P, W, V>(
    rt: &T,
    alloc: Global,
    input: I,
    places: P,
    writer: W,
    config: ServeConfig,
    watch: &V,
) -> (W, ServeEnding)
where
    T: Threads + Wait + Sync + Copy + Send + 'static,
    I: Read + Send + Drop + 'static,
    P: LinePlaces + Send + Drop + 'static,
    W: Write + Drop,
    V: ServeWatch + RowsLeft,
    requires { config.pumps ≤ MAX_PUMPS }
    ensures { ServesWriter config.is_strict (V.Saves watch.now) W.contents
        writer result.0 result.1 }
{
    let outlet = Outlet::new(writer);
    let (outlet, ending) = read_and_answer(rt, alloc, input, places, outlet, config, watch);
    let (outlet, ending) = tell_ending(outlet, ending);
    (outlet.writer, ending)
}

// The same, without the line of the ending.
fn read_and_answer<T, I, P, W, V>(
    rt: &T,
    alloc: Global,
    input: I,
    places: P,
    outlet: Outlet<W>,
    config: ServeConfig,
    watch: &V,
) -> (Outlet<W>, ServeEnding)
where
    T: Threads + Wait + Sync + Copy + Send + 'static,
    I: Read + Send + Drop + 'static,
    P: LinePlaces + Send + Drop + 'static,
    W: Write + Drop,
    V: ServeWatch + RowsLeft,
    requires { config.pumps ≤ MAX_PUMPS }
    ensures { ServesSome config.is_strict (V.Saves watch.now) W.contents
        outlet result.1 result.0 }
{
    match start_reader(rt, alloc, input, places) {
        Ok(handed) => await_header(rt, alloc, handed, outlet, config, watch),
        Err(ending) => (outlet, ending),
    }
}

// Starts a thread that reads `input`. It isn't joined, since a read can't be interrupted. An error
// is how serving ends without it.
fn start_reader<T, I, P>(rt: &T, alloc: Global, input: I, places: P) -> Result<Handed, ServeEnding>
where
    T: Threads + Wait + Sync + Copy + Send + 'static,
    I: Read + Send + Drop + 'static,
    P: LinePlaces + Send + Drop + 'static,
    ensures unheard { IfOk result (λ handed. received handed.lines.feed ≡ []) }
    ensures want { IfErr result EndsForWant }
{
    let Ok((feeds, handed)) = open_rings(alloc, places) else {
        return Err(ServeEnding::Memory);
    };
    let there = *rt;
    match Builder::new().spawn(rt, move || read_all(&there, alloc, feeds, input)) {
        Ok(_handle) => Ok(handed),
        Err(_) => {
            drop(handed);
            Err(ServeEnding::Threads)
        }
    }
}

// Opens the rings over which a reader hands on what it reads.
fn open_rings<P: LinePlaces + Drop>(
    alloc: Global,
    places: P,
) -> Result<(Feeds<P>, Handed), AllocError>
    ensures { IfOk result (λ rings. received rings.1.lines.feed ≡ []) }
{
    let (header_end, header) = RingBuffer::new(alloc, 1)?;
    let (lines_end, feed) = RingBuffer::new(alloc, FEED_ROOM)?;
    let bell = Arc::new(alloc, Bell::new())?;
    let feeds = Feeds {
        header: header_end,
        lines: lines_end,
        bell: Arc::try_clone(&bell)?,
        places,
    };
    let lines = HandedLines { feed, bell };
    Ok((feeds, Handed { header, lines }))
}

// Serves an engine from what the reader hands on.
fn await_header<T: Threads + Wait + Sync, W: Write + Drop, V: ServeWatch + RowsLeft>(
    rt: &T,
    alloc: Global,
    handed: Handed,
    outlet: Outlet<W>,
    config: ServeConfig,
    watch: &V,
) -> (Outlet<W>, ServeEnding)
    requires unheard { received handed.lines.feed ≡ [] }
    requires pumps { config.pumps ≤ MAX_PUMPS }
    ensures { ServesSome config.is_strict (V.Saves watch.now) W.contents
        outlet result.1 result.0 }
{
    let Handed { mut header, lines } = handed;
    let read = wait_for(rt, &mut header);
    drop(header);
    match read {
        Some(header) => open_or_refuse(rt, alloc, header, lines, outlet, config, watch),
        None => {
            drop(lines);
            (outlet, ServeEnding::Memory)
        }
    }
}

// Serves the engine of a header. If the header has a fault, `watch` is told.
fn open_or_refuse<T: Threads + Wait + Sync, W: Write + Drop, V: ServeWatch + RowsLeft>(
    rt: &T,
    alloc: Global,
    header: Header,
    lines: HandedLines,
    outlet: Outlet<W>,
    config: ServeConfig,
    watch: &V,
) -> (Outlet<W>, ServeEnding)
    requires unheard { received lines.feed ≡ [] }
    requires pumps { config.pumps ≤ MAX_PUMPS }
    ensures { ServesSome config.is_strict (V.Saves watch.now) W.contents
        outlet result.1 result.0 }
{
    match header {
        Ok(opening) => open_desk(rt, alloc, opening, lines, outlet, config, watch),
        Err(faulty) => {
            drop(lines);
            let fault = faulty.fault;
            watch.refuses_header(faulty);
            (outlet, ServeEnding::NoHeader(fault))
        }
    }
}

// Serves the engine of an opening.
fn open_desk<T: Threads + Wait + Sync, W: Write + Drop, V: ServeWatch + RowsLeft>(
    rt: &T,
    alloc: Global,
    opening: Opening,
    lines: HandedLines,
    outlet: Outlet<W>,
    config: ServeConfig,
    watch: &V,
) -> (Outlet<W>, ServeEnding)
    requires unheard { received lines.feed ≡ [] }
    requires pumps { config.pumps ≤ MAX_PUMPS }
    ensures { ServesOpening (V.Saves watch.now) W.contents opening
        (first_desk config.is_strict W.contents outlet opening.new)
        outlet result.1 result.0 }
{
    match desk_for(alloc, &opening, lines, outlet, config) {
        Ok(desk) => open_engine(rt, alloc, opening, desk, config.pumps, watch),
        Err(outlet) => (outlet, ServeEnding::Memory),
    }
}

// The desk of an engine with this opening. If memory runs out, the error returns the outlet.
fn desk_for<W: Write + Drop>(
    alloc: Global,
    opening: &Opening,
    lines: HandedLines,
    outlet: Outlet<W>,
    config: ServeConfig,
) -> Result<ServeDesk<W>, Outlet<W>>
    requires { received lines.feed ≡ [] }
    ensures desk { IfOk result (λ desk. desk_value W.contents desk
        ≡ first_desk config.is_strict W.contents outlet opening.now.new) }
    ensures limit { IfOk result (λ desk. desk.limit ≡ opening.now.config.limit) }
    ensures outlet { IfOk result (λ desk. desk.outlet ≡ outlet) }
    ensures returned { IfErr result (λ back. back ≡ outlet) }
{
    let plan = opening.new_plan();
    let Ok(text) = PlanText::of(plan) else {
        return Err(outlet);
    };
    let config = DeskConfig {
        is_strict: config.is_strict,
        pumps: config.pumps,
        limit: ChunkLimit::of(opening),
    };
    let HandedLines { feed, bell } = lines;
    let parts = plan.parts();
    match SideQueues::new(alloc, parts) {
        Ok(sides) => Ok(ServeDesk::new(alloc, feed, bell, outlet, sides, text, config)),
        Err(_) => Err(outlet),
    }
}

// Opens an engine, and serves it with a desk.
fn open_engine<T: Threads + Wait + Sync, W: Write + Drop, V: ServeWatch + RowsLeft>(
    rt: &T,
    alloc: Global,
    opening: Opening,
    desk: ServeDesk<W>,
    pumps: u32,
    watch: &V,
) -> (Outlet<W>, ServeEnding)
    requires { pumps ≤ MAX_PUMPS }
    ensures { ServesOpening (V.Saves watch.now) W.contents opening (desk_value W.contents desk)
        desk.outlet result.1 result.0 }
{
    // A root key's log goes on from the opening to the end.
    let opening = opening.without_log_limit();
    match Engine::open(rt, alloc, opening, pumps) {
        Ok(mut engine) => {
            let ended = run_epochs(rt, alloc, &mut engine, desk, watch);
            leave_rows(alloc, &engine, ended.1, watch);
            // For the proof alone: what holds of every engine.
            let _opening = engine.opening();
            ended
        }
        Err(opening) => {
            drop(opening);
            (desk.into_outlet(), ServeEnding::Memory)
        }
    }
}
