// An engine behind a pipe, and the messages about how it ends.
ghost use Rattle.std.specs.Prelude.{◌≤◌};
ghost use Rattle.sq_shared.specs.declared.numbers.TheConstants.{MAX_PUMPS};
ghost use Rattle.squall.specs.Session.{EndsEngine};

use crate::earlier::FilesAgain;
use crate::engine_front::{EngineFront, FlawedRecord, front_of, told};
use crate::engine_watch::EngineWatch;
use crate::flaws::{HeaderPlace, tell_form_of_header, tell_misfit_of_header};
use crate::session::{REFUSED, TABLE_FORM, explain_write, open_input};
use crate::source::{FaultPlace, is_table};
use crate::streams::Streams;
use crate::text_places::TextPlaces;
use crate::unread_stages::PlansWatched;
use crate::whole::{EngineMain, EngineText};
use either::{Left, Right};
use sq_command::{EngineFiles, EngineReports};
use sq_serving::{
    CountedLines, FaultyHeader, FileLines, Following, LinePlace, LineSource, ServeConfig,
    ServeEnding, serve,
};
use sq_text::{InputFault, WriteFault};
use std::alloc::Global;
use std::io;
use std::io::{Cursor, Read, Write};
use std::rt::Files;
use std::sync::{Arc, Wait};
use std::thread::Threads;
use std::time::Clock;

/// How an engine is served, and what its messages need.
#[derive(Clone, Copy)]
struct Serving<'a> {
    input: EngineInput<'a>,
    config: ServeConfig,
    streams: Streams<'a>,
    // What is wrong with the last record of a table of rows, apart from its fields.
    flaw: Option<FlawedRecord>,
}

/// Where the input of an engine comes from, and where its reports go.
#[derive(Clone, Copy, Debug)]
pub struct EngineInput<'a> {
    /// The files of its plan and its rows; `None` if both are in the input.
    pub files: Option<EngineFiles<'a>>,
    /// The name of the file that is read before standard input, if there is one.
    pub file: Option<&'a str>,
    pub reports: EngineReports<'a>,
}

impl<'a> EngineInput<'a> {
    /// A place as messages name it.
    pub fn place(&self, place: LinePlace) -> FaultPlace<'a> {
        let file = match place.source {
            LineSource::Plan => self.files.map(|files| files.plan),
            LineSource::Rows => self.files.and_then(|files| files.rows),
            LineSource::File => self.file,
            LineSource::Input => None,
        };
        match (place.source, file) {
            (LineSource::Plan, Some(name)) => FaultPlace::File(name),
            (_, Some(name)) => FaultPlace::LineOf(name, place.line),
            (_, None) => FaultPlace::Line(place.line),
        }
    }

    // Returns whether the line at `place` is of a table of values.
    fn is_record(&self, place: LinePlace) -> bool {
        let rows = self.files.and_then(|files| files.rows);
        place.source == LineSource::Rows && rows.is_some_and(is_table)
    }
}

/// Serves an engine whose input is the named file, if there is one, and then standard input, and
/// writes the reports that are asked for. Writes to standard error what a fault that ends it means,
/// and how many lines were refused. Returns the writer and the exit status, which is 2 if a file
/// can't be read or written.
pub fn serve_engine<T, W>(
    rt: &T,
    writer: W,
    input: EngineInput<'_>,
    config: ServeConfig,
    streams: Streams<'_>,
) -> (W, u8)
where
    T: Threads
        + Wait
        + Sync
        + Clock
        + Print
        + Eprint
        + Files
        + AllocGlobal
        + Input
        + Copy
        + Send
        + 'static,
    T::File: Send + 'static,
    T::Reader: Send + 'static,
    W: Write + Drop,
    requires { config.pumps ≤ MAX_PUMPS }
    ensures { EndsEngine config.is_strict (W.contents writer) (W.contents result.0) result.1 }
{
    let watch = match EngineWatch::new(rt, input, streams.is_watched) {
        Ok(watch) => watch,
        Err(status) => return (writer, status),
    };
    let serving = Serving {
        input,
        config,
        streams,
        flaw: None,
    };
    let (writer, status) = serve_watched(rt, writer, serving, &watch);
    watch.end();
    watch.reasons.tell_count();
    if watch.report(input) {
        (writer, status)
    } else {
        (writer, REFUSED)
    }
}

// Serves an engine under its watch.
fn serve_watched<T, W>(
    rt: &T,
    writer: W,
    serving: Serving<'_>,
    watch: &EngineWatch<'_, T>,
) -> (W, u8)
where
    T: Threads
        + Wait
        + Sync
        + Clock
        + Print
        + Eprint
        + Files
        + AllocGlobal
        + Input
        + Copy
        + Send
        + 'static,
    T::File: Send + 'static,
    T::Reader: Send + 'static,
    W: Write + Drop,
    requires { serving.config.pumps ≤ MAX_PUMPS }
    ensures { EndsEngine serving.entry.config.is_strict
        (W.contents writer) (W.contents result.0) result.1 }
{
    let typed = PlansWatched::new(*rt, rt.reader(), None);
    let Some(name) = serving.input.file else {
        say_wait(rt, serving.input, serving.streams);
        let main: EngineMain<T, T::File, T::Reader> = Left(typed);
        return serve_main(rt, writer, main, None, serving, watch);
    };
    match told(rt, name, open_counted(rt, name)) {
        Ok((file, lines)) => {
            let main: EngineMain<T, T::File, T::Reader> = Right(Following::new(file, typed));
            serve_main(rt, writer, main, Some(lines), serving, watch)
        }
        Err(status) => (writer, status),
    }
}

// Opens the file `name`, and counts the lines that are read from it.
fn open_counted<T: Eprint + Files + AllocGlobal + Copy>(
    rt: &T,
    name: &str,
) -> io::Result<
    (
        CountedLines<PlansWatched<T, T::File>>,
        Arc<FileLines, Global>,
    ),
> {
    let file = open_input(rt, name)?;
    let lines = Arc::new(rt.alloc(), FileLines::unknown())?;
    let name = String::from_str(rt.alloc(), name)?;
    let watched = PlansWatched::new(*rt, file, Some(name));
    let counted = CountedLines::new(watched, Arc::try_clone(&lines)?);
    Ok((counted, lines))
}

// If standard input is a terminal, writes to standard error that the program waits for it, and how
// it begins.
fn say_wait(rt: &impl Eprint, input: EngineInput<'_>, streams: Streams<'_>) {
    if !streams.is_typed {
        return;
    }
    let first = match input.files {
        Some(_) => "config W L C",
        None => "plan PLAN",
    };
    let _ = eprintln!(rt;
        "squall: reading standard input up to its end (Ctrl-D); it begins with the line '{first}'"
    );
}

// Serves an engine whose main input is `main`. `file` counts the lines of the named file that it
// begins with, if there is one. The plan and the rows may have files of their own.
fn serve_main<T, I, W>(
    rt: &T,
    writer: W,
    main: I,
    file: Option<Arc<FileLines, Global>>,
    serving: Serving<'_>,
    watch: &EngineWatch<'_, T>,
) -> (W, u8)
where
    T: Threads + Wait + Sync + Clock + Print + Eprint + Files + AllocGlobal + Copy + Send + 'static,
    I: Read + Send + Drop + 'static,
    W: Write + Drop,
    requires { serving.config.pumps ≤ MAX_PUMPS }
    ensures { EndsEngine serving.entry.config.is_strict
        (W.contents writer) (W.contents result.0) result.1 }
{
    let Some(files) = serving.input.files else {
        let places = TextPlaces {
            has_plan_file: false,
            rows: None,
            file,
        };
        let whole: EngineText<I> = Left(main);
        return serve_text(rt, writer, whole, places, serving, watch);
    };
    let mut main = main;
    match front_of(rt, files, &mut main) {
        Ok(EngineFront { text, rows, flaw }) => {
            let places = TextPlaces {
                has_plan_file: true,
                rows,
                file,
            };
            let whole: EngineText<I> = Right(Cursor::new(text).chain(main));
            let serving = Serving { flaw, ..serving };
            serve_text(rt, writer, whole, places, serving, watch)
        }
        Err(status) => (writer, status),
    }
}

// Serves an engine with the text that `text` reads; `places` maps its line numbers to places.
fn serve_text<T, I, W>(
    rt: &T,
    writer: W,
    text: I,
    places: TextPlaces,
    serving: Serving<'_>,
    watch: &EngineWatch<'_, T>,
) -> (W, u8)
where
    T: Threads + Wait + Sync + Clock + Print + Eprint + Files + AllocGlobal + Copy + Send + 'static,
    I: Read + Send + Drop + 'static,
    W: Write + Drop,
    requires { serving.config.pumps ≤ MAX_PUMPS }
    ensures { EndsEngine serving.entry.config.is_strict
        (W.contents writer) (W.contents result.0) result.1 }
{
    let (writer, ending) = serve(rt, rt.alloc(), text, places, writer, serving.config, watch);
    explain_engine(rt, ending, serving, watch.take_faulty());
    (writer, ending.status())
}

// Writes to standard error what the ending of an engine means, unless it is sound.
fn explain_engine<T>(
    rt: &T,
    ending: ServeEnding,
    serving: Serving<'_>,
    faulty: Option<FaultyHeader>,
)
where
    T: Eprint + Files + AllocGlobal,
{
    match ending {
        ServeEnding::Sound { .. } => {}
        ServeEnding::NoHeader(_) => {
            if let Some(header) = &faulty {
                explain_header(rt, header, serving);
            }
        }
        ServeEnding::Memory => {
            let _ = eprintln!(rt; "squall: {}", InputFault::Memory.at_no_line());
        }
        ServeEnding::Threads => {
            let number = InputFault::Memory.number();
            let _ = eprintln!(rt;
                "squall: fault {number}: the system grants fewer threads than the engine needs, or no memory for one"
            );
        }
        ServeEnding::Unsound(defect) => {
            let number = defect.number();
            let _ = eprintln!(rt; "squall: unsound {number}: {defect}");
        }
        ServeEnding::Unwritten => explain_write(rt, WriteFault, serving.streams.is_closed.get()),
    }
}

// Writes to standard error what the fault of a header means, and in which line it is; the line's
// form, if the line isn't of it; and what is wrong with the line.
fn explain_header<T: Eprint + Files + AllocGlobal>(
    rt: &T,
    header: &FaultyHeader,
    serving: Serving<'_>,
) {
    let located = header.fault.located;
    let fault = located.fault.at_no_line();
    let (Some(line), Some(place)) = (located.line, header.fault.place) else {
        let _ = eprintln!(rt; "squall: {fault}");
        return;
    };
    let at = header_place(serving, place);
    if located.fault == InputFault::BadHeader {
        let form = if at.is_record {
            TABLE_FORM
        } else {
            form_of(line.number())
        };
        tell_form_of_header(rt, header, at, form);
    } else {
        let _ = eprintln!(rt; "squall: {}: {fault}", at.place);
        tell_misfit_of_header(rt, header, at);
    }
}

// The place of a faulty line of a header.
fn header_place(serving: Serving<'_>, place: LinePlace) -> HeaderPlace<'_> {
    let input = serving.input;
    let flaw = match serving.flaw {
        Some(record) if place.source == LineSource::Rows && place.line == record.line => {
            Some(record.flaw)
        }
        _ => None,
    };
    HeaderPlace {
        place: input.place(place),
        is_record: input.is_record(place),
        flaw,
        files: FilesAgain {
            rows: input.files.and_then(|files| files.rows),
            main: input.file,
        },
    }
}

// The form of line `line` of an engine's header.
fn form_of(line: u64) -> &'static str {
    match line {
        1 => {
            r#"'plan PLAN', as in 'plan {"version":1,"partitions":2,"ranges":[[0,4294967296,0]]}'"#
        }
        2 => {
            "'config W L C', as in 'config 1 64 1': root keys in a leaf, bytes in a chunk, chunks on a link"
        }
        _ => {
            "'row ROOT T S N NOTE', as in 'row 5 0 0 10 -': root key, table, sub key, number, note"
        }
    }
}
