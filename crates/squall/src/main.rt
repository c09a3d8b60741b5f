//! The program `squall`: reads an input, from standard input or files, and writes the result to
//! standard output.
#![tactic(auto)]

ghost use Rattle.std.specs.Prelude.{map};
ghost use Rattle.sq_command.specs.Line.{IsWithin};
ghost use Rattle.squall.specs.Session.{EndsTask, EndsWithRows, EndsParts, EndsMain, EndsWith};

mod beginning;
mod earlier;
mod engine_front;
mod engine_progress;
mod engine_watch;
mod explaining;
mod flaws;
mod live_json;
mod live_runs;
mod metrics_file;
mod outputs;
mod owning;
mod plans;
mod process_memory;
mod progress;
mod reasons;
mod saved_rows;
mod serving;
mod session;
mod source;
mod steps;
mod streams;
mod text_places;
mod unread_stages;
mod usage;
mod whole;

use beginning::write_demo;
use either::{Left, Right};
use explaining::explanation;
use live_runs::live_run;
use outputs::refuse_outputs;
use owning::{OwnersTelling, owners};
use plans::lines_of_plans;
use progress::Progress;
use serving::{EngineInput, serve_engine};
use session::{
    ScriptOutputs, listing, open_input, refuse_file, refuse_for_memory, refuse_words, script,
};
use source::{Source, is_table};
use sq_command::{Input, Line, Task, line_of};
use sq_input::{BareLines, CsvRows, Inserting, Recalling, RecordLines, RowLines};
use sq_live::Watch;
use sq_outputs::PipeEnd;
use sq_serving::ServeConfig;
use sq_world::ScriptManner;
use std::alloc::Global;
use std::cell::Cell;
use std::convert::AsStr;
use std::io::{BufWriter, IsTerminal, Read, Write};
use std::process::ExitCode;
use std::rt::{Env, Files};
use std::sync::Wait;
use std::thread::Threads;
use std::time::Clock;
use std::{env, io};
use steps::steps;
use streams::Streams;
use usage::print_usage;
use whole::{AfterPlans, FileRows, MainPart, Whole};

// How many bytes the output buffer holds.
const WRITE_SIZE: usize = 65_536;

// The words of the command line; the first is the program's name.
fn words_of(rt: &(impl Env + AllocGlobal)) -> io::Result<Vec<String>> {
    let words = env::args(rt)?.collect(rt.alloc())?;
    Ok(words)
}

/// A task with its input, its runtime, its watch and the standard streams.
#[derive(Drop)]
struct Assignment<'a, T, G> {
    rt: &'a T,
    task: Task<'a>,
    input: Input<'a>,
    /// The workers of a live run ask it before each step.
    watch: &'a G,
    streams: Streams<'a>,
}

impl<T, G> Assignment<'_, T, G>
where
    T: Threads + Wait + Sync + Clock + Print + Eprint + Files + AllocGlobal,
    G: Watch,
{
    // Performs the task with its input, whose main part is a file or standard input. Returns the
    // exit status: 2 if a file can't be read, or if the task may not write one.
    fn carry_out<R: Read, W: Write>(&self, reader: &mut R, writer: &mut W) -> u8
        requires { IsWithin self.now.task }
        ensures { EndsMain self.now.task self.now.input.plans self.now.input.file
            (R.remaining reader.old) (W.contents writer.old) (W.contents writer.new) result }
    {
        if let Some(status) = refuse_outputs(self.rt, self.task, self.input) {
            return status;
        }
        let Some(name) = self.input.file else {
            self.streams.say_wait(self.rt, self.input);
            let main: MainPart<'_, R, T::File> = Left(reader);
            return self.work_on_parts(main, writer);
        };
        match open_input(self.rt, name) {
            Ok(file) => {
                let main: MainPart<'_, R, T::File> = Right(file);
                self.work_on_parts(main, writer)
            }
            Err(error) => refuse_file(self.rt, name, &error),
        }
    }

    // Performs the task with the input whose main part is `main`. Returns the exit status: 2 if a
    // file of the plans or the rows can't be read.
    fn work_on_parts<R: Read + Drop, W: Write>(&self, main: R, writer: &mut W) -> u8
        requires { IsWithin self.now.task }
        ensures { EndsParts self.now.task self.now.input.plans (R.remaining main)
            (W.contents writer.old) (W.contents writer.new) result }
    {
        let rows = Cell::new(None);
        let records = RecordLines::new(self.rt.alloc());
        let source = Source {
            input: self.input,
            rows: &rows,
            records: &records,
            is_closed: self.streams.is_closed,
        };
        let Some(plans) = self.input.plans else {
            let whole: Whole<'_, R, T::File> = Left(main);
            return self.work(&source, whole, writer);
        };
        let lines = match lines_of_plans(self.rt, plans) {
            Ok(lines) => lines,
            Err(status) => return status,
        };
        let Some(name) = plans.rows else {
            let behind: AfterPlans<'_, R, T::File> = Left(main);
            let whole: Whole<'_, R, T::File> = Right(lines.as_slice().chain(behind));
            return self.work(&source, whole, writer);
        };
        match open_input(self.rt, name) {
            Ok(file) => self.work_with_rows(&source, &lines, main, name, file, writer),
            Err(error) => refuse_file(self.rt, name, &error),
        }
    }

    // Performs the task with the lines of the plans, then the main part, with the rows of the file
    // `name` inserted after its first line. Returns the exit status: 2 if memory runs out.
    fn work_with_rows<M: Read + Drop, F: Read + Drop, W: Write>(
        &self,
        source: &Source<'_>,
        lines: &[u8],
        main: M,
        name: &str,
        file: F,
        writer: &mut W,
    ) -> u8
        requires { IsWithin self.now.task }
        ensures { EndsWithRows self.now.task lines.now (M.remaining main) (W.contents writer.old)
            (W.contents writer.new) result }
    {
        let Ok(rows) = rows_in(self.rt.alloc(), name, file, source.records) else {
            return refuse_for_memory(self.rt);
        };
        let behind: AfterPlans<'_, M, F> = Right(Inserting::new(main, rows, source.rows));
        let whole: Whole<'_, M, F> = Right(lines.chain(behind));
        self.work(source, whole, writer)
    }

    // Performs the task with the text that `reader` reads from `source`, and returns the exit
    // status.
    fn work<R: Read + Drop, W: Write>(&self, source: &Source<'_>, reader: R, writer: &mut W) -> u8
        requires { IsWithin self.now.task }
        ensures { EndsTask self.now.task (R.remaining reader) (W.contents writer.old)
            (W.contents writer.new) result }
    {
        let rt = self.rt;
        // Faulty lines are looked at again.
        let mut reader = Recalling::new(rt.alloc(), reader);
        match self.task {
            Task::Run {
                echoes,
                strict,
                json,
                rows_out,
            } => {
                let manner = ScriptManner { echoes, strict };
                let outputs = ScriptOutputs { json, rows_out };
                script(rt, &mut reader, writer, manner, outputs, source)
            }
            Task::Ranges { form, sizes } => {
                listing(rt, &mut reader, writer, form, sizes, source)
            }
            Task::Steps => steps(rt, &mut reader, writer, source),
            Task::Live(options) => {
                live_run(rt, &mut reader, writer, options, self.watch, source)
            }
        }
    }
}

// The rows of the file `name`, which may be a table of values; else without empty lines and
// comments. `lines` gets the lines on which they are. Fails if memory runs out.
fn rows_in<'a, F: Read + Drop>(
    alloc: Global,
    name: &str,
    file: F,
    lines: &'a RecordLines,
) -> io::Result<FileRows<'a, F>> {
    if is_table(name) {
        let rows = Box::new(alloc, CsvRows::new(alloc, file, lines)?)?;
        Ok(Right(rows))
    } else {
        Ok(Left(RowLines::new(BareLines::new(file, lines))))
    }
}

// Does what the words of a command line ask for. Returns the writer and the exit status.
fn obey<
    T: Threads
        + Wait
        + Sync
        + Clock
        + Print
        + Eprint
        + Files
        + AllocGlobal
        + io::Input
        + Copy
        + Send
        + 'static,
    S: AsStr,
    R: Read,
    W: Write + Drop,
    G: Watch,
>(rt: &T, words: &[S], reader: &mut R, writer: W, watch: &G, streams: Streams<'_>) -> (W, u8)
where
    T::File: Send + 'static,
    T::Reader: Send + 'static,
    ensures { EndsWith (map S.text words.now) (R.remaining reader.old) (W.contents writer)
        (W.contents result.0) result.1 }
{
    let mut writer = writer;
    match line_of(rt.alloc(), words) {
        Ok(Line::Work { task, input }) => {
            let assignment = Assignment {
                rt,
                task,
                input,
                watch,
                streams,
            };
            let status = assignment.carry_out(reader, &mut writer);
            (writer, status)
        }
        Ok(
            Line::Owner {
                keys,
                plans,
                width,
                json,
            },
        ) => {
            let telling = OwnersTelling { plans, width, json };
            let status = owners(rt, &mut writer, telling, &keys, streams.is_closed);
            (writer, status)
        }
        Ok(Line::Demo { demo, folder }) => {
            let status = write_demo(rt, &mut writer, demo, folder, streams.is_closed);
            (writer, status)
        }
        Ok(
            Line::Serve {
                pumps,
                strict,
                files,
                file,
                reports,
            },
        ) => {
            let config = ServeConfig {
                pumps,
                is_strict: strict,
            };
            let input = EngineInput {
                files,
                file,
                reports,
            };
            serve_engine(rt, writer, input, config, streams)
        }
        Ok(Line::Explain { number }) => {
            let status = explanation(rt, &mut writer, number, streams.is_closed);
            (writer, status)
        }
        Err(error) => (writer, print_usage(rt, &error)),
    }
}

fn main(rt: HostRuntime) -> ExitCode {
    let words = match words_of(&rt) {
        Ok(words) => words,
        Err(error) => return ExitCode::from(refuse_words(&rt, &error)),
    };
    let is_closed = Cell::new(false);
    let output = PipeEnd::new(io::writer(&rt), &is_closed);
    let Ok(writer) = BufWriter::with_capacity(rt.alloc(), WRITE_SIZE, output) else {
        return ExitCode::from(refuse_for_memory(&rt));
    };
    let is_typed = rt.stdin().is_terminal();
    let is_watched = rt.stderr().is_terminal() && !is_typed && !rt.stdout().is_terminal();
    let streams = Streams {
        is_typed,
        is_watched,
        is_closed: &is_closed,
    };
    let mut reader = rt.reader();
    let progress = Progress::new(&rt, rt.stderr().is_terminal());
    let (writer, status) = obey(&rt, &words, &mut reader, writer, &progress, streams);
    // A buffer that is dropped would write the bytes that a failed write has left.
    let (_unbuffered, _unwritten) = writer.into_parts();
    ExitCode::from(status)
}
