// Live runs, their messages and their exit status.
ghost use Rattle.std.specs.Prelude.{◌≡◌, ◌≤◌, IfOk};
ghost use Rattle.sq_input.specs.Recalling.{recalling_remaining};
ghost use Rattle.sq_shared.specs.declared.numbers.TheConstants.{MAX_PUMPS};
ghost use Rattle.squall.specs.Session.{live_status, EndsAs, RunsLiveAs};

use crate::flaws::{tell_misfit_of_job, tell_unread_stages};
use crate::live_json::write_outcome;
use crate::outputs::{FileText, add_text, explain_unwritten, save_texts};
use crate::session::{REFUSED, as_named, explain, explain_write};
use crate::source::Source;
use sq_command::LiveOptions;
use sq_input::Recalling;
use sq_live::{LiveEnding, LiveFault, LiveOutcome, RunManner, Watch, live};
use sq_outputs::{is_other_than_file, write_device};
use sq_report::{FiguresForm, RecordingWatch, Records, TimelineForm};
use sq_text::{InputLine, WriteFault};
use std::io;
use std::io::{Read, Write};
use std::rt::Files;
use std::sync::Wait;
use std::thread::Threads;
use std::time::Clock;

// The command line allows as many pumps as there may be.
const _: () = prove!(sq_command::MAX_PUMPS == sq_shared::MAX_PUMPS as u64);

/// Runs the jobs in `reader` in threads, and writes the outcome to `writer`. Unless the run is
/// sound, standard error explains it. The workers ask `watch` before each step. Also writes what
/// was asked for: a summary to standard error, and to files a timeline, a longer summary, the
/// answers of the jobs, and the rows at the end; a run that ends in a fault writes none of these.
/// Returns the exit status, which is 2 if one of the files can't be written.
pub fn live_run<
    T: Threads + Wait + Sync + Clock + Eprint + Files + AllocGlobal,
    R: Read,
    W: Write,
    G: Watch,
>(
    rt: &T,
    reader: &mut Recalling<R>,
    writer: &mut W,
    options: LiveOptions<'_>,
    watch: &G,
    source: &Source<'_>,
) -> u8
    requires { options.pumps ≤ MAX_PUMPS }
    ensures { EndsAs (RunsLiveAs options.entry.json options.entry.folds
        (recalling_remaining R.remaining reader.old) (W.contents writer.old)
        (W.contents writer.new)) live_status result }
{
    let manner = RunManner {
        turns: options.turns,
        pumps: options.pumps,
        folds: options.folds,
    };
    let told = recording(rt, options, watch);
    let ran = match &told {
        Some(told) => run_as(rt, reader, writer, manner, options.json, told),
        None => run_as(rt, reader, writer, manner, options.json, watch),
    };
    explain_live(rt, source, reader, ran);
    let status = live_status(ran);
    if status != REFUSED && !is_told(rt, options, &told) {
        return REFUSED;
    }
    status
}

// Runs the jobs in `reader`, and writes the outcome to `writer`, as JSON if `json` is set.
fn run_as<T: Threads + Wait + Sync + AllocGlobal, R: Read, W: Write, G: Watch>(
    rt: &T,
    reader: &mut R,
    writer: &mut W,
    manner: RunManner,
    json: bool,
    watch: &G,
) -> Result<LiveEnding, WriteFault>
    requires { manner.pumps ≤ MAX_PUMPS }
    ensures { IfOk result (RunsLiveAs json manner.folds (R.remaining reader.old)
        (W.contents writer.old) (W.contents writer.new)) }
{
    if !json {
        return live(rt, rt.alloc(), reader, writer, manner, watch);
    }
    let ending = live(rt, rt.alloc(), reader, &mut io::sink(), manner, watch)?;
    write_outcome(rt.alloc(), writer, ending)?;
    Ok(ending)
}

// A watch in front of `watch` that records what the summary and the files need. Returns `None` if
// none of them is asked for, or if memory runs out. In the latter case standard error reports it,
// and the run goes on without a record. The time of reading is measured from here.
fn recording<'a, T: Wait + Clock + Sync + Eprint + AllocGlobal, G: Watch>(
    rt: &'a T,
    options: LiveOptions<'_>,
    watch: &'a G,
) -> Option<RecordingWatch<'a, T, G>> {
    let records = Records {
        timeline: options.timeline.is_some(),
        figures: options.summary_out.is_some(),
        replies: options.replies.is_some(),
        rows: options.rows_out.is_some(),
    };
    if !options.summary && !is_any(records) {
        return None;
    }
    let told = RecordingWatch::new(rt, rt.alloc(), watch, records);
    if told.is_err() {
        let _ = eprintln!(rt; "squall: there is no memory to tell what the run does");
    }
    told.ok()
}

// Returns whether anything is to be recorded.
fn is_any(records: Records) -> bool {
    let Records {
        timeline,
        figures,
        replies,
        rows,
    } = records;
    timeline || figures || replies || rows
}

// Writes what was asked for of a run. Returns true if every requested file was written.
fn is_told<T: Wait + Clock + Sync + Eprint + Files + AllocGlobal, G: Watch>(
    rt: &T,
    options: LiveOptions<'_>,
    told: &Option<RecordingWatch<'_, T, G>>,
) -> bool {
    let Some(told) = told else {
        return options.timeline.is_none()
            && options.summary_out.is_none()
            && options.replies.is_none()
            && options.rows_out.is_none();
    };
    if options.summary {
        print_summary(rt, told);
    }
    are_files_saved(rt, options, told) && is_device_drawn(rt, options.timeline, told)
}

// Writes the requested files. Returns true if all were written: none is written if one of the texts
// can't be made.
fn are_files_saved<T: Wait + Clock + Sync + Eprint + Files + AllocGlobal, G: Watch>(
    rt: &T,
    options: LiveOptions<'_>,
    told: &RecordingWatch<'_, T, G>,
) -> bool {
    let mut texts = Vec::new(rt.alloc());
    add_timeline(rt, options.timeline, told, &mut texts)
        && add_figures(rt, options.summary_out, told, &mut texts)
        && add_replies(rt, options.replies, told, &mut texts)
        && add_rows(rt, options.rows_out, told, &mut texts)
        && save_texts(rt, &texts)
}

// Adds the timeline, if it goes into a file: values if its name ends in '.csv', else a chart.
// Returns false if it can't be made.
fn add_timeline<T: Wait + Clock + Sync + Eprint + Files + AllocGlobal, G: Watch>(
    rt: &T,
    timeline: Option<&str>,
    told: &RecordingWatch<'_, T, G>,
    texts: &mut Vec<FileText>,
) -> bool {
    match timeline {
        Some(name) if !is_other_than_file(rt, name) => {
            add_text(rt, texts, name, timeline_text(rt, name, told))
        }
        _ => true,
    }
}

// The text of the timeline for the file `name`, whose ending sets the format.
fn timeline_text<T: Wait + Clock + Sync + AllocGlobal, G: Watch>(
    rt: &T,
    name: &str,
    told: &RecordingWatch<'_, T, G>,
) -> io::Result<Vec<u8>> {
    let mut text = Vec::new(rt.alloc());
    told.write_timeline(rt.alloc(), &mut text, TimelineForm::of_file(name))?;
    Ok(text)
}

// Writes the timeline to its file if that is a device or a pipe. Returns false if it can't be
// written; standard error gives the reason.
fn is_device_drawn<T: Wait + Clock + Sync + Eprint + Files + AllocGlobal, G: Watch>(
    rt: &T,
    timeline: Option<&str>,
    told: &RecordingWatch<'_, T, G>,
) -> bool {
    let Some(name) = timeline else {
        return true;
    };
    if !is_other_than_file(rt, name) {
        return true;
    }
    let drawn = timeline_text(rt, name, told).and_then(|text| write_device(rt, name, &text));
    if let Err(error) = &drawn {
        explain_unwritten(rt, name, error);
    }
    drawn.is_ok()
}

// Adds the longer summary, if one is asked for: as JSON if its name ends in '.json', else as text.
// Returns false if it can't be made.
fn add_figures<T: Wait + Clock + Sync + Eprint + Files + AllocGlobal, G: Watch>(
    rt: &T,
    summary_out: Option<&str>,
    told: &RecordingWatch<'_, T, G>,
    texts: &mut Vec<FileText>,
) -> bool {
    let Some(name) = summary_out else {
        return true;
    };
    let mut text = Vec::new(rt.alloc());
    let written = told.write_figures(rt.alloc(), &mut text, FiguresForm::of_file(name));
    add_text(rt, texts, name, written.map(|()| text))
}

// Adds the answers of the jobs, if they are asked for, and writes to standard error how many jobs
// have none. Returns false if the answers can't be made.
fn add_replies<T: Wait + Clock + Sync + Eprint + Files + AllocGlobal, G: Watch>(
    rt: &T,
    replies: Option<&str>,
    told: &RecordingWatch<'_, T, G>,
    texts: &mut Vec<FileText>,
) -> bool {
    let Some(name) = replies else {
        return true;
    };
    let mut text = Vec::new(rt.alloc());
    let written = told.write_replies(&mut text);
    if let Ok(unanswered) = written {
        if unanswered > 0 {
            let _ = eprintln!(rt; "squall: jobs without an answer: {unanswered}");
        }
    }
    add_text(rt, texts, name, written.map(|_| text))
}

// Adds the rows at the end of a run, if they are asked for. Returns false if they can't be made.
fn add_rows<T: Wait + Clock + Sync + Eprint + Files + AllocGlobal, G: Watch>(
    rt: &T,
    rows_out: Option<&str>,
    told: &RecordingWatch<'_, T, G>,
    texts: &mut Vec<FileText>,
) -> bool {
    let Some(name) = rows_out else {
        return true;
    };
    let mut text = Vec::new(rt.alloc());
    let written = told.write_rows(&mut text);
    let text = written.and_then(|()| as_named(rt.alloc(), name, text));
    add_text(rt, texts, name, text)
}

// Writes the summary to standard error.
fn print_summary<T: Wait + Clock + Sync + Eprint + AllocGlobal, G: Watch>(
    rt: &T,
    told: &RecordingWatch<'_, T, G>,
) {
    let mut text = Vec::new(rt.alloc());
    if told.write_summary(rt.alloc(), &mut text).is_ok() {
        if let Ok(text) = String::from_utf8(text) {
            let _ = eprint!(rt; "{text}");
        }
    }
}

/// The exit status of a live run: 0 if it is sound, 3 if it stopped, 4 if it is unsound, and 2
/// after a fault.
pub fn live_status(ran: Result<LiveEnding, WriteFault>) -> u8
    ensures { result ≡ live_status ran }
{
    match ran {
        Ok(ending) => ending.status(),
        Err(_) => REFUSED,
    }
}

// Writes to standard error what the outcome of a live run means, unless the run is sound.
fn explain_live<T: Eprint + Files + AllocGlobal, R: Read>(
    rt: &T,
    source: &Source<'_>,
    reader: &Recalling<R>,
    ran: Result<LiveEnding, WriteFault>,
) {
    match ran {
        Ok(LiveEnding::Done(LiveOutcome::Sound { .. })) => {}
        Ok(LiveEnding::Done(LiveOutcome::Stopped { .. })) => {
            let _ = eprintln!(rt;
                "squall: the run stopped before all was done; more turns may do it (--turns)"
            );
        }
        Ok(LiveEnding::Done(LiveOutcome::Unsound(defect))) => {
            let number = defect.number();
            let _ = eprintln!(rt; "squall: unsound {number}: {defect}");
        }
        Ok(LiveEnding::Fault(LiveFault::Input(located))) => explain(rt, source, reader, &located),
        Ok(LiveEnding::Fault(LiveFault::Job(job))) => {
            let place = source.place(InputLine::Later(job.line));
            let number = job.fault.number();
            let _ = eprintln!(rt; "squall: {place}: fault {number}: {}", job.fault);
            tell_misfit_of_job(rt, source, reader, job);
        }
        Ok(LiveEnding::Fault(fault @ LiveFault::Threads)) => {
            let _ = eprintln!(rt; "squall: {fault}");
        }
        Err(fault) => explain_write(rt, fault, source.is_closed.get()),
    }
    tell_unread_stages(rt, source, reader);
}
