// The files that a task writes: never over a file that it reads, and each whole or not at all.
ghost use Rattle.std.specs.Prelude.{◌≡◌, IfSome};

use crate::session::{REFUSED, refuse_for_memory};
use sq_command::{Input, Task};
use sq_outputs::{
    Conflict, NewFile, Output, SystemFolder, conflict_among, file_to_write, is_folder,
    is_other_than_file, leads_nowhere, part_name, place_of, place_of_standard_input,
    place_of_standard_output, save, try_to_make,
};
use std::alloc::AllocError;
use std::io;
use std::io::ErrorKind;
use std::rt::Files;

// The option for the timeline, whose file may be a device.
const TIMELINE: &str = "timeline";

// The name of standard input, which can't be an output.
const DASH: &str = "-";

// The options of a task that name output files, with these names.
fn named_outputs(task: Task<'_>) -> [(&'static str, Option<&str>); 4] {
    let (summary_out, timeline, replies, rows_out) = match task {
        Task::Run { rows_out, .. } => (None, None, None, rows_out),
        Task::Ranges { .. } | Task::Steps => (None, None, None, None),
        Task::Live(live) => (live.summary_out, live.timeline, live.replies, live.rows_out),
    };
    [
        ("summary-out", summary_out),
        (TIMELINE, timeline),
        ("replies", replies),
        ("rows-out", rows_out),
    ]
}

// The names of the input files.
fn named_inputs(input: Input<'_>) -> [Option<&str>; 4] {
    let plans = input.plans;
    [
        input.file,
        plans.map(|plans| plans.old),
        plans.map(|plans| plans.new),
        plans.and_then(|plans| plans.rows),
    ]
}

// The output files of a task and their places: the named files, and then the part files, each
// beside its named file and written first.
fn outputs_of<'a, T: Files + AllocGlobal>(rt: &T, task: Task<'a>) -> io::Result<Vec<Output<'a>>> {
    let mut outputs = Vec::new(rt.alloc());
    for (option, name) in named_outputs(task) {
        if let Some(name) = name {
            let place = place_of(rt, name)?;
            outputs.push(Output {
                option,
                name,
                is_part: false,
                place,
            })?;
        }
    }
    add_parts(rt, task, &mut outputs)?;
    Ok(outputs)
}

// Adds the part files of all outputs but a timeline that is a device or a pipe.
fn add_parts<'a, T: Files + AllocGlobal>(
    rt: &T,
    task: Task<'a>,
    outputs: &mut Vec<Output<'a>>,
) -> io::Result<()> {
    for (option, name) in named_outputs(task) {
        let Some(name) = name else {
            continue;
        };
        if option != TIMELINE || !is_other_than_file(rt, name) {
            let place = place_of_part(rt, name)?;
            outputs.push(Output {
                option,
                name,
                is_part: true,
                place,
            })?;
        }
    }
    Ok(())
}

/// The place of the part file for `name`, which is written first.
pub fn place_of_part<T: Files + AllocGlobal>(rt: &T, name: &str) -> io::Result<String> {
    let part = part_to_write(rt, name)?;
    place_of(rt, part.as_str())
}

// The name of the part file for `name`.
fn part_to_write<T: Files + AllocGlobal>(rt: &T, name: &str) -> io::Result<String> {
    let file = file_to_write(rt, name)?;
    Ok(part_name(rt.alloc(), file.as_str())?)
}

// The places of the input files, and that of standard input if no main file is named.
fn inputs_of<T: Files + AllocGlobal>(rt: &T, input: Input<'_>) -> io::Result<Vec<String>> {
    let mut places = Vec::new(rt.alloc());
    for name in named_inputs(input) {
        if let Some(name) = name {
            places.push(place_of(rt, name)?)?;
        }
    }
    if input.file.is_none() {
        if let Some(place) = place_of_standard_input(rt)? {
            places.push(place)?;
        }
    }
    Ok(places)
}

/// Refuses, before anything is read, a task that would write a file that it also reads, or one file
/// twice, or to a name that can't be a file of its own ([`are_files`]), or into a folder in which
/// no file can be made. Then, or if memory runs out, standard error gives the reason, and the exit
/// status 2 is returned; else `None`.
pub fn refuse_outputs<T: Print + Eprint + Files + AllocGlobal>(
    rt: &T,
    task: Task<'_>,
    input: Input<'_>,
) -> Option<u8>
    ensures { IfSome result (λ status. status ≡ 2) }
{
    match may_write(rt, task, input) {
        Ok(true) => None,
        Ok(false) => Some(REFUSED),
        Err(_) => Some(refuse_for_memory(rt)),
    }
}

// Returns whether a task may write its files: each may be a file of its own, is neither read nor
// written twice, and can be made in its folder. Else standard error says which may not. Fails if
// memory runs out.
fn may_write<T: Eprint + Files + AllocGlobal>(
    rt: &T,
    task: Task<'_>,
    input: Input<'_>,
) -> io::Result<bool> {
    let outputs = outputs_of(rt, task)?;
    if outputs.is_empty() {
        return Ok(true);
    }
    if !are_files(rt, &outputs)? {
        return Ok(false);
    }
    let read = inputs_of(rt, input)?;
    if let Some(conflict) = conflict_among(&outputs, &read) {
        explain_conflict(rt, conflict);
        return Ok(false);
    }
    can_be_made(rt, &outputs)
}

/// Returns whether each output may be a file of its own: `-`, a link that leads nowhere, a folder
/// and standard output's file may not, nor may a device or a pipe if the output has a part file.
/// Else standard error says which may not. Fails if memory runs out.
pub fn are_files<T: Eprint + Files + AllocGlobal>(
    rt: &T,
    outputs: &[Output<'_>],
) -> io::Result<bool> {
    let answers = place_of_standard_output(rt)?;
    for output in outputs {
        if let Some(why) = why_no_file(rt, output, answers.as_ref()) {
            let (option, name) = (output.option, output.name);
            let _ = eprintln!(rt; "squall: --{option} names '{name}', {why}");
            return Ok(false);
        }
    }
    Ok(true)
}

// Why an output can't be a file of its own; `answers` is the place of standard output. A file that
// is written whole or not at all never replaces anything but a regular file; a timeline may be a
// device.
fn why_no_file<T: Files>(
    rt: &T,
    output: &Output<'_>,
    answers: Option<&String>,
) -> Option<&'static str> {
    if output.name == DASH {
        return Some("and an output is a file");
    }
    if leads_nowhere(rt, output.name) {
        return Some("a link that leads to no file");
    }
    if is_folder(rt, output.name) || output.is_part && is_other_than_file(rt, output.name) {
        return Some("which is no file");
    }
    match answers {
        Some(place) if place.as_str() == output.place.as_str() => Some("which is standard output"),
        _ => None,
    }
}

/// Returns whether each part file can be made in its folder; else standard error says which can't.
/// Makes each, and removes it again. Fails if memory runs out.
pub fn can_be_made<T: Eprint + Files + AllocGlobal>(
    rt: &T,
    outputs: &[Output<'_>],
) -> io::Result<bool> {
    for output in outputs.iter().filter(|output| output.is_part) {
        let part = part_to_write(rt, output.name)?;
        match try_to_make(rt, part.as_str()) {
            Ok(()) => {}
            Err(error) if error.kind() == ErrorKind::OutOfMemory => return Err(error),
            Err(error) => {
                explain_unwritten(rt, output.name, &error);
                return Ok(false);
            }
        }
    }
    Ok(true)
}

/// Writes to standard error which output conflicts with another file, and how.
pub fn explain_conflict(rt: &impl Eprint, conflict: Conflict<'_>) {
    let (output, why) = match conflict {
        Conflict::IsRead(output) => (output, "which the run reads"),
        Conflict::NamedTwice(output) => (output, "which another option names too"),
    };
    let (option, name) = (output.option, output.name);
    if output.is_part {
        let _ = eprintln!(rt;
            "squall: --{option} writes the file '{name}.squall-part' first, {why}"
        );
    } else {
        let _ = eprintln!(rt; "squall: --{option} names the file '{name}', {why}");
    }
}

/// A text, and the name of the file that it goes into.
#[derive(Drop)]
pub struct FileText {
    name: String,
    text: Vec<u8>,
}

/// Adds a text for the file `name`. Returns true if it was added; else standard error gives the
/// reason.
pub fn add_text<T: Eprint + Files + AllocGlobal>(
    rt: &T,
    texts: &mut Vec<FileText>,
    name: &str,
    text: io::Result<Vec<u8>>,
) -> bool {
    let added = text.and_then(|text| {
        let name = file_to_write(rt, name)?;
        texts.push(FileText { name, text })?;
        Ok(())
    });
    if let Err(error) = &added {
        explain_unwritten(rt, name, error);
    }
    added.is_ok()
}

/// Writes each text into its file, whole or not at all, and none if one of their part files can't
/// be written. Returns true if all files were replaced; else standard error says which wasn't, and
/// why.
pub fn save_texts<T: Eprint + Files + AllocGlobal>(rt: &T, texts: &[FileText]) -> bool {
    let Ok(files) = new_files(rt, texts) else {
        let _ = eprintln!(rt; "squall: there is no memory to write the files");
        return false;
    };
    match save(&mut SystemFolder::new(rt), &files) {
        Ok(()) => true,
        Err(unsaved) => {
            explain_unwritten(rt, unsaved.name, &unsaved.error);
            false
        }
    }
}

/// Writes a text into the file `name`, whole or not at all. Returns true if it was written; else
/// standard error gives the reason.
pub fn save_text<T: Eprint + Files + AllocGlobal>(
    rt: &T,
    name: &str,
    text: io::Result<Vec<u8>>,
) -> bool {
    let mut texts = Vec::new(rt.alloc());
    add_text(rt, &mut texts, name, text) && save_texts(rt, &texts)
}

// The files that the texts go into.
fn new_files<'a, T: AllocGlobal>(
    rt: &T,
    texts: &'a [FileText],
) -> Result<Vec<NewFile<'a>>, AllocError> {
    let mut files = Vec::new(rt.alloc());
    for FileText { name, text } in texts {
        files.push(NewFile::new(rt.alloc(), name.as_str(), text.as_slice())?)?;
    }
    Ok(files)
}

/// Writes to standard error that the file `name` can't be written, and why.
pub fn explain_unwritten(rt: &impl Eprint, name: &str, error: &io::Error) {
    let _ = eprintln!(rt; "squall: the file '{name}' can't be written: {error}");
}
