// A sample input.
ghost use Rattle.std.specs.Prelude.{◌≡◌, ◌⊎◌, None};
ghost use Rattle.sq_command.specs.Demo.{DemoIsWithin};

use crate::session::{REFUSED, explain_write, refuse_for_memory};
use sq_command::{Demo, DemoSizes, DemoTexts, write_commands};
use sq_outputs::{Folder, NewFile, SystemFolder, save};
use sq_text::WriteFault;
use std::alloc::AllocError;
use std::cell::Cell;
use std::io::{ErrorKind, Write};
use std::rt::Files;
use std::{fs, io};

// The most lines of a sample input, over all its files.
const MAX_LINES: u64 = 1_000_000;

// The names of its files.
const OLD: &str = "old.json";

const NEW: &str = "new.json";

const ROWS: &str = "rows.txt";

const JOBS: &str = "jobs.txt";

/// Writes files like [`SystemFolder`], but replaces none: a rename fails if the name is taken.
#[derive(Drop)]
struct NewFiles<'a, T> {
    rt: &'a T,
    system: SystemFolder<'a, T>,
}

impl<T: Files> Folder for NewFiles<'_, T> {
    ghost calls = { λ _. None };

    fn write(&mut self, name: &str, like: &str, text: &[u8]) -> io::Result<()> {
        self.system.write(name, like, text)
    }

    fn rename(&mut self, from: &str, to: &str) -> io::Result<()> {
        fs::hard_link(self.rt, from, to)?;
        fs::remove_file(self.rt, from)
    }

    fn sync_folder(&mut self, name: &str) {
        self.system.sync_folder(name);
    }

    fn remove(&mut self, name: &str) {
        self.system.remove(name);
    }
}

/// Writes the files of a sample input into `folder`, which is made if it doesn't exist: each whole,
/// and none if one of them exists already or can't be written. Then writes the commands that run
/// it. Returns the exit status, 0 or 2.
pub fn write_demo<T: Print + Eprint + Files + AllocGlobal, W: Write>(
    rt: &T,
    writer: &mut W,
    demo: Demo,
    folder: &str,
    is_closed: &Cell<bool>,
) -> u8
    requires { DemoIsWithin demo }
    ensures { (result ≡ 0) ⊎ (result ≡ 2) }
{
    let sizes = sizes_of(demo);
    if sizes.line_count() > MAX_LINES {
        return refuse_lines(rt, sizes.line_count());
    }
    let Ok(texts) = DemoTexts::of(rt.alloc(), &sizes) else {
        return refuse_for_memory(rt);
    };
    if !are_saved(rt, &texts, folder) {
        return REFUSED;
    }
    match tell_commands(writer, folder) {
        Ok(()) => 0,
        Err(_) => {
            explain_write(rt, WriteFault, is_closed.get());
            REFUSED
        }
    }
}

// What the sample input is like.
fn sizes_of(demo: Demo) -> DemoSizes
    requires { DemoIsWithin demo }
{
    DemoSizes {
        partitions: u64::from(demo.partitions),
        roots: u64::from(demo.roots),
        rows_per_root: u64::from(demo.rows_per_root),
        jobs: u64::from(demo.jobs),
        hot: u64::from(demo.hot),
        stages: demo.stages,
        seed: demo.seed,
    }
}

// Writes to standard error that a sample input would have too many lines, and returns the exit
// status 2.
fn refuse_lines(rt: &impl Eprint, count: u64) -> u8
    ensures { result ≡ 2 }
{
    let _ = eprintln!(rt; "squall: the files would have {count} lines, and may have {MAX_LINES}");
    REFUSED
}

// Writes the texts into files of `folder`, which is made if it doesn't exist. Returns true if all
// were written; else standard error gives the reason.
fn are_saved<T: Eprint + Files + AllocGlobal>(rt: &T, texts: &DemoTexts, folder: &str) -> bool {
    if let Err(error) = make_folder(rt, folder) {
        let _ = eprintln!(rt; "squall: the folder '{folder}' can't be made: {error}");
        return false;
    }
    are_absent(rt, folder) && are_written(rt, texts, folder)
}

// Makes a folder if it doesn't exist. An empty name is refused, since it would put the files in the
// root folder.
fn make_folder<T: Files>(rt: &T, folder: &str) -> io::Result<()> {
    if folder.is_empty() {
        return Err(io::Error::from(ErrorKind::InvalidFilename));
    }
    fs::create_dir_all(rt, folder)
}

// Returns whether none of the files exists; else standard error says which one does.
fn are_absent<T: Eprint + Files + AllocGlobal>(rt: &T, folder: &str) -> bool {
    for file in [OLD, NEW, ROWS, JOBS] {
        if let Err(error) = check_absent(rt, folder, file) {
            explain_file(rt, folder, file, &error);
            return false;
        }
    }
    true
}

// Writes the texts into the files. Returns true if all were written; else standard error gives the
// reason.
fn are_written<T: Eprint + Files + AllocGlobal>(rt: &T, texts: &DemoTexts, folder: &str) -> bool {
    let Ok(names) = names_in(rt, folder) else {
        let _ = eprintln!(rt; "squall: there is no memory to write the files");
        return false;
    };
    let Ok(files) = files_of(rt, &names, texts) else {
        let _ = eprintln!(rt; "squall: there is no memory to write the files");
        return false;
    };
    let system = SystemFolder::new(rt);
    match save(&mut NewFiles { rt, system }, &files) {
        Ok(()) => true,
        Err(unsaved) => {
            let (name, error) = (unsaved.name, unsaved.error);
            let _ = eprintln!(rt; "squall: the file '{name}' can't be written: {error}");
            false
        }
    }
}

// The names of the files in `folder`.
fn names_in<T: AllocGlobal>(rt: &T, folder: &str) -> Result<Vec<String>, AllocError> {
    let mut names = Vec::new(rt.alloc());
    for file in [OLD, NEW, ROWS, JOBS] {
        names.push(format!(in rt.alloc(); "{folder}/{file}")?)?;
    }
    Ok(names)
}

// The files with these names and texts.
fn files_of<'a, T: AllocGlobal>(
    rt: &T,
    names: &'a [String],
    texts: &'a DemoTexts,
) -> Result<Vec<NewFile<'a>>, AllocError> {
    let texts = [
        texts.old.as_slice(),
        texts.new.as_slice(),
        texts.rows.as_slice(),
        texts.jobs.as_slice(),
    ];
    let mut files = Vec::new(rt.alloc());
    for (name, text) in names.iter().zip(texts) {
        files.push(NewFile::new(rt.alloc(), name.as_str(), text)?)?;
    }
    Ok(files)
}

// Writes to standard error why a file of `folder` can't be written.
fn explain_file(rt: &impl Eprint, folder: &str, file: &str, error: &io::Error) {
    let _ = eprintln!(rt; "squall: the file '{folder}/{file}' can't be written: {error}");
}

// Fails if the file exists in `folder`, or if memory runs out.
fn check_absent<T: Files + AllocGlobal>(rt: &T, folder: &str, file: &str) -> io::Result<()> {
    let name = format!(in rt.alloc(); "{folder}/{file}")?;
    match fs::metadata(rt, name.as_str()) {
        Ok(_) => Err(io::Error::from(ErrorKind::AlreadyExists)),
        Err(_) => Ok(()),
    }
}

// Writes the commands that run the input in `folder`, and flushes the output.
fn tell_commands<W: Write>(writer: &mut W, folder: &str) -> io::Result<()> {
    write_commands(writer, folder)?;
    writer.flush()
}
