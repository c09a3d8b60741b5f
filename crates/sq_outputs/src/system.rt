// The files of the system.
ghost use Rattle.std.specs.Prelude.{None};

use crate::folder::Folder;
use std::fs::{Metadata, OpenFile};
use std::io::{ErrorKind, Write};
use std::os::unix::fs::MetadataExt;
use std::path::Path;
use std::rt::Files;
use std::{fs, io};

// The names of the standard streams.
const STANDARD_INPUT: &str = "/dev/stdin";

const STANDARD_OUTPUT: &str = "/dev/stdout";

/// The files of the system. Nothing is known of what they hold. No file replaces a folder, a device
/// or a pipe.
#[derive(Drop)]
pub struct SystemFolder<'a, T> {
    rt: &'a T,
}

impl<'a, T> SystemFolder<'a, T> {
    /// The files that `rt` reaches.
    pub fn new(rt: &'a T) -> SystemFolder<'a, T> {
        SystemFolder { rt }
    }
}

impl<T: Files> Folder for SystemFolder<'_, T> {
    ghost calls = { λ _. None };

    fn write(&mut self, name: &str, like: &str, text: &[u8]) -> io::Result<()> {
        let mut file = fs::create(self.rt, name)?;
        if let Ok(there) = fs::metadata(self.rt, like) {
            keep_mode(&file, &there)?;
        }
        file.write_all(text)?;
        file.sync_all()
    }

    fn rename(&mut self, from: &str, to: &str) -> io::Result<()> {
        match fs::metadata(self.rt, to) {
            Ok(there) if !there.is_file() => Err(no_file()),
            _ => fs::rename(self.rt, from, to),
        }
    }

    fn sync_folder(&mut self, name: &str) {
        // Some systems and some folders don't allow it; the file has been replaced anyway.
        let _ = sync_folder_of(self.rt, name);
    }

    fn remove(&mut self, name: &str) {
        let _ = fs::remove_file(self.rt, name);
    }
}

// Gives an open file the mode of another one.
fn keep_mode<F: OpenFile>(file: &F, like: &Metadata) -> io::Result<()> {
    let mode = like.permissions();
    if file.metadata()?.permissions() == mode {
        Ok(())
    } else {
        file.set_permissions(mode)
    }
}

// Waits until the names in the folder of the file `name` are on the disk.
fn sync_folder_of<T: Files>(rt: &T, name: &str) -> io::Result<()> {
    fs::open(rt, folder_of(Path::new(name)))?.sync_all()
}

// The folder of a file.
fn folder_of(file: Path<'_>) -> &str {
    match file.parent() {
        Some(folder) if !folder.as_str().is_empty() => folder.as_str(),
        _ => ".",
    }
}

// The error for a name that belongs to something other than a file.
fn no_file() -> io::Error {
    io::Error::new(ErrorKind::AlreadyExists, "it is no file")
}

/// The name of the file that is written for `name`: if that is a link, the file that it leads to,
/// else `name` itself. Fails if memory runs out.
pub fn file_to_write<T: Files + AllocGlobal>(rt: &T, name: &str) -> io::Result<String> {
    if !is_link(rt, name) {
        return Ok(String::from_str(rt.alloc(), name)?);
    }
    match text_of_path(rt, name) {
        Err(error) if error.kind() != ErrorKind::OutOfMemory => {
            Ok(String::from_str(rt.alloc(), name)?)
        }
        file => file,
    }
}

/// Returns whether `name` is a link that leads nowhere.
pub fn leads_nowhere<T: Files>(rt: &T, name: &str) -> bool {
    is_link(rt, name) && fs::metadata(rt, name).is_err()
}

// Returns whether `name` is a link.
fn is_link<T: Files>(rt: &T, name: &str) -> bool {
    match fs::symlink_metadata(rt, name) {
        Ok(there) => there.is_symlink(),
        Err(_) => false,
    }
}

/// Fails if no file `name` can be made. Makes it, and removes it again.
pub fn try_to_make<T: Files>(rt: &T, name: &str) -> io::Result<()> {
    fs::create(rt, name)?;
    fs::remove_file(rt, name)
}

/// Writes `text` into the device or the pipe `name`.
pub fn write_device<T: Files>(rt: &T, name: &str, text: &[u8]) -> io::Result<()> {
    fs::write(rt, name, text)
}

/// The place of the file `name`, in one spelling for all names that lead to it, by links or hard
/// links too. If the file doesn't exist, it is a place in its folder, and if its folder can't be
/// found, the name itself. Fails if memory runs out.
pub fn place_of<T: Files + AllocGlobal>(rt: &T, name: &str) -> io::Result<String> {
    match fs::metadata(rt, name) {
        Ok(there) => {
            let (device, node) = (there.dev(), there.ino());
            Ok(format!(in rt.alloc(); "{device}\0{node}")?)
        }
        Err(_) => place_in_folder(rt, name),
    }
}

/// The place of standard input; `None` if it isn't a file.
pub fn place_of_standard_input<T: Files + AllocGlobal>(rt: &T) -> io::Result<Option<String>> {
    place_of_stream(rt, STANDARD_INPUT)
}

/// The place of standard output; `None` if it isn't a file.
pub fn place_of_standard_output<T: Files + AllocGlobal>(rt: &T) -> io::Result<Option<String>> {
    place_of_stream(rt, STANDARD_OUTPUT)
}

// The place of a standard stream; `None` if it isn't a file.
fn place_of_stream<T: Files + AllocGlobal>(rt: &T, stream: &str) -> io::Result<Option<String>> {
    match fs::metadata(rt, stream) {
        Ok(there) if there.is_file() => Ok(Some(place_of(rt, stream)?)),
        _ => Ok(None),
    }
}

/// Returns whether `name` is that of something other than a file: a folder, a device or a pipe.
pub fn is_other_than_file<T: Files>(rt: &T, name: &str) -> bool {
    match fs::metadata(rt, name) {
        Ok(there) => !there.is_file(),
        Err(_) => false,
    }
}

/// Returns whether `name` is that of a folder.
pub fn is_folder<T: Files>(rt: &T, name: &str) -> bool {
    match fs::metadata(rt, name) {
        Ok(there) => there.is_dir(),
        Err(_) => false,
    }
}

// The place that a file with this name would have in its folder.
fn place_in_folder<T: Files + AllocGlobal>(rt: &T, name: &str) -> io::Result<String> {
    let path = Path::new(name);
    let Some(file) = path.file_name() else {
        return Ok(String::from_str(rt.alloc(), name)?);
    };
    match text_of_path(rt, folder_of(path)) {
        Ok(folder) => Ok(format!(in rt.alloc(); "{folder}/{file}")?),
        Err(error) if error.kind() == ErrorKind::OutOfMemory => Err(error),
        Err(_) => Ok(String::from_str(rt.alloc(), name)?),
    }
}

// The path of what exists under `name`, without links.
fn text_of_path<T: Files + AllocGlobal>(rt: &T, name: &str) -> io::Result<String> {
    let path = fs::canonicalize(rt, name)?;
    Ok(String::from_str(rt.alloc(), path.as_str())?)
}
