// Files that are written whole or not at all.
ghost use Rattle.std.specs.Prelude.{◌≡◌, true, map, IfOk, OnOk, OnErr, string_bytes};
ghost use Rattle.std.specs.List.{flat_map};
ghost use Rattle.sq_outputs.specs.Calls.{Makes, MakesSome, LeavesAll, LeavesRest, GivesUp};
ghost use Rattle.sq_outputs.specs.Calls.{part_of, replacing, writes_beside, placed_for_good, removes_beside};

use crate::folder::Folder;
use std::alloc::{AllocError, Global};
use std::io;

/// A file to be written.
#[derive(Drop)]
pub struct NewFile<'a> {
    name: &'a str,
    /// The name of its part file, beside it, which is written first.
    part: String,
    /// The text that it will hold.
    text: &'a [u8],
}

impl<'a> NewFile<'a> {
    /// The file `name`, which will hold `text`. Fails if memory runs out.
    pub fn new(alloc: Global, name: &'a str, text: &'a [u8]) -> Result<NewFile<'a>, AllocError>
        ensures name { IfOk result (λ file. file.name.now ≡ name.now) }
        ensures part { IfOk result (λ file. string_bytes file.part ≡ part_of name.now) }
        ensures text { IfOk result (λ file. file.text.now ≡ text.now) }
    {
        let part = part_name(alloc, name)?;
        Ok(NewFile { name, part, text })
    }
}

/// A file that can't be written, and why.
#[derive(Debug, Drop)]
pub struct Unsaved<'a> {
    pub name: &'a str,
    pub error: io::Error,
}

/// The name of the part file for the file `name`, which gets the text first. Fails if memory runs
/// out.
pub fn part_name(alloc: Global, name: &str) -> Result<String, AllocError>
    ensures { IfOk result (λ part. string_bytes part ≡ part_of name.now) }
{
    format!(in alloc; "{name}.squall-part")
}

/// Writes `files`, each whole or not at all. Each text goes into a part file beside its own, with
/// `.squall-part` after the name, and onto the disk; only then do the part files replace their
/// files, one after another. If a text can't be written, no file is replaced. If a file can't be
/// replaced, those before it are and the others aren't. Either way no part file is left.
pub fn save<'a, F: Folder>(folder: &mut F, files: &[NewFile<'a>]) -> Result<(), Unsaved<'a>>
    ensures saved { OnOk result
        (Makes (F.calls folder.old) (F.calls folder.new) (replacing files.now)) }
    ensures given_up { OnErr result
        (MakesSome (GivesUp files.now) (F.calls folder.old) (F.calls folder.new)) }
{
    write_beside(folder, files)?;
    take_places(folder, files)
}

// Writes the text of each file into its part file. After an error no part file is left.
fn write_beside<'a, F: Folder>(folder: &mut F, files: &[NewFile<'a>]) -> Result<(), Unsaved<'a>>
    ensures saved { OnOk result
        (Makes (F.calls folder.old) (F.calls folder.new) (map (writes_beside true) files.now)) }
    ensures left { OnErr result
        (MakesSome (LeavesAll files.now) (F.calls folder.old) (F.calls folder.new)) }
{
    for (at, file) in files.iter().enumerate() {
        if let Err(error) = folder.write(file.part.as_str(), file.name, file.text) {
            remove_beside(folder, &files[..at + 1]);
            let name = file.name;
            return Err(Unsaved { name, error });
        }
    }
    Ok(())
}

// Replaces each file by its part file, one after another. After an error no part file is left.
fn take_places<'a, F: Folder>(folder: &mut F, files: &[NewFile<'a>]) -> Result<(), Unsaved<'a>>
    ensures saved { OnOk result
        (Makes (F.calls folder.old) (F.calls folder.new) (flat_map placed_for_good files.now)) }
    ensures left { OnErr result
        (MakesSome (LeavesRest files.now) (F.calls folder.old) (F.calls folder.new)) }
{
    for (at, file) in files.iter().enumerate() {
        if let Err(error) = folder.rename(file.part.as_str(), file.name) {
            remove_beside(folder, &files[at..]);
            let name = file.name;
            return Err(Unsaved { name, error });
        }
        folder.sync_folder(file.name);
    }
    Ok(())
}

// Removes the part files.
fn remove_beside<F: Folder>(folder: &mut F, files: &[NewFile<'_>])
    ensures { Makes (F.calls folder.old) (F.calls folder.new) (map removes_beside files.now) }
{
    for file in files {
        folder.remove(file.part.as_str());
    }
}
