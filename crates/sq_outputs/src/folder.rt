// Access to files by name.
ghost use Rattle.std.specs.Prelude.{[], ◌∷◌, is_ok, Option, List};
ghost use Rattle.sq_outputs.specs.Calls.{FileCall, Written, Renamed, FolderSynced, Removed, Makes};

use std::io;

/// Access to files by name.
pub trait Folder {
    // The calls that were made, and whether each succeeded, if that is known.
    ghost calls: { Self → Option (List FileCall) };

    /// Replaces the content of the file `name` by `text`, and waits until it is on the disk. The
    /// file gets the mode of the file `like`, if that exists, before the text is written. After an
    /// error it may hold a part of the text.
    fn write(&mut self, name: &str, like: &str, text: &[u8]) -> io::Result<()>
        ensures { Makes (calls self.old) (calls self.new)
            (Written name.now like.now text.now (is_ok result) ∷ []) };

    /// Renames the file `from` to `to`, which it replaces.
    fn rename(&mut self, from: &str, to: &str) -> io::Result<()>
        ensures { Makes (calls self.old) (calls self.new)
            (Renamed from.now to.now (is_ok result) ∷ []) };

    /// Waits until the names in the folder of the file `name` are on the disk, if the system can do
    /// that.
    fn sync_folder(&mut self, name: &str)
        ensures { Makes (calls self.old) (calls self.new) (FolderSynced name.now ∷ []) };

    /// Removes the file `name`, if it can be removed.
    fn remove(&mut self, name: &str)
        ensures { Makes (calls self.old) (calls self.new) (Removed name.now ∷ []) };
}
