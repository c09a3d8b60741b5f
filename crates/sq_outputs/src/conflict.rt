// Files that a run can't write, since it reads them or already writes them.
ghost use Rattle.std.specs.Prelude.{◌↔◌, IsTrue, IfNone, IfSome};
ghost use Rattle.sq_outputs.specs.Conflicts.{IsReadAt, IsWrittenAt, AreFree, IsConflict};

/// A file to be written.
#[derive(Debug, PartialEq, Eq, Drop)]
pub struct Output<'a> {
    /// The option that names it.
    pub option: &'a str,
    pub name: &'a str,
    /// Whether it is the part file for `name`, which is written first.
    pub is_part: bool,
    /// Its place, in one spelling.
    pub place: String,
}

/// Why a file can't be written.
#[derive(Clone, Copy, Debug, PartialEq, Eq)]
pub enum Conflict<'a> {
    /// It is also read.
    IsRead(&'a Output<'a>),
    /// An earlier option names it, too.
    NamedTwice(&'a Output<'a>),
}

// Returns whether the file at `place` is read.
fn is_read(read: &[String], place: &str) -> bool
    ensures { IsTrue result ↔ IsReadAt read.now place.now }
{
    for file in read {
        if file.as_str() == place {
            return true;
        }
    }
    false
}

// Returns whether the file at `place` is written.
fn is_written(outputs: &[Output<'_>], place: &str) -> bool
    ensures { IsTrue result ↔ IsWrittenAt outputs.now place.now }
{
    for output in outputs {
        if output.place.as_str() == place {
            return true;
        }
    }
    false
}

/// The first of `outputs` that is also read, or that is the same file as an earlier one; `None` if
/// the run reads none of them and they are all different.
pub fn conflict_among<'a>(outputs: &'a [Output<'a>], read: &[String]) -> Option<Conflict<'a>>
    ensures free { IfNone result (AreFree read.now outputs.now) }
    ensures taken { IfSome result (IsConflict read.now outputs.now) }
{
    for (at, output) in outputs.iter().enumerate() {
        let place = output.place.as_str();
        if is_read(read, place) {
            return Some(Conflict::IsRead(output));
        }
        if is_written(&outputs[..at], place) {
            return Some(Conflict::NamedTwice(output));
        }
    }
    None
}
