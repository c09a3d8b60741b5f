// What is loaded of a segment, as runs of root keys.
ghost use Rattle.std.specs.Prelude.{◌≡◌, ◌<◌, position, vec_len, vec_capacity};
ghost use Rattle.sq_exec.specs.Runs.{run_has, meets, goes_on, run_with, is_loaded, is_met, is_whole, runs_with};

use sq_moves::NodeId;
use sq_schema::Root;
use sq_store::Note;

/// Root keys of a node that were loaded without a gap, from `lo` up to, not including, `hi`; empty
/// unless `lo` is below `hi`.
#[derive(Clone, Copy, Debug)]
pub(crate) struct Run {
    pub(crate) node: NodeId,
    /// The first key.
    pub(crate) lo: u64,
    /// The key after the last.
    pub(crate) hi: u64,
    /// True if the last chunk of the node was loaded.
    pub(crate) whole: bool,
}

impl Run {
    // Returns true if the run has the root key `key`.
    fn has_key(&self, key: u64) -> bool
        ensures { result ≡ run_has self.now key }
    {
        self.lo <= key && key < self.hi
    }

    // Returns true if the run has a key that `note` covers.
    fn meets(&self, note: &Note) -> bool
        ensures { result ≡ meets note.now self.now }
    {
        self.lo.max(note.lo) < self.hi.min(note.hi)
    }

    // Returns true if the chunk of `note` continues at the end of the run.
    fn goes_on(&self, note: &Note) -> bool
        ensures { result ≡ goes_on note.now self.now }
    {
        self.node == note.node && self.lo <= self.hi && self.hi == note.lo
    }

    // Returns the run with the keys of a chunk that continues at its end.
    fn with(self, note: &Note) -> Run
        ensures { result ≡ run_with note.now self }
    {
        Run {
            hi: self.hi.max(note.hi),
            whole: self.whole || note.last,
            ..self
        }
    }
}

/// Returns true if `root` is loaded.
pub(crate) fn is_loaded(runs: &[Run], root: Root) -> bool
    ensures { result ≡ is_loaded runs.now root }
{
    let key = root.number();
    runs.iter().any(|run| run.has_key(key))
}

/// Returns true if a key that `note` covers is loaded.
pub(crate) fn is_met(runs: &[Run], note: &Note) -> bool
    ensures { result ≡ is_met runs.now note.now }
{
    runs.iter().any(|run| run.meets(note))
}

/// Returns true if the last chunk of `node` is loaded.
pub(crate) fn is_whole(runs: &[Run], node: NodeId) -> bool
    ensures { result ≡ is_whole runs.now node }
{
    runs.iter().any(|run| run.node == node && run.whole)
}

/// Adds the keys that `note` covers to `runs`, which have room for one more run.
pub(crate) fn add(runs: &mut Vec<Run>, note: &Note)
    requires { vec_len runs.old < vec_capacity runs.old }
    ensures { runs.new.items ≡ runs_with runs.old.items note.now }
{
    match place(runs, note) {
        Some(at) => runs[at] = runs[at].with(note),
        None => runs.push_reserved(Run {
            node: note.node,
            lo: note.lo,
            hi: note.hi,
            whole: note.last,
        }),
    }
}

// Returns the place of the first run that the chunk of `note` continues.
fn place(runs: &[Run], note: &Note) -> Option<usize>
    ensures { result ≡ position (goes_on note.now) runs.now }
{
    runs.iter().position(|run| run.goes_on(note))
}
