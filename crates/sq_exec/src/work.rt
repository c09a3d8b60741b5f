// What the source of a link still has to cut.
ghost use Rattle.std.specs.Prelude.{◌≡◌, ◌≤◌, ◌<◌, position, vec_len, vec_capacity, slice_index_or};
ghost use Rattle.sq_exec.specs.Work.{is_reactive_work, next_work, no_work, work_after};

use sq_moves::{Extent, NodeId, SegId};
use std::marker::Model;

/// The rest of a node that was begun and isn't cut to its end yet. To a contract it is a
/// `WorkValue`.
#[derive(Clone, Copy, Debug)]
pub(crate) struct Work {
    seg: SegId,
    node: NodeId,
    pull: u32,
    rest: Extent,
}

impl Model for Work {
    ghost use Rattle.std.specs.Prelude.{◌≤◌};
    ghost use Rattle.sq_exec.specs.Work.{WorkValue};

    ghost Value = { WorkValue };

    ghost view = { λ w.
        record { seg = w.seg; node = w.node; pull = w.pull; rest = w.rest.lo; hi = w.rest.hi } };

    ghost invariant = { λ w. w.rest.lo ≤ w.rest.hi };

    ghost inverse = { λ w. record {
      seg = w.seg;
      node = w.node;
      pull = w.pull;
      rest = record { lo = w.rest; hi = w.hi };
    } };
}

impl Work {
    /// Returns the work of a whole node, whose root keys are `keys`.
    pub(crate) fn new(seg: SegId, node: NodeId, pull: u32, keys: Extent) -> Work
        requires { keys.lo ≤ keys.hi }
        ensures { result ≡
            record { seg = seg; node = node; pull = pull; rest = keys.lo; hi = keys.hi } }
    {
        Work {
            seg,
            node,
            pull,
            rest: keys,
        }
    }

    pub(crate) fn seg(self) -> SegId
        ensures { result ≡ self.seg }
    {
        self.seg
    }

    pub(crate) fn node(self) -> NodeId
        ensures { result ≡ self.node }
    {
        self.node
    }

    /// Returns the keys that are still to be cut.
    pub(crate) fn rest(self) -> Extent
        ensures from { result.lo ≡ self.rest }
        ensures upto { result.hi ≡ self.hi }
        ensures rises { self.rest ≤ self.hi }
    {
        self.rest
    }

    /// Returns true if its pull is odd: a transaction waits for the node.
    fn is_reactive(self) -> bool
        ensures { result ≡ is_reactive_work self }
    {
        self.pull % 2 == 1
    }

    // Returns the rest of the work from `key` on.
    fn from(self, key: u64) -> Work
        requires { key ≤ self.hi }
        ensures { result ≡ record {
          seg = self.seg;
          node = self.node;
          pull = self.pull;
          rest = key;
          hi = self.hi;
        } }
    {
        let rest = Extent {
            lo: key,
            hi: self.rest.hi,
        };
        Work { rest, ..self }
    }
}

// Returns the place of the first work that a transaction waits for.
fn first_reactive(work: &[Work]) -> Option<usize>
    ensures { result ≡ position is_reactive_work work.now }
{
    work.iter().position(|work| work.is_reactive())
}

/// Returns the place of the next work: the first for a reactive pull, or without one the first of
/// all.
#[tactic(auto, using(crate::proofs::Works::front_found, crate::proofs::Works::front_first, crate::proofs::Works::front_none))]
pub(crate) fn next_work(work: &[Work]) -> Option<usize>
    ensures { result ≡ next_work work.now }
{
    if let Some(at) = first_reactive(work) {
        return Some(at);
    }
    if work.is_empty() { None } else { Some(0) }
}

/// Advances the work at `at` to the key `end`, and removes it if that is its last.
pub(crate) fn go_on(works: &mut Vec<Work>, at: usize, end: u64)
    requires exists { at < vec_len works.old }
    requires within { end ≤ (slice_index_or works.old.items at no_work).hi }
    ensures left { works.new.items ≡ work_after works.old.items at end }
    ensures no_more { vec_len works.new ≤ vec_len works.old }
    ensures capacity { vec_capacity works.new ≡ vec_capacity works.old }
{
    let work = works[at];
    if end == work.rest().hi {
        works.remove(at);
    } else {
        works[at] = work.from(end);
    }
}
