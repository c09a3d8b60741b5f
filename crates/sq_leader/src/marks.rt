// Marks of the partitions that have prepared, or that have reported.
ghost use Rattle.std.specs.Prelude.{◌≡◌, ◌≤◌, length};
ghost use Rattle.sq_plan.specs.declared.plan.TheConstants.{MAX_PARTS};
ghost use Rattle.sq_leader.specs.Marks.{none_marked, is_marked, with_mark, all_marked};

use sq_plan::MAX_PARTS;
use std::marker::Model;

// The most partitions, as the length of an array.
const FLAGS: usize = MAX_PARTS as usize;

/// Marks of the partitions that have prepared, or that have reported. To a contract it is a list
/// with an entry for each partition.
#[derive(Debug, Drop)]
pub(crate) struct Marks {
    parts: u8,
    flags: [bool; FLAGS],
}

impl Model for Marks {
    ghost use Rattle.std.specs.Prelude.{◌≤◌, List, Bool, take};
    ghost use Rattle.sq_plan.specs.declared.plan.TheConstants.{MAX_PARTS};

    ghost Value = { List Bool };

    ghost view = { λ m. take m.parts m.flags };

    ghost invariant = { λ m. m.parts ≤ MAX_PARTS };
}

impl Marks {
    /// Creates the marks of `parts` partitions, none set.
    pub(crate) fn none(parts: u8) -> Marks
        requires { parts ≤ MAX_PARTS }
        ensures { result ≡ none_marked parts }
    {
        Marks {
            parts,
            flags: [false; FLAGS],
        }
    }

    /// Returns the number of partitions.
    pub(crate) fn parts(&self) -> u8
        ensures parts { result ≡ length self.now }
        ensures bound { result ≤ MAX_PARTS }
    {
        self.parts
    }

    /// Returns true if partition `part` is marked.
    pub(crate) fn has(&self, part: u64) -> bool
        ensures { result ≡ is_marked self.now part }
    {
        part < u64::from(self.parts) && self.flags[part as usize]
    }

    /// Returns true if every partition is marked.
    pub(crate) fn has_all(&self) -> bool
        ensures { result ≡ all_marked self.now }
    {
        self.flags[..usize::from(self.parts)]
            .iter()
            .all(|flag| *flag)
    }

    /// Marks partition `part`. Changes nothing if there is no such partition.
    pub(crate) fn add(&mut self, part: u64)
        ensures { self.new ≡ with_mark self.old part }
    {
        if part < u64::from(self.parts) {
            self.flags[part as usize] = true;
        }
    }
}
