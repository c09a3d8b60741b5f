// The entries of the index by root key.
use std::cmp::Ordering;
use std::marker::Model;

/// An arrival number under its root key. To a contract it is the pair of both.
#[derive(Clone, Copy, Debug, PartialEq, Eq, PartialOrd)]
pub(crate) struct IndexEntry {
    pub root: u64,
    pub number: u64,
}

impl Model for IndexEntry {
    ghost use Rattle.std.specs.Prelude.{ℕ};

    ghost Value = { ℕ × ℕ };

    ghost view = { λ e. (e.root, e.number) };

    ghost inverse = { λ pair. record { root = pair.0; number = pair.1 } };
}

impl Ord for IndexEntry {
    ghost use Rattle.std.specs.Cmp.Rules.{comparing};
    ghost use Rattle.std.proofs.Common.{rules};
    ghost use Rattle.sq_exec.specs.Index.{entry_cmp};

    ghost cmp = { entry_cmp };

    ghost total = { Prim.search (comparing, rules) };

    ghost matches_partial_cmp = { Prim.search (comparing, rules) };

    ghost matches_eq = { Prim.search (comparing, rules) };

    // Tests first whether this entry is greater, as it is at most entries of a search; a derived
    // comparison compiles to more tests.
    fn cmp(&self, other: &IndexEntry) -> Ordering {
        if self.root > other.root || self.root == other.root && self.number > other.number {
            Ordering::Greater
        } else if self == other {
            Ordering::Equal
        } else {
            Ordering::Less
        }
    }
}
