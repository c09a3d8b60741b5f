// The leaves of a segment that its source gave up.
ghost use Rattle.std.specs.Prelude.{◌≡◌};
ghost use Rattle.sq_exec.specs.GivenUp.{none_given_up, is_given_up, given_up_with};

use sq_moves::{LEAVES, Leaf, NodeId};
use std::marker::Model;

/// The leaves of a segment that its source gave up: those of each node that was begun. To a
/// contract it is a list with an entry for each leaf.
#[derive(Debug, Drop)]
pub(crate) struct GivenUp {
    leaves: [bool; 32],
}

impl Model for GivenUp {
    ghost use Rattle.std.specs.Prelude.{List, Bool};

    ghost Value = { List Bool };

    ghost view = { λ g. g.leaves };
}

impl GivenUp {
    /// Creates a set without leaves.
    pub(crate) fn new() -> GivenUp
        ensures { result ≡ none_given_up }
    {
        GivenUp {
            leaves: [false; 32],
        }
    }

    /// Returns true if `leaf` was given up.
    pub(crate) fn has(&self, leaf: Leaf) -> bool
        ensures { result ≡ is_given_up self.now leaf }
    {
        self.leaves[leaf.number() as usize]
    }

    /// Gives up the leaves of `node`.
    pub(crate) fn add(&mut self, node: NodeId)
        ensures { self.new ≡ given_up_with self.old node }
    {
        let first = node.first_leaf().number();
        for leaf in first..first + node.span() {
            self.leaves[leaf as usize] = true;
        }
    }
}
