// The rule of a tree's words, and what its steps show. These types are for the proofs alone.
use crate::view::View;
use atomic_table::{Join, Play, Split, TableRule};

/// What holds of a tree between any two steps.
pub struct TreeRule;

impl TableRule<(), View, ()> for TreeRule {
    ghost use Rattle.std.specs.Prelude.{true, false};
    ghost use Rattle.sq_shared.specs.View.{fresh};
    ghost use Rattle.sq_shared.specs.Rule.{Kept};

    ghost holds = { λ _ s. Kept s.words s.views };

    ghost first = { λ _. fresh true false };
}

/// A load of a node's word.
pub struct Look;

impl Play<(), View> for Look {
    ghost use Rattle.sq_shared.specs.Plays.{Looked};

    ghost then = { Looked };
}

/// An exchange of a node's word.
pub struct Advance;

impl Play<(), View> for Advance {
    ghost use Rattle.sq_shared.specs.Plays.{Advanced};

    ghost then = { Advanced };
}

/// The first seat shares out a seat, or a seat is joined into it.
pub struct Handing;

impl Split<View> for Handing {
    ghost use Rattle.std.specs.Prelude.{false};
    ghost use Rattle.sq_shared.specs.View.{fresh, gave};

    ghost left = { gave };

    ghost right = { λ _. fresh false false };
}

impl Join<View> for Handing {
    ghost use Rattle.std.specs.Prelude.{true, false};
    ghost use Rattle.sq_shared.specs.View.{fresh, took};

    ghost both = { took };

    ghost spent = { fresh false true };
}
