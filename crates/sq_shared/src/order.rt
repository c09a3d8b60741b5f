// The rule of a link's queue, and what its steps show.
use crossbeam_queue::protocol::{Join, Lesson, Outcome, Protocol, Split};
use crossbeam_queue::{Pass, RuledArrayQueue};
use sq_store::Chunk;
use std::collections::LinkedList;

// What a pass knows: which ends of the link it has, what it sent and what it received. No value of
// this type is created.
pub struct EndView {
    pub sends: bool,
    pub receives: bool,
    pub sent: LinkedList<Chunk>,
    pub received: LinkedList<Chunk>,
}

pub type End = Pass<Chunk, EndView>;

pub type LinkQueue = RuledArrayQueue<Chunk, EndView, InOrder>;

// What was sent is what was received, followed by what the queue holds.
pub struct InOrder;

impl Protocol<Chunk, EndView> for InOrder {
    ghost use Rattle.std.specs.Prelude.{true, []};
    ghost use Rattle.sq_shared.specs.Order.{ends, IsInOrder};

    ghost holds = { IsInOrder };

    ghost first = { ends true true [] [] };
}

// The two ends: one pass is split into two, and two are joined into one.
pub struct Ends;

impl Split<EndView> for Ends {
    ghost use Rattle.std.specs.Prelude.{true, false, []};
    ghost use Rattle.sq_shared.specs.Order.{ends};

    ghost left = { λ v. ends true false v.sent [] };

    ghost right = { λ v. ends false true [] v.received };
}

impl Join<EndView> for Ends {
    ghost use Rattle.std.specs.Prelude.{true, false, []};
    ghost use Rattle.sq_shared.specs.Order.{ends};

    ghost both = { λ v w. ends true true v.sent w.received };

    ghost spent = { ends false false [] [] };
}

/// Sending: a push, and what the sender knows of a full queue.
#[derive(Drop)]
pub struct Sends;

impl Outcome<Chunk, EndView> for Sends {
    ghost use Rattle.std.specs.Prelude.{◌≡◌, [], ◌∷◌, ◌++◌};
    ghost use Rattle.sq_shared.specs.Order.{ends};

    ghost then = { λ v chunk w. w ≡ ends v.sends v.receives (v.sent ++ chunk ∷ []) v.received };
}

impl Lesson<Chunk, EndView> for Sends {
    ghost use Rattle.sq_shared.specs.Order.{IsEndOf};

    ghost fact = { λ v. IsEndOf v.sent };
}

/// Receiving: a pop, and what the receiver knows of the queue's contents.
#[derive(Drop)]
pub struct Receives;

impl Outcome<Chunk, EndView> for Receives {
    ghost use Rattle.std.specs.Prelude.{◌≡◌, [], ◌∷◌, ◌++◌};
    ghost use Rattle.sq_shared.specs.Order.{ends};

    ghost then = { λ v chunk w. w ≡ ends v.sends v.receives v.sent (v.received ++ chunk ∷ []) };
}

impl Lesson<Chunk, EndView> for Receives {
    ghost use Rattle.sq_shared.specs.Order.{KnowsRest};

    ghost fact = { KnowsRest };
}
