// The tree and its seats.
ghost use Rattle.std.specs.Prelude.{◌≡◌, ℕ, true, false, List, [], ◌∷◌, map, IfOk};
ghost use Rattle.sq_moves.specs.declared.node.TheConstants.{NODES};
ghost use Rattle.std.specs.Slots.{slots_items, slots_len, IsFull};
ghost use mathlib.Core.Option.{some};
ghost use lib.ListN.{get_elem?};
ghost use Rattle.sq_moves.specs.Prelude.{word_of};
ghost use Rattle.sq_shared.specs.declared.view.View.{View};
ghost use Rattle.sq_shared.specs.View.{fresh, gave, took};
ghost use Rattle.sq_shared.specs.Rule.{IsTreeOf, Kept};

mod calls;
mod walks;

use crate::rule::{Handing, TreeRule};
use crate::view::View;
use atomic_table::{Closed, Seat, Table};
use sq_moves::{NODES, Status};
use std::alloc::{AllocError, Global};
use std::marker::Model;
pub use walks::LeafClaim;

/// The statuses of the 63 nodes of a segment, in words that threads share without a lock. To a
/// contract it is the identity of the tree.
#[derive(Drop)]
pub struct StatusTree {
    table: Table<(), View, (), TreeRule, Global>,
}

impl Model for StatusTree {
    ghost use Rattle.std.specs.Prelude.{◌≡◌};
    ghost use Rattle.atomic_table.specs.Seated.{TableId};
    ghost use Rattle.sq_moves.specs.declared.node.TheConstants.{NODES};

    ghost Value = { TableId };

    ghost view = { λ t. t.table.shared.table_id };

    ghost invariant = { λ t. (t.table.shared.table_id.words ≡ NODES)
        × (t.table.shared.table_id.slots ≡ 0) };
}

/// The right to perform steps on a tree. It takes no bytes. To a contract it is its tree and its
/// view.
#[derive(Drop)]
pub struct TreeSeat {
    seat: Seat<(), View>,
}

impl Model for TreeSeat {
    ghost use Rattle.std.specs.Prelude.{◌≡◌, false, []};
    ghost use Rattle.sq_shared.specs.Seat.{SeatValue};

    ghost Value = { SeatValue };

    ghost view = { λ s. record { tree = s.seat.table_id; view = s.seat.me.0 } };

    ghost invariant = { λ s. (s.seat.me.0.spent ≡ false) × (s.seat.me.1 ≡ []) };
}

impl StatusTree {
    /// Returns a tree whose nodes are all free, and its first seat.
    pub fn open(alloc: Global) -> Result<(StatusTree, TreeSeat), AllocError>
        ensures { IfOk result (λ t. (t.1.tree ≡ t.0) × (t.1.view ≡ fresh true false)) }
    {
        let (table, seat) = Table::of_words(alloc, &[0; NODES], &())?;
        Ok((StatusTree { table }, TreeSeat { seat }))
    }

    /// Shares out one more seat, which has done and seen nothing.
    pub fn share(&self, seat: &mut TreeSeat) -> TreeSeat
        requires tree { seat.old.tree ≡ self.now }
        requires first { seat.old.view.first ≡ true }
        ensures tree { (seat.new.tree ≡ self.now) × (result.tree ≡ self.now) }
        ensures given { seat.new.view ≡ gave seat.old.view }
        ensures fresh { result.view ≡ fresh false false }
    {
        let given = self.table.shared.split_seat::<Handing>(&mut seat.seat);
        TreeSeat { seat: given }
    }

    /// Joins `other`, which was shared out, into `seat`: the first seat then has all that `other`
    /// did and saw.
    pub fn join(&self, seat: &mut TreeSeat, other: TreeSeat)
        requires tree { (seat.old.tree ≡ self.now) × (other.tree ≡ self.now) }
        requires first { seat.old.view.first ≡ true }
        ensures tree { seat.new.tree ≡ self.now }
        ensures taken { seat.new.view ≡ took seat.old.view other.view }
    {
        let TreeSeat { seat: other } = other;
        self.table
            .shared
            .join_seat::<Handing>(&mut seat.seat, other);
    }

    /// Returns the statuses of all nodes, from node 1 on. If each seat that was shared out was
    /// joined again, they are those that the first seat's lists name.
    pub fn close(self, seat: TreeSeat) -> [Status; NODES]
        requires tree { seat.tree ≡ self }
        ensures rule { (id : ℕ) × (views : List View) × IsTreeOf result views
            × (get_elem? views id ≡ some seat.view) }
        ensures all { seat.view.first ≡ true → seat.view.given ≡ seat.view.taken
            → IsTreeOf result (seat.view ∷ []) }
    {
        let StatusTree { table } = self;
        let TreeSeat { seat } = seat;
        let closed = table.close_with(seat);
        let statuses = statuses_of(&closed);
        closed.free();
        statuses
    }
}

// Returns the statuses that the words of a closed table stand for.
fn statuses_of(closed: &Closed<(), Global>) -> [Status; NODES]
    requires full { IsFull closed.now.words × (slots_len closed.now.words ≡ NODES) }
    requires kept { (views : List View) × Kept (slots_items closed.now.words) views }
    ensures { slots_items closed.now.words ≡ map word_of result }
{
    let mut statuses = [Status::Free; NODES];
    for (i, status) in statuses.iter_mut().enumerate() {
        *status = Status::from_word(closed.word(i));
    }
    statuses
}
