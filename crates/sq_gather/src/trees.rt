// Closing the trees.
ghost use Rattle.std.specs.Prelude.{◌≡◌, [], ◌∷◌, length, map};
ghost use Rattle.sq_shared.specs.Seats.{AreSeatsOf};
ghost use Rattle.sq_node.specs.Prelude.{AreFirst};
ghost use Rattle.sq_gather.specs.Trees.{AllAreSeatsOf, AwaitOwners, AreJoined, AreWhole, AreTreesOf, AreClosed};

use sq_moves::{NODES, Status};
use sq_shared::{StatusTree, TreeSeat};

/// Closes the trees, after all other seats were joined into those that the trees were opened with.
/// Each of `owners` brings a seat of each tree. The result, in `room`, is the statuses of each
/// tree's nodes.
pub fn close_trees(
    trees: Vec<StatusTree>,
    mut first: Vec<TreeSeat>,
    owners: Vec<Vec<TreeSeat>>,
    room: Vec<[Status; NODES]>,
) -> Vec<[Status; NODES]>
    requires first { AreSeatsOf trees.items first.items }
    requires opened { AreFirst first.items }
    requires owners { AllAreSeatsOf trees.items (map (λ owner. owner.items) owners.items) }
    requires given { AwaitOwners (length owners.items) first.items }
    requires room { length room.items ≡ length trees.items }
    ensures { AreClosed first.items (map (λ owner. owner.items) owners.items) result.items }
{
    join_owners(&trees, &mut first, owners);
    close_each(trees, first, room)
}

fn join_owners(trees: &[StatusTree], first: &mut Vec<TreeSeat>, owners: Vec<Vec<TreeSeat>>)
    requires first { AreSeatsOf trees.now first.old.items }
    requires opened { AreFirst first.old.items }
    requires owners { AllAreSeatsOf trees.now (map (λ owner. owner.items) owners.items) }
    ensures first { AreSeatsOf trees.now first.new.items }
    ensures opened { AreFirst first.new.items }
    ensures joined { AreJoined first.old.items
        (map (λ owner. owner.items) owners.items) first.new.items }
{
    for seats in owners {
        join_seats(trees, first, seats);
    }
}

fn join_seats(trees: &[StatusTree], first: &mut Vec<TreeSeat>, mut seats: Vec<TreeSeat>)
    requires first { AreSeatsOf trees.now first.old.items }
    requires opened { AreFirst first.old.items }
    requires seats { AreSeatsOf trees.now seats.items }
    ensures first { AreSeatsOf trees.now first.new.items }
    ensures opened { AreFirst first.new.items }
    ensures joined { AreJoined first.old.items (seats.items ∷ []) first.new.items }
{
    while let Some(seat) = seats.pop() {
        let at = seats.len();
        trees[at].join(&mut first[at], seat);
    }
}

// Closes each tree with the one seat that is left of it.
fn close_each(
    mut trees: Vec<StatusTree>,
    mut seats: Vec<TreeSeat>,
    mut room: Vec<[Status; NODES]>,
) -> Vec<[Status; NODES]>
    requires seats { AreSeatsOf trees.items seats.items }
    requires first { AreFirst seats.items }
    requires whole { AreWhole seats.items }
    requires room { length room.items ≡ length trees.items }
    ensures { AreTreesOf seats.items result.items }
{
    while let Some(tree) = trees.pop() {
        let Some(seat) = seats.pop() else {
            unreachable!()
        };
        let at = trees.len();
        room[at] = tree.close(seat);
    }
    room
}
