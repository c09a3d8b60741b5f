// The statuses of the trees: whether each tree grew from a free one, and whether the last note of
// each complete node is loaded.
ghost use Rattle.std.specs.Prelude.{◌≡◌, ℕ, ◌||◌, IfOk, OnOk};
ghost use Rattle.std.specs.List.{flat_map};
ghost use Rattle.std.specs.Bool.{Decides};
ghost use Rattle.std.specs.BTreeSet.{contains};
ghost use Rattle.sq_gather.specs.Prelude.{is_live, status_at, IsGrown, has_last, loads_of, AllGrown};
ghost use Rattle.sq_audit.specs.Counts.{key_order};
ghost use Rattle.sq_audit.specs.Statuses.{IsGrownAt, CompleteAreLoaded, AreEnded, IsEnded};

use crate::spans::loads;
use sq_gather::{ClosedLink, Gathered, NODES, NodeId, Note, Status};
use std::alloc::{AllocError, Global};
use std::collections::BTreeSet;

/// Returns true if each tree grew from a free one.
pub(crate) fn have_grown(statuses: &[[Status; NODES]]) -> bool
    ensures { Decides result (AllGrown statuses.now) }
{
    for tree in statuses {
        if !has_grown(tree) {
            return false;
        }
    }
    true
}

// Returns true if `tree` grew from a free one.
fn has_grown(tree: &[Status; NODES]) -> bool
    ensures { Decides result (IsGrown (status_at tree.now)) }
{
    for node in NodeId::all() {
        if !has_grown_at(tree, node) {
            return false;
        }
    }
    true
}

// Returns true if `node` has a status that it may have in a tree that grew.
fn has_grown_at(tree: &[Status; NODES], node: NodeId) -> bool
    ensures { Decides result (IsGrownAt (status_at tree.now) node) }
{
    match tree[node.index()] {
        Status::Free => true,
        Status::Split => is_live(tree, node) && !node.is_leaf(),
        Status::Claimed(_) | Status::Partial(_) | Status::Complete(_) => is_live(tree, node),
    }
}

// Returns true if `node` is the whole segment or a half of a split node.
fn is_live(tree: &[Status; NODES], node: NodeId) -> bool
    ensures { result ≡ is_live (status_at tree.now) node }
{
    node == NodeId::WHOLE || tree[node.parent().index()].is_split()
}

/// Returns true if the last note of each complete node is loaded.
pub(crate) fn are_complete(alloc: Global, g: &Gathered) -> Result<bool, AllocError>
    ensures { IfOk result (λ complete. Decides complete (CompleteAreLoaded g.now)) }
{
    let ended = ended(alloc, &g.links)?;
    for (seg, tree) in g.statuses.iter().enumerate() {
        if !are_ended(&ended, seg as u64, tree) {
            return Ok(false);
        }
    }
    Ok(true)
}

// Returns true if each complete node in the tree of segment `seg` is in `ended`.
fn are_ended(ended: &BTreeSet<(u64, u64)>, seg: u64, tree: &[Status; NODES]) -> bool
    ensures { Decides result (AreEnded ended.now seg (status_at tree.now)) }
{
    for node in NodeId::all() {
        if !is_ended(ended, seg, node, tree[node.index()]) {
            return false;
        }
    }
    true
}

// Returns true if the node is in `ended` or its status is not complete.
fn is_ended(ended: &BTreeSet<(u64, u64)>, seg: u64, node: NodeId, status: Status) -> bool
    ensures { Decides result (IsEnded ended.now seg node status) }
{
    match status {
        Status::Complete(_) => ended.contains(&(seg, node.number())),
        _ => true,
    }
}

// Returns the nodes, by segment and number, whose last notes are loaded.
fn ended(alloc: Global, links: &[ClosedLink]) -> Result<BTreeSet<(u64, u64)>, AllocError>
    ensures { IfOk result (λ ended. (seg node : ℕ)
        → contains key_order ended (seg, node) ≡ has_last seg node (flat_map loads_of links.now)) }
{
    let mut ended = BTreeSet::new(alloc);
    for link in links {
        add_ended(&mut ended, loads(link))?;
    }
    Ok(ended)
}

// Adds the nodes whose last note is among `notes`.
fn add_ended(ended: &mut BTreeSet<(u64, u64)>, notes: &[Note]) -> Result<(), AllocError>
    ensures { OnOk result ((seg node : ℕ) → contains key_order ended.new (seg, node)
        ≡ (contains key_order ended.old (seg, node) || has_last seg node notes.now)) }
{
    for note in notes {
        if note.last {
            ended.insert((note.seg.number(), note.node.number()))?;
        }
    }
    Ok(())
}
