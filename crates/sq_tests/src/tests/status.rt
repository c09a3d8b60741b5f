// Trees that threads share: two seats in turn, and four threads at once.
ghost use Rattle.std.specs.Prelude.{◌≡◌, ◌<◌, true, IsTrue, IfOk};
ghost use Rattle.sq_moves.specs.Prelude.{is_node};

use sq_moves::{BeginFault, ClaimFault, CompleteFault, Leaf, NODES, NodeId, SplitFault, Status};
use sq_shared::{LeafClaim, StatusTree, TreeSeat};
use std::alloc::{AllocError, Global};
use std::test::Fail;
use std::thread;
use std::thread::Threads;

fn node(number: u64) -> NodeId
    requires { IsTrue (is_node number) }
    ensures { result ≡ number }
{
    NodeId::new(number).unwrap()
}

fn leaf(number: u64) -> Leaf
    requires { number < 32 }
    ensures { result ≡ number }
{
    Leaf::new(number).unwrap()
}

// Pulls with the nodes that they get, one after another, where leaf 0 alone was claimed.
const CLAIMS: [(u32, Option<u64>); 6] = [
    (2, Some(33)),
    (4, Some(17)),
    (6, Some(9)),
    (8, Some(5)),
    (10, Some(3)),
    (12, None),
];

// Whether the pulls get these nodes.
fn claims_the_rest(tree: &StatusTree, seat: &mut TreeSeat) -> bool
    requires { (seat.old.tree ≡ tree.now) × (seat.old.view.first ≡ true) }
    ensures { (seat.new.tree ≡ tree.now) × (seat.new.view.first ≡ true) }
{
    for (pull, want) in &CLAIMS {
        if tree.claim_any(seat, *pull).map(NodeId::number) != *want {
            return false;
        }
    }
    true
}

// The statuses, with node 9 completed then.
fn claimed_statuses() -> [Status; NODES] {
    let mut statuses = [Status::Free; NODES];
    for index in [0, 1, 3, 7, 15] {
        statuses[index] = Status::Split;
    }
    statuses[31] = Status::Claimed(3);
    statuses[32] = Status::Claimed(2);
    statuses[16] = Status::Claimed(4);
    statuses[8] = Status::Complete(6);
    statuses[4] = Status::Claimed(8);
    statuses[2] = Status::Claimed(10);
    statuses
}

// One seat walks, claims and is refused; a second one begins what the first claimed.
#[test]
fn two_seats_in_turn(rt: HostRuntime) -> Result<(), Fail> {
    let (tree, mut first) = StatusTree::open(rt.alloc())?;
    assert!(rt; tree.claim_leaf(&mut first, leaf(0), 3) == LeafClaim::Claimed(node(32)));
    assert!(rt; claims_the_rest(&tree, &mut first));
    let held = LeafClaim::Held(node(9), Status::Claimed(6));
    assert!(rt; tree.claim_leaf(&mut first, leaf(5), 5) == held);
    assert!(rt; tree.split(&mut first, node(32)) == Err(SplitFault::IsLeaf));
    assert!(rt; tree.begin(&mut first, node(33), 4) == Err(BeginFault::WrongPull));
    let claimed = CompleteFault::NotPartial(Status::Claimed(2));
    assert!(rt; tree.complete(&mut first, node(33), 2) == Err(claimed));

    let mut second = tree.share(&mut first);
    assert!(rt; tree.look(&mut second, node(9)) == Status::Claimed(6));
    let split = ClaimFault::NotFree(Status::Split);
    assert!(rt; tree.claim(&mut second, node(16), 7) == Err(split));
    assert!(rt; tree.begin(&mut second, node(9), 6).is_ok());
    assert!(rt; tree.complete(&mut first, node(9), 6).is_ok());
    tree.join(&mut first, second);
    assert!(rt; tree.close(first) == claimed_statuses());
    Ok(())
}

// Shares out two more seats.
fn share_two(tree: &StatusTree, seat: &mut TreeSeat) -> (TreeSeat, TreeSeat)
    requires { (seat.old.tree ≡ tree.now) × (seat.old.view.first ≡ true) }
    ensures first { (seat.new.tree ≡ tree.now) × (seat.new.view.first ≡ true) }
    ensures shared { (result.0.tree ≡ tree.now) × (result.1.tree ≡ tree.now) }
{
    let one = tree.share(seat);
    (one, tree.share(seat))
}

// Joins two that were shared out.
fn join_two(tree: &StatusTree, seat: &mut TreeSeat, one: TreeSeat, other: TreeSeat)
    requires first { (seat.old.tree ≡ tree.now) × (seat.old.view.first ≡ true) }
    requires shared { (one.tree ≡ tree.now) × (other.tree ≡ tree.now) }
    ensures { (seat.new.tree ≡ tree.now) × (seat.new.view.first ≡ true) }
{
    tree.join(seat, one);
    tree.join(seat, other);
}

// Whether what was won at a node leads to this status, each of its steps once.
fn lead_to(wins: &[(NodeId, Status)], node: NodeId, status: Status) -> bool {
    let count = count_at(wins, node);
    match status {
        Status::Free => count == 0,
        Status::Split | Status::Claimed(_) => count == 1 && wins.contains(&(node, status)),
        Status::Partial(pull) => {
            count == 2
                && wins.contains(&(node, Status::Claimed(pull)))
                && wins.contains(&(node, status))
        }
        Status::Complete(pull) => {
            count == 3
                && wins.contains(&(node, Status::Claimed(pull)))
                && wins.contains(&(node, Status::Partial(pull)))
                && wins.contains(&(node, status))
        }
    }
}

// How many steps were won at a node.
fn count_at(wins: &[(NodeId, Status)], node: NodeId) -> usize {
    let mut count: usize = 0;
    for (at, _) in wins {
        if *at == node {
            count = count.saturating_add(1);
        }
    }
    count
}

// How many nodes were split, and how many were completed.
fn count_last_steps(wins: &[(NodeId, Status)]) -> (usize, usize) {
    let mut splits: usize = 0;
    let mut completes: usize = 0;
    for (_, status) in wins {
        match status {
            Status::Split => splits = splits.saturating_add(1),
            Status::Complete(_) => completes = completes.saturating_add(1),
            _ => {}
        }
    }
    (splits, completes)
}

// One step of one thread: which one, and at which node, follows from the round. Where it is won, the status that it
// gives the node.
fn step(
    tree: &StatusTree,
    seat: &mut TreeSeat,
    round: u64,
    node: NodeId,
    own: u32,
) -> Option<Status>
    requires { seat.old.tree ≡ tree.now }
    ensures { seat.new.tree ≡ tree.now }
{
    let pull = 1 + (round / 16 % 4) as u32;
    let (won, status) = match (5 * (round % 16) + 7 * node.number()) % 16 {
        0 => (tree.split(seat, node).is_ok(), Status::Split),
        1 if node.number() >= 16 => (tree.claim(seat, node, own).is_ok(), Status::Claimed(own)),
        2 => (tree.begin(seat, node, pull).is_ok(), Status::Partial(pull)),
        3 => (
            tree.complete(seat, node, pull).is_ok(),
            Status::Complete(pull),
        ),
        _ => (false, Status::Free),
    };
    won.then_some(status)
}

// All steps of one thread, and what it won.
fn work(
    alloc: Global,
    tree: &StatusTree,
    mut seat: TreeSeat,
    own: u32,
) -> Result<(TreeSeat, Vec<(NodeId, Status)>), AllocError>
    requires { seat.tree ≡ tree.now }
    ensures { IfOk result (λ r. r.0.tree ≡ tree.now) }
{
    let mut wins = Vec::new(alloc);
    for round in 0..256 {
        for node in NodeId::all() {
            if let Some(status) = step(tree, &mut seat, round, node, own) {
                wins.push((node, status))?;
            }
        }
    }
    Ok((seat, wins))
}

// Two threads, and what they won.
fn pair<R: Threads + Sync>(
    rt: &R,
    alloc: Global,
    tree: &StatusTree,
    left: TreeSeat,
    right: TreeSeat,
    own: u32,
) -> Result<(TreeSeat, TreeSeat, Vec<(NodeId, Status)>), AllocError>
    requires { (left.tree ≡ tree.now) × (right.tree ≡ tree.now) × (own < 99) }
    ensures { IfOk result (λ r. (r.0.tree ≡ tree.now) × (r.1.tree ≡ tree.now)) }
{
    let (left, right) = thread::join(
        rt,
        move ||
            requires { left.tree ≡ tree.now }
            ensures { IfOk result (λ r. r.0.tree ≡ tree.entry.now) }
        { work(alloc, tree, left, own) },
        move ||
            requires { (right.tree ≡ tree.now) × (own < 99) }
            ensures { IfOk result (λ r. r.0.tree ≡ tree.entry.now) }
        { work(alloc, tree, right, own + 1) },
    );
    let (left, mut wins) = left?;
    let (right, mut others) = right?;
    wins.append(&mut others)?;
    Ok((left, right, wins))
}

// Four threads: what the tree has in the end, and what the threads won.
fn four<R: Threads + Sync>(
    rt: &R,
    alloc: Global,
) -> Result<([Status; NODES], Vec<(NodeId, Status)>), AllocError> {
    let (tree, mut first) = StatusTree::open(alloc)?;
    let (a, b) = share_two(&tree, &mut first);
    let (c, d) = share_two(&tree, &mut first);
    let shared = &tree;
    let (left, right) = thread::join(
        rt,
        move ||
            requires { (a.tree ≡ shared.now) × (b.tree ≡ shared.now) }
            ensures { IfOk result (λ r. (r.0.tree ≡ shared.entry.now)
                × (r.1.tree ≡ shared.entry.now)) }
        { pair(rt, alloc, shared, a, b, 1) },
        move ||
            requires { (c.tree ≡ shared.now) × (d.tree ≡ shared.now) }
            ensures { IfOk result (λ r. (r.0.tree ≡ shared.entry.now)
                × (r.1.tree ≡ shared.entry.now)) }
        { pair(rt, alloc, shared, c, d, 3) },
    );
    let (a, b, mut wins) = left?;
    let (c, d, mut others) = right?;
    wins.append(&mut others)?;
    join_two(&tree, &mut first, a, b);
    join_two(&tree, &mut first, c, d);
    Ok((tree.close(first), wins))
}

// Four threads split, claim, begin and complete, and the statuses are those that what they won leads to.
#[test]
fn four_threads_agree_with_what_they_won(rt: HostRuntime) -> Result<(), Fail> {
    for _ in 0..20 {
        let (statuses, wins) = four(&rt, rt.alloc())?;
        for node in NodeId::all() {
            let status = statuses[node.index()];
            assert!(rt; lead_to(&wins, node, status), "{node:?} is {status:?}");
        }
        let (splits, completes) = count_last_steps(&wins);
        assert!(rt; splits >= 15 && completes >= 16);
    }
    Ok(())
}

// Claims node after node with a pull, until none is free.
fn claim_until_none(
    alloc: Global,
    tree: &StatusTree,
    mut seat: TreeSeat,
    pull: u32,
) -> Result<(TreeSeat, Vec<NodeId>), AllocError>
    requires { seat.tree ≡ tree.now }
    ensures { IfOk result (λ r. r.0.tree ≡ tree.now) }
{
    let mut claimed = Vec::new(alloc);
    for _ in 0..NODES {
        let Some(node) = tree.claim_any(&mut seat, pull) else {
            break;
        };
        claimed.push(node)?;
    }
    Ok((seat, claimed))
}

// Splits each node above the leaves.
fn split_down_to_leaves(tree: &StatusTree, seat: &mut TreeSeat)
    requires { (seat.old.tree ≡ tree.now) × (seat.old.view.first ≡ true) }
    ensures { (seat.new.tree ≡ tree.now) × (seat.new.view.first ≡ true) }
{
    for node in NodeId::all() {
        if node.number() < 32 {
            drop(tree.split(seat, node));
        }
    }
}

/// What two threads claimed, and what the tree has then.
#[derive(Drop)]
struct Claims {
    by_pull_2: Vec<NodeId>,
    by_pull_3: Vec<NodeId>,
    statuses: [Status; NODES],
}

// Two threads claim the leaves of a tree whose other nodes are split, one with pull 2 and one with pull 3.
fn claim_in_two_threads<R: Threads + Sync>(rt: &R, alloc: Global) -> Result<Claims, AllocError> {
    let (tree, mut first) = StatusTree::open(alloc)?;
    split_down_to_leaves(&tree, &mut first);
    let (one, other) = share_two(&tree, &mut first);
    let shared = &tree;
    let (left, right) = thread::join(
        rt,
        move ||
            requires { one.tree ≡ shared.now }
            ensures { IfOk result (λ r. r.0.tree ≡ shared.entry.now) }
        { claim_until_none(alloc, shared, one, 2) },
        move ||
            requires { other.tree ≡ shared.now }
            ensures { IfOk result (λ r. r.0.tree ≡ shared.entry.now) }
        { claim_until_none(alloc, shared, other, 3) },
    );
    let (one, by_pull_2) = left?;
    let (other, by_pull_3) = right?;
    join_two(&tree, &mut first, one, other);
    Ok(Claims {
        by_pull_2,
        by_pull_3,
        statuses: tree.close(first),
    })
}

// How often a node is among these.
fn times(nodes: &[NodeId], node: NodeId) -> usize {
    nodes.iter().filter(|one| **one == node).count()
}

// Two threads claim until nothing is free: each leaf was claimed by exactly one of them, whose pull its status names.
#[test]
fn two_threads_claim_each_leaf_once(rt: HostRuntime) -> Result<(), Fail> {
    for _ in 0..20 {
        let claims = claim_in_two_threads(&rt, rt.alloc())?;
        for node in NodeId::all() {
            let want = match (
                times(&claims.by_pull_2, node),
                times(&claims.by_pull_3, node),
            ) {
                (0, 0) => Status::Split,
                (1, 0) => Status::Claimed(2),
                (0, 1) => Status::Claimed(3),
                _ => Status::Free,
            };
            let status = claims.statuses[node.index()];
            assert!(rt; status == want, "{node:?} is {status:?}");
            assert!(rt; (status == Status::Split) == (node.number() < 32));
        }
    }
    Ok(())
}
