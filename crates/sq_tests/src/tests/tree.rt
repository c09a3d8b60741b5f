// A split tree in one thread: which node covers a leaf, and what nodes read as while their pulls go on.
ghost use Rattle.std.specs.Prelude.{◌≡◌, ◌<◌, IsTrue};
ghost use Rattle.sq_moves.specs.Prelude.{is_node};

use sq_moves::{Leaf, NodeId, PlainTree, Reading};
use std::test::Fail;

fn node(number: u64) -> NodeId
    requires { IsTrue (is_node number) }
    ensures { result ≡ number }
{
    NodeId::new(number).unwrap()
}

fn leaf(number: u64) -> Leaf
    requires { number < 32 }
    ensures { result ≡ number }
{
    Leaf::new(number).unwrap()
}

// A tree whose whole segment and lower half are split.
fn split_tree() -> Result<PlainTree, Fail> {
    let mut tree = PlainTree::new();
    tree.split(NodeId::WHOLE)
        .ok()
        .ok_or("the whole segment isn't split")?;
    tree.split(node(2))
        .ok()
        .ok_or("the lower half isn't split")?;
    Ok(tree)
}

// A pull of a node, from its claim to its end.
fn pull_whole(tree: &mut PlainTree, node: NodeId, pull: u32) -> Result<(), Fail> {
    tree.claim(node, pull).ok().ok_or("not claimed")?;
    tree.begin(node, pull).ok().ok_or("not begun")?;
    tree.complete(node, pull).ok().ok_or("not completed")?;
    Ok(())
}

// What nodes 1, 2, 3 and 4 read as.
fn readings(tree: &PlainTree) -> [Reading; 4] {
    [1, 2, 3, 4].map(|number: u64| tree.reads(NodeId::new(number).unwrap_or(NodeId::WHOLE)))
}

#[test]
fn leaves_are_covered_by_the_nodes_that_are_split_last(rt: HostRuntime) -> Result<(), Fail> {
    let tree = split_tree()?;
    assert!(rt; tree.covering(leaf(0)) == node(4));
    assert!(rt; tree.covering(leaf(8)) == node(5));
    assert!(rt; tree.covering(leaf(31)) == node(3));
    Ok(())
}

#[test]
fn nodes_read_as_what_is_below_them(rt: HostRuntime) -> Result<(), Fail> {
    let mut tree = split_tree()?;
    assert!(rt; readings(&tree) == [Reading::NotStarted; 4]);
    tree.claim(node(4), 2).ok().ok_or("not claimed")?;
    tree.begin(node(4), 2).ok().ok_or("not begun")?;
    let begun = [
        Reading::Partial,
        Reading::Partial,
        Reading::NotStarted,
        Reading::Partial,
    ];
    assert!(rt; readings(&tree) == begun);
    tree.complete(node(4), 2).ok().ok_or("not completed")?;
    pull_whole(&mut tree, node(5), 4)?;
    let half = [
        Reading::Partial,
        Reading::Complete,
        Reading::NotStarted,
        Reading::Complete,
    ];
    assert!(rt; readings(&tree) == half);
    assert!(rt; !tree.all_complete());
    pull_whole(&mut tree, node(3), 6)?;
    assert!(rt; readings(&tree) == [Reading::Complete; 4]);
    assert!(rt; tree.all_complete());
    Ok(())
}
