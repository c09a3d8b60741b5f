// Nodes with their tellers, which send over rings.
ghost use Rattle.std.specs.Prelude.{◌≡◌, ◌≤◌, [], length, IfOk, IfErr, vec_capacity};
ghost use Rattle.sq_driver.specs.Told.{nodes_of};
ghost use Rattle.sq_engine.specs.Telling.{AreNewRings, tellers_of, are_whole};

use rtrb::{Consumer, RingBuffer};
use sq_driver::{RingTeller, TellingNode};
use sq_node::{Node, Receipt};
use std::alloc::{AllocError, Global};
use std::collections::VecDeque;

// How many answers a ring holds.
const RING_PLACES: usize = 1024;

/// Returns a ring for each partition: a teller that sends over it, and its receiving end.
pub(crate) fn open_rings(
    alloc: Global,
    parts: u8,
) -> Result<(VecDeque<RingTeller>, Vec<Consumer<Receipt>>), AllocError>
    ensures { IfOk result (λ r. AreNewRings parts r.0.items r.1.items) }
{
    let mut tellers = VecDeque::new(alloc);
    let mut rings = Vec::new(alloc);
    for _part in 0..parts {
        let (producer, ring) = RingBuffer::new(alloc, RING_PLACES)?;
        let teller = RingTeller {
            producer,
            broke_off: false,
        };
        tellers.push_back(teller)?;
        rings.push(ring)?;
    }
    Ok((tellers, rings))
}

/// Gives each node its teller. If memory runs out, `nodes` is returned.
pub(crate) fn with_tellers(
    alloc: Global,
    nodes: Vec<Node>,
    mut tellers: VecDeque<RingTeller>,
) -> Result<Vec<TellingNode<RingTeller>>, Vec<Node>>
    requires { length tellers.items ≡ length nodes.items }
    ensures nodes { IfOk result (λ pairs. nodes_of pairs.items ≡ nodes.items) }
    ensures tellers { IfOk result (λ pairs. tellers_of pairs.items ≡ tellers.items) }
    ensures returned { IfErr result (λ back. back ≡ nodes) }
{
    let Ok(mut pairs) = Vec::with_capacity(alloc, nodes.len()) else {
        return Err(nodes);
    };
    for node in nodes {
        let Some(teller) = tellers.pop_front() else {
            unreachable!()
        };
        pairs.push_reserved(TellingNode { node, teller });
    }
    Ok(pairs)
}

/// Returns the nodes without their tellers, in `nodes`, which has room for them.
pub(crate) fn without_tellers(
    pairs: Vec<TellingNode<RingTeller>>,
    mut nodes: Vec<Node>,
) -> Vec<Node>
    requires none { nodes.items ≡ [] }
    requires room { length pairs.items ≤ vec_capacity nodes }
    ensures { result.items ≡ nodes_of pairs.items }
{
    for pair in pairs {
        nodes.push_reserved(pair.node);
    }
    nodes
}

/// Returns true if no teller broke off.
pub(crate) fn are_whole(pairs: &[TellingNode<RingTeller>]) -> bool
    ensures { result ≡ are_whole pairs.now }
{
    pairs.iter().all(|pair| !pair.teller.broke_off)
}
