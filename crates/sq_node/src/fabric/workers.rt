// The nodes and the pumps that a stage of a run opens with, each with its seats and its ends of
// links.
ghost use Rattle.std.specs.Prelude.{◌≡◌, ℕ, ◌+◌, ◌<◌, ◌≤◌, ◌++◌, false, length, map, reverse, replicate, slice_set, None, MatchOption, IfOk, IfErr, OnOk, OnErr, vec_capacity};
ghost use Rattle.sq_shared.specs.Seats.{AreSeatsOf};
ghost use Rattle.sq_shared.specs.declared.numbers.TheConstants.{MAX_PUMPS};
ghost use Rattle.sq_node.specs.Ends.{src_of, dst_of, link_between, end_at};
ghost use Rattle.sq_node.specs.FabricValue.{AreFirst, IsFabric};
ghost use Rattle.sq_node.specs.Opened.{AreNewSeats, GaveEach, GivesOut, HasEnds, LeavesEnds, AreNewEnds, IsFabricOf, IsNewNode, AreNewNodes, IsNewPump, AreNewPumps, running_core};

use super::Fabric;
use crate::ends::{PartEnd, Receiver, Sender};
use crate::node::{Node, SeatsAndEnds};
use sq_exec::PartCore;
use sq_moves::Opening;
use sq_plan::PartId;
use sq_shared::{Pump, SharedLink, Side, StatusTree, TreeSeat};
use sq_store::SlabStore;
use std::alloc::{AllocError, Global};

// The ends of links that were not handed out yet, each at the place of its link.
#[derive(Drop)]
pub(super) struct LooseEnds {
    pub(super) sends: Vec<Sender>,
    pub(super) recvs: Vec<Receiver>,
}

impl Fabric {
    fn share_seats(&mut self, alloc: Global) -> Result<Vec<TreeSeat>, AllocError>
        ensures same { self.new ≡ record self.old { seats = self.new.seats } }
        ensures own { IfOk result (λ own. AreNewSeats self.old.trees own.items) }
        ensures gave { OnOk result (GaveEach self.old.seats self.new.seats) }
        ensures fabric { IsFabric self.old }
    {
        share_all(alloc, &self.trees, &mut self.seats)
    }
}

// Shares each tree with one more worker, and returns this worker's seats.
fn share_all(
    alloc: Global,
    trees: &[StatusTree],
    seats: &mut Vec<TreeSeat>,
) -> Result<Vec<TreeSeat>, AllocError>
    requires of { AreSeatsOf trees.now seats.old.items }
    requires first { AreFirst seats.old.items }
    ensures of { AreSeatsOf trees.now seats.new.items }
    ensures first { AreFirst seats.new.items }
    ensures own { IfOk result (λ own. AreNewSeats trees.now own.items) }
    ensures gave { OnOk result (GaveEach seats.old.items seats.new.items) }
{
    let mut shared = Vec::new(alloc);
    for (at, tree) in trees.iter().enumerate() {
        shared.push(tree.share(&mut seats[at]))?;
    }
    Ok(shared)
}

// Returns a node for each of `stores`, which holds its families. If memory runs out, the families
// stay in `stores`.
pub(super) fn open_nodes(
    alloc: Global,
    opening: &Opening,
    fabric: &mut Fabric,
    ends: &mut LooseEnds,
    stores: &mut Vec<SlabStore>,
) -> Result<Vec<Node>, AllocError>
    requires fabric { IsFabricOf opening.now fabric.old }
    requires stores { length stores.old.items ≤ opening.now.old.parts }
    requires sends { (part : ℕ) → part < length stores.old.items
        → HasEnds src_of fabric.old.links ends.old.sends.items part }
    requires recvs { (part : ℕ) → part < length stores.old.items
        → HasEnds dst_of fabric.old.links ends.old.recvs.items part }
    ensures same { fabric.new ≡ record fabric.old { seats = fabric.new.seats } }
    ensures seats { OnOk result (GivesOut (length stores.old.items) fabric.old fabric.new) }
    ensures nodes { IfOk result
        (λ nodes. AreNewNodes opening.now fabric.new stores.old.items nodes.items) }
    ensures room { IfOk result (λ nodes. opening.now.old.parts ≤ vec_capacity nodes) }
    ensures back { OnErr result (stores.new.items ≡ stores.old.items) }
    ensures capacity { vec_capacity stores.new ≡ vec_capacity stores.old }
{
    let mut nodes = Vec::with_capacity(alloc, usize::from(fabric.parts()))?;
    while let Some(store) = stores.pop() {
        let part = PartId::new(stores.len() as u8);
        match open_node(alloc, opening, fabric, ends, part, store) {
            Ok(node) => nodes.push_reserved(node),
            Err(store) => {
                stores.push_reserved(store);
                give_back(nodes, stores);
                return Err(AllocError);
            }
        }
    }
    nodes.reverse();
    Ok(nodes)
}

// Takes the families back from `nodes`, the last node's first.
fn give_back(mut nodes: Vec<Node>, stores: &mut Vec<SlabStore>)
    requires { length stores.old.items + length nodes.items ≤ vec_capacity stores.old }
    ensures stores { stores.new.items
        ≡ stores.old.items ++ map (λ node. node.core.store) (reverse nodes.items) }
    ensures capacity { vec_capacity stores.new ≡ vec_capacity stores.old }
{
    while let Some(node) = nodes.pop() {
        stores.push_reserved(node.into_parts().core.store);
    }
}

// Returns the node of partition `part`, with the families in `store`. If memory runs out, `store`
// is returned.
fn open_node(
    alloc: Global,
    opening: &Opening,
    fabric: &mut Fabric,
    ends: &mut LooseEnds,
    part: PartId,
    store: SlabStore,
) -> Result<Node, SlabStore>
    requires fabric { IsFabricOf opening.now fabric.old }
    requires part { part < opening.now.old.parts }
    requires sends { HasEnds src_of fabric.old.links ends.old.sends.items part }
    requires recvs { HasEnds dst_of fabric.old.links ends.old.recvs.items part }
    ensures same { fabric.new ≡ record fabric.old { seats = fabric.new.seats } }
    ensures gave { OnOk result (GaveEach fabric.old.seats fabric.new.seats) }
    ensures node { IfOk result (IsNewNode fabric.old
        (running_core opening.now fabric.old.stage part store)) }
    ensures sends { OnOk result (LeavesEnds src_of fabric.old.links ends.old.sends.items part
        ends.new.sends.items) }
    ensures recvs { OnOk result (LeavesEnds dst_of fabric.old.links ends.old.recvs.items part
        ends.new.recvs.items) }
    ensures back { IfErr result (λ back. back ≡ store) }
{
    let Ok(place) = open_place(alloc, fabric, ends, part) else {
        return Err(store);
    };
    let core = PartCore::open_in_stage(alloc, opening, part, fabric.stage(), store)?;
    Ok(Node::open(alloc, core, place))
}

// Returns the seats, the ends of links and the flags of a partition's node.
fn open_place(
    alloc: Global,
    fabric: &mut Fabric,
    ends: &mut LooseEnds,
    part: PartId,
) -> Result<SeatsAndEnds, AllocError>
    requires sends { HasEnds src_of fabric.old.links ends.old.sends.items part }
    requires recvs { HasEnds dst_of fabric.old.links ends.old.recvs.items part }
    ensures same { fabric.new ≡ record fabric.old { seats = fabric.new.seats } }
    ensures gave { OnOk result (GaveEach fabric.old.seats fabric.new.seats) }
    ensures seats { IfOk result (λ place. AreNewSeats fabric.old.trees place.seats.items) }
    ensures sends { IfOk result (λ place.
        AreNewEnds src_of dst_of fabric.old.links fabric.old.parts part place.sends.items) }
    ensures recvs { IfOk result (λ place.
        AreNewEnds dst_of src_of fabric.old.links fabric.old.parts part place.recvs.items) }
    ensures flags { IfOk result (λ place. place.complete.items
        ≡ replicate (length fabric.old.recon.segments) false) }
    ensures left_sends { OnOk result
        (LeavesEnds src_of fabric.old.links ends.old.sends.items part ends.new.sends.items) }
    ensures left_recvs { OnOk result
        (LeavesEnds dst_of fabric.old.links ends.old.recvs.items part ends.new.recvs.items) }
{
    let seats = fabric.share_seats(alloc)?;
    let parts = fabric.parts();
    let sends = take_ends(alloc, parts, fabric.links(), &mut ends.sends, part)?;
    let recvs = take_ends(alloc, parts, fabric.links(), &mut ends.recvs, part)?;
    let complete = vec![in alloc; false; fabric.recon().segments().len()]?;
    Ok(SeatsAndEnds {
        seats,
        sends,
        recvs,
        complete,
    })
}

// Returns `count` pumps.
pub(super) fn open_pumps(
    alloc: Global,
    count: u32,
    fabric: &mut Fabric,
) -> Result<Vec<Pump>, AllocError>
    requires { count ≤ MAX_PUMPS }
    ensures same { fabric.new ≡ record fabric.old { seats = fabric.new.seats } }
    ensures seats { OnOk result (GivesOut count fabric.old fabric.new) }
    ensures pumps { IfOk result (λ pumps. AreNewPumps fabric.new count pumps.items) }
{
    let mut pumps = Vec::new(alloc);
    for number in 0..count {
        pumps.push(open_pump(alloc, fabric, number)?)?;
    }
    Ok(pumps)
}

fn open_pump(alloc: Global, fabric: &mut Fabric, number: u32) -> Result<Pump, AllocError>
    requires { number < MAX_PUMPS }
    ensures same { fabric.new ≡ record fabric.old { seats = fabric.new.seats } }
    ensures gave { OnOk result (GaveEach fabric.old.seats fabric.new.seats) }
    ensures pump { IfOk result (IsNewPump fabric.old number) }
{
    let seats = fabric.share_seats(alloc)?;
    match Pump::new(alloc, &fabric.recon, fabric.stage, number, seats) {
        Ok(pump) => Ok(pump),
        Err(_) => Err(AllocError),
    }
}

// Takes the ends that partition `part` has on this side of links, by the partition on the other
// side.
fn take_ends<S: Side>(
    alloc: Global,
    parts: u8,
    links: &[SharedLink],
    ends: &mut [PartEnd<S>],
    part: PartId,
) -> Result<Vec<PartEnd<S>>, AllocError>
    requires { HasEnds S.near links.now ends.old part }
    ensures ends { IfOk result (λ taken. AreNewEnds S.near S.far links.now parts part taken.items) }
    ensures left { OnOk result (LeavesEnds S.near links.now ends.old part ends.new) }
{
    let mut taken = Vec::new(alloc);
    for number in 0..parts {
        let end = take_end(links, ends, part, PartId::new(number));
        taken.push(end)?;
    }
    Ok(taken)
}

// Takes the end that partition `part` has on this side of the link between it and `other`, if there
// is such a link.
fn take_end<S: Side>(
    links: &[SharedLink],
    ends: &mut [PartEnd<S>],
    part: PartId,
    other: PartId,
) -> PartEnd<S>
    requires { length ends.old ≡ length links.now }
    ensures { MatchOption (link_between S.near S.far links.now part other)
        ((result ≡ None) × (ends.new ≡ ends.old))
        (λ at. (result ≡ end_at ends.old at) × (ends.new ≡ slice_set ends.old at None)) }
{
    match link_between::<S>(links, part, other) {
        Some(at) => ends[at].take(),
        None => PartEnd::new(None),
    }
}

// Returns the place of the link with `part` on this side and `other` on the other side.
fn link_between<S: Side>(links: &[SharedLink], part: PartId, other: PartId) -> Option<usize>
    ensures { result ≡ link_between S.near S.far links.now part other }
{
    links
        .iter()
        .position(|link| S::near(link) == part && S::far(link) == other)
}
