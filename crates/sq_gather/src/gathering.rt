// Gathering a run, node by node.
ghost use Rattle.std.specs.Prelude.{◌≡◌, ℕ, ◌+◌, ◌<◌, ◌≤◌, ◌∷◌, [], ◌++◌, length, map, slice_get, Some, IfOk, OnOk};
ghost use Rattle.sq_moves.specs.Prelude.{IsRecon};
ghost use Rattle.sq_node.specs.Prelude.{NodeState};
ghost use Rattle.sq_gather.specs.Links.{AreClosed as AreClosedLinks};
ghost use Rattle.sq_gather.specs.Trees.{AreClosed as AreClosedTrees};
ghost use Rattle.sq_gather.specs.GatheringValue.{IsAddable, HasRoomFor, AreReserved, IsReserved, AddsNode, AddsNodes, IsClosable};
ghost use Rattle.sq_gather.specs.Left.{BeginWithWaiting};

use crate::ends::{put_destinations, put_sources};
use crate::gathered::Gathered;
use crate::left::{fill, reserve_left};
use crate::link_ends::LinkEnds;
use crate::links::{ClosedLink, close_links};
use crate::trees::close_trees;
use crossbeam_queue::ArrayQueue;
use sq_exec::{CoreParts, Waiting};
use sq_history::History;
use sq_moves::{NODES, Status};
use sq_node::{Fabric, Node, NodeParts, Post, Receipt};
use sq_schema::Txn;
use sq_shared::{Pump, SharedLink, StatusTree, TreeSeat};
use sq_store::SlabStore;
use std::alloc::{AllocError, Global};
use std::collections::VecDeque;
use std::marker::Model;
use std::sync::Wait;

// What is gathered so far, with room for the rest. To a contract it is a `GatheringValue`.
#[derive(Drop)]
pub(crate) struct Gathering {
    stores: Vec<SlabStore>,
    waiting: Vec<Waiting>,
    posts: Vec<VecDeque<Post>>,
    receipts: History<Receipt>,
    owners: Vec<Vec<TreeSeat>>,
    ends: Vec<LinkEnds>,
    links: Vec<ClosedLink>,
    statuses: Vec<[Status; NODES]>,
    left: Vec<Vec<Txn>>,
}

impl Model for Gathering {
    ghost use Rattle.std.specs.Prelude.{◌≡◌, map, length, vec_len, vec_capacity};
    ghost use Rattle.std.specs.Coded.{codes};
    ghost use Rattle.sq_store.specs.Prelude.{store_coded};
    ghost use Rattle.sq_exec.specs.Waiting.{txns_of};
    ghost use Rattle.sq_gather.specs.GatheringValue.{GatheringValue};
    ghost use Rattle.sq_gather.specs.Left.{AreRooms};

    ghost Value = { GatheringValue };

    ghost coded = { Prim.hlevel (codes, store_coded) };

    ghost view = { λ g. record {
      stores = g.stores.items;
      waiting = map (λ one. txns_of one.arrivals) g.waiting.items;
      posts = length g.posts.items;
      receipts = g.receipts.items;
      owners = map (λ owner. owner.items) g.owners.items;
      ends = g.ends.items;
      left = length g.left.items;
      room = record {
        stores = vec_capacity g.stores;
        waiting = vec_capacity g.waiting;
        posts = vec_capacity g.posts;
        owners = vec_capacity g.owners;
        links = vec_capacity g.links;
        trees = length g.statuses.items;
      };
    } };

    ghost invariant = { λ g. (vec_len g.links ≡ 0)
        × AreRooms (length g.left.items)
        (map (λ jobs. (jobs.items, vec_capacity jobs)) g.left.items) };
}

impl Gathering {
    // Reserves room for all that `nodes` and `pumps` pumps left.
    pub(crate) fn reserve(
        alloc: Global,
        fabric: &Fabric,
        nodes: &[Node],
        pumps: usize,
    ) -> Result<Gathering, AllocError>
        ensures reserved { IfOk result (IsReserved [] fabric.now nodes.now pumps) }
        ensures recon { OnOk result (IsRecon fabric.now.recon) }
    {
        let owners = nodes.len().checked_add(pumps).ok_or(AllocError)?;
        let trees = fabric.recon().segments().len();
        Ok(Gathering {
            stores: Vec::with_capacity(alloc, nodes.len())?,
            waiting: Vec::with_capacity(alloc, nodes.len())?,
            posts: Vec::with_capacity(alloc, nodes.len())?,
            receipts: History::new(),
            owners: Vec::with_capacity(alloc, owners)?,
            ends: reserve_ends(alloc, fabric.links())?,
            links: Vec::with_capacity(alloc, fabric.links().len())?,
            statuses: vec![in alloc; [Status::Free; NODES]; trees]?,
            left: reserve_left(alloc, fabric.parts(), nodes)?,
        })
    }

    // Adds the receipts of earlier stages.
    pub(crate) fn add_receipts(&mut self, receipts: &History<Receipt>)
        ensures { self.new ≡ record self.old {
          receipts = self.old.receipts
              ++ receipts.now.items;
        } }
    {
        self.receipts = self.receipts.before(receipts);
    }

    // Adds what the nodes left.
    pub(crate) fn add_nodes(&mut self, nodes: Vec<Node>)
        requires ends { (part : ℕ) (node : NodeState) → slice_get nodes.items part ≡ Some node
            → IsAddable (length self.old.ends) node }
        requires room { HasRoomFor self.old nodes.items }
        ensures { AddsNodes self.old nodes.items self.new }
    {
        for node in nodes {
            self.add_node(node);
        }
    }

    fn add_node(&mut self, node: Node)
        requires stores { length self.old.stores < self.old.room.stores }
        requires waiting { length self.old.waiting < self.old.room.waiting }
        requires posts { self.old.posts < self.old.room.posts }
        requires owners { length self.old.owners < self.old.room.owners }
        requires ends { IsAddable (length self.old.ends) node }
        ensures { AddsNode self.old node self.new }
    {
        let NodeParts {
            core,
            seats,
            sends,
            recvs,
            receipts,
            posts,
            ..
        } = node.into_parts();
        let CoreParts {
            store,
            waiting,
            inboxes,
            outs,
        } = core;
        self.stores.push_reserved(store);
        self.waiting.push_reserved(waiting);
        self.posts.push_reserved(posts);
        self.receipts = self.receipts.before(&receipts);
        self.owners.push_reserved(seats);
        put_sources(&mut self.ends, sends, outs);
        put_destinations(&mut self.ends, recvs, inboxes);
    }

    // Adds the seats of the pumps.
    pub(crate) fn add_pumps(&mut self, pumps: Vec<Pump>)
        requires { length self.old.owners + length pumps.items ≤ self.old.room.owners }
        ensures { self.new ≡ record self.old {
          owners = self.old.owners ++ map
              (λ pump. pump.seats) pumps.items;
        } }
    {
        for pump in pumps {
            self.add_pump(pump);
        }
    }

    // Adds the seats of a pump.
    fn add_pump(&mut self, pump: Pump)
        requires { length self.old.owners < self.old.room.owners }
        ensures { self.new ≡ record self.old { owners = self.old.owners ++ pump.seats ∷ [] } }
    {
        let (seats, _) = pump.into_parts();
        self.owners.push_reserved(seats);
    }

    // Closes the trees and the links, and adds the unanswered jobs.
    pub(crate) fn close<R: Wait>(
        self,
        rt: &R,
        stage: u64,
        trees: Vec<StatusTree>,
        first: Vec<TreeSeat>,
        links: Vec<SharedLink>,
        jobs: Vec<ArrayQueue<Box<Txn>>>,
    ) -> Gathered
        requires { IsClosable trees.items first.items links.items self }
        ensures stage { result.stage ≡ stage }
        ensures stores { result.stores ≡ self.stores }
        ensures receipts { result.receipts ≡ self.receipts }
        ensures links { AreClosedLinks links.items self.ends result.links }
        ensures statuses { AreClosedTrees first.items self.owners result.statuses }
        ensures left { length result.left ≡ self.left }
        ensures waiting { BeginWithWaiting self.waiting result.left }
    {
        let left = fill(rt, self.left, self.waiting, self.posts, jobs);
        Gathered {
            stage,
            stores: self.stores,
            receipts: self.receipts,
            links: close_links(rt, links, self.ends, self.links),
            statuses: close_trees(trees, first, self.owners, self.statuses),
            left,
        }
    }
}

// Reserves room for what is under way on each link.
fn reserve_ends(alloc: Global, links: &[SharedLink]) -> Result<Vec<LinkEnds>, AllocError>
    ensures { IfOk result (λ ends. AreReserved links.now ends.items) }
{
    let mut ends = Vec::new(alloc);
    for link in links {
        ends.push(LinkEnds::reserve(alloc, link)?)?;
    }
    Ok(ends)
}
