// Opening a run, and a stage of it.
ghost use Rattle.std.specs.Prelude.{◌≡◌, ◌↔◌, ◌+◌, ◌<◌, ◌==◌, ◌≤◌, [], length, map, filter, Ok, IfOk, IfErr, OnOk, IsTrue};
ghost use Rattle.sq_moves.specs.Prelude.{IsSetUp, stage_on, stages};
ghost use Rattle.sq_exec.specs.Prelude.{IsOpenStore};
ghost use Rattle.sq_shared.specs.declared.numbers.TheConstants.{MAX_PUMPS};
ghost use Rattle.sq_node.specs.FabricValue.{IsFabric, ends_of};
ghost use Rattle.sq_node.specs.Opened.{AreFirstSeats, HaveCapacity, HasAllEnds, IsFabricOf, IsReopened, IsOpened, opened_stores, HaveOwned};

use super::workers::{LooseEnds, open_nodes, open_pumps};
use super::{Fabric, JOB_PLACES, REQUEST_PLACES};
use crate::ends::{LinkEnd, PartEnd};
use crate::run_parts::RunParts;
use crossbeam_queue::ArrayQueue;
use sq_exec::open_store;
use sq_history::History;
use sq_moves::{Link, Opening, Recon};
use sq_plan::PartId;
use sq_shared::{SharedLink, StatusTree, TreeSeat};
use sq_store::SlabStore;
use std::alloc::{AllocError, Global};
use std::sync::atomic::AtomicU64;
use std::thread;
use std::thread::Threads;

// The stage that a run opens with.
const FIRST_STAGE: u64 = 0;

// Fewer root keys than this are opened in one thread, which takes less time than starting others.
const FEW_ROOTS: usize = 16_384;

impl Fabric {
    /// Returns what a run shares, its nodes, and `pumps` pumps, in the first stage. The move has
    /// started.
    pub fn open(alloc: Global, opening: &Opening, pumps: u32) -> Result<RunParts, AllocError>
        requires { pumps ≤ MAX_PUMPS }
        ensures opened { IfOk result
            (λ run. IsOpened opening.now pumps run.fabric run.nodes.items run.pumps.items) }
        ensures set_up { OnOk result (IsSetUp opening.now) }
        ensures fabric { IfOk result (λ run. IsFabric run.fabric) }
    {
        let stores = open_stores(alloc, opening)?;
        open_with(alloc, opening, stores, pumps)
    }

    /// Does the same as [`Fabric::open`]. If there are many root keys, the families of each
    /// partition are created in a thread of its own, if the system grants one.
    pub fn open_in_threads<R: Threads + Sync>(
        rt: &R,
        alloc: Global,
        opening: &Opening,
        pumps: u32,
    ) -> Result<RunParts, AllocError>
        requires { pumps ≤ MAX_PUMPS }
        ensures opened { IfOk result
            (λ run. IsOpened opening.now pumps run.fabric run.nodes.items run.pumps.items) }
        ensures set_up { OnOk result (IsSetUp opening.now) }
        ensures fabric { IfOk result (λ run. IsFabric run.fabric) }
    {
        let stores = open_stores_in_threads(rt, alloc, opening)?;
        open_with(alloc, opening, stores, pumps)
    }
}

// Returns the families of each partition before the move.
fn open_stores(alloc: Global, opening: &Opening) -> Result<Vec<SlabStore>, AllocError>
    ensures stores { IfOk result (λ stores. stores.items ≡ opened_stores opening.now) }
    ensures owned { OnOk result (HaveOwned opening.now) }
{
    let mut stores = Vec::new(alloc);
    for number in 0..opening.old_plan().parts() {
        let store = open_store(alloc, opening, PartId::new(number))?;
        stores.push(store)?;
    }
    Ok(stores)
}

// Does the same; if there are many root keys, each partition in a thread of its own, if the system
// grants one.
fn open_stores_in_threads<R: Threads + Sync>(
    rt: &R,
    alloc: Global,
    opening: &Opening,
) -> Result<Vec<SlabStore>, AllocError>
    ensures stores { IfOk result (λ stores. stores.items ≡ opened_stores opening.now) }
    ensures owned { OnOk result (HaveOwned opening.now) }
{
    if opening.table().len() < FEW_ROOTS {
        return open_stores(alloc, opening);
    }
    let parts = usize::from(opening.old_plan().parts());
    let opened = thread::map_indices(
        rt,
        alloc,
        parts,
        &|part: usize| -> Result<SlabStore, AllocError>
            requires { part < 256 }
            ensures { IfOk result (IsOpenStore opening.entry.now part) }
        { open_store(alloc, opening, PartId::new(part as u8)) },
    )?;
    let stores = all_opened(alloc, opened)?;
    Ok(stores)
}

// Returns the stores, if each was opened.
fn all_opened(
    alloc: Global,
    opened: Vec<Result<SlabStore, AllocError>>,
) -> Result<Vec<SlabStore>, AllocError>
    ensures { IfOk result (λ stores. map Ok stores.items ≡ opened.items) }
{
    let mut stores = Vec::with_capacity(alloc, opened.len())?;
    for one in opened {
        stores.push(one?)?;
    }
    Ok(stores)
}

// Returns what a run shares in the first stage, the nodes of partitions with the families in
// `stores`, and `pumps` pumps.
fn open_with(
    alloc: Global,
    opening: &Opening,
    stores: Vec<SlabStore>,
    pumps: u32,
) -> Result<RunParts, AllocError>
    requires stores { stores.items ≡ opened_stores opening.now }
    requires owned { HaveOwned opening.now }
    requires pumps { pumps ≤ MAX_PUMPS }
    ensures opened { IfOk result
        (λ run. IsOpened opening.now pumps run.fabric run.nodes.items run.pumps.items) }
    ensures set_up { OnOk result (IsSetUp opening.now) }
    ensures fabric { IfOk result (λ run. IsFabric run.fabric) }
{
    match open_run(alloc, opening, FIRST_STAGE, stores, pumps) {
        Ok(opened) => Ok(opened),
        Err(_) => Err(AllocError),
    }
}

// Returns what a stage of a run shares, the nodes of partitions with the families in `stores`, and
// `pumps` pumps. If memory runs out, `stores` is returned.
pub(super) fn open_run(
    alloc: Global,
    opening: &Opening,
    stage: u64,
    mut stores: Vec<SlabStore>,
    pumps: u32,
) -> Result<RunParts, Vec<SlabStore>>
    requires stores { length stores.items ≡ opening.now.old.parts }
    requires pumps { pumps ≤ MAX_PUMPS }
    ensures run { IfOk result (λ run. IsReopened opening.now stage stores.items [] pumps
        run.fabric run.nodes.items run.pumps.items) }
    ensures set_up { OnOk result (IsSetUp opening.now) }
    ensures fabric { IfOk result (λ run. IsFabric run.fabric) }
    ensures back { IfErr result (λ back. back.items ≡ stores.items) }
{
    let Ok((mut fabric, mut ends)) = open_fabric(alloc, opening, stage) else {
        return Err(stores);
    };
    let Ok(pumps) = open_pumps(alloc, pumps, &mut fabric) else {
        return Err(stores);
    };
    match open_nodes(alloc, opening, &mut fabric, &mut ends, &mut stores) {
        Ok(nodes) => Ok(RunParts {
            fabric,
            nodes,
            pumps,
        }),
        Err(_) => Err(stores),
    }
}

// Returns what a stage of a run shares, with the ends of its links.
fn open_fabric(
    alloc: Global,
    opening: &Opening,
    stage: u64,
) -> Result<(Fabric, LooseEnds), AllocError>
    ensures fabric { IfOk result (λ opened. IsFabric opened.0) }
    ensures of { IfOk result (λ opened. IsFabricOf opening.now opened.0) }
    ensures set_up { OnOk result (IsSetUp opening.now) }
    ensures stage { IfOk result (λ opened. opened.0.stage ≡ stage) }
    ensures receipts { IfOk result (λ opened. opened.0.receipts ≡ []) }
    ensures seats { IfOk result (λ opened. AreFirstSeats 0 opened.0.trees opened.0.seats) }
    ensures sends { IfOk result (λ opened. HasAllEnds opened.0.links opened.1.sends.items) }
    ensures recvs { IfOk result (λ opened. HasAllEnds opened.0.links opened.1.recvs.items) }
{
    let parts = opening.old_plan().parts();
    let recon = opening.recon();
    let (trees, seats) = open_trees(alloc, recon.segments().len())?;
    let between = stage_links(alloc, recon, stage, recon.links())?;
    let (links, ends) = open_links(alloc, between.as_slice(), opening.config().capacity)?;
    let fabric = Fabric {
        recon: recon.clone()?,
        stage,
        is_last_stage: is_last(recon, stage),
        parts,
        trees,
        seats,
        links,
        receipts: History::new(),
        requests: queues(alloc, parts, REQUEST_PLACES)?,
        jobs: queues(alloc, parts, JOB_PLACES)?,
        posted: AtomicU64::new(0),
        answered: AtomicU64::new(0),
    };
    Ok((fabric, ends))
}

// Returns true if `stage` is the last one of a move.
fn is_last(recon: &Recon, stage: u64) -> bool
    ensures { IsTrue result ↔ (stages recon.now ≤ stage + 1) }
{
    stage >= recon.stages() - 1
}

// Returns `count` trees, whose nodes are all free, with their first seats.
fn open_trees(alloc: Global, count: usize) -> Result<(Vec<StatusTree>, Vec<TreeSeat>), AllocError>
    ensures count { IfOk result (λ opened. length opened.0.items ≡ count) }
    ensures seats { IfOk result (λ opened. AreFirstSeats 0 opened.0.items opened.1.items) }
{
    let mut trees = Vec::new(alloc);
    let mut seats = Vec::new(alloc);
    for _opened in 0..count {
        let (tree, seat) = StatusTree::open(alloc)?;
        trees.push(tree)?;
        seats.push(seat)?;
    }
    Ok((trees, seats))
}

// Returns those of `links` along which keys move in `stage`.
fn stage_links(
    alloc: Global,
    recon: &Recon,
    stage: u64,
    links: &[Link],
) -> Result<Vec<Link>, AllocError>
    ensures { IfOk result (λ kept. kept.items
        ≡ filter (λ link. stage_on recon.now link.src link.dst == stage) links.now) }
{
    links
        .iter()
        .copied()
        .filter(|link| recon.stage_on(link.src, link.dst) == stage)
        .collect(alloc)
}

// Returns links between these partitions, with room for `capacity` chunks each, and with their
// ends.
fn open_links(
    alloc: Global,
    between: &[Link],
    capacity: u64,
) -> Result<(Vec<SharedLink>, LooseEnds), AllocError>
    requires { 0 < capacity }
    ensures links { IfOk result (λ opened. map ends_of opened.0.items ≡ between.now) }
    ensures capacities { IfOk result (λ opened. HaveCapacity capacity opened.0.items) }
    ensures sends { IfOk result (λ opened. HasAllEnds opened.0.items opened.1.sends.items) }
    ensures recvs { IfOk result (λ opened. HasAllEnds opened.0.items opened.1.recvs.items) }
{
    let mut links = Vec::new(alloc);
    let mut sends = Vec::new(alloc);
    let mut recvs = Vec::new(alloc);
    for (at, ends) in between.iter().enumerate() {
        let (link, send, recv) = SharedLink::open(alloc, ends.src, ends.dst, capacity)?;
        links.push(link)?;
        sends.push(PartEnd::new(Some(LinkEnd {
            link: at,
            pass: send,
        })))?;
        recvs.push(PartEnd::new(Some(LinkEnd {
            link: at,
            pass: recv,
        })))?;
    }
    Ok((links, LooseEnds { sends, recvs }))
}

// Returns a queue with `places` places for each partition.
fn queues<T: Drop>(
    alloc: Global,
    parts: u8,
    places: usize,
) -> Result<Vec<ArrayQueue<T>>, AllocError>
    requires { 0 < places }
    ensures { IfOk result (λ queues. length queues.items ≡ parts) }
{
    let mut queues = Vec::new(alloc);
    for _part in 0..parts {
        queues.push(ArrayQueue::new(alloc, places)?)?;
    }
    Ok(queues)
}
