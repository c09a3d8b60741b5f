// Runs, made by hand or by their workers.
ghost use Rattle.std.specs.Prelude.{◌≡◌, ◌≤◌, All, IfOk};
ghost use Rattle.sq_shared.specs.declared.numbers.TheConstants.{MAX_PUMPS};
ghost use Rattle.sq_node.specs.Prelude.{IsNodeOf};
ghost use Rattle.sq_driver.specs.Pumps.{HasAllSeats};
ghost use Rattle.sq_driver.specs.Told.{nodes_of};
ghost use Rattle.sq_gather.specs.Gathered.{AreAllOf};
ghost use Rattle.sq_audit.specs.Answers.{IdsDiffer};

use super::text::{receipts_text, text_of};
use sq_audit::Job;
use sq_driver::{
    Collector, Gate, OpenGate, Teller, TellingNode, WorkersEnd, drive, drive_pump, run_workers,
};
use sq_gather::{Gathered, gather};
use sq_model::Step;
use sq_moves::Opening;
use sq_node::{Fabric, Node, Receipt, RunParts, Stepped};
use sq_plan::PartId;
use sq_schema::{Reply, Schema, Txn};
use sq_shared::{Pump, PumpTurn, Request};
use sq_text::{LineReader, read_header, read_step};
use std::alloc::{AllocError, Global};
use std::process::Abort;
use std::sync::Wait;
use std::thread::Threads;

// More turns than any worker takes.
const TURNS: u64 = 1_000_000_000_000;

// The schema of 8 tables.
fn schema() -> Schema {
    Schema::new(8).unwrap()
}

/// The opening of a header.
pub fn read_opening<R: Abort>(rt: &R, alloc: Global, header: &str) -> Opening {
    let mut lines = LineReader::new(alloc, header.as_bytes()).expect(rt, "no memory for lines");
    read_header(alloc, schema(), &mut lines).expect(rt, "no header")
}

/// The job of a line, which names its partition.
pub fn job<R: Abort>(rt: &R, alloc: Global, line: &str) -> Job {
    let step = read_step(alloc, &schema(), line.as_bytes()).expect(rt, "no step");
    submitted(step).expect(rt, "no transaction")
}

/// The transaction with another id.
pub fn with_id<R: Abort>(rt: &R, alloc: Global, txn: &Txn, id: u64) -> Txn {
    let mut ops = Vec::new(alloc);
    for op in txn.ops() {
        let copy = op.clone().expect(rt, "no memory for an operation");
        ops.push(copy).expect(rt, "no memory for operations");
    }
    match Txn::new(&schema(), id, txn.root().number(), ops) {
        Ok(other) => other,
        Err(_) => rt.panic("no transaction"),
    }
}

// The job that a step submits.
fn submitted(step: Step) -> Option<Job> {
    match step {
        Step::Submit(part, txn) if part < 256 => Some(Job {
            part: PartId::new(part as u8),
            txn,
        }),
        _ => None,
    }
}

/// The jobs of two lines, whose ids differ.
pub fn two_jobs<R: Abort>(rt: &R, alloc: Global, first: &str, second: &str) -> Vec<Job>
    ensures { IdsDiffer result.items }
{
    let mut jobs = Vec::with_capacity(alloc, 2).expect(rt, "no memory for jobs");
    let first = job(rt, alloc, first);
    let second = job(rt, alloc, second);
    assert!(rt; first.txn.id() != second.txn.id(), "two jobs have one id");
    jobs.push_reserved(first);
    jobs.push_reserved(second);
    jobs
}

/// A node with its collector.
pub type Pair = TellingNode<Collector>;

/// Gives a collector to each of these nodes.
pub fn pairs_of(alloc: Global, nodes: Vec<Node>) -> Result<Vec<Pair>, AllocError>
    ensures { IfOk result (λ pairs. nodes_of pairs.items ≡ nodes.items) }
{
    let mut pairs = Vec::with_capacity(alloc, nodes.len())?;
    for node in nodes {
        let teller = Collector::new(alloc);
        pairs.push_reserved(TellingNode { node, teller });
    }
    Ok(pairs)
}

/// How many receipts nodes wrote.
pub fn count_receipts(pairs: &[Pair]) -> usize {
    let mut count: usize = 0;
    for pair in pairs {
        count = count.saturating_add(pair.teller.receipts.len());
    }
    count
}

/// Runs workers until all are idle. How many receipts their nodes wrote.
pub fn work_to_end<R: Threads + Wait + Sync>(
    rt: &R,
    fabric: &Fabric,
    mut pairs: Vec<Pair>,
    mut pumps: Vec<Pump>,
) -> usize
    requires nodes { All (IsNodeOf fabric.now) (nodes_of pairs.items) }
    requires pumps { All (HasAllSeats fabric.now) pumps.items }
{
    run_workers(rt, fabric, &mut pairs, &mut pumps, TURNS, &OpenGate);
    count_receipts(&pairs)
}

/// A run: what its nodes share, all nodes and all pumps. Its drop is a function of its own, which each way out of a test calls.
pub struct TestRun {
    fabric: Fabric,
    nodes: Vec<Pair>,
    pumps: Vec<Pump>,
    ghost whole: { AreAllOf fabric (nodes_of nodes.items) pumps.items },
}

impl Drop for TestRun {
    fn drop(self) {
        let TestRun {
            fabric: _,
            nodes: _,
            pumps: _,
        } = self;
    }
}

impl TestRun {
    /// The run of a header, with this many pumps.
    pub fn opened<R: Abort>(rt: &R, alloc: Global, header: &str, pumps: u32) -> TestRun
        requires { pumps ≤ MAX_PUMPS }
    {
        let opening = read_opening(rt, alloc, header);
        TestRun::of(alloc, &opening, pumps).expect(rt, "no memory for a run")
    }

    // The run of an opening, with this many pumps.
    fn of(alloc: Global, opening: &Opening, pumps: u32) -> Result<TestRun, AllocError>
        requires { pumps ≤ MAX_PUMPS }
    {
        let parts = Fabric::open(alloc, opening, pumps)?;
        let RunParts {
            fabric,
            nodes,
            pumps,
        } = parts;
        let nodes = pairs_of(alloc, nodes)?;
        Ok(TestRun {
            fabric,
            nodes,
            pumps,
        })
    }

    /// Posts the transaction of a line to the partition that the line names.
    pub fn post<R: Wait + Abort>(&self, rt: &R, alloc: Global, line: &str) {
        let has_posted = self.has_posted(rt, alloc, line);
        assert!(rt; has_posted, "no such partition, or its queue is full");
    }

    /// The same, and whether there is such a partition, whose queue had room for it.
    pub fn has_posted<R: Wait + Abort>(&self, rt: &R, alloc: Global, line: &str) -> bool {
        let Job { part, txn } = job(rt, alloc, line);
        self.fabric.post(rt, part, txn).is_ok()
    }

    /// Asks a partition to begin a node of a segment for a pull.
    pub fn request<R: Wait + Abort>(&self, rt: &R, part: u8, request: Request) {
        let has_requested = self.has_requested(rt, part, request);
        assert!(rt; has_requested, "no such partition, or its queue is full");
    }

    /// The same, and whether there is such a partition, whose queue had room for it.
    pub fn has_requested<R: Wait>(&self, rt: &R, part: u8, request: Request) -> bool {
        self.fabric.request(rt, PartId::new(part), request).is_ok()
    }

    /// Whether as many jobs were answered as were posted.
    pub fn is_answered(&self) -> bool {
        self.fabric.is_answered()
    }

    /// A turn of the node of a partition.
    pub fn turn<R: Wait + Abort>(&mut self, rt: &R, part: usize) {
        assert!(rt; part < self.nodes.len(), "no such partition");
        turn_once(rt, &self.fabric, &mut self.nodes[part]);
    }

    /// The same of each of these partitions, in their order.
    pub fn turn_each<R: Wait + Abort>(&mut self, rt: &R, parts: &[usize]) {
        for part in parts {
            self.turn(rt, *part);
        }
    }

    /// The same so many times.
    pub fn turns<R: Wait + Abort>(&mut self, rt: &R, times: u64, parts: &[usize]) {
        for _time in 0..times {
            self.turn_each(rt, parts);
        }
    }

    /// Drives the node of a partition.
    pub fn drive<R: Wait + Abort, G: Gate>(&mut self, rt: &R, part: usize, turns: u64, gate: &G) {
        assert!(rt; part < self.nodes.len(), "no such partition");
        drive(rt, &self.fabric, &mut self.nodes[part], turns, gate);
    }

    /// The outcomes of the steps of a partition's node, in their order.
    pub fn steps<R: Wait + Abort>(&mut self, rt: &R, part: usize) -> [Stepped; 8] {
        assert!(rt; part < self.nodes.len(), "no such partition");
        make_steps(rt, &self.fabric, &mut self.nodes[part])
    }

    /// A turn of the pump of a number.
    pub fn turn_pump<R: Wait + Abort>(&mut self, rt: &R, number: usize) -> PumpTurn {
        assert!(rt; number < self.pumps.len(), "no such pump");
        let shared = self.fabric.shared();
        let turn = self.pumps[number].turn(rt, &shared);
        turn.expect(rt, "no memory for a claim")
    }

    /// Drives the pump of a number.
    pub fn drive_pump<R: Wait + Abort, G: Gate>(
        &mut self,
        rt: &R,
        number: usize,
        turns: u64,
        gate: &G,
    ) {
        assert!(rt; number < self.pumps.len(), "no such pump");
        drive_pump(rt, &self.fabric, &mut self.pumps[number], turns, gate);
    }

    /// Whether the pump of a number is done.
    pub fn is_pump_done(&self, number: usize) -> bool {
        match self.pumps.get(number) {
            Some(pump) => pump.is_done(),
            None => false,
        }
    }

    /// Runs all workers, and says how they ended.
    pub fn work<R: Threads + Wait + Sync, G: Gate>(
        &mut self,
        rt: &R,
        turns: u64,
        gate: &G,
    ) -> WorkersEnd {
        run_workers(
            rt,
            &self.fabric,
            &mut self.nodes,
            &mut self.pumps,
            turns,
            gate,
        )
    }

    /// The receipts of the node of a partition, in lines.
    pub fn text_of_receipts<R: Abort>(&self, rt: &R, alloc: Global, part: usize) -> String {
        assert!(rt; part < self.nodes.len(), "no such partition");
        let text = receipts_text(alloc, &self.nodes[part].teller.receipts);
        text.expect(rt, "no memory for lines")
    }

    /// How many receipts all nodes have.
    pub fn receipts(&self) -> usize {
        count_receipts(&self.nodes)
    }

    /// Whether all receipts are of commits.
    pub fn all_commit(&self) -> bool {
        for pair in &self.nodes {
            if !are_commits(&pair.teller.receipts) {
                return false;
            }
        }
        true
    }

    /// What is gathered, and all receipts.
    pub fn gathered<R: Wait + Abort>(self, rt: &R, alloc: Global) -> (Gathered, Vec<Receipt>) {
        let TestRun {
            fabric,
            nodes,
            pumps,
        } = self;
        let mut told = Vec::new(alloc);
        let nodes = take_told(alloc, nodes, &mut told).expect(rt, "no memory for receipts");
        let run = RunParts {
            fabric,
            nodes,
            pumps,
        };
        let outcome = gather(rt, alloc, run);
        let gathered = outcome.ok().expect(rt, "no memory for what is gathered");
        (gathered, told)
    }

    /// The same, in lines.
    pub fn text<R: Wait + Abort>(self, rt: &R, alloc: Global) -> String {
        let (gathered, told) = self.gathered(rt, alloc);
        text_of(alloc, &gathered, &told).expect(rt, "no memory for lines")
    }
}

// Adds what the tellers collected to `told`, and returns the nodes alone.
fn take_told(
    alloc: Global,
    pairs: Vec<Pair>,
    told: &mut Vec<Receipt>,
) -> Result<Vec<Node>, AllocError>
    ensures { IfOk result (λ nodes. nodes.items ≡ nodes_of pairs.items) }
{
    let mut nodes = Vec::with_capacity(alloc, pairs.len())?;
    for pair in pairs {
        let TellingNode { node, teller } = pair;
        let Collector { mut receipts, .. } = teller;
        told.append(&mut receipts)?;
        nodes.push_reserved(node);
    }
    Ok(nodes)
}

fn are_commits(receipts: &[Receipt]) -> bool {
    for receipt in receipts {
        if !matches!(receipt.reply, Reply::Committed(_)) {
            return false;
        }
    }
    true
}

// A turn of a node: it sends what is pending, and makes each step once.
fn turn_once<R: Wait>(rt: &R, fabric: &Fabric, pair: &mut Pair)
    requires { IsNodeOf fabric.now pair.old.node }
    ensures of { IsNodeOf fabric.now pair.new.node }
    ensures part { pair.new.node.core.part ≡ pair.old.node.core.part }
{
    pair.node.send_pending(rt, fabric);
    make_steps(rt, fabric, pair);
}

// Makes each step of a node once.
fn make_steps<R: Wait>(rt: &R, fabric: &Fabric, pair: &mut Pair) -> [Stepped; 8]
    requires { IsNodeOf fabric.now pair.old.node }
    ensures of { IsNodeOf fabric.now pair.new.node }
    ensures part { pair.new.node.core.part ≡ pair.old.node.core.part }
{
    let TellingNode { node, teller } = pair;
    let (job, receipt) = node.step_job(rt, fabric);
    tell(rt, teller, receipt);
    let request = node.step_request(rt, fabric);
    let cut = node.step_cut();
    let send = node.step_send(rt, fabric);
    let recv = node.step_recv(rt, fabric);
    let load = node.step_load(fabric);
    let complete = node.step_complete(fabric);
    let (resume, receipt) = node.step_resume(rt, fabric);
    tell(rt, teller, receipt);
    [job, request, cut, send, recv, load, complete, resume]
}

// Gives a teller a receipt, if there is one.
fn tell<R: Wait>(rt: &R, teller: &mut Collector, receipt: Option<Receipt>) {
    if let Some(receipt) = receipt {
        teller.tell(rt, receipt);
    }
}
