// Runs that are stepped by hand, in one thread.
ghost use Rattle.std.specs.Prelude.{◌≡◌, ◌+◌, ◌≤◌, ◌<◌, vec_len, vec_capacity};
ghost use Rattle.sq_node.specs.Prelude.{IsNodeOf};
ghost use Rattle.sq_gather.specs.Gathered.{AreAllOf};

use crate::lines::read_job;
use crate::printing::{print_line, print_refused, value_of};
use crate::unfinished::Unfinished;
use sq_audit::Job;
use sq_gather::{Gathered, gather};
use sq_moves::Opening;
use sq_node::{Fabric, Node, Receipt, RunParts, Stepped};
use sq_shared::Pump;
use std::alloc::{AllocError, Global};
use std::sync::Wait;

/// The number of pumps, which claim rows in the background.
pub const PUMPS: u32 = 1;

// The most receipts of a node in a turn.
const RECEIPTS_OF_TURN: usize = 2;

/// A run: what its nodes share, all its nodes and all its pumps, and the receipts of its nodes, in
/// the order in which they were written.
pub struct HandRun {
    fabric: Fabric,
    nodes: Vec<Node>,
    pumps: Vec<Pump>,
    receipts: Vec<Receipt>,
    ghost whole: { AreAllOf fabric nodes.items pumps.items },
}

impl Drop for HandRun {
    fn drop(self) {
        let HandRun {
            fabric: _,
            nodes: _,
            pumps: _,
            receipts: _,
        } = self;
    }
}

/// What a run leaves, and the receipts of its nodes.
#[derive(Drop)]
pub struct Left {
    pub gathered: Gathered,
    pub receipts: Vec<Receipt>,
}

impl HandRun {
    /// Opens the run of `opening`; if there was no memory for it, opens it once more.
    pub fn open<R: Print>(rt: &R, alloc: Global, opening: &Opening) -> Result<HandRun, Unfinished> {
        match HandRun::open_once(alloc, opening) {
            Ok(run) => Ok(run),
            Err(_) => {
                print_refused(rt, "open");
                Ok(HandRun::open_once(alloc, opening)?)
            }
        }
    }

    fn open_once(alloc: Global, opening: &Opening) -> Result<HandRun, AllocError> {
        let parts = Fabric::open(alloc, opening, PUMPS)?;
        Ok(HandRun::of(alloc, parts))
    }

    /// Returns the run of these parts, without receipts.
    pub fn of(alloc: Global, run: RunParts) -> HandRun
        requires { AreAllOf run.fabric run.nodes.items run.pumps.items }
    {
        let RunParts {
            fabric,
            nodes,
            pumps,
        } = run;
        HandRun {
            fabric,
            nodes,
            pumps,
            receipts: Vec::new(alloc),
        }
    }

    /// Posts the transaction of `line` to the partition that the line names.
    pub fn post<R: Wait>(&self, rt: &R, alloc: Global, line: &str) -> Result<(), Unfinished> {
        let Job { part, txn } = read_job(alloc, line)?;
        match self.fabric.post(rt, part, txn) {
            Ok(()) => Ok(()),
            Err(_) => Err(Unfinished::Memory),
        }
    }

    /// Runs a turn of the node of `part`, and prints the steps for which there was no memory. A
    /// later turn does their work. If there is no memory for the receipts of a turn, none is run.
    pub fn turn<R: Wait + Print>(&mut self, rt: &R, part: usize) {
        if part >= self.nodes.len() {
            return;
        }
        if self.receipts.reserve(RECEIPTS_OF_TURN).is_err() {
            print_refused(rt, "receipt");
            return;
        }
        let steps = run_steps(rt, &self.fabric, &mut self.nodes[part], &mut self.receipts);
        print_steps(rt, steps);
    }

    /// Runs a turn of the first pump. If there was no memory for it, a later turn claims.
    pub fn turn_pump<R: Wait>(&mut self, rt: &R) {
        if self.pumps.is_empty() {
            return;
        }
        let shared = self.fabric.shared();
        let turn = self.pumps[0].turn(rt, &shared);
        drop(turn);
    }

    /// Gathers the run; if there was no memory for it, gathers it once more.
    pub fn gather<R: Wait + Print>(self, rt: &R, alloc: Global) -> Result<Left, Unfinished> {
        let HandRun {
            fabric,
            nodes,
            pumps,
            receipts,
        } = self;
        let run = RunParts {
            fabric,
            nodes,
            pumps,
        };
        let gathered = gather_twice(rt, alloc, run)?;
        print_line(rt, "gathered");
        Ok(Left { gathered, receipts })
    }
}

fn gather_twice<R: Wait + Print>(
    rt: &R,
    alloc: Global,
    run: RunParts,
) -> Result<Gathered, Unfinished>
    requires { AreAllOf run.fabric run.nodes.items run.pumps.items }
{
    match gather(rt, alloc, run) {
        Ok(gathered) => Ok(gathered),
        Err(back) => {
            print_refused(rt, "gather");
            value_of(gather(rt, alloc, back))
        }
    }
}

// Sends what is pending at a node, runs each of its steps once, and adds its receipts to
// `receipts`, which have room for them.
fn run_steps<R: Wait>(
    rt: &R,
    fabric: &Fabric,
    node: &mut Node,
    receipts: &mut Vec<Receipt>,
) -> [Stepped; 8]
    requires node { IsNodeOf fabric.now node.old }
    requires room { vec_len receipts.old + 2 ≤ vec_capacity receipts.old }
    ensures of { IsNodeOf fabric.now node.new }
    ensures part { node.new.core.part ≡ node.old.core.part }
{
    node.send_pending(rt, fabric);
    let (job, receipt) = node.step_job(rt, fabric);
    add_receipt(receipts, receipt);
    let request = node.step_request(rt, fabric);
    let cut = node.step_cut();
    let send = node.step_send(rt, fabric);
    let recv = node.step_recv(rt, fabric);
    let load = node.step_load(fabric);
    let complete = node.step_complete(fabric);
    let (resume, receipt) = node.step_resume(rt, fabric);
    add_receipt(receipts, receipt);
    [job, request, cut, send, recv, load, complete, resume]
}

// Adds a receipt to `receipts`, which have room for it, if there is one.
fn add_receipt(receipts: &mut Vec<Receipt>, receipt: Option<Receipt>)
    requires { vec_len receipts.old < vec_capacity receipts.old }
    ensures len { vec_len receipts.new ≤ vec_len receipts.old + 1 }
    ensures capacity { vec_capacity receipts.new ≡ vec_capacity receipts.old }
{
    if let Some(receipt) = receipt {
        receipts.push_reserved(receipt);
    }
}

// The steps of a node, in the order of `run_steps`.
const STEPS: [&str; 8] = [
    "job", "request", "cut", "send", "recv", "load", "complete", "resume",
];

// Prints the steps for which there was no memory.
fn print_steps<R: Print>(rt: &R, steps: [Stepped; 8]) {
    for (name, stepped) in STEPS.iter().zip(&steps) {
        if *stepped == Stepped::Memory {
            print_refused(rt, name);
        }
    }
}
