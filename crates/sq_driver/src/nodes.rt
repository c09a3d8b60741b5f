// Driving nodes.
ghost use Rattle.std.specs.Prelude.{◌≡◌, ◌++◌, option_to_list};
ghost use Rattle.sq_node.specs.Prelude.{IsNodeOf};
ghost use Rattle.sq_driver.specs.Nodes.{MakesStep};
ghost use Rattle.sq_driver.specs.Told.{HasTold, DrivenAndTold, DrivenTelling};

use crate::attendance::Attendance;
use crate::gate::{Gate, NodeStep, OwnGate, WorkerEvent};
use crate::teller::{Teller, TellingNode};
use crate::worker::{Turn, Worker, take_turns};
use sq_node::{Effort, Fabric, Node, Receipt, Stepped};
use std::sync::Wait;

// The steps of a turn, in their order. A second chunk is cut and sent, so that the link fills up
// and its receiver doesn't wait for each chunk.
const TURN: [NodeStep; 10] = [
    NodeStep::Job,
    NodeStep::Request,
    NodeStep::Cut,
    NodeStep::Send,
    NodeStep::Cut,
    NodeStep::Send,
    NodeStep::Recv,
    NodeStep::Load,
    NodeStep::Complete,
    NodeStep::Resume,
];

// The most jobs in a turn at rest.
const JOBS_AT_REST: usize = 32;

// How many times as much work a node does for jobs as for chunks in a turn, if it has that many
// jobs.
const JOBS_FOR_CHUNKS: u64 = 3;

impl<T: Teller> Worker for TellingNode<T> {
    ghost use Rattle.sq_node.specs.Prelude.{IsNodeOf};
    ghost use Rattle.sq_driver.specs.Told.{DrivenTelling};
    ghost use Rattle.sq_driver.specs.Laws.{telling_no_turn, telling_further};

    ghost IsOf = { λ fabric pair. IsNodeOf fabric pair.node };

    ghost Driven = { λ fabric old new. DrivenTelling T.Tells fabric old new };

    fn number_in(&self, _fabric: &Fabric) -> u64 {
        number_of(&self.node)
    }

    fn come(&self, attendance: &Attendance) {
        attendance.note_node();
    }

    fn begin(&mut self, _fabric: &Fabric) {}

    fn take_turn<R: Wait, G: OwnGate>(&mut self, rt: &R, fabric: &Fabric, gate: &G) -> Turn {
        take_node_turn(rt, fabric, &mut self.node, &mut self.teller, gate)
    }

    ghost no_turn = { λ fabric pair of. telling_no_turn T.Tells fabric pair.node pair.teller of };

    ghost stays = { λ fabric old new was. was.driven.stays };

    ghost further = { λ fabric first old new was more.
        telling_further T.Tells fabric
        first.node first.teller old.node old.teller new.node new.teller was more };
}

/// Drives a node with its teller for at most `turns` turns. In a turn it performs each step once,
/// and cuts and sends a second chunk. It takes no request while it has something to cut or to send,
/// and so still serves the keys that no pull has taken. After it cut or loaded a chunk, it
/// continues with jobs until it has done three times as much work for them as for chunks, or finds
/// none.
///
/// It ends earlier if it is idle, unless the gate lets idle nodes continue. It also ends if the
/// gate says so, which is asked before each step and after each receipt ([`NodeStep::Answered`]),
/// and once it has lacked memory for about 3 seconds and done nothing else. The gate is told of
/// each step that did something, and each time that the node rests after a turn without work, when
/// it may delay the node.
///
/// The teller is given each receipt that the node writes, once, in their order, and nothing else:
/// right after the step that wrote the receipt, before the gate is told of it.
pub fn drive<T: Teller, R: Wait, G: Gate>(
    rt: &R,
    fabric: &Fabric,
    pair: &mut TellingNode<T>,
    turns: u64,
    gate: &G,
)
    requires { IsNodeOf fabric.now pair.old.node }
    ensures { DrivenTelling T.Tells fabric.now pair.old pair.new }
{
    take_turns(rt, fabric, pair, turns, gate, &Attendance::alone());
}

// Sends what is pending, and performs each step once. If a chunk was cut or loaded, it continues
// with jobs for a while. At rest, if its gate lets idle nodes continue, it serves up to 32 jobs
// instead.
fn take_node_turn<T: Teller, R: Wait, G: OwnGate>(
    rt: &R,
    fabric: &Fabric,
    node: &mut Node,
    teller: &mut T,
    gate: &G,
) -> Turn
    requires { IsNodeOf fabric.now node.old }
    ensures { DrivenAndTold T.Tells fabric.now node.old teller.old node.new teller.new }
{
    if is_at_rest(fabric) && !gate.ends_when_idle() {
        return take_rest_turn(rt, fabric, node, teller, gate);
    }
    let before = node.effort();
    node.send_pending(rt, fabric);
    let mut turn = Turn::Rested;
    for step in TURN {
        match try_step(rt, fabric, node, teller, step, gate) {
            Turn::Ended => return Turn::Ended,
            tried => turn = turn.and(tried),
        }
    }
    if !serve_on(rt, fabric, node, teller, before, gate) {
        return Turn::Ended;
    }
    if !gate.ends_when_idle() {
        return turn;
    }
    if node.close_if_idle(fabric) {
        return Turn::Ended;
    }
    turn
}

// Returns true if no rows move in the stage, so that there is nothing to request, cut, send or
// load.
fn is_at_rest(fabric: &Fabric) -> bool {
    fabric.recon().segments().is_empty()
}

// Takes a turn of a node at rest that ends only when its gate says so: sends what is pending, and
// then serves jobs.
fn take_rest_turn<T: Teller, R: Wait, G: OwnGate>(
    rt: &R,
    fabric: &Fabric,
    node: &mut Node,
    teller: &mut T,
    gate: &G,
) -> Turn
    requires { IsNodeOf fabric.now node.old }
    ensures { DrivenAndTold T.Tells fabric.now node.old teller.old node.new teller.new }
{
    node.send_pending(rt, fabric);
    let mut turn = Turn::Rested;
    for _job in 0..JOBS_AT_REST {
        match serve(rt, fabric, node, teller, gate) {
            Turn::Worked => turn = Turn::Worked,
            ended => return turn.and(ended),
        }
        // So that jobs for another partition wait in its queue, and no more of them here than come
        // in a turn.
        if !node.has_forwarded() {
            return turn;
        }
    }
    turn
}

// Continues with jobs, in proportion to the chunks that were cut or loaded since `before`. Returns
// true if the gate lets the node continue.
fn serve_on<T: Teller, R: Wait, G: OwnGate>(
    rt: &R,
    fabric: &Fabric,
    node: &mut Node,
    teller: &mut T,
    before: Effort,
    gate: &G,
) -> bool
    requires { IsNodeOf fabric.now node.old }
    ensures { DrivenAndTold T.Tells fabric.now node.old teller.old node.new teller.new }
{
    let now = node.effort();
    let owed = now
        .chunks
        .saturating_sub(before.chunks)
        .saturating_mul(JOBS_FOR_CHUNKS);
    let until = now.jobs.saturating_add(owed);
    for _job in 0..owed {
        if node.effort().jobs >= until {
            break;
        }
        match serve(rt, fabric, node, teller, gate) {
            Turn::Worked => {}
            Turn::Rested | Turn::Lacked => return true,
            Turn::Ended => return false,
        }
    }
    true
}

// Resumes a waiting transaction, or else takes a job.
fn serve<T: Teller, R: Wait, G: OwnGate>(
    rt: &R,
    fabric: &Fabric,
    node: &mut Node,
    teller: &mut T,
    gate: &G,
) -> Turn
    requires { IsNodeOf fabric.now node.old }
    ensures { DrivenAndTold T.Tells fabric.now node.old teller.old node.new teller.new }
{
    match try_step(rt, fabric, node, teller, NodeStep::Resume, gate) {
        Turn::Rested | Turn::Lacked => try_step(rt, fabric, node, teller, NodeStep::Job, gate),
        turn => turn,
    }
}

// Performs a step of a node, if the gate lets it pass. The teller gets the receipt first, and then
// the gate is told of the step.
fn try_step<T: Teller, R: Wait, G: OwnGate>(
    rt: &R,
    fabric: &Fabric,
    node: &mut Node,
    teller: &mut T,
    step: NodeStep,
    gate: &G,
) -> Turn
    requires { IsNodeOf fabric.now node.old }
    ensures { DrivenAndTold T.Tells fabric.now node.old teller.old node.new teller.new }
{
    if step == NodeStep::Request && node.is_giving_up() {
        return Turn::Rested;
    }
    if !gate.lets_pass(number_of(node), step) {
        return Turn::Ended;
    }
    let before = node.effort();
    let (stepped, has_answered) = step_and_tell(rt, fabric, node, teller, step);
    match stepped {
        Stepped::Did => report(gate, node, event_of(node, step, has_answered, before)),
        Stepped::Nothing => Turn::Rested,
        Stepped::Memory => Turn::Lacked,
    }
}

// Performs a step of a node, and gives its teller the receipt, if it wrote one. Returns whether it
// did, too.
fn step_and_tell<T: Teller, R: Wait>(
    rt: &R,
    fabric: &Fabric,
    node: &mut Node,
    teller: &mut T,
    step: NodeStep,
) -> (Stepped, bool)
    requires { IsNodeOf fabric.now node.old }
    ensures made { MakesStep fabric.now step node.old result.0 node.new }
    ensures told { HasTold T.Tells node.old.receipts teller.old node.new.receipts teller.new }
{
    let (stepped, receipt) = make_step(rt, fabric, node, step);
    match receipt {
        Some(receipt) => {
            teller.tell(rt, receipt);
            (stepped, true)
        }
        None => (stepped, false),
    }
}

// Tells the gate what a node did in a step. If the step wrote a receipt, the gate decides whether
// the node continues.
fn report<G: OwnGate>(gate: &G, node: &Node, event: WorkerEvent) -> Turn {
    let who = number_of(node);
    gate.hears(who, event);
    if matches!(event, WorkerEvent::Answered(_)) && !gate.lets_pass(who, NodeStep::Answered) {
        return Turn::Ended;
    }
    Turn::Worked
}

// Returns the number of a node for a gate.
fn number_of(node: &Node) -> u64
    ensures { result ≡ node.now.core.part }
{
    u64::from(node.part().number())
}

// Returns what the gate is told of a step that did something; `has_answered` says whether it wrote
// a receipt. Before the step the node had done the work `before`.
fn event_of(node: &Node, step: NodeStep, has_answered: bool, before: Effort) -> WorkerEvent {
    if has_answered {
        return WorkerEvent::Answered(step);
    }
    let now = node.effort();
    if now.waits != before.waits {
        return WorkerEvent::Waits { id: now.last_wait };
    }
    if step == NodeStep::Complete && node.completes_segment() {
        return WorkerEvent::SegmentComplete;
    }
    if step == NodeStep::Load {
        return WorkerEvent::Loaded {
            families: now.loaded.saturating_sub(before.loaded),
            bytes: now.loaded_bytes.saturating_sub(before.loaded_bytes),
        };
    }
    WorkerEvent::Made(step)
}

// Performs a step of a node, and returns the receipt, if it wrote one. `Pump` and `Answered` are
// not steps of a node.
fn make_step<R: Wait>(
    rt: &R,
    fabric: &Fabric,
    node: &mut Node,
    step: NodeStep,
) -> (Stepped, Option<Receipt>)
    requires { IsNodeOf fabric.now node.old }
    ensures step { MakesStep fabric.now step node.old result.0 node.new }
    ensures receipt { node.new.receipts ≡ node.old.receipts ++ option_to_list result.1 }
{
    match step {
        NodeStep::Job => node.step_job(rt, fabric),
        NodeStep::Request => (node.step_request(rt, fabric), None),
        NodeStep::Cut => (node.step_cut(), None),
        NodeStep::Send => (node.step_send(rt, fabric), None),
        NodeStep::Recv => (node.step_recv(rt, fabric), None),
        NodeStep::Load => (node.step_load(fabric), None),
        NodeStep::Complete => (node.step_complete(fabric), None),
        NodeStep::Resume => node.step_resume(rt, fabric),
        NodeStep::Pump | NodeStep::Answered => (Stepped::Nothing, None),
    }
}
