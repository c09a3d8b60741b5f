// Turns of a node.
ghost use Rattle.std.specs.Prelude.{◌≡◌, ◌↔◌, ◌++◌, ℕ, ◌<◌, true, false, List, [], length, map, slice_get, Some, IsTrue, option_to_list};
ghost use Rattle.sq_moves.specs.declared.recon.Range.{Range};
ghost use Rattle.sq_shared.specs.Seat.{IsSameSeat};
ghost use Rattle.sq_exec.specs.Waiting.{Arrival, txns_of};
ghost use Rattle.sq_exec.specs.Prelude.{loaded_at, IsCore, is_whole};
ghost use Rattle.sq_shared.specs.Seats.{AreSeatsOf, StepsAt};
ghost use Rattle.sq_node.specs.NodeState.{IsNodeOf};
ghost use Rattle.sq_node.specs.Holds.{KeepsAll, DoesAndKeeps};
ghost use Rattle.sq_node.specs.Looks.{OnlyLooked, SeatsLooked};
ghost use Rattle.sq_node.specs.Settled.{HasSettled, AllSettled, SawComplete, SawSegmentComplete, AreSeen};
ghost use Rattle.sq_node.specs.Steps.{Looks};
ghost use Rattle.sq_node.specs.Turn.{TakesIn, TurnStep};
ghost use Rattle.sq_node.specs.Idle.{IsQuiet, IsIdle, IsBusy, IsAtWork, IsUnderWay, IsLastStage, FoundUndone, SomeUndone, takes_part, AreFlagged};

use super::{Node, NodeParts};
use crate::fabric::Fabric;
use crate::receipt::Receipt;
use crate::stepped::Stepped;
use sq_moves::{NodeId, Range, Status};
use sq_plan::PartId;
use sq_shared::{StatusTree, TreeSeat};
use std::sync::Wait;

/// What [`Node::turn`] returns.
#[derive(Debug, Drop)]
pub struct Turned {
    /// What the steps did: `Did` if one of them did something, else `Memory` if one of them lacked
    /// memory, else `Nothing`.
    pub stepped: Stepped,
    /// The receipt of the job that was taken, if it was answered.
    pub job: Option<Receipt>,
    /// The receipt of the transaction that was resumed, if it was answered.
    pub resumed: Option<Receipt>,
}

impl Node {
    /// Takes a turn: sends what is pending, and then performs each step once: job, request, cut,
    /// send, receive, load, complete, resume.
    pub fn turn<R: Wait>(&mut self, rt: &R, fabric: &Fabric) -> Turned
        requires { IsNodeOf fabric.now self.old }
        ensures turn { DoesAndKeeps fabric.now (TurnStep fabric.now) self.old result.stepped self.new }
        ensures receipts { self.new.receipts
            ≡ (self.old.receipts ++ option_to_list result.job) ++ option_to_list result.resumed }
    {
        self.send_pending(rt, fabric);
        let (served, job) = self.step_job(rt, fabric);
        let request = self.step_request(rt, fabric);
        let cut = self.step_cut();
        let send = self.step_send(rt, fabric);
        let (taken, resumed) = self.take_in(rt, fabric);
        let stepped = served.and(request.and(cut.and(send.and(taken))));
        Turned {
            stepped,
            job,
            resumed,
        }
    }

    // Performs the steps of the second half of a turn.
    fn take_in<R: Wait>(&mut self, rt: &R, fabric: &Fabric) -> (Stepped, Option<Receipt>)
        requires { IsNodeOf fabric.now self.old }
        ensures turn { DoesAndKeeps fabric.now TakesIn self.old result.0 self.new }
        ensures receipt { self.new.receipts ≡ self.old.receipts ++ option_to_list result.1 }
    {
        let recv = self.step_recv(rt, fabric);
        let load = self.step_load(fabric);
        let complete = self.step_complete(fabric);
        let (resume, receipt) = self.step_resume(rt, fabric);
        (recv.and(load.and(complete.and(resume))), receipt)
    }

    /// Sends the pending jobs up to the first whose queue is full or for which memory runs out, and
    /// each pending request whose queue has room.
    pub fn send_pending<R: Wait>(&mut self, rt: &R, fabric: &Fabric)
        ensures { self.new ≡ self.old }
    {
        self.desk.send_pending(rt, fabric);
        self.puller.send_pending(rt, fabric.shared().requests);
    }

    /// Returns true if the node is done ([`Node::is_done`]), nothing is pending here and, in the
    /// last stage, as many jobs were answered as were posted. The counts of jobs are hints: they
    /// belong to no single moment.
    pub fn idle(&mut self, fabric: &Fabric) -> bool
        requires { IsNodeOf fabric.now self.old }
        ensures looks { Looks self.old self.new }
        ensures idle { IsTrue result → IsIdle self.new }
        ensures of { IsNodeOf fabric.now self.new }
        ensures holds { KeepsAll self.old self.new }
    {
        self.has_sent(fabric) && self.is_done(fabric)
    }

    /// Returns true if the node is [`Node::idle`] and, in the last stage, the run takes no more
    /// jobs from then on. In the last stage it closes the run to jobs if each posted job is
    /// answered.
    pub fn close_if_idle(&mut self, fabric: &Fabric) -> bool
        requires { IsNodeOf fabric.now self.old }
        ensures looks { Looks self.old self.new }
        ensures idle { IsTrue result → IsIdle self.new }
        ensures of { IsNodeOf fabric.now self.new }
        ensures holds { KeepsAll self.old self.new }
    {
        self.idle(fabric) && (!fabric.is_last_stage() || fabric.close_answered())
    }

    /// Returns true if nothing is under way here, each segment of the running stage that leaves or
    /// enters this partition is complete and, in the last stage, no transaction waits. It looks at
    /// the words of a segment until node 1 reads complete, and never again.
    pub fn is_done(&mut self, fabric: &Fabric) -> bool
        requires { IsNodeOf fabric.now self.old }
        ensures looks { Looks self.old self.new }
        ensures done { IsTrue result → IsIdle self.new }
        ensures busy { result ≡ false → IsBusy fabric.now self.old self.new }
        ensures of { IsNodeOf fabric.now self.new }
        ensures holds { KeepsAll self.old self.new }
    {
        if !self.is_at_rest(fabric) {
            return false;
        }
        let part = self.core.part();
        see_all_complete(fabric, &mut self.seats, &mut self.complete, part)
    }

    /// Returns true if it gave up keys that aren't all cut and sent. A driver may ask before it
    /// lets the node give up more; no step does.
    pub fn is_giving_up(&self) -> bool {
        (0..self.core.parts()).map(PartId::new).any(|dst| self.core.may_cut(dst)
            || self.core.outbox(dst).is_some())
    }

    /// Returns true if no job waits here to be forwarded.
    pub fn has_forwarded(&self) -> bool {
        self.desk.is_sent()
    }

    /// Takes the node apart, without a copy.
    pub fn into_parts(self) -> NodeParts
        ensures part { result.part ≡ self.core.part }
        ensures store { result.core.store ≡ self.core.store }
        ensures waiting { txns_of result.core.waiting.arrivals ≡ self.core.waiting }
        ensures inboxes { result.core.inboxes.items ≡ self.core.inboxes }
        ensures outs { map (λ out. out.link) result.core.outs.items ≡ self.core.outs }
        ensures seats { result.seats.items ≡ self.seats }
        ensures sends { result.sends.items ≡ self.sends }
        ensures recvs { result.recvs.items ≡ self.recvs }
        ensures receipts { result.receipts.items ≡ self.receipts }
        ensures kept { (arrivals : List Arrival) × IsCore self.core arrivals }
    {
        let part = self.core.part();
        let (receipts, posts) = self.desk.into_parts();
        NodeParts {
            part,
            core: self.core.close(),
            seats: self.seats,
            sends: self.sends,
            recvs: self.recvs,
            receipts,
            posts,
            puller: self.puller,
        }
    }

    // Returns true if nothing is pending here and, in the last stage, each posted job is answered,
    // by the counts. Before the last stage, what is left continues in the next one.
    fn has_sent(&self, fabric: &Fabric) -> bool {
        self.desk.is_sent()
            && self.puller.pending().is_empty()
            && (!fabric.is_last_stage() || fabric.is_answered())
    }

    // Returns true if nothing is under way here and, in the last stage, no transaction waits.
    fn is_at_rest(&self, fabric: &Fabric) -> bool
        ensures quiet { IsTrue result → (other : ℕ) → IsQuiet self.now.core other }
        ensures settled { IsTrue result → AllSettled self.now.core self.now.seats }
        ensures waiting { IsTrue result → IsLastStage fabric.now → self.now.core.waiting ≡ [] }
        ensures work { result ≡ false → IsAtWork fabric.now self.now.core }
    {
        if self.has_late_jobs(fabric) {
            return false;
        }
        if !self.to_complete.is_empty() {
            return false;
        }
        self.is_quiet()
    }

    // Returns true if a transaction waits in the last stage.
    fn has_late_jobs(&self, fabric: &Fabric) -> bool
        ensures { IsTrue result
            ↔ (IsLastStage fabric.now × (0 < length self.now.core.waiting)) }
    {
        fabric.is_last_stage() && self.core.has_waiting()
    }

    // Returns true if nothing is under way between this partition and any other.
    fn is_quiet(&self) -> bool
        ensures quiet { IsTrue result → (other : ℕ) → IsQuiet self.now.core other }
        ensures work { result ≡ false → IsUnderWay self.now.core }
    {
        for number in 0..self.core.parts() {
            if !self.is_quiet_with(PartId::new(number)) {
                return false;
            }
        }
        true
    }

    // Returns true if nothing is under way between this partition and `part`.
    fn is_quiet_with(&self, part: PartId) -> bool
        ensures { IsTrue result ↔ IsQuiet self.now.core part }
    {
        self.core.inbox(part).is_none()
            && self.core.outbox(part).is_none()
            && !self.core.may_cut(part)
    }
}

// Returns true if each segment of the running stage that leaves or enters `part` is complete. It
// skips those whose flag in `complete` is set.
fn see_all_complete(
    fabric: &Fabric,
    seats: &mut Vec<TreeSeat>,
    complete: &mut Vec<bool>,
    part: PartId,
) -> bool
    requires seats { AreSeatsOf fabric.now.trees seats.old.items }
    requires flags { length complete.old.items ≡ length fabric.now.recon.segments }
    ensures looked { SeatsLooked seats.old.items seats.new.items }
    ensures flags { length complete.new.items ≡ length complete.old.items }
    ensures seen { AreSeen seats.old.items complete.old.items
        → AreSeen seats.new.items complete.new.items }
    ensures complete { IsTrue result
        → AreFlagged fabric.now.recon fabric.now.stage part complete.new.items }
    ensures undone { result ≡ false
        → SomeUndone fabric.now part seats.old.items seats.new.items }
{
    let trees = fabric.trees();
    let segments = fabric.recon().segments();
    for at in 0..segments.len() {
        if complete[at] || !is_of(fabric, &segments[at], part) {
            continue;
        }
        if !see_complete_at(trees, seats, complete, at) {
            return false;
        }
    }
    true
}

// Returns true if `segment` moves in the running stage, and leaves or enters `part`.
fn is_of(fabric: &Fabric, segment: &Range, part: PartId) -> bool
    ensures { result ≡ takes_part fabric.now.recon fabric.now.stage part segment.now }
{
    (segment.src == part || segment.dst == part)
        && fabric.recon().stage_on(segment.src, segment.dst) == fabric.stage()
}

// Returns true, and sets its flag in `complete`, if the whole of segment `at` reads complete.
pub(super) fn see_complete_at(
    trees: &[StatusTree],
    seats: &mut Vec<TreeSeat>,
    complete: &mut Vec<bool>,
    at: usize,
) -> bool
    requires seats { AreSeatsOf trees.now seats.old.items }
    requires segment { at < length trees.now }
    requires flag { at < length complete.old.items }
    ensures seats { AreSeatsOf trees.now seats.new.items }
    ensures looked { StepsAt at OnlyLooked seats.old.items seats.new.items }
    ensures flags { length complete.new.items ≡ length complete.old.items }
    ensures seen { AreSeen seats.old.items complete.old.items
        → AreSeen seats.new.items complete.new.items }
    ensures set { IsTrue result → slice_get complete.new.items at ≡ Some true }
    ensures kept { (seg : ℕ) → slice_get complete.old.items seg ≡ Some true
        → slice_get complete.new.items seg ≡ Some true }
    ensures undone { result ≡ false → StepsAt at FoundUndone seats.old.items seats.new.items }
{
    let reads = read_complete_at(trees, seats, at);
    if reads {
        complete[at] = true;
    }
    reads
}

// Returns true if the whole of segment `at` reads complete.
fn read_complete_at(trees: &[StatusTree], seats: &mut Vec<TreeSeat>, at: usize) -> bool
    requires seats { AreSeatsOf trees.now seats.old.items }
    requires segment { at < length trees.now }
    ensures seats { AreSeatsOf trees.now seats.new.items }
    ensures looked { StepsAt at OnlyLooked seats.old.items seats.new.items }
    ensures complete { IsTrue result → SawSegmentComplete seats.new.items at }
    ensures undone { result ≡ false → StepsAt at FoundUndone seats.old.items seats.new.items }
{
    reads_complete(&trees[at], &mut seats[at], NodeId::WHOLE)
}

// Returns true if the live node `node` reads complete: it is, or it is split and both halves do.
fn reads_complete(tree: &StatusTree, seat: &mut TreeSeat, node: NodeId) -> bool
    requires { seat.old.tree ≡ tree.now }
    ensures seat { IsSameSeat seat.old seat.new }
    ensures looked { OnlyLooked seat.old.view seat.new.view }
    ensures complete { IsTrue result → SawComplete seat.new.view node }
    ensures undone { result ≡ false → FoundUndone seat.old.view seat.new.view }
{
    match tree.look(seat, node) {
        Status::Complete(_) => true,
        Status::Split => {
            reads_complete(tree, seat, node.low_half())
                && reads_complete(tree, seat, node.high_half())
        }
        Status::Free | Status::Claimed(_) | Status::Partial(_) => false,
    }
}
