// The steps of the split trees.
ghost use Rattle.std.specs.Prelude.{◌≡◌, ◌<◌, length, true, Ok, Err, is_ok, if◌then◌else◌};
ghost use Rattle.sq_moves.specs.declared.status.Status.{Status};
ghost use Rattle.sq_moves.specs.Prelude.{status_at, with_status, split_answer, claim_answer, begin_answer, complete_answer};
ghost use Rattle.sq_model.specs.declared.answer.Answer.{Answer};
ghost use Rattle.sq_model.specs.declared.step.Step.{Step};
ghost use Rattle.sq_model.specs.Prelude.{split_answered, claim_answered, begin_answered, complete_answered};
ghost use Rattle.sq_transition.specs.Prelude.{source_of, destination_of, split_result, claim_result, begin_result, complete_result, status_result, is_loaded_whole, IsResult};
ghost use Rattle.sq_world.specs.Results.{answer_of, done_or};
ghost use Rattle.sq_world.specs.Sound.{IsSound};

use crate::state::{State, named_node};
use sq_model::{Answer, Refusal};
use sq_moves::{ClaimFault, CompleteFault, NodeId, PlainTree, SegId, SplitFault, Status};

impl State {
    /// Splits `node` of segment `seg`.
    pub(crate) fn split(&mut self, seg: u64, node: u64) -> Result<Answer, Refusal>
        requires { IsSound self.old }
        ensures { (answer_of result, self.new) ≡ split_result self.old seg node }
    {
        self.check_moving()?;
        let seg = self.segment(seg)?;
        let node = named_node(node)?;
        split_node(&mut self.trees[seg.index()], node)?;
        Ok(Answer::Done)
    }

    /// Claims `node` of segment `seg` for `pull`.
    pub(crate) fn claim(&mut self, seg: u64, node: u64, pull: u32) -> Result<Answer, Refusal>
        requires { IsSound self.old }
        ensures { (answer_of result, self.new) ≡ claim_result self.old seg node pull }
    {
        self.check_moving()?;
        let seg = self.segment(seg)?;
        let node = named_node(node)?;
        claim_node(&mut self.trees[seg.index()], node, pull)?;
        Ok(Answer::Done)
    }

    /// Gives `node` of segment `seg` up to `pull`, which claimed it; all of it is then to be cut at
    /// its source. If memory runs out, nothing changes.
    pub(crate) fn begin(&mut self, seg: u64, node: u64, pull: u32) -> Result<Answer, Refusal>
        requires { IsSound self.old }
        ensures { IsResult (Step.Begin seg node pull) self.old (begin_result self.old seg node pull)
            (answer_of result) self.new }
    {
        self.check_moving()?;
        let seg = self.segment(seg)?;
        let node = named_node(node)?;
        check_begin(&self.trees[seg.index()], node, pull)?;
        let src = self.recon.segments()[seg.index()].src;
        let source = &mut self.cores[usize::from(src.number())];
        if source.reserve_begin().is_err() {
            return Err(Refusal::Memory);
        }
        begin_node(&mut self.trees[seg.index()], node, pull);
        source.begun(seg, node, pull);
        Ok(Answer::Done)
    }

    /// Completes `node` of segment `seg` for `pull`; refused until its last chunk is loaded.
    pub(crate) fn complete(&mut self, seg: u64, node: u64, pull: u32) -> Result<Answer, Refusal>
        requires { IsSound self.old }
        ensures { (answer_of result, self.new) ≡ complete_result self.old seg node pull }
    {
        self.check_moving()?;
        let seg = self.segment(seg)?;
        let node = named_node(node)?;
        let loaded = self.is_loaded_whole(seg, node);
        complete_node(&mut self.trees[seg.index()], node, pull, loaded)?;
        Ok(Answer::Done)
    }

    /// Returns the status of `node` in segment `seg`, and its reading.
    pub(crate) fn status_of(&self, seg: u64, node: u64) -> Result<Answer, Refusal>
        requires { IsSound self.now }
        ensures { (answer_of result, self.now) ≡ status_result self.now seg node }
    {
        let seg = self.segment(seg)?;
        let node = named_node(node)?;
        let tree = &self.trees[seg.index()];
        Ok(Answer::Reads {
            status: tree.status(node),
            reading: tree.reads(node),
        })
    }

    // Returns true if the last chunk of `node` is loaded at its destination.
    fn is_loaded_whole(&self, seg: SegId, node: NodeId) -> bool
        requires sound { IsSound self.now }
        requires exists { seg < length self.now.recon.segments }
        ensures { result ≡ is_loaded_whole self.now seg node }
    {
        let dst = self.recon.segments()[seg.index()].dst;
        self.cores[usize::from(dst.number())].loaded_last(seg, node)
    }
}

fn split_node(tree: &mut PlainTree, node: NodeId) -> Result<(), Refusal>
    ensures answer { done_or result ≡ split_answered (split_answer (status_at tree.old) node) }
    ensures after { tree.new ≡
        (if is_ok result then with_status tree.old node Status.Split else tree.old) }
{
    tree.split(node).map_err(split_refusal)
}

fn claim_node(tree: &mut PlainTree, node: NodeId, pull: u32) -> Result<(), Refusal>
    ensures answer { done_or result ≡ claim_answered (claim_answer (status_at tree.old) node pull) }
    ensures after { tree.new ≡ (if is_ok result then with_status tree.old node
        (Status.Claimed pull) else tree.old) }
{
    tree.claim(node, pull).map_err(claim_refusal)
}

// Refuses unless `node` may be given up to `pull`.
fn check_begin(tree: &PlainTree, node: NodeId, pull: u32) -> Result<(), Refusal>
    ensures { done_or result ≡ begin_answered (begin_answer (status_at tree.now) node pull) }
{
    match tree.status(node) {
        Status::Claimed(by) if by == pull => Ok(()),
        Status::Claimed(_) => Err(Refusal::WrongPull),
        _ => Err(Refusal::NotClaimed),
    }
}

// Gives `node` up to `pull`, which may have it.
fn begin_node(tree: &mut PlainTree, node: NodeId, pull: u32)
    requires { begin_answer (status_at tree.old) node pull ≡ Ok tt }
    ensures { tree.new ≡ with_status tree.old node (Status.Partial pull) }
{
    let Ok(()) = tree.begin(node, pull) else {
        unreachable!()
    };
}

// Completes `node` for `pull`, which began it, if its last chunk is `loaded`.
fn complete_node(tree: &mut PlainTree, node: NodeId, pull: u32, loaded: bool) -> Result<(), Refusal>
    ensures answer { done_or result
        ≡ complete_answered loaded (complete_answer (status_at tree.old) node pull) }
    ensures after { tree.new ≡ (if is_ok result then with_status tree.old node
        (Status.Complete pull) else tree.old) }
{
    match tree.status(node) {
        Status::Partial(by) if by == pull && !loaded => Err(Refusal::NotLoaded),
        _ => tree.complete(node, pull).map_err(complete_refusal),
    }
}

// Returns why a split was refused.
fn split_refusal(fault: SplitFault) -> Refusal
    ensures { Answer.Refused result ≡ split_answered (Err fault) }
{
    match fault {
        SplitFault::IsLeaf => Refusal::IsLeaf,
        SplitFault::NotLive => Refusal::NotLive,
        SplitFault::NotFree(_) => Refusal::NotFree,
    }
}

// Returns why a claim was refused.
fn claim_refusal(fault: ClaimFault) -> Refusal
    ensures { Answer.Refused result ≡ claim_answered (Err fault) }
{
    match fault {
        ClaimFault::NotLive => Refusal::NotLive,
        ClaimFault::NotFree(_) => Refusal::NotFree,
    }
}

// Returns why the completion of a loaded node was refused.
fn complete_refusal(fault: CompleteFault) -> Refusal
    ensures { Answer.Refused result ≡ complete_answered true (Err fault) }
{
    match fault {
        CompleteFault::NotPartial(_) => Refusal::NotPartial,
        CompleteFault::WrongPull => Refusal::WrongPull,
    }
}
