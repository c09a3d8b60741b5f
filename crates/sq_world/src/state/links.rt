// The steps of the links.
ghost use Rattle.std.specs.Prelude.{◌≡◌};
ghost use Rattle.std.specs.Option.{option_copied};
ghost use Rattle.sq_transition.specs.Prelude.{link_index, push_result, pop_result, cut_result, load_result, IsResult};
ghost use Rattle.sq_model.specs.declared.step.Step.{Step};
ghost use Rattle.sq_world.specs.Results.{answer_of, running_link, cut_refused, load_refused, families_of};
ghost use Rattle.sq_world.specs.Sound.{IsSound};

use crate::state::State;
use sq_exec::{CutFault, LoadFault};
use sq_model::{Answer, Refusal};
use sq_plan::PartId;
use sq_store::Chunk;

// The place of a link's queue, and the partitions at the link's ends.
#[derive(Clone, Copy)]
struct LinkPlace {
    at: usize,
    src: PartId,
    dst: PartId,
}

impl State {
    /// Pushes the chunk that was cut at `src` onto its link to `dst`.
    pub(crate) fn push(&mut self, src: u64, dst: u64) -> Result<Answer, Refusal>
        requires { IsSound self.old }
        ensures { (answer_of result, self.new) ≡ push_result self.old src dst }
    {
        self.check_moving()?;
        let link = self.running_link(src, dst)?;
        let source = usize::from(link.src.number());
        if self.cores[source].outbox(link.dst).is_none() {
            return Err(Refusal::OutboxEmpty);
        }
        if self.queues[link.at].len() as u64 >= self.config.capacity {
            return Err(Refusal::LinkFull);
        }
        let Some(chunk) = self.cores[source].take_outbox(link.dst) else {
            unreachable!()
        };
        self.queues[link.at].push(chunk);
        Ok(Answer::Done)
    }

    /// Pops the oldest chunk off the link from `src` into the inbox at `dst`.
    pub(crate) fn pop(&mut self, src: u64, dst: u64) -> Result<Answer, Refusal>
        requires { IsSound self.old }
        ensures { (answer_of result, self.new) ≡ pop_result self.old src dst }
    {
        self.check_moving()?;
        let link = self.running_link(src, dst)?;
        let destination = usize::from(link.dst.number());
        if self.cores[destination].inbox(link.src).is_some() {
            return Err(Refusal::InboxFull);
        }
        let Some(chunk) = self.queues[link.at].pop() else {
            return Err(Refusal::LinkEmpty);
        };
        let Ok(()) = self.cores[destination].put_inbox(link.src, chunk) else {
            unreachable!()
        };
        Ok(Answer::Done)
    }

    /// Cuts a chunk of the next work at `src` for its link to `dst`. If memory runs out, nothing
    /// changes.
    pub(crate) fn cut(&mut self, src: u64, dst: u64) -> Result<Answer, Refusal>
        requires { IsSound self.old }
        ensures { IsResult (Step.Cut src dst) self.old (cut_result self.old src dst)
            (answer_of result) self.new }
    {
        self.check_moving()?;
        let link = self.running_link(src, dst)?;
        let source = &mut self.cores[usize::from(link.src.number())];
        match source.cut(link.dst) {
            Ok(note) => Ok(Answer::WasCut {
                note,
                families: count(source.outbox(link.dst)),
            }),
            Err(fault) => Err(cut_refusal(fault)),
        }
    }

    /// Loads the chunk in the inbox at `dst` that came from `src`. If memory runs out, nothing
    /// changes.
    pub(crate) fn load(&mut self, src: u64, dst: u64) -> Result<Answer, Refusal>
        requires { IsSound self.old }
        ensures { IsResult (Step.Load src dst) self.old (load_result self.old src dst)
            (answer_of result) self.new }
    {
        self.check_moving()?;
        let link = self.running_link(src, dst)?;
        let destination = &mut self.cores[usize::from(link.dst.number())];
        let families = count(destination.inbox(link.src));
        match destination.load(link.src) {
            Ok(note) => Ok(Answer::WasLoaded { note, families }),
            Err(fault) => Err(load_refusal(fault)),
        }
    }

    // Returns the link from `src` to `dst`; refused if the running stage has no such link.
    fn running_link(&self, src: u64, dst: u64) -> Result<LinkPlace, Refusal>
        ensures { result ≡ running_link self.now src dst }
    {
        let Some(at) = self.link_at(src, dst) else {
            return Err(Refusal::NoSuchLink);
        };
        let queue = &self.queues[at];
        let (src, dst) = (queue.src(), queue.dst());
        if self.recon.stage_on(src, dst) == self.stage() {
            Ok(LinkPlace { at, src, dst })
        } else {
            Err(Refusal::NoSuchLink)
        }
    }

    // Returns the place of the link from `src` to `dst`; `None` if there is none.
    pub(super) fn link_at(&self, src: u64, dst: u64) -> Option<usize>
        ensures { result ≡ link_index self.now src dst }
    {
        self.queues.iter().position(|queue| queue.joins(src, dst))
    }
}

// Returns the number of families in a chunk; 0 without a chunk.
fn count(chunk: Option<&Chunk>) -> u64
    ensures { result ≡ families_of (option_copied chunk.entry) }
{
    match chunk {
        Some(chunk) => chunk.len() as u64,
        None => 0,
    }
}

// Returns why a cut was refused.
fn cut_refusal(fault: CutFault) -> Refusal
    ensures { result ≡ cut_refused fault }
{
    match fault {
        CutFault::OutboxFull => Refusal::OutboxFull,
        CutFault::NothingToCut => Refusal::NothingToCut,
        CutFault::Memory => Refusal::Memory,
    }
}

// Returns why a load was refused.
fn load_refusal(fault: LoadFault) -> Refusal
    ensures { result ≡ load_refused fault }
{
    match fault {
        LoadFault::InboxEmpty => Refusal::InboxEmpty,
        LoadFault::Memory => Refusal::Memory,
    }
}
