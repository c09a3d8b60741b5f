// The steps of a move at a partition.
ghost use Rattle.std.specs.Prelude.{◌≡◌, ◌<◌, true, if◌then◌else◌, length, map, Some, None, is_some, IfSome, IfOk, IfErr, IsErr, ◌↔◌, OnOk, OnErr, IsTrue};
ghost use Rattle.std.specs.List.{list_all};
ghost use Rattle.sq_store.specs.Prelude.{has_none_of};
ghost use Rattle.sq_store.specs.ChunkValue.{ChunkValue, IsChunk};
ghost use Rattle.sq_exec.specs.Runs.{is_whole};
ghost use Rattle.sq_exec.specs.OutLink.{cut_fault, may_cut};
ghost use Rattle.sq_exec.specs.CoreValue.{out_at, with_out, inbox_at, with_inbox, loaded_at};
ghost use Rattle.sq_exec.specs.Moving.{begun_core, can_load, may_load, load_fault, CutsFor, GivesChunk, LoadsFrom};

use crate::fault::{CutFault, LoadFault};
use crate::out_link::OutLink;
use crate::part_core::PartCore;
use crate::run::{add, is_met, is_whole};
use crate::work::Work;
use sq_moves::{Link, NodeId, SegId};
use sq_plan::PartId;
use sq_schema::Family;
use sq_store::{Chunk, FamilyStore, Note};
use std::alloc::AllocError;

impl<S: FamilyStore> PartCore<S> {
    /// Reserves room for what the next Begin adds.
    pub fn reserve_begin(&mut self) -> Result<(), AllocError>
        ensures same { self.new.core ≡ self.old.core }
        ensures numbering { self.new.numbering ≡ self.old.numbering }
        ensures ok { OnOk result (self.new.has_room ≡ true) }
    {
        reserve_work(&mut self.outs)
    }

    /// Begins `node` of segment `seg` for `pull`: gives up its keys, and adds them as the last work
    /// of the link to the segment's destination.
    pub fn begun(&mut self, seg: SegId, node: NodeId, pull: u32)
        requires room { self.old.has_room ≡ true }
        requires exists { seg < length self.old.core.recon.segments }
        ensures core { self.new.core ≡ begun_core self.old.core seg node pull }
        ensures numbering { self.new.numbering ≡ self.old.numbering }
    {
        let at = seg.number() as usize;
        let dst = self.recon.segments()[at].dst;
        let Some(keys) = self.recon.extent(seg, node) else {
            unreachable!()
        };
        self.outs[usize::from(dst.number())].add_work(Work::new(seg, node, pull, keys));
        self.given_up[at].add(node);
    }

    /// Returns true if a chunk for `dst` can be cut, memory permitting.
    pub fn may_cut(&self, dst: PartId) -> bool
        ensures { result ≡ may_cut (out_at self.now.core dst) }
    {
        match self.outs.get(usize::from(dst.number())) {
            Some(out) => out.may_cut(),
            None => false,
        }
    }

    /// Cuts a chunk for `dst` and returns its note. The chunk has the first families of the first
    /// node that was begun for a reactive pull, or, without such a node, of the first that was
    /// begun for an asynchronous one. Refused with [`CutFault::OutboxFull`] if the last chunk
    /// hasn't been sent, and with [`CutFault::NothingToCut`] if every node that was begun is cut to
    /// its end. A refusal changes nothing.
    pub fn cut(&mut self, dst: PartId) -> Result<Note, CutFault>
        ensures ok { IfOk result (λ note. CutsFor self.old.core dst note self.new.core) }
        ensures refusal { IfErr result (λ fault. fault ≡ cut_fault (out_at self.old.core dst)) }
        ensures err { OnErr result (self.new.core ≡ self.old.core) }
        ensures room { self.old.has_room ≡ true → self.new.has_room ≡ true }
        ensures numbering { self.new.numbering ≡ self.old.numbering }
    {
        let at = usize::from(dst.number());
        if at >= self.outs.len() {
            return Err(CutFault::NothingToCut);
        }
        let ends = Link {
            src: self.part,
            dst,
        };
        self.outs[at].cut(&mut self.store, ends, self.limit)
    }

    /// Takes the chunk for `dst` that isn't sent yet; `None` if there is none.
    pub fn take_outbox(&mut self, dst: PartId) -> Option<Chunk>
        ensures chunk { result ≡ (out_at self.old.core dst).outbox }
        ensures core { self.new.core ≡ with_out self.old.core dst
            (record (out_at self.old.core dst) { outbox = None }) }
        ensures room { self.new.has_room ≡ self.old.has_room }
        ensures numbering { self.new.numbering ≡ self.old.numbering }
    {
        let at = usize::from(dst.number());
        if at >= self.outs.len() {
            return None;
        }
        self.outs[at].take_outbox()
    }

    /// Puts back a chunk for `dst` that couldn't be sent.
    pub fn put_outbox(&mut self, dst: PartId, chunk: Chunk)
        requires exists { dst < length self.old.core.outs }
        requires empty { (out_at self.old.core dst).outbox ≡ None }
        ensures core { self.new.core ≡ with_out self.old.core dst
            (record (out_at self.old.core dst) { outbox = Some chunk }) }
        ensures room { self.new.has_room ≡ self.old.has_room }
        ensures numbering { self.new.numbering ≡ self.old.numbering }
    {
        self.outs[usize::from(dst.number())].put_outbox(chunk);
    }

    /// Puts a chunk from `src` into its inbox. If the inbox is full, `chunk` is returned.
    pub fn put_inbox(&mut self, src: PartId, chunk: Chunk) -> Result<(), Chunk>
        requires { src < length self.old.core.inboxes }
        ensures full { IsErr result ↔ (is_some (inbox_at self.old.core src) ≡ true) }
        ensures ok { OnOk result (self.new.core ≡ with_inbox self.old.core src (Some chunk)) }
        ensures chunk_returned { IfErr result (λ back. back ≡ chunk) }
        ensures err { OnErr result (self.new.core ≡ self.old.core) }
        ensures room { self.new.has_room ≡ self.old.has_room }
        ensures numbering { self.new.numbering ≡ self.old.numbering }
    {
        let inbox = &mut self.inboxes[usize::from(src.number())];
        if inbox.is_some() {
            return Err(chunk);
        }
        *inbox = Some(chunk);
        Ok(())
    }

    /// Returns true if a chunk from `src` came and can be loaded, memory permitting.
    pub fn may_load(&self, src: PartId) -> bool
        ensures can { result ≡ may_load self.now.core src }
        ensures chunk { IfSome (inbox_at self.now.core src) IsChunk }
    {
        match self.inbox(src) {
            Some(chunk) => self.can_load(src, chunk),
            None => false,
        }
    }

    /// Loads the chunk that came from `src`: all its families, or none if memory runs out. Refused
    /// with [`LoadFault::InboxEmpty`] if no chunk came. A refusal changes nothing.
    pub fn load(&mut self, src: PartId) -> Result<Note, LoadFault>
        requires { (chunk : ChunkValue) → inbox_at self.old.core src ≡ Some chunk
            → IsTrue (can_load self.old.core src chunk) }
        ensures ok { IfOk result (λ note. LoadsFrom self.old.core src note self.new.core) }
        ensures refusal { IfErr result (λ fault. fault ≡ load_fault self.old.core src) }
        ensures err { OnErr result (self.new.core ≡ self.old.core) }
        ensures room { self.new.has_room ≡ self.old.has_room }
        ensures numbering { self.new.numbering ≡ self.old.numbering }
    {
        let from = usize::from(src.number());
        if from >= self.inboxes.len() {
            return Err(LoadFault::InboxEmpty);
        }
        let Some(chunk) = &self.inboxes[from] else {
            return Err(LoadFault::InboxEmpty);
        };
        let covered = chunk.note();
        let runs = &mut self.loaded[covered.seg.number() as usize];
        runs.reserve(1)?;
        self.waiting.make_due(covered.lo, covered.hi)?;
        let note = give(&mut self.store, &mut self.inboxes[from])?;
        add(runs, &note);
        Ok(note)
    }

    /// Returns true if the last chunk of `node` was loaded.
    pub fn loaded_last(&self, seg: SegId, node: NodeId) -> bool
        ensures { result ≡ is_whole (loaded_at self.now.core seg) node }
    {
        match self.loaded.get(seg.number() as usize) {
            Some(runs) => is_whole(runs, node),
            None => false,
        }
    }

    // Returns true if `chunk`, which came from `src`, can be loaded.
    fn can_load(&self, src: PartId, chunk: &Chunk) -> bool
        ensures can { result ≡ can_load self.now.core src chunk.now }
        ensures chunk { IsChunk chunk.now }
    {
        let note = chunk.note();
        // For the proof alone: the node of a chunk is from 1 to 63.
        let _ = note.node.number();
        let families = chunk.families();
        let at = note.seg.number() as usize;
        let Some(segment) = self.recon.segments().get(at) else {
            return false;
        };
        let Some(keys) = self.recon.extent(note.seg, note.node) else {
            return false;
        };
        segment.src == src
            && segment.dst == self.part
            && keys.lo <= note.lo
            && note.hi <= keys.hi
            && !is_met(&self.loaded[at], &note)
            && self.has_none_of(families)
    }

    // Returns true if the store has no family with the root key of one of `families`.
    fn has_none_of(&self, families: &[Family]) -> bool
        ensures { result ≡ has_none_of self.now.core.store families.now }
    {
        families
            .iter()
            .all(|family| self.store.get(family.root()).is_none())
    }
}

// Reserves room for one more piece of work at each end of a link.
fn reserve_work(outs: &mut [OutLink]) -> Result<(), AllocError>
    ensures same { map (λ out. out.link) outs.new ≡ map (λ out. out.link) outs.old }
    ensures ok { OnOk result (list_all (λ out. out.has_room) outs.new ≡ true) }
{
    for out in outs.iter_mut() {
        out.reserve_work()?;
    }
    Ok(())
}

// Moves the families of the chunk in an inbox to the store. If memory runs out, the chunk stays.
fn give<S: FamilyStore>(store: &mut S, inbox: &mut Option<Chunk>) -> Result<Note, LoadFault>
    requires { (chunk : ChunkValue) → inbox.old ≡ Some chunk
        → IsTrue (has_none_of (S.contents store.old) chunk.families) }
    ensures ok { IfOk result (λ note.
        GivesChunk inbox.old (S.contents store.old) note inbox.new (S.contents store.new)) }
    ensures refusal { IfErr result (λ fault. fault
        ≡ (if is_some inbox.old then LoadFault.Memory else LoadFault.InboxEmpty)) }
    ensures err { OnErr result ((inbox.new ≡ inbox.old)
        × (S.contents store.new ≡ S.contents store.old)) }
{
    let Some(chunk) = inbox.take() else {
        return Err(LoadFault::InboxEmpty);
    };
    let (note, families) = chunk.into_parts();
    if let Err(back) = store.give(families) {
        *inbox = Some(Chunk::new(note, back));
        return Err(LoadFault::Memory);
    }
    Ok(note)
}
