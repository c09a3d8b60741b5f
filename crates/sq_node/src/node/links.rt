// The steps of a node on its links.
ghost use Rattle.std.specs.Prelude.{◌≡◌, ℕ, ◌<◌, true, false, length, MatchBool, IfSome, IfNone};
ghost use Rattle.sq_store.specs.ChunkValue.{IsChunk};
ghost use Rattle.sq_exec.specs.Prelude.{out_at, inbox_at, may_cut};
ghost use Rattle.sq_node.specs.FabricValue.{FabricValue};
ghost use Rattle.sq_node.specs.NodeState.{IsNodeOf};
ghost use Rattle.sq_node.specs.Holds.{KeepsAll, DoesAndKeeps, HasNoneLoadable};
ghost use Rattle.sq_node.specs.Steps.{SendsChunk, Receives, HasNoneToCut, HasNoneToSend, HasNoneToReceive, CutStep, SendStep, RecvStep, LoadStep, may_load_now};

use super::Node;
use crate::fabric::Fabric;
use crate::stepped::Stepped;
use sq_plan::PartId;
use sq_store::Chunk;
use std::sync::Wait;

impl Node {
    /// Cuts a chunk for the first partition for which one can be cut.
    pub fn step_cut(&mut self) -> Stepped
        ensures step { CutStep self.old result self.new }
        ensures of { (fabric : FabricValue) → IsNodeOf fabric self.old → IsNodeOf fabric self.new }
        ensures holds { KeepsAll self.old self.new }
    {
        let Some(dst) = self.next_cut() else {
            return Stepped::Nothing;
        };
        match self.core.cut(dst) {
            Ok(_) => {
                let families = self.families_cut(dst);
                self.effort.add_chunk(families);
                Stepped::Did
            }
            Err(_) => Stepped::Memory,
        }
    }

    // Returns how many families the chunk has that was cut for partition `dst` and isn't sent yet.
    fn families_cut(&self, dst: PartId) -> usize {
        self.core.outbox(dst).map_or(0, Chunk::len)
    }

    // Returns the first partition for which a chunk can be cut.
    fn next_cut(&self) -> Option<PartId>
        ensures some { IfSome result (λ dst. may_cut (out_at self.now.core dst) ≡ true) }
        ensures first { IfSome result (λ dst. (lower : ℕ) → lower < dst
            → HasNoneToCut self.now.core lower) }
        ensures none { IfNone result ((dst : ℕ) → HasNoneToCut self.now.core dst) }
    {
        for number in 0..self.core.parts() {
            let dst = PartId::new(number);
            if self.core.may_cut(dst) {
                return Some(dst);
            }
        }
        None
    }

    /// Sends the chunk for the first partition whose link has room for it.
    pub fn step_send<R: Wait>(&mut self, rt: &R, fabric: &Fabric) -> Stepped
        requires { IsNodeOf fabric.now self.old }
        ensures { DoesAndKeeps fabric.now (SendStep fabric.now) self.old result self.new }
    {
        for number in 0..fabric.parts() {
            if self.send_to(rt, fabric, PartId::new(number)) {
                return Stepped::Did;
            }
        }
        Stepped::Nothing
    }

    // Sends the chunk for partition `dst`, if there is one and its link has room for it.
    fn send_to<R: Wait>(&mut self, rt: &R, fabric: &Fabric, dst: PartId) -> bool
        requires node { IsNodeOf fabric.now self.old }
        requires part { dst < fabric.now.parts }
        ensures { MatchBool result (SendsChunk self.old dst self.new) ((self.new ≡ self.old)
            × HasNoneToSend fabric.now self.old dst) }
    {
        if self.core.outbox(dst).is_none() {
            return false;
        }
        let Some(chunk) = self.core.take_outbox(dst) else {
            return false;
        };
        match self.sends[usize::from(dst.number())].send(rt, fabric.links(), chunk) {
            Ok(()) => true,
            Err(back) => {
                self.core.put_outbox(dst, back);
                false
            }
        }
    }

    /// Receives a chunk from the first partition whose link has one and whose inbox is empty.
    pub fn step_recv<R: Wait>(&mut self, rt: &R, fabric: &Fabric) -> Stepped
        requires { IsNodeOf fabric.now self.old }
        ensures { DoesAndKeeps fabric.now RecvStep self.old result self.new }
    {
        for number in 0..fabric.parts() {
            if self.recv_from(rt, fabric, PartId::new(number)) {
                return Stepped::Did;
            }
        }
        Stepped::Nothing
    }

    // Receives a chunk from partition `src`, if its link has one and its inbox is empty.
    fn recv_from<R: Wait>(&mut self, rt: &R, fabric: &Fabric, src: PartId) -> bool
        requires node { IsNodeOf fabric.now self.old }
        requires part { src < fabric.now.parts }
        ensures { MatchBool result (Receives self.old src self.new) ((self.new ≡ self.old)
            × HasNoneToReceive self.old src) }
    {
        if self.core.inbox(src).is_some() {
            return false;
        }
        let Some(chunk) = self.recvs[usize::from(src.number())].recv(rt, fabric.links()) else {
            return false;
        };
        self.core.put_inbox(src, chunk).is_ok()
    }

    /// Loads the received chunk of the first partition whose chunk can be loaded.
    pub fn step_load(&mut self, fabric: &Fabric) -> Stepped
        requires { IsNodeOf fabric.now self.old }
        ensures makes { DoesAndKeeps fabric.now LoadStep self.old result self.new }
        ensures nothing { result ≡ Stepped.Nothing → HasNoneLoadable self.old }
    {
        let Some(src) = self.next_load(fabric) else {
            return Stepped::Nothing;
        };
        if self.to_complete.reserve(1).is_err() {
            return Stepped::Memory;
        }
        let families = self.core.inbox(src).map_or(0, Chunk::len);
        let bytes = self.core.inbox(src).map_or(0, bytes_of);
        let Ok(note) = self.core.load(src) else {
            return Stepped::Memory;
        };
        self.effort.add_load(families, bytes);
        if note.last {
            self.to_complete.push_reserved((note.seg, note.node));
        }
        Stepped::Did
    }

    // Returns the first partition whose received chunk can be loaded.
    fn next_load(&self, fabric: &Fabric) -> Option<PartId>
        requires { IsNodeOf fabric.now self.now }
        ensures some { IfSome result (λ src. may_load_now self.now.core src ≡ true) }
        ensures first { IfSome result (λ src. (lower : ℕ) → lower < src
            → may_load_now self.now.core lower ≡ false) }
        ensures chunk { IfSome result (λ src. IfSome (inbox_at self.now.core src) IsChunk) }
        ensures chunks { IfNone result ((src : ℕ) → IfSome (inbox_at self.now.core src) IsChunk) }
        ensures each { length self.now.core.loaded ≡ length self.now.core.recon.segments }
        ensures none { IfNone result ((src : ℕ) → may_load_now self.now.core src ≡ false) }
    {
        for number in 0..self.core.parts() {
            let src = PartId::new(number);
            if self.may_load_from(fabric, src) {
                return Some(src);
            }
        }
        None
    }

    // Returns true if the chunk received from `src` can be loaded, and keys move from `src` to this
    // partition in the running stage.
    fn may_load_from(&self, fabric: &Fabric, src: PartId) -> bool
        requires { IsNodeOf fabric.now self.now }
        ensures may { result ≡ may_load_now self.now.core src }
        ensures chunk { IfSome (inbox_at self.now.core src) IsChunk }
    {
        self.core.may_load(src) && fabric.recon().stage_on(src, self.core.part()) == fabric.stage()
    }
}

// Returns how many bytes the families of `chunk` have.
fn bytes_of(chunk: &Chunk) -> u64 {
    let families = chunk.families().iter();
    families.fold(0, |bytes: u64, family| bytes.saturating_add(family.size()))
}
