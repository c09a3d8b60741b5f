// The source's end of a link.
ghost use Rattle.std.specs.Prelude.{◌≡◌, ◌++◌, ◌∷◌, [], true, false, IfOk, IfErr, OnOk, OnErr};
ghost use Rattle.std.specs.Option.{option_copied};
ghost use Rattle.sq_exec.specs.OutLink.{new_out_link, note_for, may_cut, cut_fault, IsCut};

use crate::fault::CutFault;
use crate::work::{Work, go_on, next_work};
use sq_moves::Link;
use sq_store::{Chunk, FamilyStore, Note, cut_next};
use std::alloc::{AllocError, Global};
use std::marker::Model;

/// The source's end of a link: the notes of all chunks that were cut for it, the nodes that were
/// begun and aren't cut to their ends yet, and the chunk to be sent. To a contract it is an
/// `OutLinkValue`, with whether there is room for one more piece of work.
#[derive(Debug, Drop)]
pub struct OutLink {
    notes: Vec<Note>,
    work: Vec<Work>,
    outbox: Option<Chunk>,
}

impl Model for OutLink {
    ghost use Rattle.std.specs.Prelude.{nat_lt, vec_len, vec_capacity};
    ghost use Rattle.sq_exec.specs.OutLink.{RoomyOutLink};

    ghost Value = { RoomyOutLink };

    ghost view = { λ l. record {
      link = record { notes = l.notes.items; work = l.work.items; outbox = l.outbox };
      has_room = nat_lt (vec_len l.work) (vec_capacity l.work);
    } };
}

impl OutLink {
    /// Creates the end of a link before any node was begun.
    pub(crate) fn new(alloc: Global) -> OutLink
        ensures { result.link ≡ new_out_link }
    {
        OutLink {
            notes: Vec::new(alloc),
            work: Vec::new(alloc),
            outbox: None,
        }
    }

    /// Returns the notes of all chunks that were cut for the link, in order.
    pub fn notes(&self) -> &[Note]
        ensures { result.now ≡ self.now.link.notes }
    {
        &self.notes
    }

    /// Returns the chunk that was cut and isn't sent yet; `None` if there is none.
    pub fn outbox(&self) -> Option<&Chunk>
        ensures { option_copied result ≡ self.now.link.outbox }
    {
        self.outbox.as_ref()
    }

    /// Returns the notes of all chunks that were cut for the link, and the chunk that isn't sent
    /// yet.
    pub fn into_parts(self) -> (Vec<Note>, Option<Chunk>)
        ensures notes { result.0.items ≡ self.link.notes }
        ensures outbox { result.1 ≡ self.link.outbox }
    {
        (self.notes, self.outbox)
    }

    /// Reserves room for one more piece of work.
    pub(crate) fn reserve_work(&mut self) -> Result<(), AllocError>
        ensures same { self.new.link ≡ self.old.link }
        ensures ok { OnOk result (self.new.has_room ≡ true) }
    {
        self.work.reserve(1)
    }

    /// Adds `work` after all other work.
    pub(crate) fn add_work(&mut self, work: Work)
        requires { self.old.has_room ≡ true }
        ensures { self.new.link ≡ record self.old.link { work = self.old.link.work ++ work ∷ [] } }
    {
        self.work.push_reserved(work);
    }

    /// Returns true if a chunk can be cut, memory permitting.
    pub(crate) fn may_cut(&self) -> bool
        ensures { result ≡ may_cut self.now.link }
    {
        self.outbox.is_none() && !self.work.is_empty()
    }

    /// Cuts a chunk of the next work out of the `store` of the source: the first family, and as
    /// many more as fit with it into `limit` bytes. A refusal changes nothing.
    pub(crate) fn cut<S: FamilyStore>(
        &mut self,
        store: &mut S,
        ends: Link,
        limit: u64,
    ) -> Result<Note, CutFault>
        ensures ok { IfOk result
            (λ note. IsCut limit ends self.old.link (S.contents store.old) note self.new.link
            (S.contents store.new)) }
        ensures refusal { IfErr result (λ fault. fault ≡ cut_fault self.old.link) }
        ensures err { OnErr result ((self.new.link ≡ self.old.link)
            × (S.contents store.new ≡ S.contents store.old)) }
        ensures room { self.old.has_room ≡ true → self.new.has_room ≡ true }
    {
        if self.outbox.is_some() {
            return Err(CutFault::OutboxFull);
        }
        let Some(at) = next_work(&self.work) else {
            return Err(CutFault::NothingToCut);
        };
        let work = self.work[at];
        self.notes.reserve(1)?;
        let base = self.note_base(ends, work);
        let chunk = cut_next(store, base, work.rest(), limit)?;
        let note = chunk.note();
        go_on(&mut self.work, at, note.hi);
        self.notes.push_reserved(chunk.note());
        self.outbox = Some(chunk);
        Ok(note)
    }

    // Returns the note of a chunk of `work`, before its keys are known.
    fn note_base(&self, ends: Link, work: Work) -> Note
        ensures { result ≡ record (note_for ends self.now.link work work.rest) { last = false } }
    {
        Note {
            src: ends.src,
            dst: ends.dst,
            number: self.notes.len() as u64,
            seg: work.seg(),
            node: work.node(),
            lo: work.rest().lo,
            hi: work.rest().lo,
            last: false,
        }
    }

    /// Takes the chunk that isn't sent yet.
    pub(crate) fn take_outbox(&mut self) -> Option<Chunk>
        ensures chunk { result ≡ self.old.link.outbox }
        ensures link { self.new.link ≡ record self.old.link { outbox = None } }
        ensures room { self.new.has_room ≡ self.old.has_room }
    {
        self.outbox.take()
    }

    /// Puts back a chunk that couldn't be sent.
    pub(crate) fn put_outbox(&mut self, chunk: Chunk)
        ensures link { self.new.link ≡ record self.old.link { outbox = Some chunk } }
        ensures room { self.new.has_room ≡ self.old.has_room }
    {
        self.outbox = Some(chunk);
    }
}
