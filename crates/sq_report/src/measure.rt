// The rows and the bytes of what moved along a link.
ghost use Rattle.std.specs.Prelude.{◌≡◌, sum_by};
ghost use Rattle.sq_store.specs.Prelude.{families_between};
ghost use Rattle.sq_report.specs.Notes.{told};
ghost use Rattle.sq_report.specs.Measures.{measure_of, stored_measure, carried_measure, link_measure};

use crate::notes::first;
use sq_gather::ClosedLink;
use sq_schema::Family;
use sq_store::{Chunk, Note, SlabStore};

/// What is summed over families.
#[derive(Clone, Copy, Debug, PartialEq, Eq)]
pub(crate) enum Measure {
    Rows,
    Bytes,
}

impl Measure {
    // The measure of a family.
    fn of(self, family: &Family) -> u64
        ensures { result ≡ measure_of self family.now }
    {
        match self {
            Measure::Rows => family.rows().len() as u64,
            Measure::Bytes => family.size(),
        }
    }

    // The measure of the families of `store` with root keys from `lo` up to but not including `hi`.
    // Here and below a sum stays at the largest 64-bit number if it doesn't fit.
    fn between(self, store: &SlabStore, lo: u64, hi: u64) -> u64
        ensures { result ≡ told (sum_by (measure_of self) (families_between store.now lo hi)) }
    {
        let mut at = lo;
        let mut sum: u64 = 0;
        while let Some(family) = first(store, at, hi) {
            sum = sum.saturating_add(self.of(family));
            at = family.root().number() + 1;
        }
        sum
    }

    // The measure of the families of `store` with root keys that `notes` cover.
    fn stored(self, store: &SlabStore, notes: &[Note]) -> u64
        ensures { result ≡ told (sum_by (stored_measure self store.now) notes.now) }
    {
        let mut sum: u64 = 0;
        for note in notes {
            sum = sum.saturating_add(self.between(store, note.lo, note.hi));
        }
        sum
    }

    // The measure of the families in a chunk.
    fn carried(self, chunk: &Chunk) -> u64
        ensures { result ≡ told (carried_measure self chunk.now) }
    {
        let mut sum: u64 = 0;
        for family in chunk.families() {
            sum = sum.saturating_add(self.of(family));
        }
        sum
    }

    // The measure of the families in chunks.
    fn under_way(self, chunks: &[Chunk]) -> u64
        ensures { result ≡ told (sum_by (carried_measure self) chunks.now) }
    {
        let mut sum: u64 = 0;
        for chunk in chunks {
            sum = sum.saturating_add(self.carried(chunk));
        }
        sum
    }

    /// The measure of the families with root keys that the notes of a link cover: those at its
    /// destination, whose store is among `stores`, and those in its chunks under way.
    pub(crate) fn of_link(self, stores: &[SlabStore], link: &ClosedLink) -> u64
        ensures { result ≡ told (link_measure self stores.now link.now) }
    {
        let at_destination = match stores.get(usize::from(link.dst.number())) {
            Some(store) => self.stored(store, &link.notes),
            None => 0,
        };
        at_destination.saturating_add(self.under_way(&link.under_way))
    }
}
