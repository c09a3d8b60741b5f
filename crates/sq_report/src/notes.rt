// The counts of the notes and the chunks of a link.
ghost use Rattle.std.specs.Prelude.{◌≡◌, length, sum_by, option_copied};
ghost use Rattle.sq_store.specs.Prelude.{families_between, FirstIs};
ghost use Rattle.sq_report.specs.Notes.{told, covered_keys, stored_in};

use sq_schema::Family;
use sq_store::{Chunk, FamilyStore, Note, SlabStore};

/// How many root keys `notes` cover. Here and below a count stays at the largest 64-bit number if
/// it doesn't fit.
pub(crate) fn count_keys(notes: &[Note]) -> u64
    ensures { result ≡ told (sum_by covered_keys notes.now) }
{
    let mut count: u64 = 0;
    for note in notes {
        count = count.saturating_add(note.hi.saturating_sub(note.lo));
    }
    count
}

/// How many families `store` has with root keys that `notes` cover.
pub(crate) fn count_stored(store: &SlabStore, notes: &[Note]) -> u64
    ensures { result ≡ told (sum_by (stored_in store.now) notes.now) }
{
    let mut count: u64 = 0;
    for note in notes {
        count = count.saturating_add(count_between(store, note.lo, note.hi));
    }
    count
}

// How many families `store` has with root keys from `lo` up to but not including `hi`.
fn count_between(store: &SlabStore, lo: u64, hi: u64) -> u64
    ensures { result ≡ length (families_between store.now lo hi) }
{
    let mut at = lo;
    let mut count = 0;
    while let Some(family) = first(store, at, hi) {
        count += 1;
        at = family.root().number() + 1;
    }
    count
}

/// The first family of `store` with a root key from `lo` up to but not including `hi`.
pub(crate) fn first(store: &SlabStore, lo: u64, hi: u64) -> Option<&Family>
    ensures { FirstIs store.now lo hi (option_copied result) }
{
    let family = store.walk(lo)?;
    if family.root().number() < hi {
        Some(family)
    } else {
        None
    }
}

/// How many families chunks hold.
pub(crate) fn count_under_way(chunks: &[Chunk]) -> u64
    ensures { result ≡ told (sum_by (λ chunk. length chunk.families) chunks.now) }
{
    let mut count: u64 = 0;
    for chunk in chunks {
        count = count.saturating_add(chunk.len() as u64);
    }
    count
}
