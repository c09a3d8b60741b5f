// The counts of a link, and of a partition.
ghost use Rattle.std.specs.Prelude.{◌≡◌};
ghost use Rattle.sq_report.specs.Notes.{told};
ghost use Rattle.sq_report.specs.Counts.{families_covered, link_count, counted};

use crate::notes::{count_keys, count_stored, count_under_way};
use sq_gather::ClosedLink;
use sq_live::count_commits;
use sq_node::Receipt;
use sq_plan::PartId;
use sq_store::SlabStore;

/// What moved along a link.
#[derive(Clone, Copy, Debug, PartialEq, Eq)]
pub struct LinkCount {
    /// The partition that it leads from.
    pub src: PartId,
    /// The partition that it leads to.
    pub dst: PartId,
    /// How many root keys its chunks cover, with families or without.
    pub keys: u64,
    /// How many families these root keys have, at the destination and in chunks under way.
    pub families: u64,
    /// How many chunks were cut for it.
    pub chunks: u64,
}

/// How jobs ended at a partition.
#[derive(Clone, Copy, Debug, PartialEq, Eq)]
pub struct PartCount {
    /// How many it committed.
    pub committed: u64,
    /// How many it aborted.
    pub aborted: u64,
}

impl PartCount {
    /// The counts of no jobs.
    pub const NONE: PartCount = PartCount {
        committed: 0,
        aborted: 0,
    };

    /// These counts, with the jobs of `receipts` added. A count stays at the largest 64-bit number
    /// if it doesn't fit.
    pub(crate) fn with(self, receipts: &[Receipt]) -> PartCount
        ensures { result ≡ counted self receipts.now }
    {
        let commits = count_commits(receipts);
        let aborts = receipts.len() as u64 - commits;
        PartCount {
            committed: self.committed.saturating_add(commits),
            aborted: self.aborted.saturating_add(aborts),
        }
    }
}

/// What moved along `link`; `stores` are those of the partitions. A count stays at the largest
/// 64-bit number if it doesn't fit.
pub(crate) fn count_link(stores: &[SlabStore], link: &ClosedLink) -> LinkCount
    ensures { result ≡ link_count stores.now link.now }
{
    LinkCount {
        src: link.src,
        dst: link.dst,
        keys: count_keys(&link.notes),
        families: count_loaded(stores, link).saturating_add(count_under_way(&link.under_way)),
        chunks: link.notes.len() as u64,
    }
}

// How many families the destination of a link has with root keys that its notes cover.
fn count_loaded(stores: &[SlabStore], link: &ClosedLink) -> u64
    ensures { result ≡ told (families_covered stores.now link.now) }
{
    match stores.get(usize::from(link.dst.number())) {
        Some(store) => count_stored(store, &link.notes),
        None => 0,
    }
}
