// How large a move is.
ghost use Rattle.std.specs.Prelude.{◌≡◌, [], nat_lt, length, take_while};
ghost use Rattle.sq_schema.specs.Family.{rows_size};
ghost use Rattle.sq_picture.specs.Sizes.{entries_size, segment_size, sum_of_sizes, is_in_part};
ghost use Rattle.sq_picture.specs.Sizes.{part_size, move_size, size_in_64_bits, sum_in_64_bits};

use crate::cutting::Cutting;
use sq_moves::{Opening, Range, Recon};
use sq_schema::{EntryIter, Root, Rows};

/// The size of a part of a move. Each number stays at the largest 64-bit number if it doesn't fit.
#[derive(Clone, Copy, Debug, PartialEq, Eq)]
pub struct Size {
    /// How many root keys have opening rows.
    pub families: u64,
    /// How many opening rows these root keys have.
    pub rows: u64,
    /// The bytes of the families.
    pub bytes: u64,
    /// How many chunks it takes if each segment is cut in one go.
    pub chunks: u64,
}

/// A part of a move that has segments of its own.
#[derive(Clone, Copy, Debug, PartialEq, Eq)]
pub enum MovePart {
    /// A reconfiguration range.
    RangePart(Range),
    /// The stage with this number.
    StagePart(u64),
}

impl Size {
    /// The size of nothing.
    const NONE: Size = Size {
        families: 0,
        rows: 0,
        bytes: 0,
        chunks: 0,
    };

    // The sum of this and another size.
    fn plus(self, other: Size) -> Size
        ensures { result ≡ sum_in_64_bits self other }
    {
        Size {
            families: self.families.saturating_add(other.families),
            rows: self.rows.saturating_add(other.rows),
            bytes: self.bytes.saturating_add(other.bytes),
            chunks: self.chunks.saturating_add(other.chunks),
        }
    }

    /// The size of `segment` of an opening.
    pub fn of_segment(opening: &Opening, segment: Range) -> Size
        ensures { result ≡ size_in_64_bits (segment_size opening.now segment) }
    {
        let limit = opening.config().limit;
        match Root::new(segment.lo) {
            Some(from) => size_below(segment.hi, limit, opening.table().iter_from(from)),
            // No root key is that large.
            None => no_families(limit),
        }
    }

    /// The size of a part of an opening's move: the sum over its segments.
    pub fn of_part(opening: &Opening, part: MovePart) -> Size
        ensures { result ≡ size_in_64_bits (part_size opening.now part) }
    {
        let recon = opening.recon();
        let segments = recon.segments();
        let mut size = Size::NONE;
        for segment in segments {
            if part.has(recon, segment) {
                size = size.plus(Size::of_segment(opening, *segment));
            }
        }
        size
    }

    /// The size of an opening's whole move.
    pub(crate) fn of_move(opening: &Opening) -> Size
        ensures { result ≡ size_in_64_bits (move_size opening.now) }
    {
        let segments = opening.recon().segments();
        let mut size = Size::NONE;
        for segment in segments {
            size = size.plus(Size::of_segment(opening, *segment));
        }
        size
    }
}

impl MovePart {
    // Returns whether a segment belongs to this part.
    fn has(&self, recon: &Recon, segment: &Range) -> bool
        ensures { result ≡ is_in_part recon.now self.now segment.now }
    {
        match *self {
            MovePart::RangePart(range) => range.lo <= segment.lo && segment.lo < range.hi,
            MovePart::StagePart(stage) => recon.stage_on(segment.src, segment.dst) == stage,
        }
    }
}

fn no_families(limit: u64) -> Size
    ensures { result ≡ entries_size limit [] }
{
    Size {
        chunks: 1,
        ..Size::NONE
    }
}

// The size of the families that start from these rows, up to the first whose root key isn't below
// `end`.
fn size_below(end: u64, limit: u64, entries: EntryIter<'_, Root, Rows>) -> Size
    ensures { result ≡ size_in_64_bits
        (entries_size limit (take_while (λ entry. nat_lt entry.0 end) entries.entry)) }
{
    let mut cutting = Cutting::new(limit);
    let mut size = Size::NONE;
    for (root, rows) in entries {
        if root.number() >= end {
            break;
        }
        cutting.take(rows.size());
        size = size.plus(size_of_rows(rows));
    }
    Size {
        chunks: cutting.chunks,
        ..size
    }
}

// The size of a family that starts from these rows, without chunks.
fn size_of_rows(rows: &Rows) -> Size
    ensures { result ≡ record {
      families = 1;
      rows = length rows.now;
      bytes = rows_size rows.now;
      chunks = 0;
    } }
{
    Size {
        families: 1,
        rows: rows.len() as u64,
        bytes: rows.size(),
        chunks: 0,
    }
}
