// Sizes that suit the move of an opening.
ghost use Rattle.std.specs.Prelude.{◌≡◌, ◌<◌, ◌≤◌, None};
ghost use Rattle.sq_moves.specs.Between.{recon_fault};
ghost use Rattle.sq_moves.specs.Refused.{HasFitSizes};
ghost use Rattle.sq_picture.specs.Sizes.{in_64_bits, move_size, size_in_64_bits};
ghost use Rattle.sq_picture.specs.Proposal.{keys_moved, IsWidthFor, chunk_bytes, IsLimitFor};

use crate::size::Size;
use sq_moves::{Config, LOG_LIMIT, MAX_WIDTH, Opening, Recon};

// How many leaves the root keys that move are to make, at most.
const LEAVES_OF_MOVE: u64 = 4_096;

// The least and the most bytes in a chunk that are proposed.
const LEAST_LIMIT: u64 = 1_024;

const MOST_LIMIT: u64 = 65_536;

// A large move has this many chunks, and more if they would exceed `LARGE_LIMIT` bytes.
const CHUNKS_OF_MOVE: u64 = 1_024;

const LARGE_LIMIT: u64 = 16_384;

// How many chunks in a link's queue are proposed.
const CAPACITY: u64 = 4;

/// The sizes that are proposed for the move of an opening: leaves so wide that the root keys that
/// move make at most 4,096, or twice as wide, and so on, until there are few enough segments;
/// chunks of a 1,024th of the bytes that move, up to 16,384, or of a leaf of families of mean size
/// if that is more, in bytes a power of two from 1,024 to 65,536; and 4 chunks in a queue.
pub(crate) fn proposal(opening: &Opening) -> Config
    ensures some_width { 1 ≤ result.width }
    ensures small_width { result.width ≤ MAX_WIDTH }
    ensures few_segments { result.width < MAX_WIDTH
        → recon_fault opening.now.old opening.now.new result.width ≡ None }
    ensures width { IsWidthFor opening.now result.width }
    ensures limit { let size = size_in_64_bits (move_size opening.now) in
        IsLimitFor (chunk_bytes size result.width) result.limit }
    ensures capacity { result.capacity ≡ CAPACITY }
    ensures log_limit { result.log_limit ≡ LOG_LIMIT }
    ensures fit { HasFitSizes result }
{
    let width = width_for(opening);
    Config {
        width,
        limit: limit_for(Size::of_move(opening), width),
        capacity: CAPACITY,
        log_limit: LOG_LIMIT,
    }
}

// The width of a leaf that is proposed.
fn width_for(opening: &Opening) -> u64
    ensures some_width { 1 ≤ result }
    ensures small_width { result ≤ MAX_WIDTH }
    ensures few_segments { result < MAX_WIDTH
        → recon_fault opening.now.old opening.now.new result ≡ None }
    ensures width { IsWidthFor opening.now result }
{
    let (old, new) = (opening.old_plan(), opening.new_plan());
    let mut width = keys_of(opening)
        .div_ceil(LEAVES_OF_MOVE)
        .max(1)
        .min(MAX_WIDTH);
    while width < MAX_WIDTH {
        if Recon::fault(old, new, width).is_none() {
            return width;
        }
        width = (2 * width).min(MAX_WIDTH);
    }
    width
}

// Returns how many root keys move, with rows or without.
fn keys_of(opening: &Opening) -> u64
    ensures { result ≡ in_64_bits (keys_moved opening.now.recon) }
{
    let mut keys: u64 = 0;
    for range in opening.recon().ranges() {
        keys = keys.saturating_add(range.hi.saturating_sub(range.lo));
    }
    keys
}

// The bytes in a chunk that are proposed, for leaves of `width` root keys.
fn limit_for(size: Size, width: u64) -> u64
    ensures most { result ≤ MOST_LIMIT }
    ensures limit { IsLimitFor (chunk_bytes size width) result }
{
    let mean = size.bytes.div_ceil(size.families.max(1));
    let share = (size.bytes / CHUNKS_OF_MOVE).min(LARGE_LIMIT);
    mean.saturating_mul(width)
        .max(share)
        .min(MOST_LIMIT)
        .next_power_of_two()
        .max(LEAST_LIMIT)
        .min(MOST_LIMIT)
}
