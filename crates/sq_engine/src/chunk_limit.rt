// The bytes that a chunk may hold.
ghost use Rattle.std.specs.Prelude.{◌≡◌, ◌≤◌, ◌&&◌, nat_le, SomeIff};
ghost use Rattle.sq_moves.specs.declared.opening.TheConstants.{MIN_LIMIT, MAX_LIMIT};

use sq_moves::{MAX_LIMIT, MIN_LIMIT, Opening};
use std::marker::Model;

/// The most bytes of families that a chunk holds, unless it holds a single family: from
/// [`MIN_LIMIT`] to [`MAX_LIMIT`]. Contracts see the number.
#[derive(Clone, Copy, Debug, PartialEq, Eq)]
pub struct ChunkLimit(u64);

impl Model for ChunkLimit {
    ghost use Rattle.std.specs.Prelude.{ℕ, ◌≤◌};
    ghost use Rattle.sq_moves.specs.declared.opening.TheConstants.{MIN_LIMIT, MAX_LIMIT};

    ghost Value = { ℕ };

    ghost view = { λ l. l.0 };

    ghost inverse = { λ n. record { 0 = n } };

    ghost invariant = { λ l. (MIN_LIMIT ≤ l.0) × (l.0 ≤ MAX_LIMIT) };
}

impl ChunkLimit {
    /// Returns the limit of `bytes`; `None` if that is below [`MIN_LIMIT`] or above [`MAX_LIMIT`].
    pub fn new(bytes: u64) -> Option<ChunkLimit>
        ensures { SomeIff result ((MIN_LIMIT ≤ bytes) × (bytes ≤ MAX_LIMIT)) bytes }
    {
        if bytes >= MIN_LIMIT && bytes <= MAX_LIMIT {
            Some(ChunkLimit(bytes))
        } else {
            None
        }
    }

    /// Returns the limit of the chunks of `opening`.
    pub fn of(opening: &Opening) -> ChunkLimit
        ensures { result ≡ opening.now.config.limit }
    {
        ChunkLimit(opening.config().limit)
    }

    /// Returns the number of bytes.
    pub fn bytes(self) -> u64
        ensures bytes { result ≡ self }
        ensures some { MIN_LIMIT ≤ result }
        ensures small { result ≤ MAX_LIMIT }
    {
        self.0
    }
}
