// The bytes that were read and not yet returned.
ghost use Rattle.std.specs.Prelude.{◌≡◌, ◌==◌, ◌+◌, ◌-◌, ◌<◌, ◌≤◌, ◌++◌, length, take, drop, slice_range, IfOk, OnErr, vec_len, vec_capacity, position};
ghost use Rattle.std.specs.Io.KnownBytes.{Keeps, Consumes, IsAtEnd};

use memchr::memchr;
use std::io;
use std::io::{ErrorKind, Read};

/// The most bytes that may arrive without a line end.
pub const MAX_UNENDED: usize = 1_048_576;

/// The most bytes that one read asks for.
pub const BLOCK: usize = 65_536;

/// The capacity of the buffer: a line of the greatest length, and a block after it.
pub(crate) const ROOM: usize = MAX_UNENDED + BLOCK;

static ZEROS: [u8; BLOCK] = [0; BLOCK];

/// Returns the place of the first `byte`; `None` if there is none.
pub fn place_of(byte: u8, bytes: &[u8]) -> Option<usize>
    ensures { result ≡ position (λ b. b == byte) bytes.now }
{
    match bytes {
        // Finds most empty lines without a search.
        [first, ..] if *first == byte => Some(0),
        _ => memchr(byte, bytes),
    }
}

// Moves the bytes of `buffer` from place `from` up to `to` to its front.
pub(crate) fn move_to_front(buffer: &mut Vec<u8>, from: usize, to: usize)
    requires order { from ≤ to }
    requires within { to ≤ vec_len buffer.old }
    ensures len { vec_len buffer.new ≡ vec_len buffer.old }
    ensures capacity { vec_capacity buffer.new ≡ vec_capacity buffer.old }
    ensures moved { slice_range buffer.new.items 0 (to - from)
        ≡ slice_range buffer.old.items from to }
{
    if from > 0 {
        buffer.as_mut_slice().copy_within(from..to, 0);
    }
}

// Reads into `bytes`, again after an interruption, and returns how many bytes were read.
fn read_some<R: Read>(reader: &mut R, bytes: &mut [u8]) -> io::Result<usize>
    requires { 0 < length bytes.old }
    ensures within { IfOk result (λ n. n ≤ length bytes.new) }
    ensures took { IfOk result (λ n. Consumes (R.remaining reader.old) (R.remaining reader.new)
        (take n bytes.new)) }
    ensures ended { IfOk result (λ n. n ≡ 0 → IsAtEnd (R.remaining reader.new)) }
    ensures failed { OnErr result (Keeps (R.remaining reader.old) (R.remaining reader.new)) }
{
    for _ in 0..u64::MAX {
        match reader.read(bytes) {
            Err(error) if error.kind() == ErrorKind::Interrupted => {}
            answer => return answer,
        }
    }
    Err(io::Error::from(ErrorKind::Interrupted))
}

// Reads a block into `buffer` after its first `end` bytes and returns how many bytes were read. It
// takes no memory.
pub(crate) fn read_behind<R: Read>(
    reader: &mut R,
    buffer: &mut Vec<u8>,
    end: usize,
) -> io::Result<usize>
    requires within { end ≤ vec_len buffer.old }
    requires room { end + BLOCK ≤ vec_capacity buffer.old }
    ensures len { end + BLOCK ≤ vec_len buffer.new }
    ensures capacity { vec_capacity buffer.old ≤ vec_capacity buffer.new }
    ensures before { take end buffer.new.items ≡ take end buffer.old.items }
    ensures within { IfOk result (λ n. n ≤ BLOCK) }
    ensures took { IfOk result
        (λ n. Consumes (R.remaining reader.old) (R.remaining reader.new)
        (slice_range buffer.new.items end (end + n))) }
    ensures ended { IfOk result (λ n. n ≡ 0 → IsAtEnd (R.remaining reader.new)) }
    ensures failed { OnErr result (Keeps (R.remaining reader.old) (R.remaining reader.new)) }
{
    lengthen(buffer, end + BLOCK);
    read_some(reader, &mut buffer[end..end + BLOCK])
}

// Lengthens a shorter `buffer` to `wanted` bytes, for which it has room. Copies zeros into it,
// since `resize` stores byte by byte.
fn lengthen(buffer: &mut Vec<u8>, wanted: usize)
    requires room { wanted ≤ vec_capacity buffer.old }
    requires block { wanted ≤ vec_len buffer.old + BLOCK }
    ensures len { wanted ≤ vec_len buffer.new }
    ensures capacity { vec_capacity buffer.old ≤ vec_capacity buffer.new }
    ensures before { take (vec_len buffer.old) buffer.new.items ≡ buffer.old.items }
{
    if buffer.len() < wanted {
        let missing = wanted - buffer.len();
        let Ok(()) = buffer.extend_from_slice(&ZEROS[..missing]) else {
            unreachable!()
        };
    }
}
