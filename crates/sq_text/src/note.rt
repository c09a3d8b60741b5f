// Reads notes.
ghost use Rattle.std.specs.Prelude.{◌≡◌, Some, is_some, true};
ghost use Rattle.std.specs.List.{list_all};
ghost use Rattle.sq_text.specs.Notes.{hex_digit_in, hex_byte_in, hex_in, note_in};
ghost use Rattle.sq_text.specs.Faults.{IsParsedGivenMemory};

use crate::fault::ReadFault;
use std::alloc::Global;

// Returns true if `digit` is a lower-case hexadecimal digit.
fn is_hex_digit(digit: u8) -> bool
    ensures { result ≡ is_some (hex_digit_in digit) }
{
    matches!(digit, b'0'..=b'9' | b'a'..=b'f')
}

// Returns true if all of `digits` are hexadecimal. The loop never stops early, so that many bytes
// are tested at once.
fn are_hex_digits(digits: &[u8]) -> bool
    ensures { result ≡ list_all (λ digit. is_some (hex_digit_in digit)) digits.now }
{
    let mut all = true;
    for digit in digits {
        all &= is_hex_digit(*digit);
    }
    all
}

// Returns true if all of `digits` are hexadecimal and their count is even.
fn are_hex_bytes(digits: &[u8]) -> bool
    ensures { result ≡ is_some (hex_in digits.now) }
{
    digits.len() % 2 == 0 && are_hex_digits(digits)
}

// Returns the value of a hexadecimal digit: the low half of its byte, plus 9 for a letter.
fn hex_digit(digit: u8) -> u8
    requires { is_some (hex_digit_in digit) ≡ true }
    ensures { hex_digit_in digit ≡ Some result }
{
    digit % 16 + 9 * (digit / 64)
}

// Returns the byte that two hexadecimal digits spell.
fn hex_byte(high: u8, low: u8) -> u8
    requires high { is_some (hex_digit_in high) ≡ true }
    requires low { is_some (hex_digit_in low) ≡ true }
    ensures { hex_byte_in high low ≡ Some result }
{
    16 * hex_digit(high) + hex_digit(low)
}

// Returns the bytes that `digits` spell, two hexadecimal digits each.
fn hex(alloc: Global, digits: &[u8]) -> Result<Vec<u8>, ReadFault>
    ensures { IsParsedGivenMemory (λ bytes. bytes.items) result (hex_in digits.now) }
{
    if digits.len() % 2 == 1 || !are_hex_digits(digits) {
        return Err(ReadFault::Malformed);
    }
    let mut bytes = vec![in alloc; 0; digits.len() / 2]?;
    for at in 0..bytes.len() {
        bytes[at] = hex_byte(digits[2 * at], digits[2 * at + 1]);
    }
    Ok(bytes)
}

/// Returns true if `word` spells a note: `-`, or two lower-case hexadecimal digits for each byte.
pub fn is_note(word: &[u8]) -> bool
    ensures { result ≡ is_some (note_in word.now) }
{
    match word {
        [] => false,
        [b'-'] => true,
        digits => are_hex_bytes(digits),
    }
}

// Reads the note that `word` spells.
pub(crate) fn note(alloc: Global, word: &[u8]) -> Result<Vec<u8>, ReadFault>
    ensures { IsParsedGivenMemory (λ bytes. bytes.items) result (note_in word.now) }
{
    match word {
        [] => Err(ReadFault::Malformed),
        [b'-'] => Ok(Vec::new(alloc)),
        digits => hex(alloc, digits),
    }
}
