// Reads numbers.
ghost use Rattle.std.specs.Prelude.{◌≡◌};
ghost use Rattle.sq_text.specs.Numbers.{digit_behind, digits_in, unsigned_in, negative_of, positive_of, signed_in};

// Returns `number` with one more `digit`; `None` if the byte isn't a digit, or the result exceeds a
// `u64`.
pub(crate) fn with_digit(number: u64, digit: u8) -> Option<u64>
    ensures { result ≡ digit_behind number digit }
{
    if !digit.is_ascii_digit() {
        return None;
    }
    number.checked_mul(10)?.checked_add(u64::from(digit - b'0'))
}

// Returns the number that decimal `digits` spell; `None` if a byte isn't a digit, or the number
// exceeds a `u64`.
fn digits(digits: &[u8]) -> Option<u64>
    ensures { result ≡ digits_in digits.now }
{
    let mut value: u64 = 0;
    for digit in digits {
        value = with_digit(value, *digit)?;
    }
    Some(value)
}

/// Reads a number below 2^64: decimal digits, without a leading 0 unless it is the only digit.
/// `None` if `word` is anything else.
pub fn unsigned(word: &[u8]) -> Option<u64>
    ensures { result ≡ unsigned_in word.now }
{
    match word {
        [] | [b'0', _, ..] => None,
        _ => digits(word),
    }
}

fn negative(n: u64) -> Option<i64>
    ensures { result ≡ negative_of n }
{
    if n == 0 {
        return None;
    }
    let n = i64::try_from(n - 1).ok()?;
    Some(-n - 1)
}

fn positive(n: u64) -> Option<i64>
    ensures { result ≡ positive_of n }
{
    i64::try_from(n).ok()
}

/// Reads a signed number from -2^63 to 2^63 - 1: a number as [`unsigned`] reads it, with a `-`
/// before it if it is negative. `None` if `word` is anything else, such as `-0`.
pub fn signed(word: &[u8]) -> Option<i64>
    ensures { result ≡ signed_in word.now }
{
    match word {
        [b'-', digits @ ..] => negative(unsigned(digits)?),
        _ => positive(unsigned(word)?),
    }
}
