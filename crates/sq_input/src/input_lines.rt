// Line ends.
ghost use Rattle.std.specs.Prelude.{◌≤◌, length};

/// The byte that ends a line.
pub(crate) const LINE_END: u8 = 10;

/// How many line ends `bytes` have.
pub(crate) fn lines_in(bytes: &[u8]) -> usize {
    let mut lines: usize = 0;
    for few in bytes.chunks(255) {
        lines = lines.saturating_add(usize::from(lines_in_few(few)));
    }
    lines
}

// How many line ends there are in at most 255 bytes. Every byte is handled alike and the count is a
// byte, so that the compiler can take many bytes at once.
fn lines_in_few(bytes: &[u8]) -> u8
    requires { length bytes.now ≤ 255 }
    ensures { result ≤ length bytes.now }
{
    let mut lines = 0;
    for byte in bytes {
        lines += u8::from(*byte == LINE_END);
    }
    lines
}
