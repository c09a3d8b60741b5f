// The lines of the plans, from files in which a plan may have many lines.
ghost use Rattle.std.specs.Prelude.{◌≡◌, ◌++◌, IfOk, IfSome, take};
ghost use Rattle.sq_input.specs.Inputs.{plan_lines, on_one_line};

use std::alloc::{AllocError, Global};
use std::io;
use std::io::Read;

/// The most bytes that are read of a plan's file. No line of a plan can hold as many.
pub const PLAN_ROOM: u64 = 65_536;

/// The content of a plan's file, up to [`PLAN_ROOM`] bytes. Fails if a read does, or if memory runs
/// out.
pub fn plan_text<R: Read + Drop>(alloc: Global, file: R) -> io::Result<Vec<u8>>
    ensures { IfOk result (λ text. IfSome (R.remaining file) (λ bytes. text.items
        ≡ take PLAN_ROOM bytes)) }
{
    let mut text = Vec::new(alloc);
    let mut start = file.take(PLAN_ROOM);
    start.read_to_end(&mut text)?;
    Ok(text)
}

/// The first two lines of a header, from the texts of both plans, with each line end in a plan
/// replaced by a space. Fails if memory runs out.
pub fn plan_lines(alloc: Global, old: &[u8], new: &[u8]) -> Result<Vec<u8>, AllocError>
    ensures { IfOk result (λ lines. lines.items ≡ plan_lines old.now new.now) }
{
    let mut lines = Vec::new(alloc);
    lines.extend_from_slice(b"old ")?;
    push_on_one_line(&mut lines, old)?;
    lines.extend_from_slice(b"\nnew ")?;
    push_on_one_line(&mut lines, new)?;
    lines.push(b'\n')?;
    Ok(lines)
}

// Appends a text, with a space in place of each line end.
fn push_on_one_line(lines: &mut Vec<u8>, text: &[u8]) -> Result<(), AllocError>
    ensures { IfOk result (λ _. lines.new.items ≡ lines.old.items ++ on_one_line text.now) }
{
    for byte in text {
        lines.push(if *byte == b'\n' { b' ' } else { *byte })?;
    }
    Ok(())
}
