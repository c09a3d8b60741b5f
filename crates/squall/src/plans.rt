// Plans in files of their own.
ghost use Rattle.std.specs.Prelude.{◌≡◌, ℕ, List, MatchResult, IfErr};
ghost use Rattle.sq_input.specs.Inputs.{plan_lines};

use crate::session::{open_input, refuse_file, refuse_for_memory};
use sq_command::Plans;
use sq_input::{plan_lines, plan_text};
use std::io;
use std::io::ErrorKind;
use std::rt::Files;

// The byte order mark with which a file may begin.
const MARK: [u8; 3] = [0xef, 0xbb, 0xbf];

/// The first two lines of a header, from the files of the plans. Fails with the exit status 2 if a
/// file can't be read or memory runs out; standard error says which.
pub fn lines_of_plans<T: Print + Eprint + Files + AllocGlobal>(
    rt: &T,
    plans: Plans<'_>,
) -> Result<Vec<u8>, u8>
    ensures { MatchResult result (λ lines. (old : List ℕ) × (new : List ℕ)
        × (lines.items ≡ plan_lines old new)) (λ status. status ≡ 2) }
{
    let old = text_of(rt, plans.old)?;
    let new = text_of(rt, plans.new)?;
    match plan_lines(rt.alloc(), old.as_slice(), new.as_slice()) {
        Ok(lines) => Ok(lines),
        Err(_) => Err(refuse_for_memory(rt)),
    }
}

// The text of the file `name`, up to the length of a header line. Fails as above.
fn text_of<T: Print + Eprint + Files + AllocGlobal>(rt: &T, name: &str) -> Result<Vec<u8>, u8>
    ensures { IfErr result (λ status. status ≡ 2) }
{
    match read_plan(rt, name) {
        Ok(text) => Ok(text),
        Err(error) if error.kind() == ErrorKind::OutOfMemory => Err(refuse_for_memory(rt)),
        Err(error) => Err(refuse_file(rt, name, &error)),
    }
}

// The text of the file `name`, without the byte order mark with which it may begin.
pub(crate) fn read_plan<T: Files + AllocGlobal>(rt: &T, name: &str) -> io::Result<Vec<u8>> {
    let text = plan_text(rt.alloc(), open_input(rt, name)?)?;
    if let Some(rest) = text.strip_prefix(&MARK) {
        return Ok(Vec::from_slice(rt.alloc(), rest)?);
    }
    Ok(text)
}
