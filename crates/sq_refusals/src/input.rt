// Reads what the calls are given.
use crate::unfinished::Unfinished;
use sq_model::Step;
use sq_moves::Opening;
use sq_schema::Schema;
use sq_text::{LineReader, MAX_LINE, Next, read_header, read_step};
use std::alloc::Global;
use std::io::Read;

/// Returns all that `reader` gives.
pub fn read_all<R: Read>(alloc: Global, reader: &mut R) -> Result<Vec<u8>, Unfinished> {
    let mut all = Vec::with_capacity(alloc, 4096)?;
    reader.read_to_end(&mut all)?;
    Ok(all)
}

/// Returns the opening and the steps of an input.
pub fn read_script(alloc: Global, input: &[u8]) -> Result<(Opening, Vec<Step>), Unfinished> {
    let mut lines = LineReader::new(alloc, input)?;
    let opening = read_header(alloc, Schema::largest(), &mut lines)?;
    let steps = read_steps(alloc, &mut lines)?;
    Ok((opening, steps))
}

// Returns the steps of the lines that are left.
fn read_steps<R: Read>(alloc: Global, lines: &mut LineReader<R>) -> Result<Vec<Step>, Unfinished> {
    let schema = Schema::largest();
    let mut steps = Vec::with_capacity(alloc, 64)?;
    for _line in 0..u64::MAX {
        match lines.next_read(MAX_LINE) {
            Next::Line => steps.push(read_step(alloc, &schema, lines.piece())?)?,
            _ => break,
        }
    }
    Ok(steps)
}
