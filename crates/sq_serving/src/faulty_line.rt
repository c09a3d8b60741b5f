// Lines with a fault, and lines that are refused.
ghost use Rattle.std.specs.Prelude.{◌≡◌};
ghost use Rattle.sq_serving.specs.FaultyLines.{id_in, job_id_of, IsTextOf};

use crate::line_place::LinePlace;
use crate::serve_fault::ServeFault;
use sq_text::{MAX_LINE, Words, unsigned};
use std::alloc::Global;

/// A line after the header with a fault.
#[derive(Debug, Drop)]
pub struct FaultyLine {
    pub fault: ServeFault,
    /// The id of its job, if it is a job's line and has one.
    pub id: Option<u64>,
    /// The line without its end; empty if it is longer than a line may be, or if memory ran out.
    pub text: Vec<u8>,
}

impl FaultyLine {
    /// The line `line`, with `fault`.
    pub fn new(alloc: Global, fault: ServeFault, line: &[u8]) -> FaultyLine
        ensures fault { result.fault ≡ fault }
        ensures id { result.id ≡ job_id_of line.now }
        ensures text { IsTextOf line.now result.text.items }
    {
        FaultyLine {
            fault,
            id: job_id(line),
            text: kept(alloc, line),
        }
    }
}

/// A line that an engine answers with a fault or a refusal.
#[derive(Clone, Copy, Debug)]
pub struct LineRefusal<'a> {
    /// The number of the fault or of the refusal.
    pub number: u16,
    pub place: LinePlace,
    /// The id of its job, if it is a job's line and has one.
    pub id: Option<u64>,
    /// The line without its end; empty if it isn't kept.
    pub text: &'a [u8],
}

// A copy of a line that is no longer than a line may be; else, or if memory runs out, no bytes.
fn kept(alloc: Global, line: &[u8]) -> Vec<u8>
    ensures { IsTextOf line.now result.items }
{
    if line.len() > MAX_LINE {
        return Vec::new(alloc);
    }
    match line.to_vec(alloc) {
        Ok(text) => text,
        Err(_) => Vec::new(alloc),
    }
}

// The id of the job in a line, if its partition and its id are numbers.
fn job_id(line: &[u8]) -> Option<u64>
    ensures { result ≡ job_id_of line.now }
{
    let mut words = Words::of(line);
    let first = words.next()?;
    if first == b"txn".as_slice() {
        id_in(words)
    } else {
        None
    }
}

// The id in the words after the first one, if the partition and the id are numbers.
#[tactic(auto, unfolding(crate::specs::FaultyLines::id_in))]
fn id_in(words: Words<'_>) -> Option<u64>
    ensures { result ≡ id_in words.entry }
{
    let mut words = words;
    unsigned(words.next()?)?;
    unsigned(words.next()?)
}
