// Headers with a fault.
ghost use Rattle.sq_serving.specs.FaultyLines.{IsLineOf};

use crate::line_place::HeaderFault;
use sq_text::MAX_LINE;
use std::alloc::Global;

/// The faulty line of a header.
#[derive(Debug, Drop)]
pub enum HeaderLine {
    /// Its bytes, without its end.
    Line(Vec<u8>),
    /// The input ends before it.
    Missing,
    /// It is longer than a line may be, a read of it failed, or memory ran out.
    Lost,
}

/// A header with a fault, which leaves nothing to serve.
#[derive(Debug, Drop)]
pub struct FaultyHeader {
    pub fault: HeaderFault,
    pub line: HeaderLine,
}

impl HeaderLine {
    /// The line with these bytes, or `Lost` if it is too long or memory runs out.
    pub fn of(alloc: Global, line: &[u8]) -> HeaderLine
        ensures { IsLineOf line.now result }
    {
        if line.len() > MAX_LINE {
            return HeaderLine::Lost;
        }
        match line.to_vec(alloc) {
            Ok(text) => HeaderLine::Line(text),
            Err(_) => HeaderLine::Lost,
        }
    }
}
