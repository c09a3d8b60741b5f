// Where the lines of an engine's input are.
use sq_text::LocatedFault;

/// What a line of an engine's input is in.
#[derive(Clone, Copy, Debug, PartialEq, Eq)]
pub enum LineSource {
    /// The file of the plan.
    Plan,
    /// The file of the rows.
    Rows,
    /// The file that is read before standard input.
    File,
    /// Standard input.
    Input,
}

/// Where a line of an engine's input is.
#[derive(Clone, Copy, Debug, PartialEq, Eq)]
pub struct LinePlace {
    pub source: LineSource,
    /// Its number there, from 1.
    pub line: u64,
}

/// Maps the lines of an engine's input to their places, once they were read.
pub trait LinePlaces {
    /// The place of line `number` of the whole input, counted from 1.
    fn place(&self, number: u64) -> LinePlace;
}

/// The fault of a header, and the place of its line, if it has one.
#[derive(Clone, Copy, Debug)]
pub struct HeaderFault {
    pub located: LocatedFault,
    pub place: Option<LinePlace>,
}
