// What the reader of an engine's input hands on, and over which rings.
ghost use Rattle.std.specs.Prelude.{◌≡◌, [], ◌∷◌, ◌++◌};
ghost use Rattle.std.specs.Bool.{OnTrue};
ghost use Rattle.rtrb.specs.Ring.{sent};

use crate::bell::Bell;
use crate::faulty_header::{FaultyHeader, HeaderLine};
use crate::feed::{Fed, give};
use crate::line_place::{HeaderFault, LinePlace, LinePlaces};
use rtrb::Producer;
use sq_moves::Opening;
use sq_text::{InputFault, LocatedFault};
use std::alloc::Global;
use std::sync::{Arc, Wait};

/// What the header of an input spells, or its first fault.
pub(crate) type Header = Result<Opening, FaultyHeader>;

/// A fault of a header, and its line.
#[derive(Debug, Drop)]
pub(crate) struct Refused {
    pub(crate) located: LocatedFault,
    pub(crate) line: HeaderLine,
}

impl Refused {
    /// The fault that memory ran out, which has no line.
    pub(crate) fn for_memory() -> Refused {
        Refused {
            located: InputFault::Memory.at_no_line(),
            line: HeaderLine::Lost,
        }
    }
}

/// The rings over which a reader hands on the header, and what the lines after it ask; and the
/// places of lines.
#[derive(Drop)]
pub(crate) struct Feeds<P: LinePlaces + Drop> {
    pub(crate) header: Producer<Header>,
    pub(crate) lines: Producer<Fed>,
    /// Rings for the thread that takes the lines.
    pub(crate) bell: Arc<Bell, Global>,
    pub(crate) places: P,
}

impl<P: LinePlaces + Drop> Feeds<P> {
    /// Hands on what a header spells.
    pub(crate) fn open<R: Wait>(&mut self, rt: &R, opening: Opening) {
        give(rt, &mut self.header, &self.bell, Ok(opening));
    }

    /// Hands on the fault of a header.
    pub(crate) fn refuse<R: Wait>(&mut self, rt: &R, refused: Refused) {
        let Refused { located, line } = refused;
        let place = located.line.map(|line| self.place(line.number()));
        let fault = HeaderFault { located, place };
        let faulty = FaultyHeader { fault, line };
        give(rt, &mut self.header, &self.bell, Err(faulty));
    }

    /// Hands on what a line asks, or how the input ends. Returns whether anybody takes it.
    pub(crate) fn hand_on<R: Wait>(&mut self, rt: &R, fed: Fed) -> bool
        ensures { OnTrue result (sent self.new.lines ≡ sent self.old.lines ++ fed ∷ []) }
    {
        give(rt, &mut self.lines, &self.bell, fed)
    }

    /// The place of line `number`.
    pub(crate) fn place(&self, number: u64) -> LinePlace {
        self.places.place(number)
    }
}
