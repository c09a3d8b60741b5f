// The watch of an engine that is served.
ghost use Rattle.std.specs.Prelude.{ℕ, Bool, List, is_ok};

use crate::desk_figures::DeskFigures;
use crate::faulty_header::FaultyHeader;
use crate::faulty_line::LineRefusal;
use crate::refused_move::RefusedMove;
use sq_plan::PartId;
use std::io;

/// What an engine that is served does.
#[derive(Clone, Copy, Debug)]
pub enum ServeMark {
    /// A move of this many segments begins.
    MoveBegins {
        segments: u64,
    },
    /// The move is done.
    MoveEnds,
    EpochBegins,
    /// This many segments of the epoch's stage are complete.
    SegmentsComplete {
        complete: u64,
    },
    /// This many more families, of this many bytes, were moved in the epoch.
    FamiliesMoved {
        families: u64,
        bytes: u64,
    },
    EpochEnds,
    /// The job `id` is offered to partition `part`, for the first time or again.
    JobOffered {
        part: PartId,
        id: u64,
    },
    /// A job that was offered to partition `part` isn't posted, or is answered.
    JobClosed {
        part: PartId,
    },
    /// The job `id` is answered by partition `part`, which committed or aborted it.
    JobAnswered {
        part: PartId,
        id: u64,
        is_commit: bool,
    },
}

/// Watches an engine that is served, and saves its rows. The only answers that depend on it are
/// those about saved rows.
pub trait ServeWatch {
    // A text was to be saved under a name, and was or wasn't.
    ghost Saves: { Self → List ℕ → List ℕ → Bool → Type 0 };

    /// Records what the engine does.
    fn mark(&self, mark: ServeMark);

    /// Is called again and again while the engine is served; `desk` has what its desk shows.
    fn tick(&self, _desk: &DeskFigures<'_>) {}

    /// Returns the figures that follow the words of the answer to `status`, as text without line
    /// ends; `None` if there are none.
    fn status_text(&self, _desk: &DeskFigures<'_>) -> Option<String> {
        None
    }

    /// Returns the figures of the engine as JSON without line ends; `None` if there are none.
    fn status_json(&self, _desk: &DeskFigures<'_>) -> Option<String> {
        None
    }

    /// Records a line that is answered with a fault or a refusal.
    fn refuses(&self, refusal: LineRefusal<'_>);

    /// Records why a move is refused, after `refuses` has recorded its line.
    fn refuses_move(&self, _refused: RefusedMove<'_>) {}

    /// Records a header with a fault.
    fn refuses_header(&self, _header: FaultyHeader) {}

    /// Saves `text` under `name`.
    fn save(&self, name: &str, text: &[u8]) -> io::Result<()>
        ensures { Saves self.now name.now text.now (is_ok result) };
}
