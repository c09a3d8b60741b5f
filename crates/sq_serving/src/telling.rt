// Lines about moves, and about how an engine that was served ends.
ghost use Rattle.std.specs.Prelude.{◌≡◌, None, Some};
ghost use Rattle.sq_serving.specs.declared.serve_answer.ServeAnswer.TheVariants.{Moving, Moved};
ghost use Rattle.sq_serving.specs.ServeAnswers.{serve_answer_line};
ghost use Rattle.sq_serving.specs.Becoming.{desk_value, Speaks};
ghost use Rattle.sq_serving.specs.Telling.{line_of_fault, IsLineOfEnding, SaysLine, TellsEnding};
ghost use Rattle.sq_serving.specs.Wishes.{WritesText};

use crate::desk::{MoveProgress, ServeDesk};
use crate::ending::ServeEnding;
use crate::faulty_line::LineRefusal;
use crate::line_place::{HeaderFault, LinePlace};
use crate::outlet::Outlet;
use crate::plan_text::PlanText;
use crate::serve_answer::ServeAnswer;
use sq_live::LiveOutcome;
use sq_schema::OUT_OF_MEMORY;
use std::io::Write;

/// Writes that a move with this progress begins, and records it.
pub(crate) fn tell_moving<W: Write + Drop>(desk: &mut ServeDesk<W>, progress: MoveProgress)
    ensures speaks { Speaks (desk_value W.contents desk.old) (desk_value W.contents desk.new) }
    ensures line { WritesText (serve_answer_line (Moving progress.segments))
        (desk_value W.contents desk.old) (desk_value W.contents desk.new) }
    ensures moving { desk.new.moving ≡ Some progress }
    ensures standing { (desk_value W.contents desk.new).standing
        ≡ (desk_value W.contents desk.old).standing }
{
    let segments = progress.segments;
    desk.say(ServeAnswer::Moving { segments });
    desk.moving = Some(progress);
}

/// Writes that a move of `segments` segments is done, and records its plan.
pub(crate) fn tell_moved<W: Write + Drop>(desk: &mut ServeDesk<W>, plan: PlanText, segments: u64)
    ensures speaks { Speaks (desk_value W.contents desk.old) (desk_value W.contents desk.new) }
    ensures line { WritesText (serve_answer_line (Moved segments))
        (desk_value W.contents desk.old) (desk_value W.contents desk.new) }
    ensures moving { desk.new.moving ≡ None }
    ensures plan { (desk_value W.contents desk.new).standing
        ≡ record (desk_value W.contents desk.old).standing { plan = plan } }
{
    desk.plan = plan;
    desk.moving = None;
    desk.say(ServeAnswer::Moved { segments });
}

/// The refusal `number` of the line at `place`, without its text.
pub(crate) fn unread_refusal(number: u16, place: LinePlace) -> LineRefusal<'static>
    ensures number { result.number ≡ number }
    ensures place { result.place ≡ place }
    ensures no_id { result.id ≡ None }
{
    LineRefusal {
        number,
        place,
        id: None,
        text: &[],
    }
}

/// Writes how an engine that was served ended, and flushes the output. The ending that it returns
/// is `Unwritten` if a write failed.
pub(crate) fn tell_ending<W: Write + Drop>(
    outlet: Outlet<W>,
    ending: ServeEnding,
) -> (Outlet<W>, ServeEnding)
    ensures { TellsEnding W.contents outlet ending result.0 result.1 }
{
    let mut outlet = outlet;
    say_ending(&mut outlet, ending);
    outlet.flush();
    let told = if outlet.has_failed {
        ServeEnding::Unwritten
    } else {
        ending
    };
    (outlet, told)
}

// Writes the line of an ending, if it has one.
fn say_ending<W: Write + Drop>(outlet: &mut Outlet<W>, ending: ServeEnding)
    ensures { SaysLine (IsLineOfEnding ending) W.contents outlet.old outlet.new }
{
    match ending {
        ServeEnding::Sound {
            families,
            committed,
            ..
        } => outlet.say_outcome(LiveOutcome::Sound {
            families,
            committed,
        }),
        ServeEnding::Unsound(defect) => outlet.say_outcome(LiveOutcome::Unsound(defect)),
        ServeEnding::NoHeader(header) => say_located(outlet, header),
        ServeEnding::Memory => outlet.say_fault(OUT_OF_MEMORY),
        ServeEnding::Threads => outlet.say_fault(OUT_OF_MEMORY),
        ServeEnding::Unwritten => {}
    }
}

// Writes a fault of a header, with the number of its line if it has one.
fn say_located<W: Write + Drop>(outlet: &mut Outlet<W>, header: HeaderFault)
    ensures { SaysLine (λ text. text ≡ line_of_fault header) W.contents outlet.old outlet.new }
{
    let fault = header.located.fault.number();
    match header.place {
        Some(place) => outlet.say(ServeAnswer::Fault {
            fault,
            line: place.line,
            id: None,
        }),
        None => outlet.say_fault(fault),
    }
}
