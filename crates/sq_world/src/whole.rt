// The steps of a whole move, one after another.
ghost use Rattle.std.specs.Prelude.{◌<◌, OnOk};
ghost use Rattle.sq_world.specs.Drafts.{DraftGoesOn};

use crate::draft::Draft;
use crate::move_step::MoveStep;
use crate::moves::{Moves, MovingSegment};
use crate::no_script::NoScript;
use sq_model::Answer;

/// Executes all steps of a move: each partition prepares, the leader starts the move, stage by
/// stage each segment moves, and the leader ends the move.
pub(crate) fn make_all(draft: &mut Draft, moves: &Moves) -> Result<(), NoScript>
    ensures { OnOk result (DraftGoesOn draft.old draft.new) }
{
    prepare(draft, moves.parts)?;
    draft.make(MoveStep::Start)?;
    make_stages(draft, moves)?;
    draft.make(MoveStep::Finish)?;
    Ok(())
}

// Prepares each partition.
fn prepare(draft: &mut Draft, parts: u64) -> Result<(), NoScript>
    ensures { OnOk result (DraftGoesOn draft.old draft.new) }
{
    for part in 0..parts {
        draft.make(MoveStep::Prepare(part))?;
    }
    Ok(())
}

// Executes the steps of all stages.
fn make_stages(draft: &mut Draft, moves: &Moves) -> Result<(), NoScript>
    ensures { OnOk result (DraftGoesOn draft.old draft.new) }
{
    for stage in 0..moves.stages {
        make_stage(draft, moves, stage)?;
    }
    Ok(())
}

// Executes the steps of `stage`.
fn make_stage(draft: &mut Draft, moves: &Moves, stage: u64) -> Result<(), NoScript>
    ensures { OnOk result (DraftGoesOn draft.old draft.new) }
{
    begin_stage(draft, stage)?;
    move_segments(draft, moves, stage)?;
    report(draft, moves, stage)
}

// Enters `stage`, unless it is the first, which begins with the move.
fn begin_stage(draft: &mut Draft, stage: u64) -> Result<(), NoScript>
    ensures { OnOk result (DraftGoesOn draft.old draft.new) }
{
    if stage > 0 {
        draft.make(MoveStep::Next)?;
    }
    Ok(())
}

fn move_segments(draft: &mut Draft, moves: &Moves, stage: u64) -> Result<(), NoScript>
    ensures { OnOk result (DraftGoesOn draft.old draft.new) }
{
    for moving in &moves.segments {
        move_in_stage(draft, *moving, stage)?;
    }
    Ok(())
}

// Moves a segment, if it moves in `stage`.
fn move_in_stage(draft: &mut Draft, moving: MovingSegment, stage: u64) -> Result<(), NoScript>
    ensures { OnOk result (DraftGoesOn draft.old draft.new) }
{
    if moving.stage == stage {
        move_segment(draft, moving)?;
    }
    Ok(())
}

// Reports for each partition that rows moved to in `stage`.
fn report(draft: &mut Draft, moves: &Moves, stage: u64) -> Result<(), NoScript>
    ensures { OnOk result (DraftGoesOn draft.old draft.new) }
{
    for part in 0..moves.parts {
        report_from(draft, moves, stage, part)?;
    }
    Ok(())
}

// Reports for `part`, if rows moved to it in `stage`.
fn report_from(draft: &mut Draft, moves: &Moves, stage: u64, part: u64) -> Result<(), NoScript>
    ensures { OnOk result (DraftGoesOn draft.old draft.new) }
{
    if moves.has_destination(stage, part) {
        draft.make(MoveStep::Report(part))?;
    }
    Ok(())
}

fn move_segment(draft: &mut Draft, moving: MovingSegment) -> Result<(), NoScript>
    ensures { OnOk result (DraftGoesOn draft.old draft.new) }
{
    draft.make(MoveStep::Claim(moving.seg))?;
    draft.make(MoveStep::Begin(moving.seg))?;
    move_chunks(draft, moving)?;
    draft.make(MoveStep::Complete(moving.seg))?;
    Ok(())
}

// Moves the chunks of a segment that was begun, up to its last.
fn move_chunks(draft: &mut Draft, moving: MovingSegment) -> Result<(), NoScript>
    ensures { OnOk result (DraftGoesOn draft.old draft.new) }
{
    while move_chunk(draft, moving)? {}
    Ok(())
}

// Moves the next chunk of a segment. Returns true if another one follows.
fn move_chunk(draft: &mut Draft, moving: MovingSegment) -> Result<bool, NoScript>
    ensures goes_on { OnOk result (DraftGoesOn draft.old draft.new) }
    ensures room { OnOk result (draft.new.room < draft.old.room) }
{
    let MovingSegment { src, dst, .. } = moving;
    let cut = draft.make(MoveStep::Cut { src, dst })?;
    draft.make(MoveStep::Push { src, dst })?;
    draft.make(MoveStep::Pop { src, dst })?;
    draft.make(MoveStep::Load { src, dst })?;
    Ok(is_followed(&cut))
}

// Returns true if other chunks follow the one that was `cut`.
fn is_followed(cut: &Answer) -> bool {
    match cut {
        Answer::WasCut { note, .. } => !note.last,
        _ => false,
    }
}
