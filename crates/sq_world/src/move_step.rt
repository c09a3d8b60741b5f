// The steps of a whole move.
ghost use Rattle.std.specs.Prelude.{◌≡◌, OnOk};
ghost use Rattle.std.specs.Io.KnownBytes.{Appends};
ghost use Rattle.sq_world.specs.Lines.{step_of_move, move_line, NumbersFit};

use sq_model::Step;
use std::io;
use std::io::Write;

/// The node that covers a whole segment.
pub(crate) const WHOLE: u64 = 1;

/// The pull that claims each segment: an asynchronous one.
pub(crate) const PULL: u32 = 2;

/// A step of a move in which each segment is claimed as a whole, and no transaction runs.
#[derive(Clone, Copy, Debug, PartialEq, Eq)]
pub enum MoveStep {
    /// Prepares this partition.
    Prepare(u64),
    /// Starts the move, at the leader.
    Start,
    /// Claims the whole of this segment.
    Claim(u64),
    /// Gives this segment up, at its source.
    Begin(u64),
    /// Cuts the next chunk for a destination, at its source.
    Cut { src: u64, dst: u64 },
    /// Pushes the chunk that was cut onto its link.
    Push { src: u64, dst: u64 },
    /// Pops the oldest chunk off the link, at the destination.
    Pop { src: u64, dst: u64 },
    /// Loads the popped chunk, at the destination.
    Load { src: u64, dst: u64 },
    /// Completes this segment, whose last chunk is loaded.
    Complete(u64),
    /// Reports that all that moves to this partition is complete.
    Report(u64),
    /// Ends the running stage and enters the next one, at the leader.
    Next,
    /// Ends the move, at the leader.
    Finish,
}

impl MoveStep {
    /// Returns this step as a [`Step`].
    pub fn step(self) -> Step
        ensures step { result ≡ step_of_move self }
        ensures fit { NumbersFit self }
    {
        match self {
            MoveStep::Prepare(part) => Step::Prepare(part),
            MoveStep::Start => Step::Start,
            MoveStep::Claim(seg) => Step::Claim {
                seg,
                node: WHOLE,
                pull: PULL,
            },
            MoveStep::Begin(seg) => Step::Begin {
                seg,
                node: WHOLE,
                pull: PULL,
            },
            MoveStep::Cut { src, dst } => Step::Cut { src, dst },
            MoveStep::Push { src, dst } => Step::Push { src, dst },
            MoveStep::Pop { src, dst } => Step::Pop { src, dst },
            MoveStep::Load { src, dst } => Step::Load { src, dst },
            MoveStep::Complete(seg) => Step::Complete {
                seg,
                node: WHOLE,
                pull: PULL,
            },
            MoveStep::Report(part) => Step::Report(part),
            MoveStep::Next => Step::Next,
            MoveStep::Finish => Step::Finish,
        }
    }
}

/// Writes the line of `step`. Fails if a write fails.
pub fn write_step<W: Write>(writer: &mut W, step: MoveStep) -> io::Result<()>
    ensures { OnOk result (Appends
        (W.contents writer.old) (W.contents writer.new) (move_line step)) }
{
    match step {
        MoveStep::Prepare(part) => writeln!(writer, "prepare {part}"),
        MoveStep::Start => writer.write_all(b"start\n"),
        MoveStep::Claim(seg) => writeln!(writer, "claim {seg} {WHOLE} {PULL}"),
        MoveStep::Begin(seg) => writeln!(writer, "begin {seg} {WHOLE} {PULL}"),
        MoveStep::Cut { src, dst } => writeln!(writer, "cut {src} {dst}"),
        MoveStep::Push { src, dst } => writeln!(writer, "push {src} {dst}"),
        MoveStep::Pop { src, dst } => writeln!(writer, "pop {src} {dst}"),
        MoveStep::Load { src, dst } => writeln!(writer, "load {src} {dst}"),
        MoveStep::Complete(seg) => writeln!(writer, "complete {seg} {WHOLE} {PULL}"),
        MoveStep::Report(part) => writeln!(writer, "report {part}"),
        MoveStep::Next => writer.write_all(b"next\n"),
        MoveStep::Finish => writer.write_all(b"finish\n"),
    }
}
