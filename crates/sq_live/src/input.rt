// Live runs, from bytes to bytes.
ghost use Rattle.std.specs.Prelude.{List, IfOk, IfErr, OnOk};
ghost use Rattle.std.specs.Io.KnownBytes.{Appends};
ghost use Rattle.sq_text.specs.Pieces.{PieceValue};
ghost use Rattle.sq_text.specs.Coming.{CanCome};
ghost use Rattle.sq_text.specs.Given.{IsGiven};
ghost use Rattle.sq_live.specs.Jobs.{HavePartitions};
ghost use Rattle.sq_live.specs.Live.{EndsLive, WereRun, ending_line, RunsLive, ComesToSpell, ComesToFail};

use crate::account::Account;
use crate::ending::LiveEnding;
use crate::fault::{LiveFault, RunFault};
use crate::job_list::{JobList, read_jobs};
use crate::outcome::{LiveOutcome, write_outcome};
use crate::stages::{RunManner, run_stages};
use crate::watch::Watch;
use sq_leader::start_move;
use sq_moves::Opening;
use sq_schema::{MAX_TABLES, Schema};
use sq_text::{LineReader, WriteFault, read_header, write_fault};
use std::alloc::{AllocError, Global};
use std::io::{Read, Write};
use std::sync::Wait;
use std::thread::Threads;

/// Reads an input, runs its jobs in threads while rows move, audits what is left, and writes one
/// line with the outcome.
///
/// The input is a header, as [`read_header`] reads it for a schema of [`MAX_TABLES`] tables, and
/// then jobs, as [`read_jobs`] reads them. If it has a fault, no thread is started, and the line
/// states the fault. Otherwise the stages of the move run one after another: each partition and
/// each pump runs in a thread of its own, takes at most `manner.turns` turns in a stage, and asks
/// `watch` before each step. If a segment of a stage is not complete then, the run stops. If
/// `manner.folds` is set, the answered jobs are audited and the logs folded between two stages.
///
/// If memory runs out, or a thread lacks it for 3 seconds or slightly longer, the line states that
/// fault. If a partition or all pumps get no thread, the line states that fault about 3 seconds
/// after the others have run out of work.
///
/// An error is a write or a flush that failed.
///
/// Whatever the threads do, what they leave is placed, and the line says `sound` only if each audit
/// found it so. The run then ended as
/// [`a_sound_run_ends_where_planned`](crate::laws::a_sound_run_ends_where_planned) states.
pub fn live<T: Threads + Wait + Sync, R: Read, W: Write, G: Watch>(
    rt: &T,
    alloc: Global,
    reader: &mut R,
    writer: &mut W,
    manner: RunManner,
    watch: &G,
) -> Result<LiveEnding, WriteFault>
    ensures { IfOk result (RunsLive manner.folds MAX_TABLES (R.remaining reader.old)
        (W.contents writer.old) (W.contents writer.new)) }
{
    let ending = end_input(rt, alloc, reader, manner, watch);
    write_ending(writer, ending)?;
    writer.flush()?;
    Ok(ending)
}

// Writes the line of `ending`.
fn write_ending<W: Write>(writer: &mut W, ending: LiveEnding) -> Result<(), WriteFault>
    ensures { OnOk result (Appends (W.contents writer.old) (W.contents writer.new)
        (ending_line ending)) }
{
    match ending {
        LiveEnding::Done(outcome) => Ok(write_outcome(writer, outcome)?),
        LiveEnding::Fault(fault) => write_fault(writer, fault.number()),
    }
}

// Returns the ending of the input that `reader` holds.
fn end_input<T: Threads + Wait + Sync, R: Read, G: Watch>(
    rt: &T,
    alloc: Global,
    reader: &mut R,
    manner: RunManner,
    watch: &G,
) -> LiveEnding
    ensures { (given : List PieceValue) × IsGiven (R.remaining reader.old) given
        × EndsLive manner.folds MAX_TABLES given result }
{
    match LineReader::new(alloc, reader) {
        Ok(mut lines) => end_lines(rt, alloc, &mut lines, manner, watch),
        Err(_) => LiveEnding::Fault(LiveFault::from(AllocError)),
    }
}

// Returns the ending of the input that `lines` holds.
fn end_lines<T: Threads + Wait + Sync, R: Read, G: Watch>(
    rt: &T,
    alloc: Global,
    lines: &mut LineReader<R>,
    manner: RunManner,
    watch: &G,
) -> LiveEnding
    ensures { (given : List PieceValue) × CanCome lines.old given
        × EndsLive manner.folds MAX_TABLES given result }
{
    match read_input(alloc, lines) {
        Ok((opening, jobs)) => match run_input(rt, alloc, opening, jobs, manner, watch) {
            Ok(outcome) => LiveEnding::Done(outcome),
            Err(error) => LiveEnding::Fault(LiveFault::from(error)),
        },
        Err(fault) => LiveEnding::Fault(fault),
    }
}

// Returns the opening and the jobs that `lines` spell.
fn read_input<R: Read>(
    alloc: Global,
    lines: &mut LineReader<R>,
) -> Result<(Opening, JobList), LiveFault>
    ensures input { IfOk result (λ input. ComesToSpell MAX_TABLES lines.old input.0 input.1) }
    ensures partitions { IfOk result (λ input. HavePartitions input.0.old.parts input.1) }
    ensures fault { IfErr result (ComesToFail MAX_TABLES lines.old) }
{
    let schema = Schema::largest();
    let opening = read_header(alloc, schema, lines)?;
    let jobs = read_jobs(alloc, &schema, opening.old_plan().parts(), lines)?;
    Ok((opening, jobs))
}

// Runs `jobs` from `opening` and returns the outcome. The move starts before the first thread does.
fn run_input<T: Threads + Wait + Sync, G: Watch>(
    rt: &T,
    alloc: Global,
    opening: Opening,
    jobs: JobList,
    manner: RunManner,
    watch: &G,
) -> Result<LiveOutcome, RunFault>
    ensures { IfOk result (WereRun manner.folds opening jobs) }
{
    let moving = start_move(&opening)?;
    let segments = opening.recon().segments().len();
    watch.posts(jobs.as_slice());
    watch.begins(jobs.as_slice().len() as u64, segments as u64);
    let account = Account::new(opening, jobs);
    let outcome = run_stages(rt, alloc, account, moving, manner, watch);
    watch.ends();
    outcome
}
