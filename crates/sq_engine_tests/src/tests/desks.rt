// The desk of an engine that is served, driven by hand: jobs that are refused or lost, lines with a fault, and status lines.
use rtrb::{Producer, RingBuffer};
use sq_audit::Job;
use sq_engine::{ChunkLimit, Command, PostFault, StageProgress};
use sq_plan::Plan;
use sq_schema::{MAX_TABLES, Schema};
use sq_serving::{
    Bell, DeskConfig, FaultyLine, Fed, InputEnd, InputOutcome, LinePlace, LineRefusal, LineSource,
    MoveProgress, Outlet, PlanText, ServeDesk, ServeMark, ServeWatch, SideQueues, read_serve_line,
};
use std::alloc::Global;
use std::cell::Cell;
use std::io;
use std::sync::Arc;
use std::test::Fail;

// How often a desk is called within the seconds in which a job may still be answered, and in how many calls it is lost at last.
const CALLS_TOO_FEW: u64 = 50_000;

const CALLS_ENOUGH: u64 = 90_000;

// A plan of two partitions.
const PLAN: &[u8] = br#"{"version":1,"partitions":2,"ranges":[[0,4294967296,0]]}"#;

// A line that asks for a job.
const JOB: &str = "txn 1 41 7 get 0 0";

// Who counts the lines that are refused.
#[derive(Drop)]
struct Counter {
    refused: Cell<u64>,
}

impl ServeWatch for Counter {
    ghost Saves = { λ watch name text saved. Unit {0} };

    fn mark(&self, _mark: ServeMark) {}

    fn refuses(&self, _refusal: LineRefusal<'_>) {
        self.refused.set(self.refused.get().saturating_add(1));
    }

    fn save(&self, _name: &str, _text: &[u8]) -> io::Result<()> {
        Ok(())
    }
}

type Desk = ServeDesk<Vec<u8>>;

// A desk of two partitions, and where lines are handed on to it.
#[derive(Drop)]
struct Served {
    feed: Producer<Fed>,
    desk: Desk,
}

// What is done with a desk. It writes into the same text what is noted of it.
#[derive(Clone, Copy)]
enum Act {
    // The line with this number is handed on.
    Line(u64, &'static str),
    // The input ends.
    End,
    // The desk is asked what it wants, and `job ID` or `rest` is noted.
    Ask,
    // It is asked, and a job that it offers comes back for this.
    Return(PostFault),
    // It is called so many times.
    Calls(u64),
    // It is called so many times, and each job that it offers comes back since its queue is full.
    Retries(u64),
    // Rows begin to move, so many segments of them.
    Move(u64),
    // It is told of a stage in which so many segments move.
    Stage(u64),
    // It is noted how far it is.
    State,
}

fn desk_at(alloc: Global, is_strict: bool) -> Result<Served, Fail> {
    let bell = Arc::new(alloc, Bell::new())?;
    let plan = Plan::read(alloc, PLAN).ok().ok_or("it is a plan")?;
    let plan = PlanText::of(&plan)?;
    let sides = SideQueues::new(alloc, 2)?;
    let (feed, lines) = RingBuffer::new(alloc, 8)?;
    let config = DeskConfig {
        is_strict,
        pumps: 1,
        limit: ChunkLimit::new(64).ok_or("it is a limit")?,
    };
    let outlet = Outlet::new(Vec::new(alloc));
    let desk = ServeDesk::new(alloc, lines, bell, outlet, sides, plan, config);
    Ok(Served { feed, desk })
}

// What a line asks, as it is handed on.
fn fed_line(alloc: Global, line: u64, text: &str) -> Result<Fed, Fail> {
    let schema = Schema::new(MAX_TABLES).ok_or("no schema")?;
    let text = text.as_bytes();
    let asks = read_serve_line(alloc, &schema, text);
    Ok(Fed::Line {
        place: LinePlace {
            source: LineSource::Input,
            line,
        },
        asks: asks.map_err(|fault| FaultyLine::new(alloc, fault, text)),
    })
}

fn hand(feed: &mut Producer<Fed>, fed: Fed) -> Result<(), Fail> {
    feed.push(fed).ok().ok_or("the feed is full")?;
    Ok(())
}

fn id_of(job: Job) -> u64 {
    job.txn.id()
}

// The id of the job that is offered next, which is lost.
fn offered(desk: &mut Desk, watch: &Counter) -> Option<u64> {
    match desk.next_command(watch) {
        Command::Post(job) => Some(id_of(job)),
        Command::Rest | Command::End => None,
    }
}

// Asks for a job, which comes back for this.
fn return_next(desk: &mut Desk, watch: &Counter, fault: PostFault) {
    if let Command::Post(job) = desk.next_command(watch) {
        desk.take_back(job, fault, watch);
    }
}

fn call_often(desk: &mut Desk, watch: &Counter, calls: u64) {
    for _call in 0..calls {
        desk.begin_call();
        offered(desk, watch);
    }
}

fn retry_often(desk: &mut Desk, watch: &Counter, calls: u64) {
    for _call in 0..calls {
        desk.begin_call();
        return_next(desk, watch, PostFault::QueueFull);
    }
}

// Adds a line to what a desk wrote.
fn note(desk: &mut Desk, line: &str) -> Result<(), Fail> {
    desk.outlet.writer.extend_from_slice(line.as_bytes())?;
    desk.outlet.writer.push(b'\n')?;
    Ok(())
}

fn note_offered(alloc: Global, desk: &mut Desk, offered: Option<u64>) -> Result<(), Fail> {
    match offered {
        Some(id) => {
            let line = format!(in alloc; "job {id}")?;
            note(desk, line.as_str())
        }
        None => note(desk, "rest"),
    }
}

fn input_of(desk: &Desk) -> &'static str {
    match desk.end {
        None => "open",
        Some(InputOutcome::Whole) => "whole",
        Some(InputOutcome::Broken) => "broken",
        Some(InputOutcome::Refused) => "refused",
    }
}

fn note_state(alloc: Global, desk: &mut Desk, watch: &Counter) -> Result<(), Fail> {
    let told = watch.refused.get();
    let refused = desk.refused_lines;
    let input = input_of(desk);
    let next = if desk.has_wish() { "ends" } else { "stays" };
    let line = format!(in alloc; "{refused} refused, {told} told, {input}, {next}")?;
    note(desk, line.as_str())
}

fn moved(segments: u64) -> MoveProgress {
    MoveProgress {
        segments,
        stage: StageProgress::at_start(segments),
    }
}

fn perform(alloc: Global, served: &mut Served, watch: &Counter, act: Act) -> Result<(), Fail> {
    let desk = &mut served.desk;
    match act {
        Act::Line(line, text) => hand(&mut served.feed, fed_line(alloc, line, text)?)?,
        Act::End => hand(&mut served.feed, Fed::End(InputEnd::Whole))?,
        Act::Ask => {
            let offered = offered(desk, watch);
            note_offered(alloc, desk, offered)?;
        }
        Act::Return(fault) => return_next(desk, watch, fault),
        Act::Calls(calls) => call_often(desk, watch, calls),
        Act::Retries(calls) => retry_often(desk, watch, calls),
        Act::Move(segments) => desk.moving = Some(moved(segments)),
        Act::Stage(segments) => desk.note_stage(StageProgress::at_start(segments)),
        Act::State => note_state(alloc, desk, watch)?,
    }
    Ok(())
}

fn perform_all(
    alloc: Global,
    served: &mut Served,
    watch: &Counter,
    acts: &[Act],
) -> Result<(), Fail> {
    for act in acts {
        perform(alloc, served, watch, *act)?;
    }
    Ok(())
}

fn text_of(served: Served) -> Vec<u8> {
    let Served { feed, desk } = served;
    drop(feed);
    desk.into_outlet().writer
}

// What a desk writes, with what is noted of it.
fn answers(alloc: Global, is_strict: bool, acts: &[Act]) -> Result<Vec<u8>, Fail> {
    let watch = Counter {
        refused: Cell::new(0),
    };
    let mut served = desk_at(alloc, is_strict)?;
    let done = perform_all(alloc, &mut served, &watch, acts);
    let text = text_of(served);
    done?;
    Ok(text)
}

#[test]
fn a_lost_job_ends_the_engine(rt: HostRuntime) -> Result<(), Fail> {
    let acts = [
        Act::Line(5, JOB),
        Act::End,
        Act::Ask,
        Act::Calls(CALLS_TOO_FEW),
        Act::State,
        Act::Calls(CALLS_ENOUGH),
        Act::State,
    ];
    let text = answers(rt.alloc(), false, &acts)?;
    let want = b"job 41\n0 refused, 0 told, whole, stays\n0 refused, 0 told, whole, ends\n";
    assert!(rt; text.as_slice() == want.as_slice());
    Ok(())
}

#[test]
fn a_job_that_waits_is_not_lost(rt: HostRuntime) -> Result<(), Fail> {
    let acts = [
        Act::Line(5, JOB),
        Act::End,
        Act::Retries(CALLS_ENOUGH),
        Act::State,
    ];
    let text = answers(rt.alloc(), false, &acts)?;
    let want = b"0 refused, 0 told, whole, stays\n";
    assert!(rt; text.as_slice() == want.as_slice());
    Ok(())
}

#[test]
fn a_refused_job_has_one_line_with_its_id(rt: HostRuntime) -> Result<(), Fail> {
    let acts = [
        Act::Line(5, JOB),
        Act::Line(6, "txn 2 42 7 get 0 0"),
        Act::Return(PostFault::RepeatedId),
        Act::State,
        Act::Ask,
        Act::State,
    ];
    let text = answers(rt.alloc(), false, &acts)?;
    let want =
        b"fault 127 5 id 41\n1 refused, 1 told, open, stays\nfault 219 6 id 42\nrest\n2 refused, 2 told, open, stays\n";
    assert!(rt; text.as_slice() == want.as_slice());
    Ok(())
}

#[test]
fn a_strict_input_ends_with_its_first_fault(rt: HostRuntime) -> Result<(), Fail> {
    let acts = [
        Act::Line(5, "nonsense"),
        Act::Line(6, JOB),
        Act::Ask,
        Act::State,
    ];
    let text = answers(rt.alloc(), true, &acts)?;
    let want = b"fault 126 5\nrest\n1 refused, 1 told, refused, ends\n";
    assert!(rt; text.as_slice() == want.as_slice());
    Ok(())
}

#[test]
fn a_stage_at_rest_is_not_told_as_a_move(rt: HostRuntime) -> Result<(), Fail> {
    let acts = [
        Act::Move(3),
        Act::Line(5, "status"),
        Act::Stage(3),
        Act::Ask,
        Act::Line(6, "status"),
        Act::Stage(0),
        Act::Ask,
    ];
    let text = answers(rt.alloc(), false, &acts)?;
    let want = b"moving 0 of 3 segments, 0 jobs open\nrest\nat rest, 0 jobs open\nrest\n";
    assert!(rt; text.as_slice() == want.as_slice());
    Ok(())
}
