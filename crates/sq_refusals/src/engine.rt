// Tries an engine: a client of three jobs at rest, the end of an epoch, a move with a client, a
// move back with a client that posts nothing, and the end. Its workers run in threads.
use crate::engine_calls::{close, end_epoch, move_to, open, print_families, serve};
use crate::gathered_text::print_receipts;
use crate::lines::{read_job, read_opening};
use crate::poster::Poster;
use crate::printing::print_line;
use crate::unfinished::Unfinished;
use sq_audit::Job;
use sq_engine::Engine;
use std::alloc::Global;
use std::sync::Wait;
use std::thread::Threads;

const HEADER: &str =
    r#"old {"version":1,"partitions":3,"ranges":[[0,8,0],[8,12,1],[12,4294967296,2]]}
new {"version":1,"partitions":3,"ranges":[[0,8,0],[8,12,1],[12,4294967296,2]]}
config 1 64 1
row 5 0 0 10 -
row 9 0 0 20 -
row 14 0 0 30 -
"#;

// Each job has two operations, so that the copy of its transaction takes memory.
const AT_REST: [&str; 3] = [
    "txn 2 3 14 add 0 0 1 get 0 0",
    "txn 1 2 9 add 0 0 1 get 0 0",
    "txn 0 1 5 add 0 0 1 get 0 0",
];

const IN_MOVE: [&str; 1] = ["txn 0 4 5 add 0 0 1 get 0 0"];

// Root key 5 goes to partition 1, and back.
const THERE: &str = r#"{"version":1,"partitions":3,"ranges":[[0,4,0],[4,12,1],[12,4294967296,2]]}"#;

const BACK: &str = r#"{"version":1,"partitions":3,"ranges":[[0,8,0],[8,12,1],[12,4294967296,2]]}"#;

/// Tries an engine, and prints its answers and its families.
pub fn try_engine<R: Threads + Wait + Print + Sync>(
    rt: &R,
    alloc: Global,
) -> Result<(), Unfinished> {
    print_line(rt, "starts");
    let opening = read_opening(alloc, HEADER)?;
    print_line(rt, "read");
    let mut engine = open(rt, alloc, opening)?;
    print_line(rt, "opened");
    let outcome = make_calls(rt, alloc, &mut engine);
    drop(engine);
    outcome
}

fn make_calls<R: Threads + Wait + Print + Sync>(
    rt: &R,
    alloc: Global,
    engine: &mut Engine,
) -> Result<(), Unfinished> {
    serve_jobs(rt, alloc, engine, &AT_REST)?;
    end_epoch(rt, alloc, engine)?;
    print_families(rt, alloc, engine)?;
    move_to(rt, alloc, engine, THERE)?;
    serve_jobs(rt, alloc, engine, &IN_MOVE)?;
    move_to(rt, alloc, engine, BACK)?;
    serve_jobs(rt, alloc, engine, &[])?;
    close(rt, alloc, engine)?;
    print_families(rt, alloc, engine)
}

// Serves a client with the jobs of `lines` until the engine is at rest and they are answered, and
// prints the answers.
fn serve_jobs<R: Threads + Wait + Print + Sync>(
    rt: &R,
    alloc: Global,
    engine: &mut Engine,
    lines: &[&str],
) -> Result<(), Unfinished> {
    let jobs = read_jobs(alloc, lines)?;
    let mut client = Poster::new(alloc, jobs, 0)?;
    serve(rt, alloc, engine, &mut client)?;
    print_receipts(rt, alloc, &client.into_receipts())
}

fn read_jobs(alloc: Global, lines: &[&str]) -> Result<Vec<Job>, Unfinished> {
    let mut jobs = Vec::new(alloc);
    for line in lines {
        jobs.push(read_job(alloc, line)?)?;
    }
    Ok(jobs)
}
