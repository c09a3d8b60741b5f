// Tries the epochs of an engine: a move in two stages, with jobs that are posted between its
// epochs, a move back, and the end. Its workers run in threads.
use crate::engine_calls::{close, move_to, open, post, print_families, serve, serve_epoch};
use crate::gathered_text::print_receipts;
use crate::lines::{read_job, read_opening};
use crate::poster::Poster;
use crate::printing::print_line;
use crate::unfinished::Unfinished;
use sq_audit::Job;
use sq_engine::Engine;
use std::alloc::Global;
use std::sync::Wait;
use std::thread::Threads;

const HEADER: &str = r#"old {"version":1,"partitions":3,"ranges":[[0,4294967296,0]]}
new {"version":2,"partitions":3,"ranges":[[0,6,1],[6,12,2],[12,4294967296,0]],"stages":"auto"}
config 1 64 1
row 5 0 0 10 -
row 9 0 0 20 -
"#;

// Each job has two operations, so that the copy of its transaction takes memory.
const FIRST: &str = "txn 0 1 5 add 0 0 1 get 0 0";

const SECOND: &str = "txn 1 2 9 add 0 0 1 get 0 0";

const BACK: &str = r#"{"version":1,"partitions":3,"ranges":[[0,6,0],[6,12,2],[12,4294967296,0]]}"#;

/// Tries all epochs, and prints the answers and the families.
pub fn try_chain<R: Threads + Wait + Print + Sync>(
    rt: &R,
    alloc: Global,
) -> Result<(), Unfinished> {
    print_line(rt, "starts");
    let opening = read_opening(alloc, HEADER)?;
    let first = read_job(alloc, FIRST)?;
    let second = read_job(alloc, SECOND)?;
    let mut client = Poster::new(alloc, Vec::new(alloc), 2)?;
    print_line(rt, "read");
    let mut engine = open(rt, alloc, opening)?;
    print_line(rt, "opened");
    let outcome = make_calls(rt, alloc, &mut engine, &mut client, first, second);
    drop(engine);
    outcome?;
    print_receipts(rt, alloc, &client.into_receipts())
}

// Posts `first` in the first stage and `second` after it, and closes the engine after a move back.
fn make_calls<R: Threads + Wait + Print + Sync>(
    rt: &R,
    alloc: Global,
    engine: &mut Engine,
    client: &mut Poster,
    first: Job,
    second: Job,
) -> Result<(), Unfinished> {
    post(rt, alloc, engine, client, first)?;
    serve_epoch(rt, alloc, engine, client)?;
    print_line(rt, "worked");
    post(rt, alloc, engine, client, second)?;
    serve(rt, alloc, engine, client)?;
    move_to(rt, alloc, engine, BACK)?;
    serve(rt, alloc, engine, client)?;
    close(rt, alloc, engine)?;
    print_families(rt, alloc, engine)
}
