// Tries a tree and a link by themselves, and two pulls of a leaf. The second one doesn't end.
ghost use Rattle.std.specs.Prelude.{◌≡◌, IfOk};

use crate::gathered_text::print_gathered;
use crate::hand_run::{HandRun, Left};
use crate::lines::read_opening;
use crate::printing::{print_line, print_refused};
use crate::unfinished::Unfinished;
use sq_moves::{Link, NodeId};
use sq_plan::PartId;
use sq_schema::Txn;
use sq_shared::{RecvPass, SendPass, SharedLink, StatusTree, TreeSeat};
use std::alloc::{AllocError, Global};
use std::sync::Wait;

const HEADER: &str = r#"old {"version":1,"partitions":2,"ranges":[[0,4294967296,0]]}
new {"version":1,"partitions":2,"ranges":[[0,4,0],[4,8,1],[8,4294967296,0]]}
config 1 64 1
row 5 0 0 10 -
row 6 0 0 7 -
"#;

/// Tries a tree, a link, and two pulls.
pub fn try_nodes<R: Wait + Print>(rt: &R, alloc: Global) -> Result<(), Unfinished> {
    print_line(rt, "starts");
    try_tree(rt, alloc)?;
    try_link(rt, alloc)?;
    let opening = read_opening(alloc, HEADER)?;
    print_line(rt, "read");
    let run = HandRun::open(rt, alloc, &opening)?;
    print_line(rt, "opened");
    let left = try_pulls(rt, alloc, run)?;
    let told = print_gathered(rt, alloc, &left.gathered, &left.receipts);
    if told.is_ok() {
        print_left(rt, &left.gathered.left);
    }
    told
}

// Tries a tree whose node 1 is claimed.
fn try_tree<R: Print>(rt: &R, alloc: Global) -> Result<(), Unfinished> {
    let (tree, mut seat) = open_tree(rt, alloc)?;
    let claimed = tree.claim(&mut seat, NodeId::WHOLE, 2).is_ok();
    let [first, second, ..] = tree.close(seat);
    drop(println!(rt; "tree {claimed} {first:?} {second:?}"));
    Ok(())
}

fn open_tree<R: Print>(rt: &R, alloc: Global) -> Result<(StatusTree, TreeSeat), AllocError>
    ensures { IfOk result (λ opened. opened.1.tree ≡ opened.0) }
{
    match StatusTree::open(alloc) {
        Ok(opened) => Ok(opened),
        Err(_) => {
            print_refused(rt, "tree");
            StatusTree::open(alloc)
        }
    }
}

// Tries a link of two chunks, which is empty.
fn try_link<R: Wait + Print>(rt: &R, alloc: Global) -> Result<(), Unfinished> {
    let (link, send, recv) = open_link(rt, alloc)?;
    let Link { src, dst } = link.ends();
    let (src, dst, capacity) = (src.number(), dst.number(), link.capacity());
    let held = link.close(rt, send, recv).len();
    drop(println!(rt; "link {src} {dst} {capacity} {held}"));
    Ok(())
}

fn open_link<R: Print>(
    rt: &R,
    alloc: Global,
) -> Result<(SharedLink, SendPass, RecvPass), AllocError>
    ensures sender { IfOk result (λ opened. opened.1.queue ≡ opened.0.queue) }
    ensures receiver { IfOk result (λ opened. opened.2.queue ≡ opened.0.queue) }
{
    let (src, dst) = (PartId::new(3), PartId::new(1));
    match SharedLink::open(alloc, src, dst, 2) {
        Ok(opened) => Ok(opened),
        Err(_) => {
            print_refused(rt, "link");
            SharedLink::open(alloc, src, dst, 2)
        }
    }
}

// Tries two pulls, and gathers the run.
fn try_pulls<R: Wait + Print>(rt: &R, alloc: Global, mut run: HandRun) -> Result<Left, Unfinished> {
    run.post(rt, alloc, "txn 1 9 5 put 0 0 7 61")?;
    print_line(rt, "works");
    turns(rt, &mut run, &[1, 0, 1]);
    print_line(rt, "worked");
    run.post(rt, alloc, "txn 1 10 6 get 0 0")?;
    print_line(rt, "posted");
    turns(rt, &mut run, &[1, 0]);
    run.gather(rt, alloc)
}

// Runs eight turns of each of `parts`, one partition after another.
fn turns<R: Wait + Print>(rt: &R, run: &mut HandRun, parts: &[usize]) {
    for part in parts {
        for _turn in 0..8 {
            run.turn(rt, *part);
        }
    }
}

// Prints how many jobs each partition has left.
fn print_left<R: Print>(rt: &R, left: &[Vec<Txn>]) {
    for jobs in left {
        let left = jobs.len();
        drop(println!(rt; "left {left}"));
    }
}
