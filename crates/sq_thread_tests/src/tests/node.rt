// Nodes in one thread: a pull of one leaf, and requests that no claim made.
use super::run::TestRun;
use sq_moves::{NodeId, SegId};
use sq_node::Stepped;
use sq_schema::Txn;
use sq_shared::{PumpTurn, Request};
use std::alloc::Global;
use std::process::Abort;
use std::sync::Wait;

/// Two partitions, between which root keys 4 to 7 move in one segment, and a row of root key 5.
pub const PAIR: &str = r#"old {"version":1,"partitions":2,"ranges":[[0,4294967296,0]]}
new {"version":1,"partitions":2,"ranges":[[0,4,0],[4,8,1],[8,4294967296,0]]}
config 1 64 1
row 5 0 0 10 -
"#;

// What is gathered once leaf 1 was pulled for a transaction at partition 1, one at partition 0 ran, and the pump claimed leaf
// 0.
const PULLED: &str = "at 0 9 1
at 1 5 1 0.0=10/-
note 0 1 0 0 33 5 6 true
node 1 Split
node 2 Split
node 4 Split
node 8 Split
node 16 Split
node 32 Claimed(0)
node 33 Complete(3)
receipt 9 0 commit 10 none
receipt 5 0 commit 9 10/-
";

// A transaction that waits pulls its leaf, and is answered once its rows came.
fn pulls_its_leaf<R: Wait + Abort>(rt: &R, alloc: Global, run: &mut TestRun) {
    run.post(rt, alloc, "txn 1 9 5 get 0 0");
    run.turn_each(rt, &[0, 1, 0, 1]);
    assert_eq!(rt;
        run.text_of_receipts(rt, alloc, 1).as_str(),
        "receipt 5 0 commit 9 10/-\n"
    );
    for part in [0, 1] {
        assert!(rt; run.steps(rt, part) == [Stepped::Nothing; 8], "{part}");
    }
}

// One of another partition is posted on.
fn is_posted_on<R: Wait + Abort>(rt: &R, alloc: Global, run: &mut TestRun) {
    run.post(rt, alloc, "txn 1 10 9 get 0 0");
    run.turn_each(rt, &[1, 0]);
    assert_eq!(rt;
        run.text_of_receipts(rt, alloc, 0).as_str(),
        "receipt 9 0 commit 10 none\n"
    );
}

#[test]
fn a_pull_of_one_leaf(rt: HostRuntime) {
    let alloc = rt.alloc();
    let mut run = TestRun::opened(&rt, alloc, PAIR, 1);
    pulls_its_leaf(&rt, alloc, &mut run);
    is_posted_on(&rt, alloc, &mut run);
    assert!(rt; run.turn_pump(&rt, 0) == won(&rt, 32));
    assert_eq!(rt; run.text(&rt, alloc).as_str(), PULLED);
}

// The pump won a node of the first segment.
fn won<R: Abort>(rt: &R, node: u64) -> PumpTurn {
    let seg = SegId::new(0).expect(rt, "no segment");
    PumpTurn::Won(seg, NodeId::new(node).expect(rt, "no node"))
}

// A job that finds no row at the root key 9 of partition 0, whose log doesn't grow by it.
const CHECK: &str = "txn 0 1 9 check 0 0 1";

// A run whose queue of jobs to partition 0 is full: it has 4,096 places, and one more job comes back.
fn full_of_jobs<R: Wait + Abort>(rt: &R, alloc: Global) -> TestRun {
    let run = TestRun::opened(rt, alloc, PAIR, 0);
    for _job in 0..4096 {
        run.post(rt, alloc, CHECK);
    }
    let has_posted = run.has_posted(rt, alloc, CHECK);
    assert!(rt; !has_posted, "there are more places");
    run
}

// A job that comes back doesn't count as posted: once those in the queue are answered, all are.
#[test]
fn a_job_that_comes_back_is_not_counted(rt: HostRuntime) {
    let mut run = full_of_jobs(&rt, rt.alloc());
    for _turn in 0..4096 {
        assert!(rt; !run.is_answered());
        run.turn(&rt, 0);
    }
    assert!(rt; run.receipts() == 4096 && run.is_answered());
}

// The jobs 2 to 4, as partition 0 answers them behind those that were in its queue.
const IN_ORDER: &str = "receipt 9 0 commit 2 none
receipt 9 1 commit 3 none
receipt 9 2 commit 4 none
";

// Jobs of another partition that find its queue full stay in their order, however often they are tried, and go once there
// is room.
#[test]
fn jobs_that_find_a_full_queue_are_kept(rt: HostRuntime) {
    let alloc = rt.alloc();
    let mut run = full_of_jobs(&rt, alloc);
    for id in 2..5 {
        let line = format!(in alloc; "txn 1 {id} 9 get 0 0");
        run.post(&rt, alloc, &line.expect(&rt, "no memory for a line"));
    }
    run.turns(&rt, 5, &[1]);
    run.turns(&rt, 4099, &[0, 1]);
    assert!(rt; run.receipts() == 4099 && run.is_answered());
    let text = run.text_of_receipts(&rt, alloc, 0);
    assert!(rt; text.as_str().ends_with(IN_ORDER));
}

// Whether these jobs have just these ids, and behind them so many have the id 1.
fn are_left(jobs: &[Txn], ids: &[u64], behind: usize) -> bool {
    for (place, job) in jobs.iter().enumerate() {
        if job.id() != ids.get(place).copied().unwrap_or(1) {
            return false;
        }
    }
    jobs.len().checked_sub(ids.len()) == Some(behind)
}

// No job is left out of what is gathered: of partition 0 those that partition 1 has to post on, and those that fill its queue; of
// partition 1 the one that waits there, and the one that it didn't take.
#[test]
fn all_jobs_left_are_gathered(rt: HostRuntime) {
    let alloc = rt.alloc();
    let mut run = full_of_jobs(&rt, alloc);
    for line in &JOBS_LEFT {
        run.post(&rt, alloc, line);
    }
    run.turns(&rt, 3, &[1]);
    match run.gathered(&rt, alloc).0.left.as_slice() {
        [first, second] => {
            assert!(rt; are_left(first, &[2, 4], 4096) && are_left(second, &[3, 5], 0));
        }
        _ => rt.panic("there are two partitions"),
    }
}

// Jobs to partition 1: it has to post the first and the third on, the second waits for its rows, and the fourth isn't taken.
const JOBS_LEFT: [&str; 4] = [
    "txn 1 2 9 get 0 0",
    "txn 1 3 5 get 0 0",
    "txn 1 4 9 get 0 0",
    "txn 1 5 9 get 0 0",
];

// What goes to a partition that isn't there comes back, and isn't counted.
#[test]
fn what_goes_to_no_partition_comes_back(rt: HostRuntime) {
    let alloc = rt.alloc();
    let run = TestRun::opened(&rt, alloc, PAIR, 0);
    assert!(rt; !run.has_posted(&rt, alloc, "txn 2 1 9 get 0 0"));
    assert!(rt; !run.has_requested(&rt, 2, NO_SEGMENT));
    assert!(rt; run.is_answered());
}

// A request that names no segment.
const NO_SEGMENT: Request = Request {
    seg: 9,
    node: 1,
    pull: 2,
};

// How many places the queue of requests to a partition has left. It is full then.
fn places_left<R: Wait + Abort>(rt: &R, run: &TestRun, part: u8) -> u64 {
    for taken in 0..1000 {
        if !run.has_requested(rt, part, NO_SEGMENT) {
            return taken;
        }
    }
    rt.panic("the queue isn't full")
}

// A queue of requests holds 256. The pull of a node that finds it full is tried again until there is room.
#[test]
fn a_request_that_finds_a_full_queue_is_kept(rt: HostRuntime) {
    let alloc = rt.alloc();
    let mut run = TestRun::opened(&rt, alloc, PAIR, 0);
    assert!(rt; places_left(&rt, &run, 0) == 256);
    run.post(&rt, alloc, "txn 1 9 5 get 0 0");
    run.turns(&rt, 3, &[1]);
    run.turns(&rt, 260, &[1, 0]);
    assert_eq!(rt;
        run.text_of_receipts(&rt, alloc, 1).as_str(),
        "receipt 5 0 commit 9 10/-\n"
    );
}

// Three partitions; each gives four root keys to another one.
const ROUND: &str = r#"old {"version":1,"partitions":3,"ranges":[[0,4,0],[4,8,1],[8,4294967296,2]]}
new {"version":1,"partitions":3,"ranges":[[0,4,1],[4,8,2],[8,12,0],[12,4294967296,2]]}
config 1 64 1
"#;

// A partition, a job there that waits, and the places that the pull leaves in the queue of each partition.
const PULLS: [(u8, &str, [u64; 3]); 3] = [
    (1, "txn 1 1 0 get 0 0", [255, 256, 256]),
    (2, "txn 2 1 4 get 0 0", [256, 255, 256]),
    (0, "txn 0 1 8 get 0 0", [256, 256, 255]),
];

// The request of a pull goes to the partition that its segment leaves, and to no other.
#[test]
fn a_request_goes_to_the_source_alone(rt: HostRuntime) {
    let alloc = rt.alloc();
    for (part, line, left) in &PULLS {
        let mut run = TestRun::opened(&rt, alloc, ROUND, 0);
        run.post(&rt, alloc, line);
        // The turn of the partition takes this one, and leaves there what comes behind it.
        run.request(&rt, *part, NO_SEGMENT);
        run.turn(&rt, usize::from(*part));
        for (to, places) in (0u8..3).zip(left) {
            assert!(rt; places_left(&rt, &run, to) == *places, "{line} to {to}");
        }
    }
}

// As many transactions wait as may: the next one goes back into its queue, and waits once another was resumed.
#[test]
fn a_job_that_is_refused_is_taken_again(rt: HostRuntime) {
    let alloc = rt.alloc();
    let mut run = TestRun::opened(&rt, alloc, PAIR, 0);
    for id in 0..1025 {
        let line = format!(in alloc; "txn 1 {id} 5 get 0 0");
        run.post(&rt, alloc, &line.expect(&rt, "no memory for a line"));
    }
    run.turns(&rt, 1025, &[1]);
    assert!(rt; run.receipts() == 0);
    run.turns(&rt, 1030, &[0, 1]);
    assert!(rt; run.receipts() == 1025 && run.all_commit());
}

// Requests that no claim made, or that name no node of a segment that leaves there: whom they go to, and the segment, the
// node and the pull.
const WRONG: [(u8, u64, u64, u32); 5] = [
    (0, 0, 1, 4),
    (0, 0, 0, 2),
    (0, 0, 64, 2),
    (0, 9, 1, 2),
    (1, 0, 1, 2),
];

// The run after these requests and five turns of each node.
fn after_wrong_requests<R: Wait + Abort>(rt: &R, alloc: Global) -> TestRun {
    let mut run = TestRun::opened(rt, alloc, PAIR, 1);
    for (part, seg, node, pull) in &WRONG {
        let (seg, node, pull) = (*seg, *node, *pull);
        run.request(rt, *part, Request { seg, node, pull });
    }
    run.turns(rt, 5, &[0, 1]);
    run
}

#[test]
fn wrong_requests_change_nothing(rt: HostRuntime) {
    let alloc = rt.alloc();
    let text = after_wrong_requests(&rt, alloc).text(&rt, alloc);
    assert_eq!(rt; text.as_str(), "at 0 5 0 0.0=10/-\n");
}

// Once the pump claimed the whole segment, and node 0 began it.
const BEGUN: &str = "note 0 1 0 0 1 4 8 true
way 0 1 0 0 1 4 8 last 1
in 5 0 0.0=10/-
node 1 Partial(0)
";

#[test]
fn a_repeated_request_begins_its_node_once(rt: HostRuntime) {
    let alloc = rt.alloc();
    let mut run = after_wrong_requests(&rt, alloc);
    assert!(rt; run.turn_pump(&rt, 0) == won(&rt, 1));
    let request = Request {
        seg: 0,
        node: 1,
        pull: 0,
    };
    for _time in 0..2 {
        run.request(&rt, 0, request);
    }
    run.turns(&rt, 3, &[0]);
    assert_eq!(rt; run.text(&rt, alloc).as_str(), BEGUN);
}
