// Engines that serve a client while their workers run, and engines to which jobs are posted between their epochs.
use sq_node::JOB_PLACES;
use sq_trial::{
    Deed, Failure, PARTS, PlanChoice, ROOTS, Workload, any_epochs, any_moves, rounds, try_engine,
};
use std::alloc::Global;
use std::sync::Wait;
use std::thread::Threads;

// How many jobs a client has in moves.
const JOBS: u64 = 600;

// How many transactions a log with a limit holds.
const LOG: u64 = 4_096;

// How many places the queue of a partition has.
const PLACES: u64 = JOB_PLACES as u64;

// As many jobs as there are.
const ALL: u64 = u64::MAX;

// Jobs to all partitions that a client has at rest: on all root keys, and on one, whose log has no limit.
const AT_REST: [(&str, Workload); 2] = [
    (
        "a client is served at rest",
        Workload {
            seed: 7,
            jobs: 1_000,
            parts: PARTS,
            roots: ROOTS,
        },
    ),
    (
        "a log has no limit",
        Workload {
            seed: 7,
            jobs: LOG + 104,
            parts: PARTS,
            roots: 1,
        },
    ),
];

#[test]
fn a_client_is_served_at_rest(rt: HostRuntime) {
    for (what, workload) in &AT_REST {
        let deeds = [Deed::ServeUntil(workload.jobs)];
        let tried = try_engine(&rt, rt.alloc(), *workload, PlanChoice::Spread, &deeds);
        assert_eq!(rt; tried, Ok(()), "{what}");
    }
}

// So many jobs, all for one partition and on one root key, and what is done with the engine. The queue takes as many as it has places.
const FULL: [(&str, u64, &[Deed]); 2] = [
    (
        "a full queue waits",
        PLACES + 7,
        &[
            Deed::Post(ALL),
            Deed::HasPosted(PLACES),
            Deed::ServeUntil(PLACES + 7),
            Deed::HasPosted(PLACES + 7),
            Deed::HasAnswered(PLACES + 7),
        ],
    ),
    // A client is served whose queue is full at the begin. Jobs that come back it posts again, and each is answered once.
    (
        "a client meets a full queue",
        3 * PLACES,
        &[
            Deed::Post(ALL),
            Deed::HasPosted(PLACES),
            Deed::ServeUntil(3 * PLACES),
            Deed::HasAnswered(3 * PLACES),
        ],
    ),
];

#[test]
fn a_full_queue_waits(rt: HostRuntime) {
    for (what, jobs, deeds) in &FULL {
        let workload = Workload {
            seed: 2,
            jobs: *jobs,
            parts: 1,
            roots: 1,
        };
        let tried = try_engine(&rt, rt.alloc(), workload, PlanChoice::Gathered, deeds);
        assert_eq!(rt; tried, Ok(()), "{what}");
    }
}

// Tries an engine with these deeds, while a client has jobs to all partitions and on all root keys.
fn try_deeds<R: Threads + Wait + Sync>(
    rt: &R,
    alloc: Global,
    seed: u64,
    choice: PlanChoice,
    deeds: Result<Vec<Deed>, Failure>,
) -> Result<(), Failure> {
    let workload = Workload {
        seed,
        jobs: JOBS,
        parts: PARTS,
        roots: ROOTS,
    };
    try_engine(rt, alloc, workload, choice, &deeds?)
}

// The first partition gives root keys to three others, to each in a stage of its own; back they come in one stage.
#[test]
fn jobs_come_from_stage_to_stage(rt: HostRuntime) {
    let alloc = rt.alloc();
    let deeds = rounds(alloc, 1, JOBS);
    let tried = try_deeds(&rt, alloc, 5, PlanChoice::Gathered, deeds);
    assert_eq!(rt; tried, Ok(()));
}

#[test]
fn a_client_is_served_in_moves(rt: HostRuntime) {
    let alloc = rt.alloc();
    for seed in 1..4 {
        let deeds = any_moves(alloc, seed, 8, JOBS);
        let tried = try_deeds(&rt, alloc, seed, PlanChoice::Spread, deeds);
        assert_eq!(rt; tried, Ok(()), "seed {seed}");
    }
}

#[test]
fn jobs_are_answered_in_epochs(rt: HostRuntime) {
    let alloc = rt.alloc();
    for seed in 1..5 {
        let deeds = any_epochs(alloc, seed, 20);
        let tried = try_deeds(&rt, alloc, seed, PlanChoice::Spread, deeds);
        assert_eq!(rt; tried, Ok(()), "seed {seed}");
    }
}
