// Workers one by one: what they ask before each step.
use super::gates::{FIRST_PUMP, Lasting, Recorder, RecorderEnd};
use super::node::PAIR;
use super::run::TestRun;
use sq_driver::{NodeStep, OpenGate, WorkersEnd};
use sq_node::Stepped;
use std::alloc::Global;
use std::process::Abort;
use std::sync::Wait;

/// One partition, from which nothing moves.
pub const ALONE: &str = r#"old {"version":1,"partitions":1,"ranges":[[0,4294967296,0]]}
new {"version":1,"partitions":1,"ranges":[[0,4294967296,0]]}
config 1 64 1
"#;

// Two transactions on one root key, which the only partition has.
fn two_jobs<R: Wait + Abort>(rt: &R, alloc: Global) -> TestRun {
    let run = TestRun::opened(rt, alloc, ALONE, 0);
    run.post(rt, alloc, "txn 0 1 5 put 0 0 1 -");
    run.post(rt, alloc, "txn 0 2 5 get 0 0");
    run
}

#[test]
fn a_gate_is_asked_before_each_step(rt: HostRuntime) {
    let alloc = rt.alloc();
    let mut run = two_jobs(&rt, alloc);
    let first = Recorder::new(None);
    run.work(&rt, 1, &first);
    assert!(rt; first.told() == (0, 0x1a234345678));
    // It is idle once the second job is answered.
    let second = Recorder::new(None);
    run.work(&rt, 1_000_000, &second);
    assert!(rt; second.told() == (0, 0x1a234345678));
}

#[test]
fn a_gate_ends_a_node(rt: HostRuntime) {
    let alloc = rt.alloc();
    for (end, heard, receipts) in [
        (RecorderEnd::Asked(NodeStep::Job), 0x1, 0),
        (RecorderEnd::Answered, 0x1a, 1),
        (RecorderEnd::Asked(NodeStep::Load), 0x1a2343456, 1),
    ] {
        let mut run = two_jobs(&rt, alloc);
        let gate = Recorder::new(Some(end));
        run.work(&rt, 1_000_000, &gate);
        assert!(rt; gate.told() == (0, heard));
        assert!(rt; run.receipts() == receipts);
    }
}

// Workers that have threads and memory are done where a gate ends them, where they are idle, and after their turns.
#[test]
fn workers_are_done(rt: HostRuntime) {
    let alloc = rt.alloc();
    let mut run = two_jobs(&rt, alloc);
    let gate = Recorder::new(Some(RecorderEnd::Answered));
    assert!(rt; run.work(&rt, 1_000_000, &gate) == WorkersEnd::Done);
    assert!(rt; run.work(&rt, 1_000_000, &OpenGate) == WorkersEnd::Done);
    let mut pair = TestRun::opened(&rt, alloc, PAIR, 1);
    assert!(rt; pair.work(&rt, 0, &OpenGate) == WorkersEnd::Done);
    assert!(rt; pair.work(&rt, 1_000_000, &OpenGate) == WorkersEnd::Done);
}

// It has answered both jobs and found nothing to do for so many turns.
#[test]
fn a_gate_keeps_an_idle_node(rt: HostRuntime) {
    let alloc = rt.alloc();
    let mut run = two_jobs(&rt, alloc);
    let gate = Lasting::new(5);
    run.work(&rt, 1_000_000, &gate);
    assert!(rt; gate.rested() == 5 && run.receipts() == 2);
}

// How many requests a node takes in so many turns.
fn requests_taken<R: Wait + Abort>(rt: &R, run: &mut TestRun, turns: u64) -> u64 {
    let mut taken = 0u64;
    for _turn in 0..turns {
        let [_, request, _, _, _, _, _, _] = run.steps(rt, 0);
        if request == Stepped::Did {
            taken = taken.saturating_add(1);
        }
    }
    taken
}

// A pump ends where the gate says so. It claims one leaf a turn, and no more while eight requests wait at the source.
#[test]
fn a_pump_takes_its_turns(rt: HostRuntime) {
    let alloc = rt.alloc();
    let mut run = TestRun::opened(&rt, alloc, PAIR, 1);
    let closed = Recorder::new(Some(RecorderEnd::Asked(NodeStep::Pump)));
    run.drive_pump(&rt, 0, 1_000_000, &closed);
    assert!(rt; closed.told() == (FIRST_PUMP, 0x9));
    let gate = Recorder::new(None);
    run.drive_pump(&rt, 0, 1, &gate);
    assert!(rt; gate.told() == (FIRST_PUMP, 0x9));
    assert!(rt; requests_taken(&rt, &mut run, 2) == 1);
    run.drive_pump(&rt, 0, 11, &gate);
    assert!(rt; gate.told() == (FIRST_PUMP, 0x9999_9999_9999));
    assert!(rt; requests_taken(&rt, &mut run, 12) == 8);
}

// It claims each of the 32 leaves of the one segment. Then it finds nothing to claim there, and is done.
#[test]
fn a_pump_is_done_at_last(rt: HostRuntime) {
    let alloc = rt.alloc();
    let mut run = TestRun::opened(&rt, alloc, PAIR, 1);
    let mut taken = 0u64;
    for _time in 0..4 {
        run.drive_pump(&rt, 0, 12, &OpenGate);
        assert!(rt; !run.is_pump_done(0));
        taken = taken.saturating_add(requests_taken(&rt, &mut run, 12));
    }
    assert!(rt; taken == 32);
    run.drive_pump(&rt, 0, 1_000_000, &OpenGate);
    assert!(rt; run.is_pump_done(0));
}

// A partition with eight jobs cuts a chunk of one family, which counts as five operations. So it continues with jobs of
// one operation, which count as three, until they come to fifteen: five jobs more than the one that a turn takes.
#[test]
fn a_chunk_is_made_up_for_with_jobs(rt: HostRuntime) {
    let alloc = rt.alloc();
    let mut run = TestRun::opened(&rt, alloc, PAIR, 1);
    for _job in 0..8 {
        run.post(&rt, alloc, "txn 0 1 9 get 0 0");
    }
    run.turn_pump(&rt, 0);
    let gate = Recorder::new(None);
    run.drive(&rt, 0, 1, &gate);
    assert!(rt; gate.told() == (0, 0x881a_81a8_1a81_a81a));
    assert!(rt; run.receipts() == 6);
}

/// Two partitions, between which nothing moves.
pub const APART: &str = r#"old {"version":1,"partitions":2,"ranges":[[0,8,0],[8,4294967296,1]]}
new {"version":1,"partitions":2,"ranges":[[0,8,0],[8,4294967296,1]]}
config 1 64 1
"#;

// A node continues while a job of the other one isn't answered, and jobs are taken meanwhile. Once it is idle none is.
#[test]
fn a_run_with_an_idle_node_takes_no_jobs(rt: HostRuntime) {
    let alloc = rt.alloc();
    let mut run = TestRun::opened(&rt, alloc, APART, 0);
    run.post(&rt, alloc, "txn 0 1 5 get 0 0");
    run.post(&rt, alloc, "txn 1 2 9 get 0 0");
    run.drive(&rt, 0, 3, &OpenGate);
    run.post(&rt, alloc, "txn 0 3 5 get 0 0");
    run.drive(&rt, 1, 3, &OpenGate);
    run.drive(&rt, 0, 3, &OpenGate);
    assert!(rt; run.receipts() == 3);
    assert!(rt; !run.has_posted(&rt, alloc, "txn 1 4 9 get 0 0"));
}

// None is once all workers have ended, whether or not they were idle.
#[test]
fn a_run_whose_workers_have_ended_takes_no_jobs(rt: HostRuntime) {
    let alloc = rt.alloc();
    let mut run = TestRun::opened(&rt, alloc, APART, 0);
    run.post(&rt, alloc, "txn 0 1 5 get 0 0");
    run.work(&rt, 0, &OpenGate);
    assert!(rt; run.receipts() == 0);
    assert!(rt; !run.has_posted(&rt, alloc, "txn 1 2 9 get 0 0"));
}
