// Live runs past gates: one that ends a worker, those that keep one until others run beside it, and one that counts.
ghost use Rattle.std.specs.Prelude.{◌≤◌};
ghost use Rattle.sq_shared.specs.declared.numbers.TheConstants.{MAX_PUMPS};

use super::driver::ALONE;
use super::gates::{After, Counter, Enough, Meeting, Recorder, RecorderEnd};
use sq_driver::NodeStep;
use sq_live::{RunManner, Watch, live};
use std::alloc::Global;
use std::sync::Wait;
use std::test::Fail;
use std::thread::Threads;

// Two partitions; the first gives the root keys from 50 to 99 to the second, and each has a job.
const HALVES: &str = r#"old {"version":1,"partitions":2,"ranges":[[0,100,0],[100,4294967296,1]]}
new {"version":1,"partitions":2,"ranges":[[0,50,0],[50,4294967296,1]]}
config 2 64 1
row 2 0 0 1 -
row 200 0 0 1 -
txn 0 1 2 get 0 0
txn 1 2 200 get 0 0
"#;

// Sixteen partitions; the first gives 16 root keys to the second.
const SIXTEEN: &str = r#"old {"version":1,"partitions":16,"ranges":[[0,4294967296,0]]}
new {"version":1,"partitions":16,"ranges":[[0,16,1],[16,4294967296,0]]}
config 1 64 1
"#;

// Two partitions; the first gives 100 root keys, four segments, to the second, and jobs at both. Jobs at the second
// pull what they wait for, so that trees are split.
const HUNDRED: &str = r#"old {"version":1,"partitions":2,"ranges":[[0,4294967296,0]]}
new {"version":1,"partitions":2,"ranges":[[0,100,1],[100,4294967296,0]]}
config 1 64 1
row 5 0 0 1 -
row 40 0 0 1 -
row 70 0 0 1 -
txn 1 1 5 get 0 0
txn 1 2 40 get 0 0
txn 1 3 99 put 0 0 1 -
txn 0 4 70 get 0 0
txn 0 5 200 put 0 0 1 -
"#;

// Three partitions; the first gives four root keys to the second, four to the third in a second stage, and four more to
// the second in the first stage; and a job of a root key that stays.
const STAGES: &str = r#"old {"version":1,"partitions":3,"ranges":[[0,4294967296,0]]}
new {"version":2,"partitions":3,"ranges":[[0,4,0],[4,8,1],[8,12,2],[12,16,1],[16,4294967296,0]],"stages":"auto"}
config 1 64 1
row 5 0 0 1 -
row 9 0 0 1 -
txn 0 1 20 put 0 0 1 -
"#;

// What a live run of an input writes past a gate, with this many pumps, with or without folds, and its exit status.
fn ended<R: Threads + Wait + Sync, G: Watch>(
    rt: &R,
    alloc: Global,
    input: &str,
    pumps: u32,
    folds: bool,
    gate: &G,
) -> Result<(String, u8), Fail>
    requires { pumps ≤ MAX_PUMPS }
{
    let mut reader = input.as_bytes();
    let mut written = Vec::new(alloc);
    let manner = RunManner {
        turns: 2_000_000,
        pumps,
        folds,
    };
    let ending = live(rt, alloc, &mut reader, &mut written, manner, gate)?;
    Ok((String::from_utf8(written)?, ending.status()))
}

// A worker that a gate ends takes no more steps, and the run is stopped.
#[test]
fn a_gate_stops_a_run(rt: HostRuntime) -> Result<(), Fail> {
    let alloc = rt.alloc();
    let input = format!(in alloc; "{ALONE}txn 0 1 5 put 0 0 1 -\ntxn 0 2 5 get 0 0\n")?;
    for (end, answered) in [
        (RecorderEnd::Asked(NodeStep::Job), 0),
        (RecorderEnd::Answered, 1),
    ] {
        let gate = Recorder::new(Some(end));
        let (line, status) = ended(&rt, alloc, &input, 1, false, &gate)?;
        let want = format!(in alloc; "stopped {answered} of 2 jobs, 0 of 0 segments\n")?;
        assert_eq!(rt; line.as_str(), want.as_str());
        assert!(rt; status == 3);
    }
    Ok(())
}

#[test]
fn each_worker_has_a_thread(rt: HostRuntime) -> Result<(), Fail> {
    let alloc = rt.alloc();
    let gate = Meeting::new(alloc, 16, 16)?;
    let (line, status) = ended(&rt, alloc, SIXTEEN, 16, false, &gate)?;
    assert_eq!(rt; line.as_str(), "sound 0 families 0 committed\n");
    assert!(rt; status == 0 && gate.was_full());
    Ok(())
}

// Each of two partitions in turn takes no job before the other has answered one. Workers that run one after another, in any
// order, leave a job in one of the two runs.
#[test]
fn each_of_two_partitions_waits_for_the_other(rt: HostRuntime) -> Result<(), Fail> {
    let alloc = rt.alloc();
    for (kept, other) in [(0, 1), (1, 0)] {
        let gate = After::new(kept, other);
        let (line, status) = ended(&rt, alloc, HALVES, 1, false, &gate)?;
        assert_eq!(rt; line.as_str(), "sound 2 families 2 committed\n");
        assert!(rt; status == 0);
    }
    Ok(())
}

// The watch hears how much there is to do before the first step, and then of each job that is answered and each segment
// that is complete, once.
#[test]
fn a_watch_is_told_of_all_that_is_done(rt: HostRuntime) -> Result<(), Fail> {
    let alloc = rt.alloc();
    for (input, jobs, segments) in [
        (HALVES, 2, 1),
        (SIXTEEN, 0, 1),
        (HUNDRED, 5, 4),
        (STAGES, 1, 3),
    ] {
        let counter = Counter::new();
        let (_line, status) = ended(&rt, alloc, input, 1, true, &counter)?;
        assert!(rt; status == 0 && counter.has_ended());
        assert!(rt; counter.jobs() == (jobs, jobs));
        assert!(rt; counter.segments() == (segments, segments));
    }
    Ok(())
}

// A run that is stopped in its second stage has the jobs and the segments of the first, whether or not logs were folded
// between.
#[test]
fn a_gate_stops_a_run_in_its_second_stage(rt: HostRuntime) -> Result<(), Fail> {
    let alloc = rt.alloc();
    for folds in [false, true] {
        let gate = Enough::new(2);
        let (line, status) = ended(&rt, alloc, STAGES, 1, folds, &gate)?;
        assert_eq!(rt; line.as_str(), "stopped 1 of 1 jobs, 2 of 3 segments\n");
        assert!(rt; status == 3);
    }
    Ok(())
}
