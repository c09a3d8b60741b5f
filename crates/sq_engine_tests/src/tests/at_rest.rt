// Engines at rest: how much of a processor they take while nothing happens, and how soon a job is answered that comes then.
use sq_audit::Job;
use sq_engine::{Client, Command, Engine, PostFault, StageProgress};
use sq_node::Receipt;
use sq_plan::PartId;
use sq_trial::{JobSource, PARTS, PlanChoice, ROOTS, Workload, opening_at};
use std::alloc::Global;
use std::process::Abort;
use std::sync::Wait;
use std::thread::Threads;
use std::time::{Clock, CpuClock, Duration, Instant};

// For how many milliseconds an engine rests, and how many of the processor's that may take at most: a tenth.
const REST: u64 = 1_000;

const COST: u64 = 100;

// How many jobs come one by one, how many milliseconds after the answer to the one before, and within how many half of them have to be
// answered. A node that isn't woken sleeps for 50, so that half would take 25 or more.
const JOBS: u64 = 100;

const PAUSE: u64 = 5;

const SOON: u64 = 15;

// An engine at rest, whose root keys are spread over its partitions.
fn opened<R: Threads + Abort + Sync>(rt: &R, alloc: Global) -> Engine {
    let opening = opening_at(alloc, PlanChoice::Spread).expect(rt, "no memory for an opening");
    let engine = Engine::open(rt, alloc, opening, 0).ok();
    engine.expect(rt, "no memory for an engine")
}

// A client that wants nothing for as long as an engine rests, and then that the epoch ends.
#[derive(Drop)]
struct Sleeper<'a, R> {
    clock: &'a R,
    began: Instant,
}

impl<R: Clock> Client for Sleeper<'_, R> {
    ghost Becomes = { λ old call new. Unit {0} };

    fn next(&mut self, _progress: StageProgress) -> Command {
        match self.began.elapsed(self.clock) {
            Ok(time) if time < Duration::from_millis(REST) => Command::Rest,
            _ => Command::End,
        }
    }

    fn take(&mut self, _part: PartId, _receipt: Receipt) {}

    fn take_back(&mut self, _job: Job, _fault: PostFault) {}
}

#[test]
fn an_engine_at_rest_takes_little_of_a_processor(rt: HostRuntime) {
    let alloc = rt.alloc();
    let mut engine = opened(&rt, alloc);
    let before = rt.process_cpu_time().expect(&rt, "no clock");
    let mut client = Sleeper {
        clock: &rt,
        began: Instant::now(&rt).expect(&rt, "no clock"),
    };
    let is_served = engine.serve(&rt, alloc, u64::MAX, &mut client).is_ok();
    let after = rt.process_cpu_time().expect(&rt, "no clock");
    assert!(rt; is_served, "no memory for an epoch");
    let cost = after.saturating_sub(before);
    assert!(rt;
        cost < Duration::from_millis(COST),
        "it took {cost:?} in a second"
    );
}

// A client that posts a job a while after the last one was answered, and notes how long each one took.
#[derive(Drop)]
struct Pacer<'a, R> {
    clock: &'a R,
    source: JobSource,
    alloc: Global,
    // When the last job was posted or answered, and whether it is open.
    last: Instant,
    is_open: bool,
    times: Vec<Duration>,
}

impl<R: Clock> Pacer<'_, R> {
    // How long ago the last job was posted or answered.
    fn since_last(&self) -> Duration {
        self.last.elapsed(self.clock).unwrap_or(Duration::MAX)
    }

    fn note_time(&mut self) {
        if let Ok(now) = Instant::now(self.clock) {
            self.last = now;
        }
    }
}

impl<R: Clock> Client for Pacer<'_, R> {
    ghost Becomes = { λ old call new. Unit {0} };

    fn next(&mut self, _progress: StageProgress) -> Command {
        if self.is_open || self.since_last() < Duration::from_millis(PAUSE) {
            return Command::Rest;
        }
        if self.source.is_spent() {
            return Command::End;
        }
        match self.source.make(self.alloc) {
            Ok((job, _root)) => {
                self.is_open = true;
                self.note_time();
                Command::Post(job)
            }
            Err(_) => Command::End,
        }
    }

    fn take(&mut self, _part: PartId, _receipt: Receipt) {
        let time = self.since_last();
        drop(self.times.push(time));
        self.is_open = false;
        self.note_time();
    }

    fn take_back(&mut self, _job: Job, _fault: PostFault) {
        self.is_open = false;
    }
}

#[test]
fn a_job_wakes_an_engine_at_rest(rt: HostRuntime) {
    let alloc = rt.alloc();
    let mut engine = opened(&rt, alloc);
    let workload = Workload {
        seed: 3,
        jobs: JOBS,
        parts: PARTS,
        roots: ROOTS,
    };
    let mut client = Pacer {
        clock: &rt,
        source: JobSource::new(workload),
        alloc,
        last: Instant::now(&rt).expect(&rt, "no clock"),
        is_open: false,
        times: Vec::new(alloc),
    };
    let is_served = engine.serve(&rt, alloc, u64::MAX, &mut client).is_ok();
    assert!(rt; is_served, "no memory for an epoch");
    let Pacer { mut times, .. } = client;
    assert_eq!(rt; times.len() as u64, JOBS, "not each job is answered, once");
    times.sort_unstable();
    let median = times.get(times.len() / 2).copied();
    let is_soon = median.is_some_and(|time| time < Duration::from_millis(SOON));
    assert!(rt; is_soon, "the median is {median:?}");
}
