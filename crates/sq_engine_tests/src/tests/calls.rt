// The calls of an engine, one by one, and what each returns.
use sq_audit::{Job, Verdict};
use sq_engine::{
    ChunkLimit, Client, Command, Engine, EpochEnd, NotEnded, NotMoved, NotPosted, PostFault,
    StageProgress,
};
use sq_node::Receipt;
use sq_plan::{PartId, Plan};
use sq_trial::{JobSource, PARTS, PlanChoice, ROOTS, Workload, opening_at};
use std::alloc::Global;
use std::process::Abort;
use std::sync::Wait;
use std::thread::Threads;

// All rows at partition 0.
const GATHERED: &[u8] = br#"{"version":1,"partitions":4,"ranges":[[0,30,0],[30,4294967296,3]]}"#;

// A partition less.
const FEWER: &[u8] = br#"{"version":1,"partitions":3,"ranges":[[0,4294967296,0]]}"#;

// A client that waits for answers, and ends the epoch at rest once it has them.
#[derive(Drop)]
struct Waiter {
    left: u64,
}

impl Client for Waiter {
    ghost Becomes = { λ old call new. Unit {0} };

    fn next(&mut self, progress: StageProgress) -> Command {
        if self.left == 0 && progress.is_rest() {
            Command::End
        } else {
            Command::Rest
        }
    }

    fn take(&mut self, _part: PartId, _receipt: Receipt) {
        self.left = self.left.saturating_sub(1);
    }

    fn take_back(&mut self, _job: Job, _fault: PostFault) {}
}

// The job with the id 0.
fn first_job<R: Abort>(rt: &R, alloc: Global) -> Job {
    let mut source = JobSource::new(Workload {
        seed: 5,
        jobs: 1,
        parts: PARTS,
        roots: ROOTS,
    });
    let (job, _root) = source.make(alloc).expect(rt, "no memory for a job");
    job
}

// Why the job with the id 0 isn't posted to a partition; to its own one without a number.
fn refused<R: Wait + Abort>(
    rt: &R,
    alloc: Global,
    engine: &mut Engine,
    part: Option<u8>,
) -> Option<NotPosted> {
    let mut job = first_job(rt, alloc);
    if let Some(number) = part {
        job.part = PartId::new(number);
    }
    match engine.post(rt, job) {
        Ok(()) => None,
        Err((_, why)) => Some(why),
    }
}

// Serves an epoch until `answers` answers have come, and returns how it ended.
fn served<R: Threads + Wait + Abort + Sync>(
    rt: &R,
    alloc: Global,
    engine: &mut Engine,
    answers: u64,
) -> EpochEnd {
    let mut client = Waiter { left: answers };
    let served = engine.serve(rt, alloc, u64::MAX, &mut client);
    served.expect(rt, "no memory for an epoch").end
}

#[test]
fn the_calls_of_an_engine(rt: HostRuntime) {
    let alloc = rt.alloc();
    let opening = opening_at(alloc, PlanChoice::Spread).expect(&rt, "no memory for an opening");
    let engine = Engine::open(&rt, alloc, opening, 1).ok();
    let mut engine = engine.expect(&rt, "no memory for an engine");
    let repeated = Some(NotPosted::Refused(PostFault::RepeatedId));
    let missing = Some(NotPosted::Refused(PostFault::NoSuchPartition));
    // An id is taken until its job is answered.
    assert_eq!(rt; refused(&rt, alloc, &mut engine, Some(PARTS)), missing);
    assert_eq!(rt; refused(&rt, alloc, &mut engine, None), None);
    assert_eq!(rt; refused(&rt, alloc, &mut engine, None), repeated);
    assert_eq!(rt; served(&rt, alloc, &mut engine, 1), EpochEnd::Whole);
    assert_eq!(rt; refused(&rt, alloc, &mut engine, None), None);
    assert_eq!(rt; served(&rt, alloc, &mut engine, 1), EpochEnd::Whole);
    // Between two epochs the rows are there, and no job is posted.
    assert!(rt; engine.rows().is_none(), "rows in an epoch");
    assert_eq!(rt; engine.end_epoch(&rt, alloc), Ok(()));
    assert!(rt; engine.rows().is_some(), "no rows");
    assert_eq!(rt;
        refused(&rt, alloc, &mut engine, None),
        Some(NotPosted::NoEpoch)
    );
    assert_eq!(rt; served(&rt, alloc, &mut engine, 0), EpochEnd::Whole);
    // A move, in which no epoch is ended, nor another one begun.
    let fewer = Plan::read(alloc, FEWER).expect(&rt, "it is a plan");
    let there = Plan::read(alloc, GATHERED).expect(&rt, "it is a plan");
    let again = Plan::read(alloc, GATHERED).expect(&rt, "it is a plan");
    let limit = ChunkLimit::of(engine.opening());
    let faulty = engine.move_to(&rt, alloc, fewer, limit);
    assert!(rt; matches!(&faulty, Err(NotMoved::Plans(_))), "{faulty:?}");
    assert_eq!(rt; engine.move_to(&rt, alloc, there, limit), Ok(()));
    assert!(rt; !engine.is_at_rest(), "nothing moves");
    assert_eq!(rt;
        engine.move_to(&rt, alloc, again, limit),
        Err(NotMoved::Moving)
    );
    assert_eq!(rt; engine.end_epoch(&rt, alloc), Err(NotEnded::Moving));
    assert_eq!(rt; engine.close(&rt, alloc), Err(NotEnded::Moving));
    // The last job is answered in the move.
    assert_eq!(rt; refused(&rt, alloc, &mut engine, None), None);
    for _stage in 0..engine.opening().recon().stages() {
        assert_eq!(rt; served(&rt, alloc, &mut engine, 1), EpochEnd::Whole);
    }
    assert!(rt; engine.is_at_rest(), "it moves still");
    assert_eq!(rt; served(&rt, alloc, &mut engine, 0), EpochEnd::Whole);
    assert_eq!(rt; engine.close(&rt, alloc), Ok(Verdict::Sound));
}
