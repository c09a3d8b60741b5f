// The progress of a run, moment by moment.
ghost use Rattle.std.specs.Prelude.{◌≡◌, ◌<◌, ◌^◌, IfOk};
ghost use Rattle.sq_report.specs.Moments.{AreMoments, moment_after};

use std::alloc::{AllocError, Global};

/// The answer of a job.
#[derive(Clone, Copy, Debug, PartialEq, Eq)]
pub struct TimedAnswer {
    /// The partition that gave it.
    pub part: u8,
    /// The job's id.
    pub id: u64,
    /// The microseconds since the job was posted.
    pub micros_since_post: u64,
    /// For how many microseconds the job had waited for rows at that partition, if it had.
    pub waited: Option<u64>,
}

/// An event in a run.
#[derive(Clone, Copy, Debug, PartialEq, Eq)]
pub enum Happened {
    JobAnswered(TimedAnswer),
    SegmentComplete,
}

/// An event in a run, and its time.
#[derive(Clone, Copy, Debug, PartialEq, Eq)]
pub struct Event {
    /// The microseconds since the run began.
    pub micros: u64,
    pub what: Happened,
}

/// The progress of a run at one moment.
#[derive(Clone, Copy, Debug, PartialEq, Eq)]
pub struct Moment {
    /// The microseconds since the run began.
    pub micros: u64,
    /// How many jobs were answered by then.
    pub jobs: u64,
    /// How many segments were complete by then.
    pub segments: u64,
    /// The answer that was given at this moment, if one was.
    pub answer: Option<TimedAnswer>,
}

/// When a stage of a run began.
#[derive(Clone, Copy, Debug, PartialEq, Eq)]
pub struct StageStart {
    /// The stage's number.
    pub stage: u64,
    /// The microseconds since the run began.
    pub micros: u64,
}

impl Moment {
    // The moment after the next event.
    fn after(self, event: Event) -> Moment
        requires jobs { self.jobs < 2 ^ 63 }
        requires segments { self.segments < 2 ^ 63 }
        ensures { result ≡ moment_after self event }
    {
        let Moment { jobs, segments, .. } = self;
        let micros = event.micros;
        match event.what {
            Happened::JobAnswered(answer) => Moment {
                micros,
                jobs: jobs + 1,
                segments,
                answer: Some(answer),
            },
            Happened::SegmentComplete => Moment {
                micros,
                jobs,
                segments: segments + 1,
                answer: None,
            },
        }
    }
}

/// The moments after each of `events`, in their order. Fails if memory runs out.
pub fn moments_of(alloc: Global, events: &[Event]) -> Result<Vec<Moment>, AllocError>
    ensures { IfOk result (λ moments. AreMoments events.now moments.items) }
{
    let mut moments = Vec::new(alloc);
    let mut now = Moment {
        micros: 0,
        jobs: 0,
        segments: 0,
        answer: None,
    };
    for event in events {
        now = now.after(*event);
        moments.push(now)?;
    }
    Ok(moments)
}
