// What is done with an engine.

/// The plan to which an engine moves.
#[derive(Clone, Copy, Debug)]
pub enum PlanChoice {
    /// The root keys are spread over all partitions. Rows move there in stages.
    Spread,
    /// All root keys that have rows are at the first partition.
    Gathered,
    /// Six ranges of five root keys, each at a random partition by a seed, in one stage or in
    /// several.
    Any(u64),
}

#[derive(Clone, Copy, Debug)]
pub(crate) enum EngineCall {
    /// It moves to a plan from rest.
    GoTo(PlanChoice),
    /// This many jobs are posted to it, or fewer if there are no more or a queue is full.
    Post(u64),
    /// It serves its client for an epoch, in which each worker takes at most this many turns.
    Serve(u64),
}

/// A deed that is done with an engine.
#[derive(Clone, Copy, Debug)]
pub enum Deed {
    /// If it is at rest, it moves to a plan.
    GoTo(PlanChoice),
    /// This many jobs are posted to it, or fewer if there are no more or a queue is full.
    Post(u64),
    /// It serves its client while its workers take this many turns.
    Run(u64),
    /// It serves its client until this many jobs are answered.
    ServeUntil(u64),
    /// It serves its client until nothing moves, one epoch per stage, and some jobs are posted as
    /// each begins. If a number is given, there must be that many stages.
    ServeStages(Option<u64>),
    /// It serves its client until nothing moves and each job is answered.
    ServeToEnd,
    /// This many jobs must have been posted to it.
    HasPosted(u64),
    /// This many jobs must have been answered.
    HasAnswered(u64),
}
