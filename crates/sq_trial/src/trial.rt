// Deeds that are done with an engine, one after another. The engine's type is a parameter, so that
// no function here handles a large one.
use crate::deed::{Deed, EngineCall};
use crate::failure::Failure;
use crate::random_client::RandomClient;

// More epochs than any deed takes.
const EPOCHS: u64 = 100_000;

// How many jobs are posted as a stage begins.
const STAGE_JOBS: u64 = 10;

/// Whether an engine rests.
#[derive(Clone, Copy, Debug, PartialEq, Eq)]
pub(crate) enum Rest {
    Moving,
    /// Nothing moves.
    AtRest,
}

/// An engine on trial, and how it rests.
#[derive(Drop)]
pub(crate) struct Tried<E> {
    pub(crate) engine: E,
    pub(crate) rest: Rest,
}

/// Does `deeds` with an engine, one after another; `make` makes a call of it.
pub(crate) fn do_deeds<E, F>(
    make: &F,
    tried: Tried<E>,
    client: &mut RandomClient,
    deeds: &[Deed],
) -> Result<Tried<E>, Failure>
where
    E: Drop,
    F: Fn(E, &mut RandomClient, EngineCall) -> Result<Tried<E>, Failure>,
    requires { F.IsAlwaysCallable make.now }
{
    let mut tried = tried;
    for deed in deeds {
        tried = do_deed(make, tried, client, *deed)?;
    }
    Ok(tried)
}

fn do_deed<E, F>(
    make: &F,
    tried: Tried<E>,
    client: &mut RandomClient,
    deed: Deed,
) -> Result<Tried<E>, Failure>
where
    E: Drop,
    F: Fn(E, &mut RandomClient, EngineCall) -> Result<Tried<E>, Failure>,
    requires { F.IsAlwaysCallable make.now }
{
    match deed {
        Deed::GoTo(choice) => call_at_rest(make, tried, client, EngineCall::GoTo(choice)),
        Deed::Post(count) => make(tried.engine, client, EngineCall::Post(count)),
        Deed::Run(turns) => {
            client.wait_for(u64::MAX);
            make(tried.engine, client, EngineCall::Serve(turns))
        }
        Deed::ServeUntil(answers) => serve_until(make, tried, client, answers),
        Deed::ServeStages(wanted) => serve_stages(make, tried, client, wanted),
        Deed::ServeToEnd => serve_to_end(make, tried, client),
        Deed::HasPosted(count) => {
            check(client.posted() == count, Failure::WrongPosted)?;
            Ok(tried)
        }
        Deed::HasAnswered(count) => {
            check(client.answered() == count, Failure::WrongAnswered)?;
            Ok(tried)
        }
    }
}

// Fails with `failure` unless `is_so`.
fn check(is_so: bool, failure: Failure) -> Result<(), Failure> {
    if is_so { Ok(()) } else { Err(failure) }
}

// Makes a call if the engine is at rest.
fn call_at_rest<E, F>(
    make: &F,
    tried: Tried<E>,
    client: &mut RandomClient,
    call: EngineCall,
) -> Result<Tried<E>, Failure>
where
    E: Drop,
    F: Fn(E, &mut RandomClient, EngineCall) -> Result<Tried<E>, Failure>,
    requires { F.IsAlwaysCallable make.now }
{
    match tried.rest {
        Rest::Moving => Ok(tried),
        Rest::AtRest => make(tried.engine, client, call),
    }
}

// Serves a client until `answers` of its jobs are answered.
fn serve_until<E, F>(
    make: &F,
    tried: Tried<E>,
    client: &mut RandomClient,
    answers: u64,
) -> Result<Tried<E>, Failure>
where
    E: Drop,
    F: Fn(E, &mut RandomClient, EngineCall) -> Result<Tried<E>, Failure>,
    requires { F.IsAlwaysCallable make.now }
{
    client.wait_for(answers);
    let mut tried = tried;
    for _epoch in 0..EPOCHS {
        if client.has_heard_enough() {
            break;
        }
        tried = serve(make, tried, client)?;
    }
    Ok(tried)
}

// Serves a client until nothing moves, and then until each of its jobs is answered.
fn serve_to_end<E, F>(
    make: &F,
    tried: Tried<E>,
    client: &mut RandomClient,
) -> Result<Tried<E>, Failure>
where
    E: Drop,
    F: Fn(E, &mut RandomClient, EngineCall) -> Result<Tried<E>, Failure>,
    requires { F.IsAlwaysCallable make.now }
{
    let tried = serve_stages(make, tried, client, None)?;
    let jobs = client.jobs();
    serve_until(make, tried, client, jobs)
}

// Serves a client for an epoch.
fn serve<E, F>(make: &F, tried: Tried<E>, client: &mut RandomClient) -> Result<Tried<E>, Failure>
where
    E: Drop,
    F: Fn(E, &mut RandomClient, EngineCall) -> Result<Tried<E>, Failure>,
    requires { F.IsAlwaysCallable make.now }
{
    let tried = make(tried.engine, client, EngineCall::Serve(u64::MAX))?;
    client.judge_so_far()?;
    Ok(tried)
}

// Serves a client until nothing moves, one epoch per stage. Fails if the number of stages isn't
// `wanted`.
fn serve_stages<E, F>(
    make: &F,
    tried: Tried<E>,
    client: &mut RandomClient,
    wanted: Option<u64>,
) -> Result<Tried<E>, Failure>
where
    E: Drop,
    F: Fn(E, &mut RandomClient, EngineCall) -> Result<Tried<E>, Failure>,
    requires { F.IsAlwaysCallable make.now }
{
    client.wait_for(u64::MAX);
    let mut tried = tried;
    let mut stages = 0u64;
    for _stage in 0..EPOCHS {
        if tried.rest != Rest::Moving {
            break;
        }
        tried = serve_stage(make, tried, client)?;
        stages = stages.saturating_add(1);
    }
    check(
        wanted.is_none_or(|wanted| wanted == stages),
        Failure::WrongStages,
    )?;
    Ok(tried)
}

// Posts some jobs as a stage begins, and serves a client for an epoch.
fn serve_stage<E, F>(
    make: &F,
    tried: Tried<E>,
    client: &mut RandomClient,
) -> Result<Tried<E>, Failure>
where
    E: Drop,
    F: Fn(E, &mut RandomClient, EngineCall) -> Result<Tried<E>, Failure>,
    requires { F.IsAlwaysCallable make.now }
{
    let tried = make(tried.engine, client, EngineCall::Post(STAGE_JOBS))?;
    serve(make, tried, client)
}
