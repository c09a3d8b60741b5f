// A long-running engine.
ghost use Rattle.std.specs.Prelude.{◌≡◌, ◌≤◌, true, option_copied, IfOk, IfErr, OnOk, OnErr};
ghost use Rattle.sq_shared.specs.declared.numbers.TheConstants.{MAX_PUMPS};
ghost use Rattle.sq_moves.specs.Prelude.{IsSetUp};
ghost use Rattle.sq_moves.specs.Between.{recon_fault};
ghost use Rattle.sq_engine.specs.Engine.{IsReached, HasOpened, HasProgress, rests, rows_in};
ghost use Rattle.sq_engine.specs.Engine.{Keeps, IsPosted, IsNotPosted, HasBegunMove, IsNotMoved};
ghost use Rattle.sq_engine.specs.Engine.{ServesEpoch, IsPaused, IsNotEnded, HasClosed, verdict_on};
ghost use Rattle.sq_engine.specs.Ending.{EndsAsPlanned, HasAnsweredAll};
ghost use Rattle.sq_node_model.specs.Prelude.{folded_opening};

use crate::at::At;
use crate::chunk_limit::ChunkLimit;
use crate::client::Client;
use crate::open_jobs::{OpenJobs, PostFault};
use crate::posting::post_job;
use crate::serving::{EpochEnd, ServedRun, make_ready, run_ready};
use crate::stage_progress::{StageProgress, complete_segments, progress_at_start, stage_segments};
use sq_audit::{Defect, Job, Verdict};
use sq_history::Kept;
use sq_moves::{Opening, Recon, ReconFault};
use sq_node::Fabric;
use sq_plan::Plan;
use sq_schema::Table;
use sq_store::SlabStore;
use std::alloc::{AllocError, Global};
use std::marker::Model;
use std::mem;
use std::sync::Wait;
use std::thread::Threads;
use thiserror::Error;

// The stage that a move begins with.
const FIRST_STAGE: u64 = 0;

/// Why an engine doesn't post a job.
#[derive(Clone, Copy, Debug, PartialEq, Eq, Error)]
pub enum NotPosted {
    #[error("no epoch runs")]
    NoEpoch,
    #[error("{0}")]
    Refused(PostFault),
}

/// Why an engine refuses to go to another plan.
#[derive(Clone, Copy, Debug, PartialEq, Eq, Error)]
pub enum NotMoved {
    #[error("rows move")]
    Moving,
    #[error("{0}")]
    Plans(ReconFault),
    #[error("out of memory")]
    Memory,
}

/// Why an engine doesn't end its epoch.
#[derive(Clone, Copy, Debug, PartialEq, Eq, Error)]
pub enum NotEnded {
    #[error("rows move")]
    Moving,
    #[error("out of memory")]
    Memory,
}

/// What [`Engine::serve`] returns.
#[derive(Clone, Copy, Debug)]
pub struct Served {
    /// How the epoch ended.
    pub end: EpochEnd,
    /// The progress of its stage then, as its workers reported it.
    pub progress: StageProgress,
}

/// A long-running engine: it takes and answers jobs while rows move, and performs one move after
/// another. To a contract it is an `EngineValue`, which has the list of all its events, and which
/// some epochs lead to.
pub struct Engine {
    pub(crate) opening: Opening,
    pub(crate) jobs: OpenJobs,
    pub(crate) at: At,
    pub(crate) progress: StageProgress,
    pub(crate) pumps: u32,
    first: Kept<Opening>,
}

// A function of its own, so that each function that drops an engine calls it.
impl Drop for Engine {
    fn drop(self) {
        let Engine {
            opening: _,
            jobs: _,
            at: _,
            progress: _,
            pumps: _,
            first: _,
        } = self;
    }
}

impl Model for Engine {
    ghost use Rattle.std.specs.Prelude.{◌≤◌};
    ghost use Rattle.std.specs.Coded.{codes};
    ghost use Rattle.sq_shared.specs.declared.numbers.TheConstants.{MAX_PUMPS};
    ghost use Rattle.sq_moves.specs.Prelude.{IsSetUp};
    ghost use Rattle.sq_store.specs.Prelude.{store_coded};
    ghost use Rattle.sq_engine.specs.Values.{EngineValue, engine_value, at_value};
    ghost use Rattle.sq_engine.specs.Engine.{IsReached};

    ghost Value = { EngineValue };

    ghost coded = { Prim.hlevel (codes, store_coded) };

    ghost view = { λ e. engine_value e.first.value e.opening e.jobs (at_value e.at) };

    ghost invariant = { λ e. (e.pumps ≤ MAX_PUMPS) × IsSetUp e.opening
        × IsReached (engine_value e.first.value e.opening e.jobs (at_value e.at)) };
}

impl Engine {
    /// Returns an engine in the first stage of `opening`, with the families of its rows and `pumps`
    /// pumps. It is at rest if both plans are the same. If there are many root keys, the families
    /// of each partition are created in a thread of its own, if the system grants one. If memory
    /// runs out, `opening` is returned unchanged.
    pub fn open<R: Threads + Sync>(
        rt: &R,
        alloc: Global,
        opening: Opening,
        pumps: u32,
    ) -> Result<Engine, Opening>
        requires { pumps ≤ MAX_PUMPS }
        ensures opened { IfOk result (HasOpened opening) }
        ensures returned { IfErr result (λ back. back ≡ opening) }
    {
        let Ok(run) = Fabric::open_in_threads(rt, alloc, &opening, pumps) else {
            return Err(opening);
        };
        let progress = progress_at_start(&opening, &run.fabric);
        Ok(Engine {
            first: Kept::of(&opening),
            opening: opening.with_table(Table::new(alloc)),
            jobs: OpenJobs::new(alloc),
            at: At::Running(run),
            progress,
            pumps,
        })
    }

    /// Returns the opening in force, with other rows.
    pub fn opening(&self) -> &Opening
        ensures opening { folded_opening result.now self.now.opening.table ≡ self.now.opening }
        ensures set_up { IsSetUp result.now }
        ensures reached { IsReached self.now }
    {
        &self.opening
    }

    /// Returns the open jobs.
    pub fn jobs(&self) -> &OpenJobs
        ensures { result.now ≡ self.now.jobs }
    {
        &self.jobs
    }

    /// Returns true if no rows move.
    pub fn is_at_rest(&self) -> bool
        ensures { result ≡ rests self.now }
    {
        self.opening.recon().ranges().is_empty()
    }

    /// Returns how many segments move in the stage, and how many of them are complete: as the
    /// workers reported in an epoch, by the trees after it.
    pub fn progress(&self) -> StageProgress
        ensures { HasProgress self.now result }
    {
        let recon = self.opening.recon();
        match &self.at {
            At::Running(run) => {
                let segments = stage_segments(recon, run.fabric.stage());
                StageProgress {
                    segments,
                    complete: self.progress.complete.min(segments),
                    moved: self.progress.moved,
                    moved_bytes: self.progress.moved_bytes,
                }
            }
            At::Between { gathered, is_due } => {
                if *is_due {
                    StageProgress::at_start(stage_segments(recon, FIRST_STAGE))
                } else {
                    StageProgress {
                        segments: stage_segments(recon, gathered.stage),
                        complete: complete_segments(recon, gathered),
                        moved: 0,
                        moved_bytes: 0,
                    }
                }
            }
            At::Changing => StageProgress::at_start(0),
        }
    }

    /// Returns the families of each partition, or `None` while an epoch runs. After
    /// [`Engine::end_epoch`] none runs.
    pub fn rows(&self) -> Option<&[SlabStore]>
        ensures { option_copied result ≡ rows_in self.now }
    {
        match &self.at {
            At::Between { gathered, .. } => Some(&gathered.stores),
            At::Running(_) | At::Changing => None,
        }
    }

    /// Posts `job` to its partition. If it is refused, nothing changes and it is returned: if no
    /// epoch runs, there is no such partition, an open job has the same id, the queue of the
    /// partition was full at one moment of the call, or memory runs out.
    pub fn post<R: Wait>(&mut self, rt: &R, job: Job) -> Result<(), (Job, NotPosted)>
        ensures ok { OnOk result (IsPosted job self.old self.new) }
        ensures refused { IfErr result (λ refused.
            IsNotPosted job self.old refused.0 refused.1 self.new) }
    {
        match &self.at {
            At::Running(run) => match post_job(rt, &run.fabric, &mut self.jobs, job) {
                Ok(()) => Ok(()),
                Err((job, fault)) => Err((job, NotPosted::Refused(fault))),
            },
            At::Between { .. } | At::Changing => Err((job, NotPosted::NoEpoch)),
        }
    }

    /// Runs the workers of the epoch, each partition and each pump in a thread of its own, for at
    /// most `turns` turns each, and serves `client` in this thread meanwhile: `client` is asked for
    /// jobs, which are posted, and is given each answer as soon as it arrives. If no epoch runs,
    /// one begins.
    ///
    /// The epoch ends if `client` asks for it, each segment that moves in its stage is complete, a
    /// receipt arrives that is no open job's, a node gets no thread, or a worker lacks memory for
    /// some seconds. Then all workers have ended, and `client` has been given the answers that were
    /// still on their way. The engine continues: to the next stage once each segment of this one is
    /// complete, and after the last stage to rest. While `client` lets some pumps claim nothing,
    /// these rest, and a stage with keys that nobody claims goes on.
    ///
    /// If memory runs out before the epoch, `client` is not called and no event is added.
    pub fn serve<C: Client, R: Threads + Wait + Sync>(
        &mut self,
        rt: &R,
        alloc: Global,
        turns: u64,
        client: &mut C,
    ) -> Result<Served, AllocError>
        ensures served { IfOk result (λ served.
            ServesEpoch C.Becomes self.old client.old served.end self.new client.new) }
        ensures progress { IfOk result (λ served.
            served.progress.complete ≤ served.progress.segments) }
        ensures not_served { OnErr result (Keeps self.old self.new) }
        ensures not_called { OnErr result (client.new ≡ client.old) }
    {
        self.begin_epoch(alloc);
        let served = self.run_epoch(rt, alloc, turns, client)?;
        self.end_stage(rt, alloc);
        Ok(served)
    }

    // Does the same in the epoch that runs. If none runs or memory runs out, nothing changes.
    fn run_epoch<C: Client, R: Threads + Wait + Sync>(
        &mut self,
        rt: &R,
        alloc: Global,
        turns: u64,
        client: &mut C,
    ) -> Result<Served, AllocError>
        ensures served { IfOk result (λ served.
            ServesEpoch C.Becomes self.old client.old served.end self.new client.new) }
        ensures progress { IfOk result (λ served.
            served.progress.complete ≤ served.progress.segments) }
        ensures not_served { OnErr result (self.new ≡ self.old) }
        ensures not_called { OnErr result (client.new ≡ client.old) }
    {
        let told = self.progress();
        let claiming_pumps = client.claiming_pumps();
        match mem::replace(&mut self.at, At::Changing) {
            At::Running(run) => match make_ready(alloc, run, told, claiming_pumps) {
                Ok(ready) => {
                    let served = run_ready(rt, ready, &mut self.jobs, turns, client);
                    let ServedRun { run, progress, end } = served;
                    self.at = At::Running(run);
                    self.progress = progress;
                    Ok(Served { end, progress })
                }
                Err(run) => {
                    self.at = At::Running(run);
                    Err(AllocError)
                }
            },
            at => {
                self.at = at;
                Err(AllocError)
            }
        }
    }

    /// Begins a move to `plan`, in its first stage, with chunks of at most `limit`. If rows move or the plans have a fault, nothing changes. It fails
    /// with `Memory` only if neither holds; then at most an epoch has ended.
    pub fn move_to<R: Wait>(
        &mut self,
        rt: &R,
        alloc: Global,
        plan: Plan,
        limit: ChunkLimit,
    ) -> Result<(), NotMoved>
        ensures at_rest { OnOk result (rests self.old ≡ true) }
        ensures begun { OnOk result (HasBegunMove plan limit self.old self.new) }
        ensures not_moved { IfErr result (λ why. IsNotMoved plan why self.old self.new) }
    {
        if !self.is_at_rest() {
            return Err(NotMoved::Moving);
        }
        if let Some(fault) = self.plan_fault(&plan) {
            return Err(NotMoved::Plans(fault));
        }
        if !self.end_move(rt, alloc) || !self.set_out(alloc, plan, limit) {
            return Err(NotMoved::Memory);
        }
        self.begin_move(alloc);
        Ok(())
    }

    // Returns the first fault of a move from the plan that was reached to `plan`.
    fn plan_fault(&self, plan: &Plan) -> Option<ReconFault>
        ensures { result ≡ recon_fault self.now.opening.new plan.now
            self.now.opening.config.width }
    {
        Recon::fault(self.opening.new_plan(), plan, self.opening.config().width)
    }

    /// Ends the epoch of an engine at rest, so that [`Engine::rows`] returns its families. The next
    /// serve begins another epoch. If rows move or memory runs out, nothing changes.
    pub fn end_epoch<R: Wait>(&mut self, rt: &R, alloc: Global) -> Result<(), NotEnded>
        ensures ended { OnOk result (IsPaused self.old self.new) }
        ensures not_ended { IfErr result (λ why. IsNotEnded why self.old self.new) }
        ensures unchanged { OnErr result (self.new ≡ self.old) }
    {
        if !self.is_at_rest() {
            return Err(NotEnded::Moving);
        }
        if !self.gather_run(rt, alloc) {
            return Err(NotEnded::Memory);
        }
        Ok(())
    }

    /// Closes an engine at rest: ends its epoch, and returns the verdict on it. It is sound if each
    /// job was answered, each receipt that arrived was an open job's, and none was lost. Whatever
    /// the verdict, the engine ended as planned, as the law
    /// [`an_engine_ends_where_planned`](crate::laws::an_engine_ends_where_planned) says. If rows
    /// move, nothing changes; if memory runs out, at most an epoch has ended.
    pub fn close<R: Wait>(&mut self, rt: &R, alloc: Global) -> Result<Verdict, NotEnded>
        ensures closed { OnOk result (HasClosed self.old self.new) }
        ensures verdict { IfOk result (λ verdict. verdict ≡ verdict_on self.new.jobs) }
        ensures planned { OnOk result (EndsAsPlanned self.new) }
        ensures answered { IfOk result (λ verdict.
            verdict ≡ Verdict.Sound → HasAnsweredAll self.new) }
        ensures not_closed { IfErr result (λ why. IsNotEnded why self.old self.new) }
    {
        if !self.is_at_rest() {
            return Err(NotEnded::Moving);
        }
        if !self.end_move(rt, alloc) {
            return Err(NotEnded::Memory);
        }
        Ok(self.verdict())
    }

    // Returns the verdict on the engine.
    fn verdict(&self) -> Verdict
        ensures { result ≡ verdict_on self.now.jobs }
    {
        if !self.jobs.all_known() {
            Verdict::Unsound(Defect::ReceiptUnknown)
        } else if !self.jobs.is_empty() || !self.jobs.is_whole() {
            Verdict::Unsound(Defect::Unanswered)
        } else {
            Verdict::Sound
        }
    }
}
