// The desk of an engine: it connects input lines with epochs.
ghost use Rattle.std.specs.Prelude.{◌≡◌, ◌⊎◌, ◌||◌, ℕ, true, false, [], ◌∷◌, ◌++◌, ◌<◌, ◌≤◌, ◌^◌, ◌+◌};
ghost use Rattle.std.specs.Prelude.{length, IsTrue, Ok, Err, Some, None, IfSome, IfNone, MatchOption};
ghost use Rattle.std.specs.Prelude.{sum_by, string_bytes, is_some, nat_le, if◌then◌else◌, ◌==◌};
ghost use Rattle.sq_plan.specs.PlanText.{plan_text};
ghost use Rattle.rtrb.specs.Ring.{received};
ghost use Rattle.sq_text.specs.Texts.{refused_line};
ghost use Rattle.sq_serving.specs.declared.serve_line.ServeLine.TheVariants as asks;
ghost use Rattle.sq_serving.specs.declared.serve_answer.ServeAnswer.TheVariants.{Fault, Folded, Paused, Resumed, Pumps};
ghost use Rattle.sq_serving.specs.ServeAnswers.{serve_answer_line, status_line, plan_line, HasNoLineEnd};
ghost use Rattle.sq_serving.specs.declared.feed.Fed.TheVariants as fed;
ghost use Rattle.sq_serving.specs.Ending.{EndsStopped, outcome_refused};
ghost use Rattle.sq_serving.specs.Becoming.{desk_value, new_desk, Handles, Hears, Speaks, WritesBytes};
ghost use Rattle.sq_serving.specs.Becoming.{WritesReceipt, WritesStatus, KeepsWish, TakesWish};
ghost use Rattle.sq_serving.specs.Becoming.{QueuesMoveOrStops, WantsMove, DropsLast, asked_move};
ghost use Rattle.sq_serving.specs.Becoming.{AnswersRefusal, WaitsOrHasNoPartition, TakesJobBack};
ghost use Rattle.sq_serving.specs.Becoming.{Stops, with_stage, job_list, offered_by};
ghost use Rattle.sq_serving.specs.Settling.{line_wish, refusal_of, IsStatus, unanswered_jobs};
ghost use Rattle.sq_serving.specs.Settling.{is_chunk_limit, chunk_answer};
ghost use Rattle.sq_serving.specs.Saying.{rows_told, CountsOneMore};
ghost use Rattle.sq_serving.specs.Claiming.{resumed, claiming_pumps};
ghost use Rattle.sq_serving.specs.InputEnds.{KeepsEnd};
ghost use Rattle.sq_serving.specs.Closing.{expects_nothing, is_done, asked_wish, asked_first};
ghost use Rattle.sq_serving.specs.Closing.{wish_of, moves, KnowsWhole};
ghost use Rattle.sq_serving.specs.declared.desk.Wish.TheVariants as wish;
ghost use Rattle.sq_serving.specs.declared.move_queue.TheConstants.{QUEUE_ROOM};

use crate::bell::Bell;
use crate::claiming::Claiming;
use crate::desk_figures::DeskFigures;
use crate::ending::{InputOutcome, ServeEnding};
use crate::faulty_line::{FaultyLine, LineRefusal};
use crate::feed::{Fed, InputEnd};
use crate::line_place::{LinePlace, LineSource};
use crate::move_queue::MoveQueue;
use crate::outlet::Outlet;
use crate::plan_text::PlanText;
use crate::rows_file::RowsFile;
use crate::serve_answer::ServeAnswer;
use crate::serve_fault::ServeFault;
use crate::serve_line::ServeLine;
use crate::sides::SideQueues;
use crate::txn_words::txn_words;
use crate::watch::ServeWatch;
use rtrb::Consumer;
use sq_audit::Job;
use sq_engine::{ChunkLimit, Command, PostFault, StageProgress};
use sq_node::Receipt;
use sq_plan::{PartId, Plan};
use sq_schema::Txn;
use std::alloc::Global;
use std::io::Write;
use std::sync::Arc;

// The most lines that one call takes, so that answers are written in between.
const LINES_A_CALL: usize = 256;

// While lines come, full queues are tried again once in this many calls.
const CALLS_A_TRY: u64 = 64;

// The number of the fault that chunks can't have a limit.
const NO_CHUNK_LIMIT: u16 = 114;

// The number of the refusal while rows move.
const MOVING: u16 = 217;

// The number of the fault that no such partition exists.
const NO_PARTITION: u16 = 219;

// The number of the fault that a line asks for nothing.
const NOT_A_SERVE_LINE: u16 = 126;

// The number of the fault that a job has the id of another job.
const REPEATED_ID: u16 = 127;

// After this many calls in a row without work, once the input has ended, an open job counts as
// lost. This takes some eight seconds, since an engine with open jobs sleeps at least 50
// microseconds between two calls.
const LOST_CALLS: u64 = 80_000;

/// Why an epoch ends.
#[derive(Debug, Drop)]
pub enum Wish {
    /// To move rows to the places of a plan.
    Move(AskedMove),
    /// To write the rows as lines.
    Rows(AskedRows),
    /// To close the engine, since all is done.
    Close,
}

/// A move, and the place of the line that asks for it.
#[derive(Debug, Drop)]
pub struct AskedMove {
    pub place: LinePlace,
    pub plan: Plan,
    /// The most bytes of its chunks.
    pub limit: ChunkLimit,
}

/// Where the rows go that a line asks for, and the place of that line.
#[derive(Debug, Drop)]
pub struct AskedRows {
    pub place: LinePlace,
    /// The file that gets the rows; `None` for the output, after all that was written before.
    pub file: Option<RowsFile>,
}

/// A transaction, and the place of the line that asks for it.
#[derive(Debug, Drop)]
pub struct AskedTxn {
    pub place: LinePlace,
    pub txn: Txn,
}

/// How many jobs were posted, and how many answered.
#[derive(Clone, Copy, Debug)]
pub struct JobCounts {
    pub posted: u64,
    pub answered: u64,
}

impl JobCounts {
    const NONE: JobCounts = JobCounts {
        posted: 0,
        answered: 0,
    };
}

/// The options of a desk.
#[derive(Clone, Copy, Debug)]
pub struct DeskConfig {
    /// Whether the input ends after its first line that is refused or has a fault.
    pub is_strict: bool,
    /// How many pumps the engine has.
    pub pumps: u32,
    /// The most bytes of a chunk, until a line sets another limit.
    pub limit: ChunkLimit,
}

/// The progress of a move.
#[derive(Clone, Copy, Debug)]
pub struct MoveProgress {
    /// How many segments the move has, over all its stages.
    pub segments: u64,
    /// The progress of the running stage, by the last report.
    pub stage: StageProgress,
}

/// Connects input lines with the epochs of an engine: jobs go to the engine, or wait beside the
/// queue of their partition, and each answer is written.
#[derive(Drop)]
pub struct ServeDesk<W: Write + Drop> {
    pub feed: Consumer<Fed>,
    /// The reader rings it when it hands something on.
    pub bell: Arc<Bell, Global>,
    pub outlet: Outlet<W>,
    pub sides: SideQueues<AskedTxn>,
    /// Whether memory ran out for a job that waits, or for a line.
    pub lacks_memory: bool,
    pub counts: JobCounts,
    /// How many lines were answered with a fault or a refusal.
    pub refused_lines: u64,
    pub config: DeskConfig,
    /// Which pumps claim.
    pub claiming: Claiming,
    /// The most bytes of a chunk of the moves that later lines ask for.
    pub limit: ChunkLimit,
    /// The progress of the move; `None` at rest.
    pub moving: Option<MoveProgress>,
    /// The plan in force.
    pub plan: PlanText,
    /// Why the running epoch should end, if a line or the desk asked for that, and why the next one
    /// should. Closing isn't stored here: [`ServeDesk::take_wish`] returns it once all is done.
    pub wish: Option<Wish>,
    pub next_wish: Option<Wish>,
    /// The moves that wait until no rows move, in the order of their lines.
    pub queue: MoveQueue,
    /// How the input ended, once no more lines are taken.
    pub end: Option<InputOutcome>,
    /// How many calls there were, and how many of the last ones in a row had no work.
    pub calls: u64,
    pub idle_calls: u64,
    /// The place of the line of the job that was offered last.
    pub offered_at: LinePlace,
}

// Stands for the place of the last offered job's line before a job is offered.
const NOWHERE: LinePlace = LinePlace {
    source: LineSource::Input,
    line: 0,
};

impl<W: Write + Drop> ServeDesk<W> {
    /// A desk that takes its lines from `feed`, writes to `outlet`, and keeps waiting jobs in
    /// `sides`; `plan` is the plan in force.
    pub fn new(
        alloc: Global,
        feed: Consumer<Fed>,
        bell: Arc<Bell, Global>,
        outlet: Outlet<W>,
        sides: SideQueues<AskedTxn>,
        plan: PlanText,
        config: DeskConfig,
    ) -> ServeDesk<W>
        ensures outlet { result.outlet ≡ outlet }
        ensures value { desk_value W.contents result
            ≡ new_desk W.contents outlet (received feed) sides plan config.is_strict }
        ensures config { result.config ≡ config }
        ensures claiming { result.claiming
            ≡ record { all = config.pumps; first = config.pumps; is_paused = false } }
        ensures limit { result.limit ≡ config.limit }
    {
        ServeDesk {
            feed,
            bell,
            outlet,
            sides,
            lacks_memory: false,
            counts: JobCounts::NONE,
            refused_lines: 0,
            config,
            claiming: Claiming::all(config.pumps),
            limit: config.limit,
            moving: None,
            plan,
            wish: None,
            next_wish: None,
            queue: MoveQueue::new(alloc),
            end: None,
            calls: 0,
            idle_calls: 0,
            offered_at: NOWHERE,
        }
    }

    /// Returns the outlet, and drops the rest.
    pub fn into_outlet(self) -> Outlet<W>
        ensures { result ≡ self.outlet }
    {
        self.outlet
    }

    /// Returns whether nothing more can be done: memory ran out, or a write failed.
    pub fn has_stopped(&self) -> bool
        ensures { result ≡ (self.now.lacks_memory || self.now.outlet.has_failed) }
    {
        self.lacks_memory || self.outlet.has_failed
    }

    /// How the engine ends if nothing more can be done; else `None`.
    pub fn stop_ending(&self) -> Option<ServeEnding>
        ensures stopped { IfSome result EndsStopped }
        ensures stops { IfSome result (λ ending.
            (desk_value W.contents self.now).has_stopped ≡ true) }
        ensures goes_on { IfNone result ((desk_value W.contents self.now).has_stopped ≡ false) }
    {
        if self.outlet.has_failed {
            Some(ServeEnding::Unwritten)
        } else if self.lacks_memory {
            Some(ServeEnding::Memory)
        } else {
            None
        }
    }

    /// Returns whether the epoch should end.
    pub fn has_wish(&self) -> bool
        ensures { result ≡ is_some (wish_of self.now) }
    {
        is_asked(&self.wish) || is_asked(&self.next_wish) || self.is_done()
    }

    /// Takes the reason for the epoch's end; it is [`Wish::Close`] if there is no other and all is
    /// done.
    pub fn take_wish(&mut self) -> Option<Wish>
        ensures takes { TakesWish result (desk_value W.contents self.old)
            (desk_value W.contents self.new) }
        ensures wish { result ≡ wish_of self.old }
    {
        let close = self.is_done().then_some(Wish::Close);
        self.take_asked_wish().or(close)
    }

    // Takes the first wish of a line, if there is one that isn't a move that waits.
    fn take_asked_wish(&mut self) -> Option<Wish>
        ensures takes { TakesWish result (desk_value W.contents self.old)
            (desk_value W.contents self.new) }
        ensures none { IfNone result (self.old.queue ≡ []
            → (desk_value W.contents self.old).wishes ≡ []) }
        ensures wish { result ≡ asked_first self.old.wish self.old.next_wish }
    {
        match asked(self.wish.take()) {
            Some(wish) => {
                self.wish = self.next_wish.take();
                Some(wish)
            }
            None => asked(self.next_wish.take()),
        }
    }

    /// Flushes what was written.
    pub fn flush(&mut self)
        ensures { WritesBytes [] (desk_value W.contents self.old) (desk_value W.contents self.new) }
    {
        self.outlet.flush();
    }

    /// Begins a call. If no rows move and nothing else is asked for, the move that waits first is to
    /// begin.
    pub fn begin_call(&mut self)
        ensures { desk_value W.contents self.new ≡ desk_value W.contents self.old }
    {
        self.calls = self.calls.saturating_add(1);
        if self.has_no_wish() {
            self.ask_queued();
        }
    }

    // Returns whether no rows move and nothing is asked for but moves that wait.
    fn has_no_wish(&self) -> bool
        ensures wish { IsTrue result → self.now.wish ≡ None }
        ensures next { IsTrue result → self.now.next_wish ≡ None }
        ensures rests { IsTrue result → self.now.moving ≡ None }
    {
        match &self.wish {
            None => self.has_no_next_wish(),
            Some(_) => false,
        }
    }

    // The same of the next wish.
    fn has_no_next_wish(&self) -> bool
        ensures next { IsTrue result → self.now.next_wish ≡ None }
        ensures rests { IsTrue result → self.now.moving ≡ None }
    {
        match (&self.next_wish, self.moving) {
            (None, None) => true,
            _ => false,
        }
    }

    // Asks that the epoch ends for the move that waits first.
    fn ask_queued(&mut self)
        requires wish { self.old.wish ≡ None }
        requires next { self.old.next_wish ≡ None }
        requires rests { self.old.moving ≡ None }
        ensures { desk_value W.contents self.new ≡ desk_value W.contents self.old }
    {
        match self.queue.take_first() {
            Some(asked) => self.wish = Some(Wish::Move(asked)),
            None => {}
        }
    }

    /// Records the progress of the running stage, if rows move.
    pub fn note_stage(&mut self, stage: StageProgress)
        ensures { desk_value W.contents self.new
            ≡ with_stage stage (desk_value W.contents self.old) }
    {
        if let Some(moving) = self.moving {
            self.moving = Some(MoveProgress { stage, ..moving });
        }
    }

    /// Returns whether a move is recorded although nothing moves in the stage that runs.
    pub(crate) fn has_moved(&self, stage: StageProgress) -> bool {
        self.moving.is_some() && stage.is_rest()
    }

    /// The next command to the engine: to post a job if there is one, else to rest. Without a job
    /// it flushes the output.
    pub fn next_command<V: ServeWatch>(&mut self, watch: &V) -> Command
        ensures { Hears [] (desk_value W.contents self.old) (offered_by result)
            (desk_value W.contents self.new) }
    {
        match self.next_job(watch) {
            Some(job) => {
                self.note_offered();
                Command::Post(job)
            }
            None => {
                self.idle();
                Command::Rest
            }
        }
    }

    // The next job to post. Waiting jobs go first in each call whose number is a multiple of
    // `CALLS_A_TRY`; else a job from a line goes before them.
    fn next_job<V: ServeWatch>(&mut self, watch: &V) -> Option<Job>
        ensures { Hears [] (desk_value W.contents self.old) (job_list result)
            (desk_value W.contents self.new) }
    {
        match self.job_tried_again() {
            Some(job) => Some(job),
            None => self.asked_or_waiting_job(watch),
        }
    }

    // The first waiting job, in a call in which full queues are tried again.
    fn job_tried_again(&mut self) -> Option<Job>
        ensures { Hears [] (desk_value W.contents self.old) (job_list result)
            (desk_value W.contents self.new) }
    {
        if self.calls % CALLS_A_TRY != 0 {
            return None;
        }
        self.sides.try_again();
        self.waiting_job()
    }

    // A job from a line, or else a waiting one.
    fn asked_or_waiting_job<V: ServeWatch>(&mut self, watch: &V) -> Option<Job>
        ensures { Hears [] (desk_value W.contents self.old) (job_list result)
            (desk_value W.contents self.new) }
    {
        match self.asked_job(watch) {
            Some(job) => Some(job),
            None => self.waiting_job(),
        }
    }

    // The first waiting job of a queue that wasn't full when last tried.
    fn waiting_job(&mut self) -> Option<Job>
        ensures { Hears [] (desk_value W.contents self.old) (job_list result)
            (desk_value W.contents self.new) }
    {
        match self.sides.take() {
            Some((part, asked)) => {
                self.offered_at = asked.place;
                Some(Job {
                    part: PartId::new(part),
                    txn: asked.txn,
                })
            }
            None => None,
        }
    }

    // Takes lines, up to one whose job can be posted now.
    fn asked_job<V: ServeWatch>(&mut self, watch: &V) -> Option<Job>
        ensures { Hears [] (desk_value W.contents self.old) (job_list result)
            (desk_value W.contents self.new) }
    {
        for _line in 0..LINES_A_CALL {
            match self.job_of_next_line(watch) {
                None => return None,
                Some(Some(job)) => return Some(job),
                Some(None) => {}
            }
        }
        None
    }

    // Takes the next line, if there is one and lines are taken; else returns `None`. The inner
    // result is the job that the line asks for, if it can be posted now.
    fn job_of_next_line<V: ServeWatch>(&mut self, watch: &V) -> Option<Option<Job>>
        ensures { MatchOption result
            (Hears [] (desk_value W.contents self.old) [] (desk_value W.contents self.new))
            (λ job. Hears [] (desk_value W.contents self.old) (job_list job)
            (desk_value W.contents self.new)) }
    {
        if !self.takes_lines() {
            return None;
        }
        match self.feed.pop() {
            Ok(fed) => Some(self.take_fed(fed, watch)),
            Err(_) => None,
        }
    }

    // Returns whether the next line is taken: the input hasn't ended, the queues have room, the
    // desk hasn't stopped, and no next wish is set.
    fn takes_lines(&self) -> bool
        ensures { IsTrue result → self.now.next_wish ≡ None }
    {
        match &self.next_wish {
            None => self.end.is_none() && !self.sides.are_full() && !self.has_stopped(),
            Some(_) => false,
        }
    }

    // Handles what the reader handed on. Returns the job that it asks for, if it can be posted now.
    fn take_fed<V: ServeWatch>(&mut self, fed: Fed, watch: &V) -> Option<Job>
        requires { self.old.next_wish ≡ None }
        ensures heard { received self.new.feed ≡ received self.old.feed }
        ensures handles { Handles (fed ∷ []) [] (desk_value W.contents self.old) (job_list result)
            (desk_value W.contents self.new) }
    {
        match fed {
            Fed::Line { place, asks } => self.take_line(place, asks, watch),
            Fed::End(end) => {
                self.take_end(end, watch);
                None
            }
        }
    }

    // Handles what a line asks, or its fault. Returns the job that it asks for, if it can be posted
    // now.
    fn take_line<V: ServeWatch>(
        &mut self,
        place: LinePlace,
        asks: Result<ServeLine, FaultyLine>,
        watch: &V,
    ) -> Option<Job>
        requires { self.old.next_wish ≡ None }
        ensures heard { received self.new.feed ≡ received self.old.feed }
        ensures handles { Handles (fed.Line place asks ∷ []) []
            (desk_value W.contents self.old) (job_list result) (desk_value W.contents self.new) }
    {
        match asks {
            Ok(asks) => self.take_asked(place, asks, watch),
            Err(faulty) => {
                self.take_fault(place, &faulty, watch);
                None
            }
        }
    }

    // Handles what a line asks. Returns the job that it asks for, if it can be posted now.
    fn take_asked<V: ServeWatch>(
        &mut self,
        place: LinePlace,
        asks: ServeLine,
        watch: &V,
    ) -> Option<Job>
        requires { self.old.next_wish ≡ None }
        ensures heard { received self.new.feed ≡ received self.old.feed }
        ensures handles { Handles (fed.Line place (Ok asks) ∷ []) []
            (desk_value W.contents self.old) (job_list result) (desk_value W.contents self.new) }
    {
        match asks {
            ServeLine::Job { part, txn } => self.take_job(place, part, txn, watch),
            ServeLine::Move(plan) => {
                self.want_move(place, plan, watch);
                None
            }
            ServeLine::Fold => {
                self.say_folded();
                None
            }
            ServeLine::Status => {
                self.say_status(watch);
                None
            }
            ServeLine::StatusJson => {
                self.say_status_json(watch);
                None
            }
            ServeLine::Plan => {
                self.say_plan();
                None
            }
            ServeLine::Pause => {
                self.pause();
                None
            }
            ServeLine::Resume => {
                self.resume();
                None
            }
            ServeLine::Pumps(count) => {
                self.set_pumps(count, place, watch);
                None
            }
            ServeLine::Chunk(bytes) => {
                self.set_limit(bytes, place, watch);
                None
            }
            ServeLine::Drop => {
                self.drop_last();
                None
            }
            ServeLine::Owner(root) => {
                self.say_owner(root);
                None
            }
            ServeLine::Rows => {
                self.want_at_rest(Wish::Rows(AskedRows { place, file: None }), place, watch);
                None
            }
            ServeLine::RowsTo(file) => {
                let file = Some(file);
                self.want_at_rest(Wish::Rows(AskedRows { place, file }), place, watch);
                None
            }
        }
    }

    // Lets all pumps rest.
    fn pause(&mut self)
        ensures line { WritesBytes (serve_answer_line Paused) (desk_value W.contents self.old)
            (desk_value W.contents self.new) }
        ensures rests { self.new.claiming ≡ record self.old.claiming { is_paused = true } }
    {
        self.claiming.is_paused = true;
        self.say(ServeAnswer::Paused);
    }

    // Lets the pumps go on.
    fn resume(&mut self)
        ensures line { WritesBytes (serve_answer_line Resumed) (desk_value W.contents self.old)
            (desk_value W.contents self.new) }
        ensures goes_on { self.new.claiming ≡ resumed self.old.claiming }
    {
        self.claiming.resume();
        self.say(ServeAnswer::Resumed);
    }

    // Lets only the first `count` pumps claim. If the engine has fewer, the line has fault 126.
    fn set_pumps<V: ServeWatch>(&mut self, count: u64, place: LinePlace, watch: &V)
        ensures some { count ≤ self.old.config.pumps
            → WritesBytes (serve_answer_line (Pumps count)) (desk_value W.contents self.old)
            (desk_value W.contents self.new) }
        ensures fault { self.old.config.pumps < count
            → WritesBytes (serve_answer_line (Fault 126 place.line None))
            (desk_value W.contents self.old) (desk_value W.contents self.new) }
        ensures set { self.new.claiming ≡ (if nat_le count self.old.config.pumps
            then record self.old.claiming { first = count } else self.old.claiming) }
    {
        if count <= u64::from(self.config.pumps) {
            self.claiming.first = count;
            self.say(ServeAnswer::Pumps { count });
        } else {
            self.say_fault(watch, without_text(NOT_A_SERVE_LINE, place));
        }
    }

    // Sets the most bytes of a chunk of the moves that later lines ask for. If chunks can't have that
    // limit, the line has fault 114.
    fn set_limit<V: ServeWatch>(&mut self, bytes: u64, place: LinePlace, watch: &V)
        ensures line { WritesBytes (serve_answer_line (chunk_answer place bytes))
            (desk_value W.contents self.old) (desk_value W.contents self.new) }
        ensures set { self.new.limit ≡ (if is_chunk_limit bytes then bytes else self.old.limit) }
    {
        match ChunkLimit::new(bytes) {
            Some(limit) => {
                self.limit = limit;
                self.say(ServeAnswer::Chunk { bytes });
            }
            None => self.say_fault(watch, without_text(NO_CHUNK_LIMIT, place)),
        }
    }

    // Returns the job if no other job of its partition waits; else it waits after those. If the
    // partition doesn't exist, its line is answered with fault 219.
    fn take_job<V: ServeWatch>(
        &mut self,
        place: LinePlace,
        part: u64,
        txn: Txn,
        watch: &V,
    ) -> Option<Job>
        ensures heard { received self.new.feed ≡ received self.old.feed }
        ensures handles { Handles (fed.Line place (Ok (asks.Job part txn)) ∷ []) []
            (desk_value W.contents self.old) (job_list result) (desk_value W.contents self.new) }
    {
        if part < u64::from(self.sides.parts()) {
            self.take_job_at(place, part as u8, txn)
        } else {
            self.refuse_job(NO_PARTITION, place, part, &txn, watch);
            None
        }
    }

    // Returns the job if no other job of its partition waits; else it waits after those.
    fn take_job_at(&mut self, place: LinePlace, at: u8, txn: Txn) -> Option<Job>
        requires { at < length self.old.sides }
        ensures heard { received self.new.feed ≡ received self.old.feed }
        ensures handles { Handles (fed.Line place (Ok (asks.Job at txn)) ∷ []) []
            (desk_value W.contents self.old) (job_list result) (desk_value W.contents self.new) }
    {
        if self.sides.has_jobs(usize::from(at)) {
            self.put_behind(at, AskedTxn { place, txn });
            return None;
        }
        self.offered_at = place;
        Some(Job {
            part: PartId::new(at),
            txn,
        })
    }

    // Lets a job wait after the others of its partition.
    fn put_behind(&mut self, at: u8, asked: AskedTxn)
        requires { at < length self.old.sides }
        ensures heard { received self.new.feed ≡ received self.old.feed }
        ensures handles { Handles (fed.Line asked.place (Ok (asks.Job at asked.txn)) ∷ []) []
            (desk_value W.contents self.old) [] (desk_value W.contents self.new) }
    {
        match self.sides.put_behind(usize::from(at), asked) {
            Ok(()) => {}
            Err(_) => self.lacks_memory = true,
        }
    }

    // Answers a line that has a fault, or stops for lack of memory.
    fn take_fault<V: ServeWatch>(&mut self, place: LinePlace, faulty: &FaultyLine, watch: &V)
        ensures heard { received self.new.feed ≡ received self.old.feed }
        ensures handles { Handles (fed.Line place (Err faulty.now) ∷ []) []
            (desk_value W.contents self.old) [] (desk_value W.contents self.new) }
    {
        let number = faulty.fault.number();
        let refusal = LineRefusal {
            number,
            place,
            id: faulty.id,
            text: &faulty.text,
        };
        match faulty.fault {
            ServeFault::Plan(_) => self.say_refused(watch, refusal),
            ServeFault::Memory => self.stop_for_memory(),
            _ => self.say_fault(watch, refusal),
        }
    }

    // Records how the input ended, and answers a line that broke it.
    fn take_end<V: ServeWatch>(&mut self, end: InputEnd, watch: &V)
        ensures heard { received self.new.feed ≡ received self.old.feed }
        ensures handles { Handles (fed.End end ∷ []) []
            (desk_value W.contents self.old) [] (desk_value W.contents self.new) }
        ensures whole { KnowsWhole end self.new.end }
    {
        match end {
            InputEnd::Whole => self.end = Some(InputOutcome::Whole),
            InputEnd::Broken { fault, place } => {
                self.end = Some(InputOutcome::Broken);
                self.say_fault(watch, without_text(fault, place));
            }
            InputEnd::Memory => self.stop_for_memory(),
        }
    }

    // Records that memory ran out.
    fn stop_for_memory(&mut self)
        ensures { Stops (desk_value W.contents self.old) (desk_value W.contents self.new) }
    {
        self.lacks_memory = true;
    }

    // Asks that the epoch ends for a move to `plan`, with chunks of at most the desk's limit; if rows
    // move or will move, it waits after the others that do. The line is refused with 217 if as many
    // wait as may.
    fn want_move<V: ServeWatch>(&mut self, place: LinePlace, plan: Plan, watch: &V)
        requires next { self.old.next_wish ≡ None }
        ensures either { let asked = asked_move place plan self.old.limit in
            WantsMove asked (length self.old.queue + 1)
            (desk_value W.contents self.old) (desk_value W.contents self.new) }
        ensures kept { let asked = asked_move place plan self.old.limit in
            moves self.old ≡ false → KeepsWish (wish.Move asked)
            (desk_value W.contents self.old) (desk_value W.contents self.new) }
        ensures queued { let asked = asked_move place plan self.old.limit in
            moves self.old ≡ true → nat_le QUEUE_ROOM (length self.old.queue) ≡ false
            → QueuesMoveOrStops asked (length self.old.queue + 1)
            (desk_value W.contents self.old) (desk_value W.contents self.new) }
        ensures refused { moves self.old ≡ true → nat_le QUEUE_ROOM (length self.old.queue) ≡ true
            → WritesBytes (refused_line 217) (desk_value W.contents self.old)
            (desk_value W.contents self.new) }
    {
        let limit = self.limit;
        let asked = AskedMove { place, plan, limit };
        if self.moves() {
            self.queue_move(asked, watch);
        } else {
            self.put_wish(Wish::Move(asked));
        }
    }

    // Lets a move wait after the others that do. The line is refused with 217 if as many wait as
    // may.
    fn queue_move<V: ServeWatch>(&mut self, asked: AskedMove, watch: &V)
        ensures either { QueuesMoveOrStops asked (length self.old.queue + 1)
            (desk_value W.contents self.old) (desk_value W.contents self.new)
            ⊎ WritesBytes (refused_line 217) (desk_value W.contents self.old)
            (desk_value W.contents self.new) }
        ensures queued { nat_le QUEUE_ROOM (length self.old.queue) ≡ false
            → QueuesMoveOrStops asked (length self.old.queue + 1)
            (desk_value W.contents self.old) (desk_value W.contents self.new) }
        ensures refused { nat_le QUEUE_ROOM (length self.old.queue) ≡ true
            → WritesBytes (refused_line 217) (desk_value W.contents self.old)
            (desk_value W.contents self.new) }
    {
        if self.queue.is_full() {
            self.say_refused(watch, without_text(MOVING, asked.place));
        } else {
            self.put_last(asked);
        }
    }

    // Lets a move wait after the others that do.
    fn put_last(&mut self, asked: AskedMove)
        ensures { QueuesMoveOrStops asked (length self.old.queue + 1)
            (desk_value W.contents self.old) (desk_value W.contents self.new) }
    {
        match self.queue.put(asked) {
            Ok(()) => {
                let waiting = self.queue.len() as u64;
                self.say(ServeAnswer::Queued { waiting });
            }
            Err(_) => self.stop_for_memory(),
        }
    }

    // Drops the move that waits last, if one waits.
    fn drop_last(&mut self)
        ensures { DropsLast self.old.queue (desk_value W.contents self.old)
            (desk_value W.contents self.new) }
    {
        match self.queue.take_last() {
            Some(asked) => {
                drop(asked);
                let waiting = self.queue.len() as u64;
                self.say(ServeAnswer::Dropped { waiting });
            }
            None => self.say(ServeAnswer::NothingQueued),
        }
    }

    // Asks that the epoch ends for `wish`. The line is refused with 217 if rows move or will move.
    fn want_at_rest<V: ServeWatch>(&mut self, wish: Wish, place: LinePlace, watch: &V)
        requires next { self.old.next_wish ≡ None }
        requires of_line { line_wish (Some wish) ≡ wish ∷ [] }
        ensures either { KeepsWish wish (desk_value W.contents self.old)
            (desk_value W.contents self.new)
            ⊎ WritesBytes (refused_line 217) (desk_value W.contents self.old)
            (desk_value W.contents self.new) }
        ensures kept { moves self.old ≡ false → KeepsWish wish (desk_value W.contents self.old)
            (desk_value W.contents self.new) }
        ensures refused { moves self.old ≡ true
            → WritesBytes (refused_line 217) (desk_value W.contents self.old)
            (desk_value W.contents self.new) }
    {
        if self.moves() {
            drop(wish);
            self.say_refused(watch, without_text(MOVING, place));
        } else {
            self.put_wish(wish);
        }
    }

    // Sets `wish` as the reason for the epoch's end, or for the next one's if there is a reason
    // already.
    fn put_wish(&mut self, wish: Wish)
        requires next { self.old.next_wish ≡ None }
        requires rests { moves self.old ≡ false }
        requires of_line { line_wish (Some wish) ≡ wish ∷ [] }
        ensures { KeepsWish wish (desk_value W.contents self.old)
            (desk_value W.contents self.new) }
    {
        match &self.wish {
            None => self.wish = Some(wish),
            Some(_) => self.next_wish = Some(wish),
        }
    }

    // Returns whether rows move or will move.
    fn moves(&self) -> bool
        ensures { result ≡ moves self.now }
    {
        self.moving.is_some() || matches!(&self.wish, Some(Wish::Move(_))) || !self.queue.is_empty()
    }

    // Answers the line of a job with fault `number`. `part` is the partition that the line names.
    fn refuse_job<V: ServeWatch>(
        &mut self,
        number: u16,
        place: LinePlace,
        part: u64,
        txn: &Txn,
        watch: &V,
    )
        ensures { WritesBytes (serve_answer_line (refusal_of number place txn.now))
            (desk_value W.contents self.old) (desk_value W.contents self.new) }
    {
        let id = txn.id();
        let text = txn_words(part, id);
        let refusal = LineRefusal {
            number,
            place,
            id: Some(id),
            text: &text,
        };
        self.say_fault(watch, refusal);
    }

    /// Answers a line with its fault, and reports it once to `watch`.
    pub fn say_fault<V: ServeWatch>(&mut self, watch: &V, refusal: LineRefusal<'_>)
        ensures line { WritesBytes
            (serve_answer_line (Fault refusal.entry.number refusal.entry.place.line refusal.entry.id))
            (desk_value W.contents self.old) (desk_value W.contents self.new) }
        ensures speaks { Speaks (desk_value W.contents self.old) (desk_value W.contents self.new) }
        ensures counted { CountsOneMore self.old.refused_lines self.new.refused_lines }
        ensures claiming { self.new.claiming ≡ self.old.claiming }
        ensures limit { self.new.limit ≡ self.old.limit }
    {
        self.note_refusal(watch, refusal);
        self.say(ServeAnswer::Fault {
            fault: refusal.number,
            line: refusal.place.line,
            id: refusal.id,
        });
    }

    /// Answers a line with its refusal, and reports it once to `watch`.
    pub fn say_refused<V: ServeWatch>(&mut self, watch: &V, refusal: LineRefusal<'_>)
        ensures line { WritesBytes (refused_line refusal.entry.number)
            (desk_value W.contents self.old) (desk_value W.contents self.new) }
        ensures speaks { Speaks (desk_value W.contents self.old) (desk_value W.contents self.new) }
        ensures counted { CountsOneMore self.old.refused_lines self.new.refused_lines }
    {
        self.note_refusal(watch, refusal);
        self.outlet.say_refused(refusal.number);
    }

    // Counts a refused or faulty line, and reports it to `watch`; this is the only place that does.
    // A strict input ends here.
    fn note_refusal<V: ServeWatch>(&mut self, watch: &V, refusal: LineRefusal<'_>)
        ensures value { desk_value W.contents self.new
            ≡ record (desk_value W.contents self.old) { ended = self.new.end } }
        ensures keeps { KeepsEnd self.old.config.is_strict self.old.end self.new.end }
        ensures outlet { self.new.outlet ≡ self.old.outlet }
        ensures claiming { self.new.claiming ≡ self.old.claiming }
        ensures limit { self.new.limit ≡ self.old.limit }
        ensures ends { self.new.end ≡ (if self.old.config.is_strict
            then Some (outcome_refused self.old.end) else self.old.end) }
        ensures counted { CountsOneMore self.old.refused_lines self.new.refused_lines }
    {
        watch.refuses(refusal);
        self.refused_lines = self.refused_lines.saturating_add(1);
        if self.config.is_strict {
            self.end = Some(InputOutcome::refused(self.end));
        }
    }

    /// Writes an answer to a line other than a job.
    pub fn say(&mut self, answer: ServeAnswer)
        ensures line { WritesBytes (serve_answer_line answer) (desk_value W.contents self.old)
            (desk_value W.contents self.new) }
        ensures speaks { Speaks (desk_value W.contents self.old) (desk_value W.contents self.new) }
        ensures counts_none { self.new.refused_lines ≡ self.old.refused_lines }
        ensures claiming { self.new.claiming ≡ self.old.claiming }
        ensures limit { self.new.limit ≡ self.old.limit }
    {
        self.outlet.say(answer);
    }

    /// Writes `lines`, the lines of rows, and then their number.
    pub fn say_rows(&mut self, lines: &[u8])
        ensures { WritesBytes (rows_told lines.now) (desk_value W.contents self.old)
            (desk_value W.contents self.new) }
    {
        self.outlet.say_rows(lines);
    }

    // Writes the plan in force.
    fn say_plan(&mut self)
        ensures { WritesBytes (plan_line (plan_text self.old.plan))
            (desk_value W.contents self.old) (desk_value W.contents self.new) }
    {
        self.outlet.say_plan(self.plan.as_str());
    }

    // Writes how many answers were found sound. All were: each closed its job, and has the reply
    // that its place in the log gives.
    fn say_folded(&mut self)
        ensures { WritesBytes (serve_answer_line (Folded self.old.counts.answered))
            (desk_value W.contents self.old) (desk_value W.contents self.new) }
    {
        let answers = self.counts.answered;
        self.say(ServeAnswer::Folded { answers });
    }

    // Writes the progress of a move, how many jobs have no answer, and the figures of `watch`.
    fn say_status<V: ServeWatch>(&mut self, watch: &V)
        ensures { WritesStatus
            (unanswered_jobs self.old.counts (sum_by length self.old.sides))
            (desk_value W.contents self.old) (desk_value W.contents self.new) }
    {
        let figures = watch.status_text(&self.figures());
        let status = self.status();
        match without_line_end(figures) {
            Some(figures) => self.say_figures(status, figures.as_str()),
            None => self.say_figures(status, ""),
        }
    }

    // Writes the status, with `figures` after its words.
    fn say_figures(&mut self, status: ServeAnswer, figures: &str)
        ensures { WritesBytes (status_line status figures.now)
            (desk_value W.contents self.old) (desk_value W.contents self.new) }
    {
        self.outlet.say_status(status, figures);
    }

    /// What the desk shows of itself to the watch of its engine.
    pub fn figures(&self) -> DeskFigures<'_> {
        DeskFigures::new(self.moving, self.claiming_pumps(), &self.sides)
    }

    /// The progress of the running stage, and how many jobs have no answer. A stage without
    /// segments counts as rest.
    pub fn status(&self) -> ServeAnswer
        ensures { IsStatus self.now.moving
            (unanswered_jobs self.now.counts (sum_by length self.now.sides)) result }
    {
        let unanswered = self.unanswered();
        let is_paused = self.claiming.is_paused();
        match self.moving {
            Some(MoveProgress { stage, .. }) if stage.segments != 0 => ServeAnswer::Progress {
                complete: stage.complete,
                segments: stage.segments,
                unanswered,
                is_paused,
            },
            Some(_) | None => ServeAnswer::AtRest {
                unanswered,
                is_paused,
            },
        }
    }

    /// How many jobs have no answer: those that are posted and those that wait.
    pub(crate) fn unanswered(&self) -> u64
        ensures counts { unanswered_jobs self.now.counts (sum_by length self.now.sides) < 2 ^ 64
            → result ≡ unanswered_jobs self.now.counts (sum_by length self.now.sides) }
        ensures none { (result == 0)
            ≡ (unanswered_jobs self.now.counts (sum_by length self.now.sides) == 0) }
    {
        let waiting = self.sides.waiting() as u64;
        let running = self.counts.posted.saturating_sub(self.counts.answered);
        running.saturating_add(waiting)
    }

    /// Returns how many pumps claim: all once the input has ended, so that no move stands still then.
    pub fn claiming_pumps(&self) -> u64
        ensures { result ≡ (if is_some self.now.end then self.now.config.pumps
            else claiming_pumps self.now.claiming) }
    {
        if self.end.is_some() {
            u64::from(self.config.pumps)
        } else {
            self.claiming.pumps()
        }
    }

    // Without a job to post, flushes the output, and lets full queues be tried again.
    fn idle(&mut self)
        ensures { WritesBytes [] (desk_value W.contents self.old) (desk_value W.contents self.new) }
    {
        self.idle_calls = self.idle_calls.saturating_add(1);
        self.outlet.flush();
        self.sides.try_again();
    }

    /// Returns whether all is done: the input has ended, no rows move, no move waits, and no
    /// answer is expected.
    pub fn is_done(&self) -> bool
        ensures done { result ≡ is_done self.now }
        ensures none_waits { IsTrue result → self.now.queue ≡ [] }
    {
        self.end.is_some()
            && self.moving.is_none()
            && self.queue.is_empty()
            && self.expects_nothing()
    }

    // Returns whether no answer is expected: each job has its answer; or no job waits, and the last
    // `LOST_CALLS` calls had no work. Then the open jobs count as lost, and the engine ends unsound.
    fn expects_nothing(&self) -> bool
        ensures { result ≡ expects_nothing self.now }
    {
        self.unanswered() == 0 || (self.sides.waiting() == 0 && self.idle_calls >= LOST_CALLS)
    }

    // Records that a job is offered to the engine.
    fn note_offered(&mut self)
        ensures { desk_value W.contents self.new ≡ desk_value W.contents self.old }
    {
        self.idle_calls = 0;
        self.counts.posted = self.counts.posted.saturating_add(1);
    }

    /// Records an answer, and writes its line.
    pub fn take(&mut self, receipt: Receipt)
        ensures { WritesReceipt receipt (desk_value W.contents self.old)
            (desk_value W.contents self.new) }
    {
        self.idle_calls = 0;
        self.counts.answered = self.counts.answered.saturating_add(1);
        self.outlet.say_receipt(receipt);
    }

    /// Takes back the job that was offered last, since it wasn't posted. If its queue is full, it
    /// waits before the others of its partition. If its id is repeated or its partition doesn't
    /// exist, its line is answered with just that fault, 127 or 219. If memory ran out, the desk
    /// stops.
    pub fn take_back<V: ServeWatch>(&mut self, job: Job, fault: PostFault, watch: &V)
        ensures { TakesJobBack job fault (desk_value W.contents self.old)
            (desk_value W.contents self.new) }
    {
        self.counts.posted = self.counts.posted.saturating_sub(1);
        match fault {
            PostFault::QueueFull => self.put_back(job, watch),
            PostFault::RepeatedId => self.refuse_returned(REPEATED_ID, &job, watch),
            PostFault::NoSuchPartition => self.refuse_returned(NO_PARTITION, &job, watch),
            PostFault::Memory => self.stop_for_memory(),
        }
    }

    // Answers the line of the job that was offered last with fault `number`.
    fn refuse_returned<V: ServeWatch>(&mut self, number: u16, job: &Job, watch: &V)
        ensures { AnswersRefusal number job.now (desk_value W.contents self.old)
            (desk_value W.contents self.new) }
    {
        let part = u64::from(job.part.number());
        self.refuse_job(number, self.offered_at, part, &job.txn, watch);
    }

    // Lets a job wait before the others of its partition. If the partition doesn't exist, its line
    // is answered with fault 219.
    fn put_back<V: ServeWatch>(&mut self, job: Job, watch: &V)
        ensures { WaitsOrHasNoPartition job (desk_value W.contents self.old)
            (desk_value W.contents self.new) }
    {
        if job.part.number() < self.sides.parts() {
            self.put_before(job);
        } else {
            self.refuse_returned(NO_PARTITION, &job, watch);
        }
    }

    // Lets a job of an existing partition wait before the others of it.
    fn put_before(&mut self, job: Job)
        requires { job.part < length self.old.sides }
        ensures { Hears (job ∷ []) (desk_value W.contents self.old) []
            (desk_value W.contents self.new) }
    {
        let Job { part, txn } = job;
        let place = self.offered_at;
        let at = usize::from(part.number());
        match self.sides.put_back(at, AskedTxn { place, txn }) {
            Ok(()) => {}
            Err(_) => self.lacks_memory = true,
        }
    }
}

// The byte that ends a line.
const LINE_END: u8 = 10;

/// The text, if it has no line end; else `None`.
pub(crate) fn without_line_end(text: Option<String>) -> Option<String>
    ensures { IfSome result (λ text. HasNoLineEnd (string_bytes text)) }
{
    match text {
        Some(text) if !text.as_bytes().contains(&LINE_END) => Some(text),
        _ => None,
    }
}

// The wish, if it is that of a line.
fn asked(wish: Option<Wish>) -> Option<Wish>
    ensures { result ≡ asked_wish wish }
{
    match wish {
        Some(Wish::Close) | None => None,
        wish => wish,
    }
}

// Returns whether the wish is that of a line.
fn is_asked(wish: &Option<Wish>) -> bool
    ensures { result ≡ is_some (asked_wish wish.now) }
{
    matches!(wish, Some(Wish::Move(_) | Wish::Rows(_)))
}

// The refusal of a line whose text isn't kept.
fn without_text<'a>(number: u16, place: LinePlace) -> LineRefusal<'a>
    ensures number { result.number ≡ number }
    ensures place { result.place ≡ place }
    ensures no_id { result.id ≡ None }
{
    LineRefusal {
        number,
        place,
        id: None,
        text: &[],
    }
}
