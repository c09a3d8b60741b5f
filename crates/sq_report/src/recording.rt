// A watch that records what a run does.
ghost use Rattle.std.specs.Prelude.{◌≡◌, ◌↔◌, IsTrue, codes, nat_eq};
ghost use Rattle.std.specs.List.{ends_with};

use crate::chart::{Course, write_chart};
use crate::clock::{Elapsed, Stopwatch};
use crate::counts::PartCount;
use crate::csv::write_csv;
use crate::figures::KeptLinks;
use crate::form::FiguresForm;
use crate::json_form::figures_json;
use crate::kept::KeptSummary;
use crate::moment::moments_of;
use crate::part_figures::PartFigures;
use crate::results::{KeptReplies, KeptRows};
use crate::run_figures::RunFigures;
use crate::text_form::write_figures;
use crate::timeline::Timeline;
use crate::times::{Times, write_times};
use crate::waits::Waits;
use sq_audit::Job;
use sq_driver::{Collector, Gate, NodeStep, TellingNode, WorkerEvent};
use sq_gather::Gathered;
use sq_live::{MAX_JOBS, Watch};
use sq_moves::{Opening, SEGMENT_LIMIT};
use sq_node::Receipt;
use std::alloc::{AllocError, Global};
use std::io;
use std::io::Write;
use std::sync::Wait;
use std::sync::atomic::{AtomicU64, Ordering};
use std::time::Clock;

/// What a run is recorded for, besides a summary.
#[derive(Clone, Copy, Debug, PartialEq, Eq)]
pub struct Records {
    pub timeline: bool,
    pub figures: bool,
    /// For the answers of the jobs.
    pub replies: bool,
    /// For the rows at the end.
    pub rows: bool,
}

/// A watch that forwards everything to another one, counts for a summary, and records what else it
/// is asked to. The other one decides whether a worker continues.
#[derive(Drop)]
pub struct RecordingWatch<'a, R, W> {
    rt: &'a R,
    alloc: Global,
    watch: &'a W,
    clock: Stopwatch<'a, R>,
    summary: KeptSummary,
    waits: Waits,
    reading: AtomicU64,
    threads: Elapsed,
    audits: Elapsed,
    /// For a timeline, and for figures.
    timeline: Option<Timeline<'a, R>>,
    links: Option<KeptLinks>,
    replies: Option<KeptReplies>,
    rows: Option<KeptRows>,
}

/// The format of a timeline.
#[derive(Clone, Copy, Debug, PartialEq, Eq)]
pub enum TimelineForm {
    /// Comma-separated values: [`write_csv`].
    Csv,
    /// A chart: [`write_svg`](crate::svg::write_svg), with how many jobs wait.
    Svg,
}

impl TimelineForm {
    /// The format for the file `name`: comma-separated values if it ends in `.csv`, else a chart.
    pub fn of_file(name: &str) -> TimelineForm
        ensures { (result ≡ TimelineForm.Csv) ↔ IsTrue (ends_with nat_eq name.now (codes ".csv")) }
    {
        if name.as_bytes().ends_with(b".csv") {
            TimelineForm::Csv
        } else {
            TimelineForm::Svg
        }
    }
}

impl<'a, R: Wait + Clock, W: Watch> RecordingWatch<'a, R, W> {
    /// A new recorder that forwards to `watch`. The time of reading begins now. Fails only if
    /// memory runs out.
    pub fn new(
        rt: &'a R,
        alloc: Global,
        watch: &'a W,
        records: Records,
    ) -> Result<RecordingWatch<'a, R, W>, AllocError> {
        let timeline = if records.timeline || records.figures {
            Some(Timeline::new(alloc, rt, MAX_JOBS, SEGMENT_LIMIT as usize)?)
        } else {
            None
        };
        Ok(RecordingWatch {
            rt,
            alloc,
            watch,
            clock: Stopwatch::start(rt),
            summary: KeptSummary::new(alloc),
            waits: Waits::new(alloc)?,
            reading: AtomicU64::new(0),
            threads: Elapsed::new(),
            audits: Elapsed::new(),
            timeline,
            links: records.figures.then(|| KeptLinks::new(alloc)),
            replies: records.replies.then(|| KeptReplies::new(alloc)),
            rows: records.rows.then(|| KeptRows::new(alloc)),
        })
    }

    /// Writes the summary, [`write_summary`](crate::write_summary), and a line of the times. If
    /// memory ran out before all was counted, a line before them says so. Fails if the writer does,
    /// or if memory runs out.
    pub fn write_summary<O: Write>(&self, alloc: Global, writer: &mut O) -> io::Result<()> {
        let waited = self.waits.counts(alloc)?;
        self.summary.write(self.rt, writer, &waited)?;
        write_times(writer, self.times())
    }

    /// Writes the timeline in the format `form`, or nothing if none is recorded. Fails if the
    /// writer does, or if memory runs out.
    pub fn write_timeline<O: Write>(
        &self,
        alloc: Global,
        writer: &mut O,
        form: TimelineForm,
    ) -> io::Result<()> {
        let Some(timeline) = &self.timeline else {
            return Ok(());
        };
        let moments = moments_of(alloc, &timeline.events(alloc)?)?;
        match form {
            TimelineForm::Csv => write_csv(writer, &moments),
            TimelineForm::Svg => {
                let stages = timeline.stage_starts(alloc)?;
                let waiting = timeline.waiting(alloc)?;
                let course = Course {
                    moments: &moments,
                    stages: &stages,
                    waiting: &waiting,
                    all: timeline.all(),
                };
                write_chart(alloc, writer, &course)
            }
        }
    }

    /// Writes the figures of the run in the format `form`, with a line end after them, or nothing
    /// if they aren't recorded. Fails if the writer does, or if memory runs out.
    pub fn write_figures<O: Write>(
        &self,
        alloc: Global,
        writer: &mut O,
        form: FiguresForm,
    ) -> io::Result<()> {
        let (Some(links), Some(timeline)) = (&self.links, &self.timeline) else {
            return Ok(());
        };
        let figures = self.figures(alloc, links, timeline)?;
        match form {
            FiguresForm::Json => {
                let text = figures_json(alloc, &figures)?;
                writeln!(writer, "{text}")
            }
            FiguresForm::Text => write_figures(writer, &figures),
        }
    }

    // The figures of the run, from what was recorded of its links and its answers.
    fn figures(
        &self,
        alloc: Global,
        links: &KeptLinks,
        timeline: &Timeline<'a, R>,
    ) -> Result<RunFigures, AllocError> {
        let answers = timeline.answers(alloc)?;
        let mut parts = Vec::new(alloc);
        let mut number: u8 = 0;
        for count in &self.summary.parts(self.rt, alloc)? {
            let PartCount { committed, aborted } = *count;
            let part = PartFigures::of_answers(alloc, number, committed, aborted, &answers)?;
            parts.push(part)?;
            number = number.saturating_add(1);
        }
        Ok(RunFigures {
            is_whole: self.summary.is_whole() && links.is_whole(),
            links: links.links(self.rt)?,
            parts,
            times: self.times(),
        })
    }

    /// Writes the answer of each job, one line each, in the order in which the jobs were posted,
    /// and returns how many weren't answered. Writes nothing and returns 0 if answers aren't
    /// recorded. Fails if the writer does, or if memory ran out.
    pub fn write_replies<O: Write>(&self, writer: &mut O) -> io::Result<u64> {
        match &self.replies {
            Some(replies) => replies.write(self.rt, writer),
            None => Ok(0),
        }
    }

    /// Writes the rows at the end, as lines of a header by rising key, or nothing if they aren't
    /// recorded. Fails if the writer does, or if memory ran out.
    pub fn write_rows<O: Write>(&self, writer: &mut O) -> io::Result<()> {
        match &self.rows {
            Some(rows) => rows.write(self.rt, writer),
            None => Ok(()),
        }
    }

    // How long the parts of the run took.
    fn times(&self) -> Times {
        Times {
            reading: self.reading.load(Ordering::SeqCst),
            threads: self.threads.total(),
            audits: self.audits.total(),
        }
    }
}

impl<R: Wait + Clock + Sync, W: Watch> Gate for RecordingWatch<'_, R, W> {
    fn pass(&self, who: u64, step: NodeStep) -> bool {
        self.watch.pass(who, step)
    }

    fn did(&self, who: u64, event: WorkerEvent) {
        self.waits.hear(who, event);
        if let Some(timeline) = &self.timeline {
            timeline.record(who, event);
        }
        self.watch.did(who, event);
    }

    fn rests<S: Wait>(&self, rt: &S, who: u64, turns: u64) {
        self.watch.rests(rt, who, turns);
    }

    fn ends_idle(&self) -> bool {
        self.watch.ends_idle()
    }
}

impl<R: Wait + Clock + Sync, W: Watch> Watch for RecordingWatch<'_, R, W> {
    fn posts(&self, jobs: &[Job]) {
        if let Some(replies) = &self.replies {
            replies.post(self.rt, jobs);
        }
        self.watch.posts(jobs);
    }

    fn begins(&self, jobs: u64, segments: u64) {
        self.reading.store(self.clock.micros(), Ordering::SeqCst);
        if let Some(timeline) = &self.timeline {
            timeline.begin(jobs, segments);
        }
        self.watch.begins(jobs, segments);
    }

    fn stage_begins(&self) {
        self.audits.end(self.clock.micros());
        if let Some(timeline) = &self.timeline {
            timeline.begin_stage();
        }
        self.threads.begin(self.clock.micros());
        self.watch.stage_begins();
    }

    fn stage_ends(&self, pairs: &[TellingNode<Collector>]) {
        self.threads.end(self.clock.micros());
        if let Some(timeline) = &self.timeline {
            timeline.end_stage(pairs);
        }
        self.summary.add_told(self.rt, pairs);
        self.watch.stage_ends(pairs);
    }

    fn gathers(&self, gathered: &Gathered, told: &[Receipt]) {
        self.summary.add_links(self.rt, gathered);
        if let Some(links) = &self.links {
            links.add(self.rt, gathered);
        }
        if let Some(replies) = &self.replies {
            replies.take(self.rt, told);
        }
        if let Some(rows) = &self.rows {
            rows.keep(self.rt, self.alloc, gathered);
        }
        self.watch.gathers(gathered, told);
        self.audits.begin(self.clock.micros());
    }

    fn leaves(&self, left: Gathered, told: Vec<Receipt>, opening: Opening, jobs: Vec<Job>) {
        self.watch.leaves(left, told, opening, jobs);
    }

    fn ends(&self) {
        self.audits.end(self.clock.micros());
        self.watch.ends();
    }
}
