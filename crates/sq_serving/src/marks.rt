// Marks for the watch about what is done in an epoch.
use crate::desk_figures::DeskFigures;
use crate::watch::{ServeMark, ServeWatch};
use sq_engine::{Command, StageProgress};
use sq_node::Receipt;
use sq_plan::PartId;
use sq_schema::Reply;

// A busy client calls the watch once in this many calls.
const CALLS_A_TICK: u64 = 64;

/// Marks for a watch about what is done in an epoch.
#[derive(Drop)]
pub struct EpochMarks<'a, V: ServeWatch> {
    watch: &'a V,
    has_begun: bool,
    has_ended: bool,
    // How many calls of the client there were.
    calls: u64,
    // How many segments were complete, and how many families and bytes were moved, at the last mark
    // of them.
    complete: u64,
    moved: u64,
    moved_bytes: u64,
}

impl<'a, V: ServeWatch> EpochMarks<'a, V> {
    /// Marks for `watch`, before the epoch begins.
    pub fn new(watch: &'a V) -> EpochMarks<'a, V> {
        EpochMarks {
            watch,
            has_begun: false,
            has_ended: false,
            calls: 0,
            complete: 0,
            moved: 0,
            moved_bytes: 0,
        }
    }

    pub(crate) fn watch(&self) -> &'a V {
        self.watch
    }

    // Marks that the epoch begins, at the first call only.
    pub(crate) fn begin(&mut self) {
        if !self.has_begun {
            self.has_begun = true;
            self.watch.mark(ServeMark::EpochBegins);
        }
    }

    // Calls the watch with what the desk shows: in each call of an idle client, and in one of
    // `CALLS_A_TICK` of a busy one.
    pub(crate) fn tick(&mut self, desk: &DeskFigures<'_>, is_idle: bool) {
        self.calls = self.calls.wrapping_add(1);
        if is_idle || self.calls % CALLS_A_TICK == 0 {
            self.watch.tick(desk);
        }
    }

    // Marks the progress of the stage, if it has changed.
    pub(crate) fn note_progress(&mut self, stage: StageProgress) {
        let complete = stage.complete;
        if self.complete != complete {
            self.complete = complete;
            self.watch.mark(ServeMark::SegmentsComplete { complete });
        }
        let families = stage.moved.saturating_sub(self.moved);
        let bytes = stage.moved_bytes.saturating_sub(self.moved_bytes);
        if families != 0 || bytes != 0 {
            self.moved = stage.moved;
            self.moved_bytes = stage.moved_bytes;
            self.watch
                .mark(ServeMark::FamiliesMoved { families, bytes });
        }
    }

    // Marks the job that a command offers, if it offers one.
    pub(crate) fn offer(&self, command: &Command) {
        if let Command::Post(job) = command {
            self.watch.mark(ServeMark::JobOffered {
                part: job.part,
                id: job.txn.id(),
            });
        }
    }

    // Marks that a job that was offered to partition `part` isn't posted, or is answered.
    pub(crate) fn close(&self, part: PartId) {
        self.watch.mark(ServeMark::JobClosed { part });
    }

    // Marks the answer of a partition to a job.
    pub(crate) fn answer(&self, part: PartId, receipt: &Receipt) {
        let is_commit = matches!(&receipt.reply, Reply::Committed(_));
        let id = receipt.txn.id();
        self.watch.mark(ServeMark::JobAnswered {
            part,
            id,
            is_commit,
        });
    }

    /// Marks what hasn't been marked yet of an epoch that was served, whose stage ended with
    /// progress `stage`. The engine may never have called its client.
    pub fn end_served(&mut self, stage: StageProgress) {
        self.begin();
        self.note_progress(stage);
        self.end();
    }

    // Marks that the epoch ends, at the first call only.
    pub(crate) fn end(&mut self) {
        if !self.has_ended {
            self.has_ended = true;
            self.watch.mark(ServeMark::EpochEnds);
        }
    }
}
