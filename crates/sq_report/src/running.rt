// The record of what an engine that is served does, for figures while it runs.
use crate::engine_figures::{EngineFigures, MoveFigures, Share, left_of};
use crate::last_second::LastSecond;
use crate::sampling::Sampling;
use crate::tallies::{AnswerTally, MovedTally};
use sq_serving::{DeskFigures, ServeMark};
use std::alloc::{AllocError, Global};

// The length of a tenth of a second, in microseconds.
const MICROS_IN_TENTH: u64 = 100_000;

// No engine has more partitions.
const PARTS: usize = 256;

/// The record of what an engine that is served does, for figures while it runs. Its memory doesn't
/// grow with the jobs that are answered. If memory runs out, waits are left out.
#[derive(Drop)]
pub struct RunningRecord {
    alloc: Global,
    answers: AnswerTally,
    // How many jobs of each partition are posted and have no answer.
    posted: Vec<u64>,
    // How many partitions there are, once a desk has shown it.
    parts: u8,
    moves: u64,
    moved: MovedTally,
    moving: Option<RunningMove>,
    second: LastSecond,
    sampling: Sampling,
}

// What was done in the running move.
#[derive(Clone, Copy)]
struct RunningMove {
    segments: u64,
    // How many segments of the stages before the running one are complete, and how many of the
    // running one.
    before: u64,
    complete: u64,
    moved: MovedTally,
    // When it began, in microseconds.
    began: u64,
}

impl RunningMove {
    // How many of all segments are complete.
    fn all(self) -> Share {
        Share {
            segments: self.segments,
            complete: self.before.saturating_add(self.complete).min(self.segments),
        }
    }
}

impl RunningRecord {
    /// The record of an engine that has done nothing yet. Fails if memory runs out.
    pub fn new(alloc: Global) -> Result<RunningRecord, AllocError> {
        let mut posted = Vec::new(alloc);
        for _part in 0..PARTS {
            posted.push(0)?;
        }
        Ok(RunningRecord {
            alloc,
            answers: AnswerTally::NONE,
            posted,
            parts: 0,
            moves: 0,
            moved: MovedTally::NONE,
            moving: None,
            second: LastSecond::new(alloc)?,
            sampling: Sampling::new(alloc),
        })
    }

    /// Returns whether the time matters at which `mark` is made.
    pub fn needs_time(&self, mark: &ServeMark) -> bool {
        match *mark {
            ServeMark::JobOffered { id, .. } => self.sampling.chooses(id),
            ServeMark::JobAnswered { id, .. } => self.sampling.measures(id),
            ServeMark::MoveBegins { .. } | ServeMark::FamiliesMoved { .. } => true,
            _ => false,
        }
    }

    /// Records `mark`, made at `micros` (in microseconds); the time may be any if it doesn't
    /// matter.
    pub fn note(&mut self, mark: ServeMark, micros: u64) {
        match mark {
            ServeMark::JobOffered { part, id } => {
                self.count_posted(part.number(), 1, 0);
                // Without memory the job's wait isn't measured.
                let _ = self.sampling.offer(id, micros);
            }
            ServeMark::JobClosed { part } => self.count_posted(part.number(), 0, 1),
            ServeMark::JobAnswered { id, is_commit, .. } => self.answer(id, is_commit, micros),
            ServeMark::FamiliesMoved { families, bytes } => {
                self.add_moved(families, bytes, micros);
            }
            ServeMark::SegmentsComplete { complete } => self.complete_segments(complete),
            ServeMark::EpochEnds => self.end_stage(),
            ServeMark::MoveBegins { segments } => self.begin_move(segments, micros),
            ServeMark::MoveEnds => self.end_move(),
            ServeMark::EpochBegins => {}
        }
    }

    /// Continues at `micros`. Call it again and again, since it adapts how many jobs are measured.
    pub fn tick(&mut self, micros: u64) {
        self.sampling.adapt(micros / MICROS_IN_TENTH);
    }

    /// The figures at `micros` of an engine whose desk shows `desk`, or is closed, and whose process
    /// has `memory` bytes, if that is known. Fails if memory runs out.
    pub fn figures(
        &mut self,
        desk: Option<&DeskFigures<'_>>,
        memory: Option<u64>,
        micros: u64,
    ) -> Result<EngineFigures, AllocError> {
        if let Some(desk) = desk {
            self.parts = desk.parts();
        }
        let open_at = self.open_at(desk)?;
        Ok(EngineFigures {
            micros,
            committed: self.answers.committed,
            aborted: self.answers.aborted,
            open: open_at
                .iter()
                .fold(0, |sum: u64, jobs| sum.saturating_add(*jobs)),
            open_at,
            waits: self.second.waits(micros)?,
            moves: self.moves,
            families: self.moved.families,
            bytes: self.moved.bytes,
            moving: self.move_figures(desk, micros),
            pumps: desk.map_or(0, |desk| desk.pumps()),
            memory,
        })
    }

    // How many jobs of each partition have no answer: those that are posted, and those that wait at
    // the desk.
    fn open_at(&self, desk: Option<&DeskFigures<'_>>) -> Result<Vec<u64>, AllocError> {
        let mut open = Vec::new(self.alloc);
        for part in 0..self.parts {
            let posted = self.posted.get(usize::from(part)).copied().unwrap_or(0);
            let waiting = desk.map_or(0, |desk| desk.waiting_at(part));
            open.push(posted.saturating_add(waiting))?;
        }
        Ok(open)
    }

    // The figures of the running move, if there is one.
    fn move_figures(&self, desk: Option<&DeskFigures<'_>>, micros: u64) -> Option<MoveFigures> {
        let moving = self.moving?;
        let stage = desk?.stage()?;
        let rate = self.second.rate(micros, moving.began);
        Some(MoveFigures {
            stage: Share {
                segments: stage.segments,
                complete: stage.complete,
            },
            all: moving.all(),
            families: moving.moved.families,
            bytes: moving.moved.bytes,
            rate,
            left: left_of(moving.all(), moving.moved, rate),
        })
    }

    // Counts `more` posted jobs of partition `part`, and `fewer`.
    fn count_posted(&mut self, part: u8, more: u64, fewer: u64) {
        if let Some(posted) = self.posted.get_mut(usize::from(part)) {
            *posted = posted.saturating_add(more).saturating_sub(fewer);
        }
    }

    // Counts the answer to the job `id`, and records how long it has waited, if that is measured.
    fn answer(&mut self, id: u64, is_commit: bool, micros: u64) {
        self.answers = self.answers.with(is_commit, 0);
        if let Some(wait) = self.sampling.answer(id, micros) {
            // Without memory the wait is left out.
            let _ = self.second.note_wait(micros, wait);
        }
    }

    // Counts families that were moved, and their bytes.
    fn add_moved(&mut self, families: u64, bytes: u64, micros: u64) {
        self.moved = self.moved.with(families, bytes);
        self.second.note_families(micros, families);
        if let Some(moving) = self.moving {
            self.moving = Some(RunningMove {
                moved: moving.moved.with(families, bytes),
                ..moving
            });
        }
    }

    // Records that `complete` segments of the running stage are complete.
    fn complete_segments(&mut self, complete: u64) {
        if let Some(moving) = self.moving {
            self.moving = Some(RunningMove { complete, ..moving });
        }
    }

    // Records that an epoch ends: while rows move, its stage ends with it.
    fn end_stage(&mut self) {
        if let Some(moving) = self.moving {
            self.moving = Some(RunningMove {
                before: moving.before.saturating_add(moving.complete),
                complete: 0,
                ..moving
            });
        }
    }

    // Records that a move of `segments` segments begins at `micros`.
    fn begin_move(&mut self, segments: u64, micros: u64) {
        self.second.forget_families();
        self.moving = Some(RunningMove {
            segments,
            before: 0,
            complete: 0,
            moved: MovedTally::NONE,
            began: micros,
        });
    }

    // Records that the running move is done.
    fn end_move(&mut self) {
        self.moving = None;
        self.moves = self.moves.saturating_add(1);
    }
}
