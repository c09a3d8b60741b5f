// The counts of an engine that is served.
ghost use Rattle.std.specs.Prelude.{◌≡◌};
ghost use Rattle.sq_report.specs.Tallies.{answer_counted, answers_noted, moved_noted};
ghost use Rattle.sq_report.specs.Tallies.{capped_sum};
ghost use Rattle.sq_report.specs.Tallies.{epoch_begun, epoch_ended, epochs_noted};

use sq_serving::ServeMark;

/// How many jobs were answered, and the longest wait of one. A count stays at the largest 64-bit
/// number if it doesn't fit.
#[derive(Clone, Copy)]
pub(crate) struct AnswerTally {
    pub(crate) committed: u64,
    pub(crate) aborted: u64,
    /// In microseconds.
    pub(crate) longest: u64,
}

impl AnswerTally {
    /// The tally of no jobs.
    pub(crate) const NONE: AnswerTally = AnswerTally {
        committed: 0,
        aborted: 0,
        longest: 0,
    };

    /// The tally after `mark`; `wait` is how long the job it answers waited.
    pub(crate) fn noted(self, mark: &ServeMark, wait: u64) -> AnswerTally
        ensures { result ≡ answers_noted self mark.now wait }
    {
        match *mark {
            ServeMark::JobAnswered { is_commit, .. } => self.with(is_commit, wait),
            _ => self,
        }
    }

    /// The tally with one more job, which waited `wait` microseconds.
    pub(crate) fn with(self, is_commit: bool, wait: u64) -> AnswerTally
        ensures { result ≡ answer_counted self is_commit wait }
    {
        let longest = self.longest.max(wait);
        if is_commit {
            AnswerTally {
                committed: self.committed.saturating_add(1),
                longest,
                ..self
            }
        } else {
            AnswerTally {
                aborted: self.aborted.saturating_add(1),
                longest,
                ..self
            }
        }
    }
}

/// How many families and bytes were moved. A count stays at the largest 64-bit number if it doesn't
/// fit.
#[derive(Clone, Copy)]
pub(crate) struct MovedTally {
    pub(crate) families: u64,
    pub(crate) bytes: u64,
}

impl MovedTally {
    /// The tally of no families.
    pub(crate) const NONE: MovedTally = MovedTally {
        families: 0,
        bytes: 0,
    };

    /// The tally after `mark`.
    pub(crate) fn noted(self, mark: &ServeMark) -> MovedTally
        ensures { result ≡ moved_noted self mark.now }
    {
        match *mark {
            ServeMark::FamiliesMoved { families, bytes } => self.with(families, bytes),
            _ => self,
        }
    }

    /// The tally with `families` more, of `bytes` bytes.
    pub(crate) fn with(self, families: u64, bytes: u64) -> MovedTally
        ensures { result ≡ record {
          families = capped_sum self.families families;
          bytes = capped_sum self.bytes bytes;
        } }
    {
        MovedTally {
            families: self.families.saturating_add(families),
            bytes: self.bytes.saturating_add(bytes),
        }
    }
}

/// How many epochs there were, and the pauses between them.
#[derive(Clone, Copy)]
pub(crate) struct EpochTally {
    pub(crate) epochs: u64,
    /// The longest pause, and all pauses together, in microseconds.
    pub(crate) longest: u64,
    pub(crate) total: u64,
    /// When the last epoch ended; `None` before the first one and while one runs.
    pub(crate) ended: Option<u64>,
}

impl EpochTally {
    /// The tally of no epochs.
    pub(crate) const NONE: EpochTally = EpochTally {
        epochs: 0,
        longest: 0,
        total: 0,
        ended: None,
    };

    /// The tally after `mark`, made at `micros`.
    pub(crate) fn noted(self, mark: &ServeMark, micros: u64) -> EpochTally
        ensures { result ≡ epochs_noted self mark.now micros }
    {
        match *mark {
            ServeMark::EpochBegins => self.begin(micros),
            ServeMark::EpochEnds => self.end(micros),
            _ => self,
        }
    }

    // The tally after an epoch ends at `micros`.
    fn end(self, micros: u64) -> EpochTally
        ensures { result ≡ epoch_ended self micros }
    {
        EpochTally {
            ended: Some(micros),
            ..self
        }
    }

    // The tally after an epoch begins at `micros`.
    fn begin(self, micros: u64) -> EpochTally
        ensures { result ≡ epoch_begun self micros }
    {
        let pause = match self.ended {
            Some(ended) => micros.saturating_sub(ended),
            None => 0,
        };
        EpochTally {
            epochs: self.epochs.saturating_add(1),
            longest: self.longest.max(pause),
            total: self.total.saturating_add(pause),
            ended: None,
        }
    }
}
