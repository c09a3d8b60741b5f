// The work that a node has done, by which a turn is divided.

/// The work that a node has done since its stage began. Work on jobs and on chunks is counted in
/// operations of transactions: to cut or to load a family takes about as long as one operation, so
/// both counts can be compared.
#[derive(Clone, Copy, Debug, PartialEq, Eq)]
pub struct Effort {
    /// Operations for jobs that it took or resumed.
    pub jobs: u64,
    /// Operations for chunks that it cut or loaded.
    pub chunks: u64,
    /// How many families it loaded, and how many bytes they had.
    pub loaded: u64,
    pub loaded_bytes: u64,
    /// How many of the jobs that it took had to wait for rows.
    pub waits: u64,
    /// The id of the last of these jobs, or 0 if there is none.
    pub last_wait: u64,
}

impl Effort {
    /// No work.
    pub(crate) const NONE: Effort = Effort {
        jobs: 0,
        chunks: 0,
        loaded: 0,
        loaded_bytes: 0,
        waits: 0,
        last_wait: 0,
    };

    /// Counts a job that was answered after `operations` operations, plus two for its delivery and
    /// its receipt.
    pub(crate) fn add_answer(&mut self, operations: usize) {
        self.add_jobs(2);
        self.add_jobs(operations as u64);
    }

    /// Counts job `id`, which has to wait: an eighth of its `operations`, for its copy, plus two.
    pub(crate) fn add_wait(&mut self, id: u64, operations: usize) {
        self.add_jobs(2);
        self.add_jobs(operations as u64 / 8);
        self.waits = self.waits.saturating_add(1);
        self.last_wait = id;
    }

    /// Counts a job that is forwarded, as two operations.
    pub(crate) fn add_post(&mut self) {
        self.add_jobs(2);
    }

    /// Counts a chunk of `families` families that was cut, plus four operations for the chunk
    /// itself.
    pub(crate) fn add_chunk(&mut self, families: usize) {
        self.chunks = self
            .chunks
            .saturating_add(families as u64)
            .saturating_add(4);
    }

    /// Counts a chunk of `families` families and `bytes` bytes that was loaded, at the same cost as
    /// one that was cut.
    pub(crate) fn add_load(&mut self, families: usize, bytes: u64) {
        self.add_chunk(families);
        self.loaded = self.loaded.saturating_add(families as u64);
        self.loaded_bytes = self.loaded_bytes.saturating_add(bytes);
    }

    fn add_jobs(&mut self, operations: u64) {
        self.jobs = self.jobs.saturating_add(operations);
    }
}
