// What a sample input is like.
ghost use Rattle.std.specs.Prelude.{◌≡◌, ◌≤◌, ◌<◌, ◌+◌, ◌*◌};

/// What a sample input is like.
#[derive(Clone, Copy, Debug, PartialEq, Eq)]
pub struct DemoSizes {
    pub partitions: u64,
    /// How many root keys have rows; they are counted from 0.
    pub roots: u64,
    /// How many rows each of these root keys has.
    pub rows_per_root: u64,
    pub jobs: u64,
    /// How many jobs of 100, on average, are drawn for root keys that move; the others are drawn
    /// for all root keys with rows.
    pub hot: u64,
    pub stages: bool,
    /// The seed of the random numbers that choose the root keys of the jobs.
    pub seed: u64,
    pub ghost several: { 2 ≤ partitions },
    pub ghost few_partitions: { partitions ≤ 16 },
    pub ghost some_root: { 1 ≤ roots },
    pub ghost few_roots: { roots ≤ 1000000 },
    pub ghost few_rows: { rows_per_root ≤ 1000 },
    pub ghost few_jobs: { jobs ≤ 4096 },
}

impl DemoSizes {
    ghost use Rattle.sq_command.specs.Sizes.{share_size, hot_keys_of, line_count};

    /// How many root keys each partition but the last has before the move; the last one has all
    /// that follow. It is the smallest number that covers the root keys with rows, and at least 8.
    pub(crate) fn share(&self) -> u64
        ensures share { result ≡ share_size self.now }
        ensures some { 8 ≤ result }
        ensures few { result ≤ 1000000 }
    {
        ((self.roots + self.partitions - 1) / self.partitions).max(8)
    }

    /// How many root keys move: the first eighth of those of partition 0.
    pub(crate) fn hot_keys(&self) -> u64
        ensures hot { result ≡ hot_keys_of self.now }
        ensures some { 1 ≤ result }
        ensures few { result ≤ 125000 }
    {
        self.share() / 8
    }

    /// How many lines the whole sample input has.
    pub fn line_count(&self) -> u64
        ensures { result ≡ line_count self.now }
    {
        3 + self.roots * self.rows_per_root + self.jobs
    }
}
