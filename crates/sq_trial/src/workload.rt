// The jobs of a client.

/// The jobs of a client: `jobs` of them, random by `seed`, each to one of the first `parts`
/// partitions, on one of the first `roots` root keys. Each adds 1 to the number of its root key.
#[derive(Clone, Copy, Debug)]
pub struct Workload {
    pub seed: u64,
    pub jobs: u64,
    pub parts: u8,
    pub roots: u64,
}
