// Random root keys.
ghost use Rattle.std.specs.Prelude.{◌≡◌, ◌<◌, ◌≤◌};

use crate::sizes::DemoSizes;

/// A source of root keys that have rows, by pseudorandom numbers: the same keys for the same seed.
#[derive(Drop)]
pub(crate) struct KeySource {
    state: u64,
    roots: u64,
    // How many root keys move and have rows, and how many of 100 jobs, on average, are drawn for
    // these alone; the others are drawn for all root keys with rows.
    hot_roots: u64,
    hot: u64,
    ghost some: { 1 ≤ hot_roots },
    ghost within: { hot_roots ≤ roots },
}

impl KeySource {
    /// A source of root keys for a sample input.
    pub(crate) fn new(sizes: &DemoSizes) -> KeySource
        ensures { result.roots ≡ sizes.now.roots }
    {
        KeySource {
            state: sizes.seed,
            roots: sizes.roots,
            hot_roots: sizes.hot_keys().min(sizes.roots),
            hot: sizes.hot,
        }
    }

    /// The next root key.
    pub(crate) fn draw(&mut self) -> u64
        ensures root { result < self.old.roots }
        ensures roots { self.new.roots ≡ self.old.roots }
    {
        if self.below(100) < self.hot {
            self.below(self.hot_roots)
        } else {
            self.below(self.roots)
        }
    }

    // A number below `end`.
    fn below(&mut self, end: u64) -> u64
        requires { 1 ≤ end }
        ensures below { result < end }
        ensures roots { self.new.roots ≡ self.old.roots }
        ensures hot_roots { self.new.hot_roots ≡ self.old.hot_roots }
        ensures hot { self.new.hot ≡ self.old.hot }
    {
        self.state = self
            .state
            .wrapping_mul(6_364_136_223_846_793_005)
            .wrapping_add(1_442_695_040_888_963_407);
        (self.state >> 33) % end
    }
}
