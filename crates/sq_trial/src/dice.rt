// Random numbers.
ghost use Rattle.std.specs.Prelude.{◌<◌};

/// Pseudorandom numbers: the same numbers for the same seed.
#[derive(Drop)]
pub struct Dice {
    state: u64,
}

impl Dice {
    /// Dice with this seed.
    pub fn new(seed: u64) -> Dice {
        Dice { state: seed }
    }

    /// A number below `end`.
    pub fn below(&mut self, end: u64) -> u64
        requires { 0 < end }
        ensures { result < end }
    {
        self.state = self
            .state
            .wrapping_mul(6_364_136_223_846_793_005)
            .wrapping_add(1_442_695_040_888_963_407);
        (self.state >> 33) % end
    }
}
