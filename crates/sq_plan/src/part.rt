// Partitions.
ghost use Rattle.std.specs.Prelude.{◌≡◌};

use std::marker::Model;

/// A partition, by its number from 0. To a contract it is the number.
#[derive(Clone, Copy, Debug, PartialEq, Eq, PartialOrd, Ord)]
pub struct PartId(u8);

impl Model for PartId {
    ghost use Rattle.std.specs.Prelude.{ℕ};

    ghost Value = { ℕ };

    ghost view = { λ p. p.0 };

    ghost inverse = { λ n. record { 0 = n } };
}

impl PartId {
    /// Returns the partition with this `number`.
    pub fn new(number: u8) -> PartId
        ensures { result ≡ number }
    {
        PartId(number)
    }

    /// Returns the number, from 0.
    pub fn number(self) -> u8
        ensures { result ≡ self }
    {
        self.0
    }
}
