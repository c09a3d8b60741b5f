// What a step of a node did.
ghost use Rattle.std.specs.Prelude.{◌≡◌};
ghost use Rattle.sq_node.specs.Turn.{summary};

/// What a step or a turn of a node did.
#[derive(Clone, Copy, Debug, PartialEq, Eq)]
pub enum Stepped {
    /// It did something.
    Did,
    /// There was nothing to do.
    Nothing,
    /// It lacked memory. Its work is left for a later turn.
    Memory,
}

impl Stepped {
    /// Returns what this step and `next` did together: `Did` if one of them did something, else
    /// `Memory` if one of them lacked memory, else `Nothing`.
    pub(crate) fn and(self, next: Stepped) -> Stepped
        ensures { result ≡ summary self next }
    {
        match (self, next) {
            (Stepped::Did, _) | (_, Stepped::Did) => Stepped::Did,
            (Stepped::Memory, _) | (_, Stepped::Memory) => Stepped::Memory,
            (Stepped::Nothing, Stepped::Nothing) => Stepped::Nothing,
        }
    }
}
