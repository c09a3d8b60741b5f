// The calls that are tried.

/// A call that is tried.
#[derive(Clone, Copy, Debug, PartialEq, Eq)]
pub enum Call {
    /// Each step by `World::step`.
    Steps,
    /// All steps by `run_world`.
    List,
    /// The whole text by `run`.
    Input,
    /// Those of a `VecStore`.
    VecStore,
    /// Those of a `SlabStore`.
    BlockStore,
    /// Those of a tree, of a link, and of nodes, in one thread.
    Nodes,
    /// A move in two stages, with a fold in one thread between them.
    TwoStages,
    /// A move in two stages, with a fold in threads between them.
    Folds,
    /// An engine from its opening to its end.
    Engine,
    /// A move of an engine in two stages, with jobs that are posted between its epochs.
    Chain,
}

impl Call {
    /// Returns the call of `letter`.
    pub fn of(letter: u8) -> Option<Call> {
        match letter {
            b's' => Some(Call::Steps),
            b'l' => Some(Call::List),
            b'i' => Some(Call::Input),
            b'v' => Some(Call::VecStore),
            b'b' => Some(Call::BlockStore),
            b'n' => Some(Call::Nodes),
            b't' => Some(Call::TwoStages),
            b'f' => Some(Call::Folds),
            b'e' => Some(Call::Engine),
            b'c' => Some(Call::Chain),
            _ => None,
        }
    }
}
