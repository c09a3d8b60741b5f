// The first words of lines, and the names of operations.
ghost use Rattle.std.specs.Prelude.{◌≡◌};

/// The first word of a script's line other than `txn`.
#[derive(Clone, Copy, Debug, PartialEq, Eq)]
pub(crate) enum Verb {
    Prepare,
    Start,
    Resume,
    Split,
    Claim,
    Begin,
    Cut,
    Push,
    Pop,
    Load,
    Complete,
    Report,
    Next,
    Finish,
    Fold,
    Status,
}

impl Verb {
    ghost use Rattle.sq_text.specs.Verbs.{verb_in};

    // Returns the verb that `word` spells.
    #[tactic(auto, unfolding(crate::specs::Verbs::verb_in))]
    pub(crate) fn of(word: &[u8]) -> Option<Verb>
        ensures { result ≡ verb_in word.now }
    {
        match word {
            b"prepare" => Some(Verb::Prepare),
            b"start" => Some(Verb::Start),
            b"resume" => Some(Verb::Resume),
            b"split" => Some(Verb::Split),
            b"claim" => Some(Verb::Claim),
            b"begin" => Some(Verb::Begin),
            b"cut" => Some(Verb::Cut),
            b"push" => Some(Verb::Push),
            b"pop" => Some(Verb::Pop),
            b"load" => Some(Verb::Load),
            b"complete" => Some(Verb::Complete),
            b"report" => Some(Verb::Report),
            b"next" => Some(Verb::Next),
            b"finish" => Some(Verb::Finish),
            b"fold" => Some(Verb::Fold),
            b"status" => Some(Verb::Status),
            _ => None,
        }
    }
}

/// The name of an operation.
#[derive(Clone, Copy, Debug, PartialEq, Eq)]
pub enum OpName {
    Get,
    Put,
    Add,
    Del,
    Check,
}

impl OpName {
    ghost use Rattle.sq_text.specs.Verbs.{op_name_in};

    /// Returns the name that `word` spells: `get`, `put`, `add`, `del` or `check`; otherwise
    /// `None`.
    #[tactic(auto, unfolding(crate::specs::Verbs::op_name_in))]
    pub fn of(word: &[u8]) -> Option<OpName>
        ensures { result ≡ op_name_in word.now }
    {
        match word {
            b"get" => Some(OpName::Get),
            b"put" => Some(OpName::Put),
            b"add" => Some(OpName::Add),
            b"del" => Some(OpName::Del),
            b"check" => Some(OpName::Check),
            _ => None,
        }
    }
}
