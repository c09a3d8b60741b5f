// Versions of the format of plans.
ghost use Rattle.std.specs.Prelude.{◌≡◌};

/// How the rows that move to a plan are divided.
#[derive(Clone, Copy, Debug, PartialEq, Eq)]
pub enum Stages {
    /// They move all at once.
    One,
    /// They move in stages: in each, a partition sends keys to only one other.
    Auto,
}

/// The version of the format of a plan, with its stages, which only the second version names.
#[derive(Clone, Copy, Debug, PartialEq, Eq)]
pub enum Version {
    /// `"version":1`
    First,
    /// `"version":2`
    Second(Stages),
}

impl Stages {
    ghost use Rattle.sq_plan.specs.Version.{stages_name, stages_named};

    // Returns the stages with this `name`.
    #[tactic(auto, unfolding(crate::specs::Version::stages_named))]
    pub(crate) fn of(name: &[u8]) -> Option<Stages>
        ensures { result ≡ stages_named name.now }
    {
        match name {
            b"one" => Some(Stages::One),
            b"auto" => Some(Stages::Auto),
            _ => None,
        }
    }

    // Returns the name in JSON.
    pub(crate) fn name(self) -> &'static str
        ensures { result.now ≡ stages_name self }
    {
        match self {
            Stages::One => "one",
            Stages::Auto => "auto",
        }
    }
}

impl Version {
    ghost use Rattle.sq_plan.specs.Version.{is_auto};

    /// Returns true if a move to a plan of this version has stages (`auto`).
    pub fn is_auto(self) -> bool
        ensures { result ≡ is_auto self }
    {
        match self {
            Version::First | Version::Second(Stages::One) => false,
            Version::Second(Stages::Auto) => true,
        }
    }
}
