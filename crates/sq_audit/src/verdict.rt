// The verdict of an audit.
ghost use Rattle.std.specs.Prelude.{◌≡◌};
ghost use Rattle.sq_audit.specs.Defects.{defect_number};

use sq_explain::meaning;
use thiserror::Error;

/// A defect of what was gathered. The audit looks for the defects in this order, in which their
/// numbers rise by one. The table of `sq_explain` says what each means.
#[derive(Clone, Copy, Debug, PartialEq, Eq, Error)]
#[error("{}", meaning(self.number()))]
pub enum Defect {
    RootMissing = 301,
    RootDoubled,
    BaseChanged,
    WrongPlace,
    ReceiptUnknown,
    Unanswered,
}

/// The defects in the order in which the audit looks for them, which is that of their numbers.
pub const ALL_DEFECTS: [Defect; 6] = [
    Defect::RootMissing,
    Defect::RootDoubled,
    Defect::BaseChanged,
    Defect::WrongPlace,
    Defect::ReceiptUnknown,
    Defect::Unanswered,
];

impl Defect {
    /// Returns the number that a user sees.
    pub fn number(self) -> u16
        ensures { result ≡ defect_number self }
    {
        self as u16
    }
}

/// The verdict of an audit.
#[derive(Clone, Copy, Debug, PartialEq, Eq)]
pub enum Verdict {
    /// No defect was found.
    Sound,
    /// The first defect.
    Unsound(Defect),
}
