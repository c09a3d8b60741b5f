// A status as one word of memory that threads share.
ghost use Rattle.std.specs.Prelude.{◌≡◌, ◌^◌, ◌<◌};
ghost use Rattle.sq_moves.specs.declared.status.Status.{Status};
ghost use Rattle.sq_moves.specs.Status.{word_of, pull_of};

use crate::status::Status;

impl Status {
    /// Returns the word of the status: 0 if free, 1 if split, and eight times the pull's number
    /// plus 2 if claimed, 3 if partial, 4 if complete.
    pub fn word(self) -> u64
        ensures { result ≡ word_of self }
    {
        match self {
            Status::Free => 0,
            Status::Split => 1,
            Status::Claimed(pull) => 2 + 8 * u64::from(pull),
            Status::Partial(pull) => 3 + 8 * u64::from(pull),
            Status::Complete(pull) => 4 + 8 * u64::from(pull),
        }
    }

    /// Returns the only status with this `word`.
    pub fn from_word(word: u64) -> Status
        requires { (st : Status) × (pull_of st < 2 ^ 32) × (word ≡ word_of st) }
        ensures word { word ≡ word_of result }
        ensures only { (st : Status) → word ≡ word_of st → result ≡ st }
    {
        let pull = (word / 8) as u32;
        match word % 8 {
            0 => Status::Free,
            1 => Status::Split,
            2 => Status::Claimed(pull),
            3 => Status::Partial(pull),
            _ => Status::Complete(pull),
        }
    }
}
