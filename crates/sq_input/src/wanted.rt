// What a form wants of its words.
ghost use Rattle.std.specs.Prelude.{◌≡◌};
ghost use Rattle.sq_input.specs.Fits.{fits};

use sq_text::{OpName, is_note, signed, unsigned};
use std::fmt;
use std::fmt::{Display, Formatter, Write};

/// What a form wants of a word.
#[derive(Clone, Copy, Debug, PartialEq, Eq)]
pub enum Wanted {
    Old,
    New,
    Config,
    Row,
    Txn,
    /// A plan, or the beginning of one.
    Plan,
    Number,
    /// A table: a number up to 255.
    Table,
    /// A sub key: a number up to 4,294,967,295.
    Sub,
    /// A number that may have a minus sign.
    Signed,
    Note,
    /// The name of an operation.
    OpName,
}

impl Wanted {
    // Returns whether `word` is what is wanted.
    pub(crate) fn fits(self, word: &[u8]) -> bool
        ensures { result ≡ fits self word.now }
    {
        match self {
            Wanted::Old => matches!(word, b"old"),
            Wanted::New => matches!(word, b"new"),
            Wanted::Config => matches!(word, b"config"),
            Wanted::Row => matches!(word, b"row"),
            Wanted::Txn => matches!(word, b"txn"),
            Wanted::Plan => true,
            Wanted::Number => unsigned(word).is_some(),
            Wanted::Table => unsigned(word).is_some_and(|table| table <= 255),
            Wanted::Sub => unsigned(word).is_some_and(|sub| sub <= 4_294_967_295),
            Wanted::Signed => signed(word).is_some(),
            Wanted::Note => is_note(word),
            Wanted::OpName => OpName::of(word).is_some(),
        }
    }
}

impl Display for Wanted {
    fn fmt<W: Write>(&self, f: &mut Formatter<W>) -> fmt::Result {
        f.write_str(match self {
            Wanted::Old => "'old'",
            Wanted::New => "'new'",
            Wanted::Config => "'config'",
            Wanted::Row => "'row'",
            Wanted::Txn => "'txn'",
            Wanted::Plan => "a plan",
            Wanted::Number => {
                "a number up to 18446744073709551615, in decimal digits without a leading zero"
            }
            Wanted::Table => "a table, a number up to 255 in decimal digits without a leading zero",
            Wanted::Sub => {
                "a sub key, a number up to 4294967295 in decimal digits without a leading zero"
            }
            Wanted::Signed => {
                "a number from -9223372036854775808 to 9223372036854775807, in decimal digits without a leading zero"
            }
            Wanted::Note => "a note, '-' or two digits from 0-9 and a-f for each byte",
            Wanted::OpName => "an operation, 'get', 'put', 'add', 'del' or 'check'",
        })
    }
}
