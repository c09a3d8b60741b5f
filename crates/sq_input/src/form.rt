// The forms of lines, word by word.
ghost use Rattle.std.specs.Prelude.{◌≡◌};
ghost use Rattle.sq_input.specs.Forms.{op_form};

use crate::wanted::Wanted;
use sq_text::OpName;

/// The words of the line of the sizes.
pub(crate) const SIZES: [Wanted; 4] = [
    Wanted::Config,
    Wanted::Number,
    Wanted::Number,
    Wanted::Number,
];

/// The words of a row's line.
pub(crate) const ROW: [Wanted; 6] = [
    Wanted::Row,
    Wanted::Number,
    Wanted::Table,
    Wanted::Sub,
    Wanted::Signed,
    Wanted::Note,
];

/// The words of a transaction's line before its operations.
pub(crate) const TXN: [Wanted; 4] = [Wanted::Txn, Wanted::Number, Wanted::Number, Wanted::Number];

/// The words after the name of an operation.
pub(crate) fn op_form(name: OpName) -> &'static [Wanted]
    ensures { result.now ≡ op_form name }
{
    match name {
        OpName::Get | OpName::Del => &[Wanted::Table, Wanted::Sub],
        OpName::Put => &[Wanted::Table, Wanted::Sub, Wanted::Signed, Wanted::Note],
        OpName::Add | OpName::Check => &[Wanted::Table, Wanted::Sub, Wanted::Signed],
    }
}
