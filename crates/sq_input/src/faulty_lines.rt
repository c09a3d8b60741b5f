// Why a line isn't of its form.
ghost use Rattle.std.specs.Prelude.{◌≡◌, List, [], ◌∷◌, Some, MatchResult};
ghost use Rattle.sq_text.specs.Words.{Word};
ghost use Rattle.sq_input.specs.Forms.{next, flaw_at, sizes_form, row_form, txn_form, misfit, line_flaw, plan_line_flaw};

use crate::form::{ROW, SIZES, TXN, op_form};
use crate::wanted::Wanted;
use sq_text::{OpName, Words};

/// The first departure of a line from its form. Words are counted from 1.
#[derive(Clone, Copy, Debug, PartialEq, Eq)]
pub enum LineFlaw {
    /// It begins with a byte order mark.
    Mark,
    /// It ends with a carriage return.
    CarriageReturn,
    /// A word is empty: two spaces are adjacent, or a space begins or ends the line.
    Empty { at: usize },
    /// A word isn't what the form wants.
    Wrong { at: usize, wanted: Wanted },
    Missing { at: usize, wanted: Wanted },
    /// There is one word too many.
    Extra { at: usize },
}

/// What may follow the words of a form.
#[derive(Clone, Copy, Debug, PartialEq, Eq)]
enum Behind {
    Nothing,
    /// Operations of a transaction.
    Operations,
}

// The bytes of a byte order mark.
const MARK: [u8; 3] = [0xef, 0xbb, 0xbf];

/// The first departure of a plan's line from its form: the word `old` or `new`, as `front` wants, a
/// space, and some text. Returns `None` if it is of that form.
pub fn plan_line_flaw(front: Wanted, line: &[u8]) -> Option<LineFlaw>
    ensures { result ≡ plan_line_flaw front line.now }
{
    if line.starts_with(&MARK) {
        return Some(LineFlaw::Mark);
    }
    let mut words = Words::of(line);
    let Some(word) = words.next() else {
        return Some(LineFlaw::Missing {
            at: 1,
            wanted: front,
        });
    };
    if !front.fits(word) {
        return Some(flaw_at(
            1,
            word,
            LineFlaw::Wrong {
                at: 1,
                wanted: front,
            },
        ));
    }
    match words.next() {
        Some(_) => None,
        None => Some(LineFlaw::Missing {
            at: 2,
            wanted: Wanted::Plan,
        }),
    }
}

/// The first departure of the sizes' line from its form; `None` if it is of its form.
pub fn sizes_flaw(line: &[u8]) -> Option<LineFlaw>
    ensures { result ≡ line_flaw Behind.Nothing sizes_form line.now }
{
    line_flaw(Behind::Nothing, &SIZES, line)
}

/// The first departure of a row's line from its form; `None` if it is of its form.
pub fn row_flaw(line: &[u8]) -> Option<LineFlaw>
    ensures { result ≡ line_flaw Behind.Nothing row_form line.now }
{
    line_flaw(Behind::Nothing, &ROW, line)
}

/// The first departure of a transaction's line from its form; `None` if it is of its form.
pub fn job_flaw(line: &[u8]) -> Option<LineFlaw>
    ensures { result ≡ line_flaw Behind.Operations txn_form line.now }
{
    line_flaw(Behind::Operations, &TXN, line)
}

// The first departure of a line from `form`; `behind` says what may follow the form.
fn line_flaw(behind: Behind, form: &'static [Wanted], line: &[u8]) -> Option<LineFlaw>
    ensures { result ≡ line_flaw behind form.now line.now }
{
    if line.starts_with(&MARK) {
        Some(LineFlaw::Mark)
    } else if line.ends_with(b"\r") {
        Some(LineFlaw::CarriageReturn)
    } else {
        misfit(behind, form, Words::of(line))
    }
}

// The first word that departs from a form, or from what may follow it.
fn misfit(behind: Behind, form: &'static [Wanted], mut words: Words<'_>) -> Option<LineFlaw>
    ensures { result ≡ misfit behind 1 form.now words.entry }
{
    let mut coming = form;
    let mut at: usize = 1;
    while let Some(word) = words.next_long() {
        match form_after(behind, coming, at, word) {
            Ok(others) => coming = others,
            Err(flaw) => return Some(flaw),
        }
        at = at.saturating_add(1);
    }
    let wanted = coming.first()?;
    Some(LineFlaw::Missing {
        at,
        wanted: *wanted,
    })
}

// The rest of a form after its first word, or the flaw of `word`, which isn't that word.
fn form_after(
    behind: Behind,
    form: &'static [Wanted],
    at: usize,
    word: &[u8],
) -> Result<&'static [Wanted], LineFlaw>
    ensures { (words : List Word) → let first = misfit behind at form.now (word.now ∷ words) in
        MatchResult result (λ others. first ≡ misfit behind (next at) others.now words)
        (λ flaw. first ≡ Some flaw) }
{
    match form {
        [wanted, others @ ..] if wanted.fits(word) => Ok(others),
        [wanted, ..] => Err(flaw_at(
            at,
            word,
            LineFlaw::Wrong {
                at,
                wanted: *wanted,
            },
        )),
        [] => form_behind(behind, at, word),
    }
}

// The form of what begins with `word` after a whole form, or the flaw of that word.
fn form_behind(behind: Behind, at: usize, word: &[u8]) -> Result<&'static [Wanted], LineFlaw>
    ensures { (words : List Word) → let first = misfit behind at [] (word.now ∷ words) in
        MatchResult result (λ others. first ≡ misfit behind (next at) others.now words)
        (λ flaw. first ≡ Some flaw) }
{
    match behind {
        Behind::Nothing => Err(flaw_at(at, word, LineFlaw::Extra { at })),
        Behind::Operations => match OpName::of(word) {
            Some(name) => Ok(op_form(name)),
            None => Err(flaw_at(
                at,
                word,
                LineFlaw::Wrong {
                    at,
                    wanted: Wanted::OpName,
                },
            )),
        },
    }
}

// The flaw of word number `at`, which doesn't fit: it is empty, or else it has `flaw`.
fn flaw_at(at: usize, word: &[u8], flaw: LineFlaw) -> LineFlaw
    ensures { result ≡ flaw_at at word.now flaw }
{
    if word.is_empty() {
        LineFlaw::Empty { at }
    } else {
        flaw
    }
}
