// The words that faults are about.
ghost use Rattle.std.specs.Prelude.{◌≡◌};
ghost use Rattle.sq_input.specs.Places.{row_word, opening_word};

use crate::form::{TXN, op_form};
use sq_moves::{OpeningFault, ReconFault};
use sq_schema::{MAX_NOTE, MAX_OPS, MAX_TABLES, TxnFault};
use sq_text::{OpName, Words, unsigned};

/// The number, from 1, of the word that a fault of an opening is about, in the line of the sizes or
/// the row. For a row that is out of place it is the root key. Returns `None` if the fault is about
/// no word.
pub fn opening_word(fault: OpeningFault) -> Option<usize>
    ensures { result ≡ opening_word fault }
{
    match fault {
        OpeningFault::Recon(ReconFault::Width) => Some(2),
        OpeningFault::Limit => Some(3),
        OpeningFault::Capacity => Some(4),
        OpeningFault::Row(_, fault) => row_word(fault),
        OpeningFault::Place(_, _) => Some(2),
        _ => None,
    }
}

// The number, from 1, of the word of a row's line that a fault of the schema is about.
fn row_word(fault: TxnFault) -> Option<usize>
    ensures { result ≡ row_word fault }
{
    match fault {
        TxnFault::BadOps => None,
        TxnFault::BadRoot => Some(2),
        TxnFault::BadTable => Some(3),
        TxnFault::BadSub => Some(4),
        TxnFault::BadNote => Some(6),
    }
}

/// The number, from 1, of the word of a transaction's line that `fault` is about; `None` if it is
/// about no word.
pub fn job_word(fault: TxnFault, line: &[u8]) -> Option<usize> {
    match fault {
        TxnFault::BadOps => None,
        TxnFault::BadRoot => Some(TXN.len()),
        _ => faulty_op(fault, line),
    }
}

// The number of the first word in the operations that `fault` is about.
fn faulty_op(fault: TxnFault, line: &[u8]) -> Option<usize> {
    let mut words = Words::of(line);
    for _ in TXN {
        words.next()?;
    }
    let mut at = TXN.len() + 1;
    for _ in 0..MAX_OPS {
        let form = op_form(OpName::of(words.next()?)?);
        if let Some(behind) = faulty_word(fault, form.len(), &mut words) {
            return Some(at.saturating_add(behind));
        }
        at = at.saturating_add(form.len()).saturating_add(1);
    }
    None
}

// How many words after the name of an operation the faulty word comes; `count` is how many words
// follow the name.
fn faulty_word(fault: TxnFault, count: usize, words: &mut Words<'_>) -> Option<usize> {
    let table = unsigned(words.next()?)?;
    let sub = unsigned(words.next()?)?;
    let mut last: &[u8] = b"";
    for _ in 2..count {
        last = words.next_long()?;
    }
    match fault {
        TxnFault::BadTable if table >= u64::from(MAX_TABLES) => Some(1),
        TxnFault::BadSub if table == 0 && sub != 0 => Some(2),
        TxnFault::BadNote if last.len() > 2 * MAX_NOTE => Some(count),
        _ => None,
    }
}
