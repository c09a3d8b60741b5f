// The content of an answer.
use crate::failure::Failure;
use sq_node::Receipt;
use sq_schema::{OpAnswer, Reply};

/// The content of an answer: the job `id` made `number` the number of the root key `root`.
#[derive(Clone, Copy, Debug)]
pub struct Heard {
    pub id: u64,
    pub root: u64,
    pub number: u64,
}

/// The content of a receipt. Fails unless it is a commit with a single number that isn't negative.
pub(crate) fn heard_in(receipt: &Receipt) -> Result<Heard, Failure> {
    match number_of(&receipt.reply) {
        Some(number) => Ok(Heard {
            id: receipt.txn.id(),
            root: receipt.txn.root().number(),
            number,
        }),
        None => Err(Failure::WrongAnswer),
    }
}

fn number_of(reply: &Reply) -> Option<u64> {
    match reply {
        Reply::Committed(answers) => match answers.as_slice() {
            [OpAnswer::Number(number)] => u64::try_from(*number).ok(),
            _ => None,
        },
        Reply::Aborted { .. } => None,
    }
}
