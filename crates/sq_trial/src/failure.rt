// What may be wrong with an engine.
use thiserror::Error;

/// Why a trial has failed.
#[derive(Clone, Copy, Debug, PartialEq, Eq, Error)]
pub enum Failure {
    #[error("out of memory")]
    Memory,
    #[error("a job is refused for another reason than a full queue")]
    NotPosted,
    #[error("another number of jobs were posted than there was room for")]
    WrongPosted,
    #[error("another number of jobs were answered than could be")]
    WrongAnswered,
    #[error("an answer is of no job")]
    NoSuchJob,
    #[error("an answer is of another root key than its job, or tells no number")]
    WrongAnswer,
    #[error("a job was answered twice")]
    AnsweredTwice,
    #[error("a partition told the numbers of a root key out of order")]
    OutOfOrder,
    #[error("a root key's numbers are not 1, 2, 3 and so on")]
    WrongNumber,
    #[error("a job isn't answered")]
    Unanswered,
    #[error("an answer isn't given")]
    NotGiven,
    #[error("a partition has no thread")]
    NoThread,
    #[error("an engine doesn't go to a plan")]
    NotMoved,
    #[error("a move has another number of stages than its plan asks for")]
    WrongStages,
    #[error("an engine isn't closed")]
    NotClosed,
    #[error("an engine is unsound")]
    Unsound,
}
