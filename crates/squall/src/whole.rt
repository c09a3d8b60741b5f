// The text of an input, put together from its parts. Each has one type, however it is put together,
// so that the program holds the code that reads it once.
use crate::unread_stages::PlansWatched;
use either::Either;
use sq_input::{BareLines, CsvRows, Inserting, RowLines};
use sq_serving::{CountedLines, Following};
use std::alloc::Global;
use std::io::{Chain, Cursor};

/// The main part: what is read, or a named file.
pub type MainPart<'a, R, F> = Either<&'a mut R, F>;

/// The rows of a file: as lines, or as a table of values, whose reader is large.
pub type FileRows<'a, F> = Either<RowLines<BareLines<'a, F>>, Box<CsvRows<'a, F>, Global>>;

/// What comes after the lines of the plans: the main part alone, or with rows inserted.
pub type AfterPlans<'a, M, F> = Either<M, Inserting<'a, M, FileRows<'a, F>>>;

/// The whole: the main part alone, or after the lines of the plans.
pub type Whole<'a, M, F> = Either<M, Chain<&'a [u8], AfterPlans<'a, M, F>>>;

/// The main part of an engine's text: what is read, or a named file and then that.
pub type EngineMain<T, F, R> = Either<
    PlansWatched<T, R>,
    Following<CountedLines<PlansWatched<T, F>>, PlansWatched<T, R>>,
>;

/// The whole text of an engine: the main part alone, or after a text.
pub type EngineText<M> = Either<M, Chain<Cursor<Vec<u8>>, M>>;
