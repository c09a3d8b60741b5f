//! Laws of the definitions that contracts cite: the opening rows are the given ones, stages divide
//! a move, chunks are cut as they are counted, each answer says what was so; rows that fit a schema
//! still fit it after transactions that do; and the rows that a run leaves can be read again. The
//! functions do nothing: each states a law, which the checker proves.
#![tactic(auto)]

ghost use Rattle.std.specs.Prelude.{◌≡◌, ◌≤◌, ℕ, max, List, map, length, Ok};
ghost use Rattle.sq_plan.specs.PlanValue.{PlanValue};
ghost use Rattle.sq_schema.specs.Family.{FamilyValue};
ghost use Rattle.sq_schema.specs.Table.{rows_in};
ghost use Rattle.sq_store.specs.StoreValue.{StoreValue, families_between, take_end};
ghost use Rattle.sq_store.specs.InOrder.{HoldsByRoot};
ghost use Rattle.sq_store.specs.Counting.{family_size, chunk_of};
ghost use Rattle.sq_picture.specs.Cutting.{chunks_to_cut};
ghost use Rattle.sq_text.specs.Pieces.{PieceValue};
ghost use Rattle.sq_text.specs.Header.{HeaderValue, header_of};
ghost use Rattle.sq_moves.specs.declared.opening.Config.{Config};
ghost use Rattle.sq_moves.specs.declared.opening.GivenRow.{GivenRow};
ghost use Rattle.sq_moves.specs.Given.{value_of};
ghost use Rattle.sq_moves.specs.OpeningValue.{OpeningValue};
ghost use Rattle.sq_moves.specs.Opening.{IsOpening};
ghost use Rattle.sq_moves.specs.ReconValue.{ReconValue};
ghost use Rattle.sq_model.specs.Prelude.{Trace, IsLegal};
ghost use Rattle.sq_model.specs.Legal.{IsAnswer};
ghost use Rattle.sq_model.specs.declared.step.Step.{Step};
ghost use Rattle.sq_model.specs.declared.answer.Answer.{Answer};
ghost use Rattle.sq_model.specs.declared.answer.Answer.TheVariants.{Refused};
ghost use Rattle.sq_model.specs.declared.answer.Refusal.{Refusal};
ghost use Rattle.sq_transition.specs.Prelude.{WorldValue, IsTransition};
ghost use Rattle.sq_laws.specs.Cuts.{AreCutInto};
ghost use Rattle.sq_laws.specs.Rows.{OpensWithoutFault, HasJust, HasRowsOfLines};
ghost use Rattle.sq_laws.specs.Says.{SaysOfStep};
ghost use Rattle.sq_laws.specs.Stages.{DivideTheMove};

pub mod fit;
pub mod read_back;

/// An opening has exactly the rows that it was given: if no fault is found, each of them has a
/// place of its own.
pub fn an_opening_has_just_the_given_rows()
    ensures { (tables : ℕ) (old new : PlanValue) (config : Config) (rows : List GivenRow)
        (o : OpeningValue) → OpensWithoutFault tables old new config rows o
        → HasJust (map value_of rows) (rows_in o.table) }
{}

/// A header has exactly the rows that its lines spell, one per line, each at a place of its own, up
/// to the first line that doesn't begin as a row's line does.
pub fn a_header_has_just_the_rows_of_its_lines()
    ensures { (tables : ℕ) (given left : List PieceValue) (header : HeaderValue)
        → header_of tables given ≡ Ok (header, left) → HasRowsOfLines given header left }
{}

/// The stages of a move: all rows that go from one partition to another go in one stage, and in
/// each stage some rows go, if any move at all. With "auto" a partition gives rows to at most one
/// other in a stage; without it there is one stage.
pub fn stages_divide_a_move()
    ensures { (recon : ReconValue) → DivideTheMove recon }
{}

/// A chunk that is cut from a store takes the first family that is left, and as many more as fit
/// (`takes`). Families that are cut like this, one chunk after another, make as many chunks as are
/// counted before a move. Of no families one chunk is cut, which is empty.
pub fn chunks_are_cut_as_they_are_counted()
    ensures takes { (store : StoreValue) (lo hi limit : ℕ) → HoldsByRoot store → lo ≤ hi
        → families_between store lo (take_end store lo hi limit)
        ≡ chunk_of limit (families_between store lo hi) }
    ensures count { (limit : ℕ) (families : List FamilyValue) (chunks : List (List FamilyValue))
        → AreCutInto limit families chunks
        → chunks_to_cut limit (map family_size families) ≡ max 1 (length chunks) }
    ensures some { (limit : ℕ) (families : List FamilyValue)
        → (chunks : List (List FamilyValue)) × AreCutInto limit families chunks }
{}

/// Whatever the steps before: a transaction that is answered ran at the one partition that runs
/// those on its root key, on the rows of the one table; one that waits has its rows on their way
/// there, or waits after another; a chunk is cut and loaded in its turn, with keys that no chunk
/// had before; a node is complete once its last chunk is loaded, a stage is left once each of its
/// segments is complete, and the move ends once each root key is where the new plan puts it.
pub fn each_answer_says_what_was_so()
    ensures { (o : OpeningValue) (t : Trace) (step : Step) (given : Answer)
        → IsOpening o → IsLegal o t → IsAnswer o t step given → SaysOfStep o t step given }
{}

/// A step that is refused leaves the world as it was.
pub fn a_refused_step_changes_nothing()
    ensures { (old new : WorldValue) (step : Step) (refusal : Refusal)
        → IsTransition old step (Refused refusal) new → new ≡ old }
{}
