// Rows that fit a schema continue to fit it: those that a header opens with, and those that any
// history of lines leaves. The functions do nothing: each states a law, which the checker proves.
ghost use Rattle.std.specs.Prelude.{◌≡◌, true, ℕ, List, Ok, All};
ghost use Rattle.sq_rows.specs.RowList.{RowList};
ghost use Rattle.sq_schema.specs.Effect.{replay_rows};
ghost use Rattle.sq_schema.specs.TxnValue.{TxnValue};
ghost use Rattle.sq_moves.specs.OpeningValue.{OpeningValue};
ghost use Rattle.sq_text.specs.Pieces.{PieceValue};
ghost use Rattle.sq_text.specs.Header.{HeaderValue, header_of};
ghost use Rattle.sq_text.specs.Steps.{step_of};
ghost use Rattle.sq_model.specs.Prelude.{Trace, IsLegal};
ghost use Rattle.sq_model.specs.Tables.{opening_rows, stands, family_of};
ghost use Rattle.sq_model.specs.declared.step.Step.{Step};
ghost use Rattle.sq_laws.specs.Fit.{AreFitRows, IsFitFamily, IsFitTable, IsFitTxn, IsFitStep, AreFitSteps};

/// Rows that fit a schema still fit it after transactions that fit it, whether these commit or
/// abort.
pub fn transactions_keep_rows_fit()
    ensures { (tables : ℕ) (rows : RowList) (txns : List TxnValue)
        → AreFitRows tables rows → All (IsFitTxn tables) txns
        → AreFitRows tables (replay_rows rows txns) }
{}

/// The rows of a header fit the schema that the header is read for.
pub fn a_header_has_fit_rows()
    ensures { (tables : ℕ) (given left : List PieceValue) (header : HeaderValue)
        → header_of tables given ≡ Ok (header, left) → IsFitTable tables header.rows }
{}

/// A transaction that a line submits fits the schema that the line is read for.
pub fn a_line_spells_a_fit_step()
    ensures { (tables : ℕ) (line : List ℕ) (step : Step) → step_of tables line ≡ Ok step
        → IsFitStep tables step }
{}

/// Each family that a legal history leaves fits a schema, if the opening rows and the submitted
/// transactions do.
pub fn a_history_leaves_fit_families()
    ensures { (tables : ℕ) (o : OpeningValue) (t : Trace) → IsLegal o t
        → IsFitTable tables (opening_rows o) → AreFitSteps tables t
        → (root : ℕ) → stands o t root ≡ true → IsFitFamily tables (family_of o t root) }
{}
