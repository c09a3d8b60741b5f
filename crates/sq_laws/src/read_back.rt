// The rows that a run leaves can be read again: an input whose rows are the lines written of them
// opens with the same rows. The functions do nothing: each states a law, which the checker proves.
ghost use Rattle.std.specs.Prelude.{◌∷◌, ℕ, List, []};
ghost use Rattle.sq_schema.specs.Prelude.{FamilyValue};
ghost use Rattle.sq_schema.specs.declared.schema.TheConstants.{MAX_TABLES};
ghost use Rattle.sq_moves.specs.OpeningValue.{OpeningValue};
ghost use Rattle.sq_moves.specs.Opening.{IsOpening};
ghost use Rattle.sq_text.specs.Pieces.{PieceValue};
ghost use Rattle.sq_model.specs.Prelude.{Trace, IsLegal};
ghost use Rattle.sq_model.specs.Tables.{opening_rows};
ghost use Rattle.sq_transition.specs.Prelude.{WorldValue, Holds};
ghost use Rattle.sq_world.specs.Script.{IsLedTo};
ghost use Rattle.sq_results.specs.Standing.{world_families};
ghost use Rattle.sq_laws.specs.Fit.{IsFitTable, AreFitSteps};
ghost use Rattle.sq_laws.specs.ReadAgain.{AreFit, RowsAreReadBack};
ghost use Rattle.sq_laws.specs.Examples.{two_rows, last_root};

/// What is written of families is read as the rows of a header, if a schema accepts these rows and
/// no two families have the same root key. In an input it comes after the plans and the sizes. The
/// header then has the rows of these families, each at its root key, and no others; what follows
/// them in the input is left unread.
pub fn rows_are_read_back()
    ensures { (tables : ℕ) (families : List FamilyValue) → AreFit tables families
        → RowsAreReadBack tables families }
{}

/// Such families exist: with several rows, with notes, and at the bounds of a number and of the
/// root keys.
pub fn some_families_are_fit()
    ensures { AreFit MAX_TABLES (two_rows ∷ last_root ∷ []) }
{}

/// Each world that a legal history leads to has such families, in stores and in chunks under way,
/// if the opening rows and the submitted transactions fit the schema.
pub fn a_history_leaves_fit_rows()
    ensures { (tables : ℕ) (o : OpeningValue) (t : Trace) (w : WorldValue)
        → IsOpening o → IsLegal o t → Holds o t w
        → IsFitTable tables (opening_rows o) → AreFitSteps tables t
        → AreFit tables (world_families w) }
{}

/// So has the world that a run of an input keeps, and what is written of its rows is read as these
/// rows.
pub fn rows_that_a_run_keeps_are_read_back()
    ensures fit { (given : List PieceValue) (w : WorldValue) → IsLedTo MAX_TABLES given w
        → AreFit MAX_TABLES (world_families w) }
    ensures read { (given : List PieceValue) (w : WorldValue) → IsLedTo MAX_TABLES given w
        → RowsAreReadBack MAX_TABLES (world_families w) }
{}
