//! Consequences of the definitions. The functions do nothing: each states a law, which the checker
//! proves.
ghost use Rattle.std.specs.Prelude.{◌≡◌, ◌↔◌, ◌+◌, ◌^◌, ℕ, List, IsTrue, [], ◌∷◌, ◌++◌, pos, Some, None};
ghost use Rattle.sq_schema.specs.declared.txn.OpAnswer.TheVariants.{Found, Number, Done};
ghost use Rattle.sq_schema.specs.declared.txn.Cause.TheVariants.{Absent, Small, Range, NoRoot, Children};
ghost use Rattle.sq_schema.specs.declared.txn.Reply.TheVariants.{Committed, Aborted};
ghost use Rattle.sq_schema.specs.declared.txn.Reply.{Reply};
ghost use Rattle.sq_rows.specs.Equal.{rows_eq};
ghost use Rattle.sq_rows.specs.declared.row.TheConstants.{MAX_NOTE};
ghost use Rattle.sq_schema.specs.declared.schema.TheConstants.{MAX_TABLES};
ghost use Rattle.sq_schema.specs.declared.root.TheConstants.{ROOT_END};
ghost use Rattle.sq_schema.specs.declared.txn.TheConstants.{MAX_OPS};
ghost use Rattle.sq_schema.specs.declared.family.TheConstants.{MAX_LOG};
ghost use Rattle.sq_schema.specs.Equal.Txns.{txn_eq};
ghost use Rattle.sq_schema.specs.Equal.Replies.{reply_eq};
ghost use Rattle.sq_schema.specs.TxnValue.{TxnValue};
ghost use Rattle.sq_rows.specs.RowList.{RowList, root_key};
ghost use Rattle.sq_schema.specs.Effect.{RowTable, reply, effect, replay, replay_rows, only};
ghost use Rattle.sq_schema.specs.Examples.{ten, plain, hi, key, adds_largest, deletes_parent, puts_child, checks, deletes_absent, puts_and_adds, adds_one, gets_and_deletes, gets};

/// States the limits of rows and transactions as numbers.
pub fn the_limits()
    ensures rows { (MAX_TABLES ≡ 8) × (MAX_NOTE ≡ 255) × (ROOT_END ≡ 4294967296) }
    ensures transactions { (MAX_OPS ≡ 64) × (MAX_LOG + 1 ≡ 2 ^ 64) }
{}

/// States replies of transactions on a root row of 10 and on no rows, each worked out by hand.
pub fn worked_replies()
    ensures range { reply ten adds_largest ≡ Aborted 0 Range }
    ensures children { reply ten deletes_parent ≡ Aborted 1 Children }
    ensures no_root { reply [] puts_child ≡ Aborted 0 NoRoot }
    ensures small { reply ten (checks 11) ≡ Aborted 0 Small }
    ensures equal { reply ten (checks 10) ≡ Committed (Done ∷ []) }
    ensures absent { reply ten deletes_absent ≡ Aborted 0 Absent }
    ensures commit { reply ten puts_and_adds
        ≡ Committed (Done ∷ Found (Some hi) ∷ Found None ∷ Number (pos 7) ∷ []) }
    ensures rows { effect ten puts_and_adds ≡ (root_key, plain (pos 7)) ∷ (key 1 7, hi) ∷ [] }
    ensures kept { effect ten deletes_parent ≡ ten }
    ensures no_row { reply [] adds_one ≡ Aborted 0 Absent }
    ensures second { reply [] gets_and_deletes ≡ Aborted 1 Absent }
    ensures none { reply [] gets ≡ Committed (Found None ∷ []) }
{}

/// The rows of a root key after transactions on a table are the replay of that key's own
/// transactions on its rows.
pub fn replays_by_root()
    ensures { (table : RowTable) (txns : List TxnValue) (root : ℕ)
        → replay table txns root ≡ replay_rows (table root) (only root txns) }
{}

/// Rows, transactions and replies compare as equal exactly if they are one value.
pub fn equal_values_are_one()
    ensures rows { (rows others : RowList) → IsTrue (rows_eq rows others) ↔ (rows ≡ others) }
    ensures txns { (txn other : TxnValue) → IsTrue (txn_eq txn other) ↔ (txn ≡ other) }
    ensures replies { (reply other : Reply) → IsTrue (reply_eq reply other) ↔ (reply ≡ other) }
{}
