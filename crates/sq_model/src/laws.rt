// Laws of the definitions: worked examples, which the checker computes; two limits; what every
// legal history keeps; and that each refusal has a meaning.
ghost use Rattle.std.specs.Prelude.{◌≡◌, ◌≢◌, ℕ, [], length, Contains, false, true, Some, is_some, pos};
ghost use Rattle.sq_explain.specs.Meanings.{meaning_of};
ghost use Rattle.sq_schema.specs.Prelude.{TxnValue, rows_of};
ghost use Rattle.sq_moves.specs.Prelude.{OpeningValue, IsOpening, stage_on};
ghost use Rattle.sq_model.specs.Trace.{Trace, stage, notes, loads, link};
ghost use Rattle.sq_model.specs.Tables.{IsFoldedRoot, now, stands, family_of};
ghost use Rattle.sq_model.specs.Leader.{phase};
ghost use Rattle.sq_model.specs.declared.answer.Refusal.{Refusal};
ghost use Rattle.sq_model.specs.Refusal.{refusal_number};
ghost use Rattle.sq_model.specs.Place.{At, place, destination, runner, is_coming};
ghost use Rattle.sq_model.specs.Waiting.{waiting};
ghost use Rattle.sq_model.specs.Answers.{answer};
ghost use Rattle.sq_model.specs.Legal.{IsLegal, answers, after};
ghost use Rattle.sq_model.specs.Laws.{FindsFullLog, FindsCrowd};
ghost use Rattle.sq_model.specs.Orderly.{IsOrderly, CoverOnce};
ghost use Rattle.sq_model.specs.Staged.{TellsAlone, since};
ghost use Rattle.sq_model.specs.WorkedStages.{two_stages, in_stages, in_stages_answers};
ghost use Rattle.sq_model.specs.Worked.{one_row, whole_path, whole_path_answers, given_up, given_up_answers, begun_again, begun_again_answers, two_families, two_chunks, two_chunks_answers, large_family, large_chunk, large_chunk_answers, three_families, full_link, full_link_answers, out_of_order, out_of_order_answers, waits_for_rows, waits_for_rows_answers, too_soon, too_soon_answers, resumed_in_order, resumed_in_order_answers, claimed_whole, claimed_whole_answers, claimed_half, claimed_half_answers, split_too_low, split_too_low_answers, empty_leaf, empty_leaf_answers, read_nodes, read_nodes_answers, wide_link, reactive_first, reactive_first_answers, row, folded_twice, folded_twice_answers, folded_early, folded_early_answers};

use crate::answer::{Answer, Refusal};
use crate::step::{Phase, Step};

/// The shortest whole path: the keys 4 to 7 move, and the row is read at its new place.
pub fn moves_four_keys()
    ensures { answers one_row [] whole_path ≡ whole_path_answers }
{}

/// The source runs transactions until it gives a node up, and none after that.
pub fn gives_up_once_begun()
    ensures { answers one_row [] given_up ≡ given_up_answers }
{}

/// A node is begun once, by the pull that claimed it.
pub fn begins_once()
    ensures { answers one_row [] begun_again ≡ begun_again_answers }
{}

/// A chunk holds as many families as fit, and ends at the first one that doesn't.
pub fn cuts_by_size()
    ensures { answers two_families [] two_chunks ≡ two_chunks_answers }
{}

/// A family larger than a chunk moves alone.
pub fn cuts_a_large_family()
    ensures { answers large_family [] large_chunk ≡ large_chunk_answers }
{}

/// A full link takes no chunk, and nothing is cut while a chunk waits for the link.
pub fn waits_for_the_link()
    ensures { answers three_families [] full_link ≡ full_link_answers }
{}

/// Steps in the wrong order, or with wrong numbers, are refused.
pub fn refuses_out_of_order()
    ensures { answers one_row [] out_of_order ≡ out_of_order_answers }
{}

/// A transaction waits at the destination for its rows, and is forwarded by a partition that is
/// neither its source nor its destination.
pub fn waits_for_its_rows()
    ensures { answers one_row [] waits_for_rows ≡ waits_for_rows_answers }
{}

/// Nothing is completed, reported or finished before its rows are loaded.
pub fn refuses_too_soon()
    ensures { answers one_row [] too_soon ≡ too_soon_answers }
{}

/// Waiting transactions run in their order of arrival, once their rows are loaded.
pub fn resumes_in_order()
    ensures { answers one_row [] resumed_in_order ≡ resumed_in_order_answers }
{}

/// A claimed node can't be split.
pub fn splits_no_claimed_node()
    ensures { answers one_row [] claimed_whole ≡ claimed_whole_answers }
{}

/// A split node can't be claimed, but its halves can.
pub fn claims_halves()
    ensures { answers one_row [] claimed_half ≡ claimed_half_answers }
{}

/// No node below an unsplit node can be claimed or split, and no leaf can be split.
pub fn splits_from_the_top()
    ensures { answers one_row [] split_too_low ≡ split_too_low_answers }
{}

/// A node without keys moves in one empty chunk.
pub fn moves_an_empty_node()
    ensures { answers one_row [] empty_leaf ≡ empty_leaf_answers }
{}

/// A split node has the common reading of its halves, and a node that isn't live has that of the
/// live node above it.
pub fn reads_by_halves()
    ensures { answers one_row [] read_nodes ≡ read_nodes_answers }
{}

/// What a reactive pull asked for is cut before the rest of what an asynchronous pull asked for.
pub fn cuts_reactive_first()
    ensures { answers wide_link [] reactive_first ≡ reactive_first_answers }
{}

/// A move in two stages: segments and links of the other stage are refused, a root key of the later
/// stage is still run by its source, and each stage ends once its reports have come.
pub fn moves_in_stages()
    ensures { answers two_stages [] in_stages ≡ in_stages_answers }
{}

/// Whatever the steps: those since the last successful Next determine where each root key is, which
/// partition runs it, and the statuses, notes and loads of the running stage, if the new owner of a
/// root key that moved in an earlier stage counts as its owner.
pub fn tells_by_stage()
    ensures { (o : OpeningValue) (t : Trace) → IsOpening o → IsLegal o t → TellsAlone o t }
{}

/// Whatever the steps: those since the last successful Next are in order on their own, and none of
/// their notes is of a link of another stage.
pub fn moves_in_order_by_stage()
    ensures order { (o : OpeningValue) (t : Trace) → IsOpening o → IsLegal o t
        → IsOrderly o (since t) }
    ensures links { (o : OpeningValue) (t : Trace) (src dst : ℕ) → IsOpening o → IsLegal o t
        → stage_on o.recon src dst ≢ stage t
        → (link src dst (notes (since t)) ≡ []) × (link src dst (loads (since t)) ≡ []) }
{}

/// Whatever the steps: a transaction that waits at a partition, and whose rows aren't on their way
/// there, is run by that partition.
pub fn runs_waiters_where_they_wait()
    ensures { (o : OpeningValue) (t : Trace) (part : ℕ) (txn : TxnValue) → IsOpening o → IsLegal o t
        → Contains (waiting o t part) txn → is_coming o t part txn.root ≡ false
        → runner o t txn.root ≡ Some part }
{}

/// A family whose log was folded starts from its rows; a family without rows is dropped.
pub fn folds_logs()
    ensures answers { answers one_row [] folded_twice ≡ folded_twice_answers }
    ensures family { family_of one_row (after one_row [] folded_twice) 5
        ≡ record { root = 5; base = row (pos 11); log = [] } }
    ensures gone { stands one_row (after one_row [] folded_twice) 6 ≡ false }
{}

/// Logs are folded only after the reconfiguration has ended.
pub fn folds_only_at_the_end()
    ensures { answers one_row [] folded_early ≡ folded_early_answers }
{}

/// A full log takes no further transaction, whatever came before.
pub fn refuses_at_a_full_log()
    ensures { (o : OpeningValue) (t : Trace) (part : ℕ) (txn : TxnValue)
        → FindsFullLog o t part txn.root
        → answer o t (Step.Submit part txn) ≡ Answer.Refused Refusal.LogFull }
{}

/// However often logs were folded: the committed transactions on a root key are those that made the
/// rows its log starts from, followed by its log. So its family's rows are those of the one table.
pub fn folds_lose_nothing()
    ensures folded { (o : OpeningValue) (t : Trace) (root : ℕ) → IsFoldedRoot o t root }
    ensures rows { (o : OpeningValue) (t : Trace) (root : ℕ)
        → rows_of (family_of o t root) ≡ now o t root }
{}

/// If the most transactions that may wait are waiting, a further one is refused, whatever came
/// before.
pub fn refuses_a_crowd()
    ensures { (o : OpeningValue) (t : Trace) (part : ℕ) (txn : TxnValue)
        → FindsCrowd o t part txn.root
        → answer o t (Step.Submit part txn) ≡ Answer.Refused Refusal.WaitFull }
{}

/// Whatever the steps: for each root key, at most one of the notes that were cut covers it, and at
/// most one of those that were loaded.
pub fn moves_each_key_once()
    ensures cut { (o : OpeningValue) (t : Trace) → IsOpening o → IsLegal o t → CoverOnce (notes t) }
    ensures loaded { (o : OpeningValue) (t : Trace) → IsOpening o → IsLegal o t
        → CoverOnce (loads t) }
{}

/// Whatever the steps: each family of a range that moves is cut at most once and loaded at most
/// once, in the order in which its link numbered it, and nothing of a complete node moves.
pub fn moves_in_order()
    ensures { (o : OpeningValue) (t : Trace) → IsOpening o → IsLegal o t → IsOrderly o t }
{}

/// Once the move has ended, the family of each root key is where the new plan places it.
pub fn ends_where_planned()
    ensures { (o : OpeningValue) (t : Trace) (root : ℕ) → IsOpening o → IsLegal o t
        → phase t ≡ Phase.Ended
        → place o t root ≡ At (destination o root) }
{}

/// The table of numbers has every refusal.
pub fn each_refusal_has_a_meaning()
    ensures { (refusal : Refusal) → is_some (meaning_of (refusal_number refusal)) ≡ true }
{}
