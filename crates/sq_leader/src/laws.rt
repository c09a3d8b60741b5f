// Laws of what the partitions report to the leader.
ghost use Rattle.std.specs.Prelude.{◌≡◌, ℕ, ◌==◌, ◌&&◌, nat_lt, true, List, length};
ghost use Rattle.std.specs.List.{list_any, list_all, range_with_len};
ghost use Rattle.sq_moves.specs.Prelude.{ReconValue, IsRecon};
ghost use Rattle.sq_leader.specs.LeaderValue.{StageValue};
ghost use Rattle.sq_leader.specs.Marks.{is_marked, all_marked, marks_after};
ghost use Rattle.sq_leader.specs.Segments.{have_reported, stage_after, counts_as_reported, owes_no_report};
ghost use Rattle.sq_leader.specs.Calls.{Call, EndsHeard};

/// Exactly those partitions are marked that exist and informed the leader, in any order and any
/// number of times.
pub fn those_that_told_it_are_marked()
    ensures { (parts : ℕ) (told : List ℕ) (part : ℕ)
        → is_marked (marks_after parts told) part
        ≡ (list_any (λ one. one == part) told && nat_lt part parts) }
{}

/// A move can start exactly if each of its partitions has prepared.
pub fn a_move_starts_once_each_partition_prepared()
    ensures { (parts : ℕ) (told : List ℕ) → all_marked (marks_after parts told)
        ≡ list_all (λ part. list_any (λ one. one == part) told) (range_with_len 0 parts) }
{}

/// A stage can be left exactly if, for each of its segments, the partition that it moves into has
/// reported.
pub fn a_stage_is_over_once_each_segment_of_it_is_reported()
    ensures { (recon : ReconValue) (stage parts : ℕ) (told : List ℕ)
        → have_reported (stage_after recon stage parts told)
        ≡ list_all (counts_as_reported recon stage parts told) recon.segments }
{}

/// If each segment moves into one of the partitions, a stage can be left exactly if each partition
/// counts as reported.
pub fn a_partition_without_segments_counts_as_reported()
    ensures { (at : StageValue) → list_all
        (λ segment. nat_lt segment.dst (length at.reported)) at.recon.segments ≡ true
        → have_reported at ≡ list_all (owes_no_report at) (range_with_len 0 (length at.reported)) }
{}

/// Whatever reports a leader hears, and however often the next stage is asked for, the move ends
/// only after a report for every segment: one of the partition that it moves into, made and heard
/// in the segment's stage.
pub fn an_ended_move_heard_each_segment_in_its_stage()
    ensures { (parts : ℕ) (recon : ReconValue) (calls : List Call) → IsRecon recon
        → EndsHeard parts recon calls }
{}
