// Laws of the moves between two plans, and of segments and nodes.
ghost use Rattle.std.specs.Prelude.{◌≡◌, ◌↔◌, ℕ, ◌+◌, ◌*◌, ◌<◌, Some, true, false, IsTrue, slice_get};
ghost use Rattle.sq_schema.specs.declared.root.TheConstants.{ROOT_END};
ghost use Rattle.sq_plan.specs.declared.plan.TheConstants.{MAX_PARTS, MAX_RANGES};
ghost use Rattle.sq_plan.specs.declared.version.Stages.{Stages};
ghost use Rattle.sq_plan.specs.declared.version.Version.TheVariants.{First, Second};
ghost use Rattle.sq_plan.specs.Version.{parts_limit};
ghost use Rattle.sq_plan.specs.PlanValue.{PlanValue, IsPlan};
ghost use Rattle.sq_moves.specs.declared.recon.TheConstants.{MAX_WIDTH};
ghost use Rattle.sq_moves.specs.declared.segment.TheConstants.{SEGMENT_LIMIT};
ghost use Rattle.sq_moves.specs.declared.opening.TheConstants.{LOG_LIMIT, MIN_LIMIT, MAX_LIMIT, MAX_CAPACITY, MAX_WAITING};
ghost use Rattle.sq_moves.specs.Between.{segment_limit};
ghost use Rattle.sq_moves.specs.declared.node.TheConstants.{NODES, LEAVES};
ghost use Rattle.sq_moves.specs.Node.{is_node, is_leaf, is_above};
ghost use Rattle.sq_moves.specs.declared.recon.Range.{Range};
ghost use Rattle.sq_moves.specs.ReconValue.{ReconValue, IsRecon, segment_of, leaf_of, extent};
ghost use Rattle.sq_moves.specs.Moves.{AreTheMoves, moves_of};
ghost use Rattle.sq_moves.specs.Between.{IsReconOf};
ghost use Rattle.sq_moves.specs.Laws.{IsSegmentOf, LiesInSegment, Covers, LiesIn, AreHalves, AreNotNested, keys_of};

/// States the limits of plans, of moves and of waiting transactions as numbers.
pub fn the_limits()
    ensures parts { (parts_limit First ≡ 16)
        × ((stages : Stages) → parts_limit (Second stages) ≡ 64) × (MAX_PARTS ≡ 64) }
    ensures ranges { MAX_RANGES ≡ 256 }
    ensures segments { (segment_limit First ≡ 256)
        × ((stages : Stages) → segment_limit (Second stages) ≡ 1024)
        × (SEGMENT_LIMIT ≡ 1024) }
    ensures trees { (NODES ≡ 63) × (LEAVES ≡ 32) × (MAX_WIDTH ≡ 65536) }
    ensures chunks { (MIN_LIMIT ≡ 64) × (MAX_LIMIT ≡ 1048576) × (MAX_CAPACITY ≡ 64) }
    ensures waiting { (MAX_WAITING ≡ 1024) × (LOG_LIMIT ≡ 4096) }
{}

/// What moves between two plans is one list of ranges: the maximal runs of root keys that have the
/// same two owners, which differ.
pub fn two_plans_have_one_list_of_moves()
    ensures { (old new : PlanValue) → IsPlan old → IsPlan new
        → AreTheMoves old new (moves_of old new) }
{}

/// A root key that moves is in exactly one segment, from its old owner to its new one; any other
/// key keeps its owner.
pub fn each_key_that_moves_has_one_segment()
    ensures { (old new : PlanValue) (width : ℕ) (recon : ReconValue) (key : ℕ)
        → IsReconOf old new width recon
        → key < ROOT_END → IsSegmentOf old new recon.segments key (segment_of recon.segments key) }
{}

/// A node covers exactly the keys of its segment whose leaf it is above, and each leaf is one of
/// [`LEAVES`].
pub fn a_node_covers_the_keys_of_its_leaves()
    ensures leaf { (recon : ReconValue) (i key : ℕ) (segment : Range)
        → LiesInSegment recon key i segment → leaf_of recon.width segment key < LEAVES }
    ensures covers { (recon : ReconValue) (i key n : ℕ) (segment : Range)
        → LiesInSegment recon key i segment → Covers (extent recon.width segment n) key
        ↔ (is_above n (leaf_of recon.width segment key) ≡ true) }
{}

/// The keys of a node are in its segment, and node 1 covers all of it. The two halves of a node
/// make up the node, and two nodes that aren't nested share no key.
pub fn nodes_divide_their_segment()
    ensures inside { (recon : ReconValue) (i n : ℕ) (segment : Range) → IsRecon recon
        → slice_get recon.segments i ≡ Some segment
        → LiesIn (extent recon.width segment n) (keys_of segment) }
    ensures whole { (recon : ReconValue) (i : ℕ) (segment : Range) → IsRecon recon
        → slice_get recon.segments i ≡ Some segment
        → extent recon.width segment 1 ≡ keys_of segment }
    ensures halves { (width n : ℕ) (segment : Range) → IsTrue (is_node n) → is_leaf n ≡ false
        → AreHalves (extent width segment (2 * n)) (extent width segment (2 * n + 1))
        (extent width segment n) }
    ensures apart { (width n m key : ℕ) (segment : Range) → AreNotNested n m
        → Covers (extent width segment n) key → Covers (extent width segment m) key → ⊥ }
{}
