// The runs of keys that move between two plans, in key order.
ghost use Rattle.std.specs.Prelude.{◌≡◌, ℕ, ◌<◌, ◌≤◌, List, MatchOption, OnSome, ◌∷◌, []};
ghost use Rattle.sq_moves.specs.declared.recon.Range.{Range};
ghost use Rattle.sq_moves.specs.Moves.{moves_of};
ghost use Rattle.sq_plan.specs.PlanValue.{PlanValue, IsPlan};
ghost use Rattle.sq_moves.specs.Sweep.{past, piece_of, left, HasAhead, Reaches, EndsAt};

use crate::recon::Range;
use sq_plan::{Plan, PlanRange};

/// The rest of two plans from a key on: their ranges that end after it.
#[derive(Clone, Copy)]
pub(crate) struct Sweep<'a> {
    at: u64,
    olds: &'a [PlanRange],
    news: &'a [PlanRange],
}

impl<'a> Sweep<'a> {
    /// Starts at the first key of both plans.
    pub(crate) fn new(old: &'a Plan, new: &'a Plan) -> Sweep<'a>
        ensures moves { HasAhead result (moves_of old.now new.now) }
        ensures plans { IsPlan old.now × IsPlan new.now }
    {
        Sweep {
            at: 0,
            olds: old.ranges(),
            news: new.ranges(),
        }
    }

    /// Returns the next maximal run of keys that move; the sweep continues after it. `None` if no
    /// more keys move.
    pub(crate) fn next_run(&mut self) -> Option<Range>
        ensures next { (runs : List Range) → HasAhead self.old runs
            → MatchOption result (runs ≡ []) (λ run. (rest : List Range) × (runs ≡ run ∷ rest)
            × HasAhead self.new rest) }
        ensures fewer { OnSome result (left self.new < left self.old) }
    {
        while let Some(piece) = self.piece() {
            self.skip_to(piece.hi);
            if piece.src != piece.dst {
                return Some(self.extended(piece));
            }
        }
        None
    }

    // Extends a run that ends at the sweep's place by the next pieces with the same owners. The
    // sweep is then at the end of the run.
    fn extended(&mut self, mut run: Range) -> Range
        ensures whole { (old new : PlanValue) (from : ℕ) → Reaches old new from self.old run
            → EndsAt old new from self.new result }
        ensures fewer { left self.new ≤ left self.old }
    {
        while let Some(piece) = self.piece() {
            if piece.src != run.src || piece.dst != run.dst {
                return run;
            }
            self.skip_to(piece.hi);
            run.hi = piece.hi;
        }
        run
    }

    // Returns the keys from here on that one range of each plan holds.
    fn piece(&self) -> Option<Range>
        ensures { result ≡ piece_of self.now.at self.now.olds.now self.now.news.now }
    {
        let one = self.olds.first()?;
        let other = self.news.first()?;
        Some(Range {
            lo: self.at,
            hi: one.hi.min(other.hi),
            src: one.owner,
            dst: other.owner,
        })
    }

    // Continues at the key `at`; no range ends before it.
    fn skip_to(&mut self, at: u64)
        ensures at { self.new.at ≡ at }
        ensures olds { self.new.olds.now ≡ past self.old.olds.now at }
        ensures news { self.new.news.now ≡ past self.old.news.now at }
    {
        self.at = at;
        self.olds = past(self.olds, at);
        self.news = past(self.news, at);
    }
}

// Returns the ranges without the first, if that ends at the key `at`.
fn past(ranges: &[PlanRange], at: u64) -> &[PlanRange]
    ensures { result.now ≡ past ranges.now at }
{
    match ranges {
        [first, rest @ ..] if first.hi == at => rest,
        _ => ranges,
    }
}
