// The best joins after one was made.
ghost use Rattle.std.specs.Prelude.{◌≡◌, ◌<◌, false, length};
ghost use Rattle.deadhead_paths.specs.Prices.{costs_of};
ghost use Rattle.augment_merge.specs.Outlines.{AreBestRows, AreOutlines, AreRenewable, FindsBest, IsFresh, IsOldJoin, IsRowJoin, nth_outline};

use crate::joins::{Join, better};
use crate::outline::Outline;
use crate::searching::{best_of_pair, best_of_row};
use carp_base::Instance;
use deadhead_paths::Distances;

// Whether the tour or its partner is one of the two that were joined.
fn is_stale(made: &Join, first: usize, row: Option<Join>) -> bool
    ensures { result ≡ false → IsFresh made.now first row }
{
    let joined = |place: usize| place == made.first || place == made.second;
    joined(first) || row.is_some_and(|join| joined(join.second))
}

// The best join of a tour with a later one, after a join was made. Before, it was `row`.
fn renewed(
    inst: &Instance,
    dist: &Distances,
    outlines: &[Outline],
    made: &Join,
    first: usize,
    row: Option<Join>,
) -> Option<Join>
    requires problem { dist.now.problem ≡ inst.now }
    requires prices { dist.now.prices ≡ costs_of inst.now }
    requires outlines { AreOutlines inst.now outlines.now }
    requires in_range { first < length outlines.now }
    requires order { made.now.first < made.now.second }
    requires made_in { made.now.second < length outlines.now }
    requires emptied { (nth_outline outlines.now made.now.second).load ≡ 0 }
    requires fresh { IsFresh made.now first row → FindsBest (IsOldJoin inst.now outlines.now made.now first) row }
    ensures { FindsBest (IsRowJoin inst.now outlines.now first (length outlines.now)) result }
{
    if is_stale(made, first, row) {
        return best_of_row(inst, dist, outlines, first);
    }
    if first < made.first {
        return better(row, best_of_pair(inst, dist, outlines, first, made.first));
    }
    row
}

// Brings the best joins of all tours up to date, after a join was made.
pub(crate) fn renew(
    inst: &Instance,
    dist: &Distances,
    outlines: &[Outline],
    made: &Join,
    rows: &mut [Option<Join>],
)
    requires problem { dist.now.problem ≡ inst.now }
    requires prices { dist.now.prices ≡ costs_of inst.now }
    requires outlines { AreOutlines inst.now outlines.now }
    requires rows { AreRenewable inst.now outlines.now made.now rows.old }
    ensures { AreBestRows inst.now outlines.now rows.new }
{
    for first in 0..rows.len() {
        rows[first] = renewed(inst, dist, outlines, made, first, rows[first]);
    }
}
