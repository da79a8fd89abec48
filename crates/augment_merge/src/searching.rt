// The search for the best join.
ghost use Rattle.std.specs.Prelude.{◌≡◌, ◌+◌, ◌≤◌, ◌<◌, length, IfOk};
ghost use Rattle.deadhead_paths.specs.Prices.{costs_of};
ghost use Rattle.augment_merge.specs.Outlines.{AreBestRows, AreOutlines, FindsBest, IsLinkSaving, IsOutline, IsPairJoin, IsRowJoin, IsWayJoin, StandsInRows, nth_outline};

use crate::joins::{Join, better};
use crate::outline::Outline;
use carp_base::{Instance, Memory};
use deadhead_paths::{Distances, least_prices_are_distances};
use std::alloc::Global;
use task_tours::least_cost;

// What it saves to go from one tour to the next, and not home and out again.
fn link_saving(inst: &Instance, dist: &Distances, a: Outline, b: Outline) -> u64
    requires problem { dist.now.problem ≡ inst.now }
    requires prices { dist.now.prices ≡ costs_of inst.now }
    requires first { IsOutline inst.now a }
    requires second { IsOutline inst.now b }
    ensures { IsLinkSaving inst.now a b result }
{
    least_prices_are_distances();
    a.home + b.out - least_cost(inst, dist, a.end, b.start)
}

// The join of two tours by their places, the earlier one first, either of them reversed or not, if it saves.
fn join_in_way(
    inst: &Instance,
    dist: &Distances,
    outlines: &[Outline],
    pair: (usize, usize),
    turns: (bool, bool),
) -> Option<Join>
    requires problem { dist.now.problem ≡ inst.now }
    requires prices { dist.now.prices ≡ costs_of inst.now }
    requires outlines { AreOutlines inst.now outlines.now }
    requires order { pair.0 < pair.1 }
    requires in_range { pair.1 < length outlines.now }
    requires first_used { 1 ≤ (nth_outline outlines.now pair.0).load }
    requires second_used { 1 ≤ (nth_outline outlines.now pair.1).load }
    requires fits { (nth_outline outlines.now pair.0).load + (nth_outline outlines.now pair.1).load ≤ inst.now.capacity }
    ensures { FindsBest (IsWayJoin inst.now outlines.now pair.0 pair.1 turns.0 turns.1) result }
{
    least_prices_are_distances();
    let (first, second) = pair;
    let (turn_first, turn_second) = turns;
    let a = outlines[first].oriented(turn_first);
    let b = outlines[second].oriented(turn_second);
    let saving = link_saving(inst, dist, a, b);
    if saving == 0 {
        return None;
    }
    Some(Join {
        first,
        second,
        turn_first,
        turn_second,
        saving,
    })
}

// The best join of two tours, the earlier one first, or none if none saves.
pub(crate) fn best_of_pair(
    inst: &Instance,
    dist: &Distances,
    outlines: &[Outline],
    first: usize,
    second: usize,
) -> Option<Join>
    requires problem { dist.now.problem ≡ inst.now }
    requires prices { dist.now.prices ≡ costs_of inst.now }
    requires outlines { AreOutlines inst.now outlines.now }
    requires order { first < second }
    requires in_range { second < length outlines.now }
    ensures { FindsBest (IsPairJoin inst.now outlines.now first second) result }
{
    let (a, b) = (outlines[first].load, outlines[second].load);
    if a == 0 || b == 0 || a + b > inst.capacity() {
        return None;
    }
    let pair = (first, second);
    let ahead = better(
        join_in_way(inst, dist, outlines, pair, (false, false)),
        join_in_way(inst, dist, outlines, pair, (false, true)),
    );
    let turned = better(
        join_in_way(inst, dist, outlines, pair, (true, false)),
        join_in_way(inst, dist, outlines, pair, (true, true)),
    );
    better(ahead, turned)
}

// The best join of a tour with a later one, or none if none saves.
pub(crate) fn best_of_row(
    inst: &Instance,
    dist: &Distances,
    outlines: &[Outline],
    first: usize,
) -> Option<Join>
    requires problem { dist.now.problem ≡ inst.now }
    requires prices { dist.now.prices ≡ costs_of inst.now }
    requires outlines { AreOutlines inst.now outlines.now }
    requires in_range { first < length outlines.now }
    ensures { FindsBest (IsRowJoin inst.now outlines.now first (length outlines.now)) result }
{
    let mut best = None;
    for second in first + 1..outlines.len() {
        best = better(best, best_of_pair(inst, dist, outlines, first, second));
    }
    best
}

// The best join of each tour with a later one.
pub(crate) fn best_rows(
    alloc: Global,
    inst: &Instance,
    dist: &Distances,
    outlines: &[Outline],
) -> Result<Vec<Option<Join>>, Memory>
    requires problem { dist.now.problem ≡ inst.now }
    requires prices { dist.now.prices ≡ costs_of inst.now }
    requires outlines { AreOutlines inst.now outlines.now }
    ensures { IfOk result (λ rows. AreBestRows inst.now outlines.now rows.items) }
{
    let mut rows = Vec::new(alloc);
    for first in 0..outlines.len() {
        rows.push(best_of_row(inst, dist, outlines, first))?;
    }
    Ok(rows)
}

// That of the joins that goes first.
pub(crate) fn first_of(rows: &[Option<Join>]) -> Option<Join>
    ensures { FindsBest (StandsInRows rows.now (length rows.now)) result }
{
    let mut best = None;
    for &row in rows {
        best = better(best, row);
    }
    best
}
