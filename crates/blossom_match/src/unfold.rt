// Matches the members inside the sets, from the outermost ones inward.
ghost use Rattle.std.specs.Prelude.{◌≡◌, ◌≢◌, ℕ, ◌<◌, ◌≤◌, Some};
ghost use Rattle.blossom_match.specs.Table.{IsAsked};
ghost use Rattle.blossom_match.specs.Matching.{members};
ghost use Rattle.blossom_match.specs.Views.{holds, mate_at, child_at};
ghost use Rattle.blossom_match.specs.Between.{IsBetween, HasMate};
ghost use Rattle.blossom_match.specs.Turns.{top_of};
ghost use Rattle.blossom_match.specs.Unfolded.{IsUnfolded};
ghost use Rattle.blossom_match.specs.Unfolding.{IsUnfolding};

use crate::Costs;
use crate::cycle::open_cycle;
use crate::state::{Pair, State};

/// A child of the outermost set of a member.
fn child_of(costs: &Costs, state: &State, v: usize) -> usize
    requires so_far { IsUnfolding costs.now state.now }
    requires v_in { v < state.now.size }
    requires larger { state.now.size ≤ top_of state.now v }
    ensures { child_at state.now.child.items (top_of state.now v) ≡ Some result }
{
    match state.child[state.top[v]] {
        Some(first) => first,
        None => unreachable!(),
    }
}

/// The pair by which the outermost node of a member is matched.
fn pair_of(costs: &Costs, state: &State, v: usize) -> Pair
    requires so_far { IsUnfolding costs.now state.now }
    requires v_in { v < state.now.size }
    ensures { mate_at state.now.mate.items (top_of state.now v) ≡ Some result }
{
    match state.mate[state.top[v]] {
        Some(pair) => pair,
        None => unreachable!(),
    }
}

/// Matches the children of the outermost set of a member. The set stays, with its weight.
fn open_set(costs: &Costs, state: &mut State, v: usize)
    requires asked { IsAsked costs.now }
    requires so_far { IsUnfolding costs.now state.old }
    requires v_in { v < state.old.size }
    requires larger { state.old.size ≤ top_of state.old v }
    ensures so_far { IsUnfolding costs.now state.new }
    ensures size { state.new.size ≡ state.old.size }
    ensures fewer { members state.new.size (holds state.new.size state.new.held.items (top_of state.new v))
        < members state.old.size (holds state.old.size state.old.held.items (top_of state.old v)) }
    ensures others { (w : ℕ) → w < state.old.size → top_of state.old w ≢ top_of state.old v → top_of state.new w ≡ top_of state.old w }
{
    let first = child_of(costs, state, v);
    let pair = pair_of(costs, state, v);
    open_cycle(
        state.size,
        &state.held,
        &state.next,
        &state.link,
        &mut state.top,
        &mut state.mate,
        first,
        pair,
    );
}

/// Opens the sets that hold a member, one after another.
fn open_around(costs: &Costs, state: &mut State, v: usize)
    requires asked { IsAsked costs.now }
    requires so_far { IsUnfolding costs.now state.old }
    requires v_in { v < state.old.size }
    ensures so_far { IsUnfolding costs.now state.new }
    ensures size { state.new.size ≡ state.old.size }
    ensures single { top_of state.new v < state.old.size }
    ensures singles { (w : ℕ) → w < state.old.size → top_of state.old w < state.old.size → top_of state.new w < state.old.size }
{
    while state.top[v] >= state.size {
        open_set(costs, state, v);
    }
}

/// Matches member after member.
pub(crate) fn unfold(costs: &Costs, state: &mut State)
    requires asked { IsAsked costs.now }
    requires between { IsBetween costs.now state.old }
    requires all { (v : ℕ) → v < state.old.size → HasMate state.old v }
    ensures { IsUnfolded costs.now state.new }
{
    for v in 0..state.size {
        open_around(costs, state, v);
    }
}
