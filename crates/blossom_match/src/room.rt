// How far the weights of a tree can be raised, and what stops them.
ghost use Rattle.std.specs.Prelude.{◌≡◌, ◌≢◌, ◌⊎◌, ℕ, ◌+◌, ◌*◌, ◌<◌, ◌≤◌, length, IfSome};
ghost use Rattle.blossom_match.specs.Table.{cost, IsAsked, IsTable};
ghost use Rattle.blossom_match.specs.Between.{IsSearching};
ghost use Rattle.blossom_match.specs.Turns.{Happens, top_of, sum_of, label_of};
ghost use Rattle.blossom_match.specs.Rooms.{IsLess, IsNodeTurn, IsNoMore, KeepsNode, KeepsPair};

use crate::Costs;
use crate::state::{Label, State};

/// What stops the weights.
#[derive(Clone, Copy)]
pub(crate) enum Event {
    /// A tight pair from an outer node to one that is not in the tree.
    Reach(usize, usize),
    /// A tight pair between two outer nodes.
    Meet(usize, usize),
    /// An inner node of weight 0.
    Spent(usize),
}

/// By how much the weights can be raised, and what happens then.
#[derive(Clone, Copy)]
pub(crate) struct Turn {
    pub amount: u64,
    pub event: Event,
}

/// Twice the cost of a pair in two outermost nodes, less the weights of the sets that separate it.
pub(crate) fn room(costs: &Costs, state: &State, u: usize, v: usize) -> u64
    requires table { IsTable costs.now }
    requires size { state.now.size ≡ costs.now.size }
    requires sums { length state.now.sums.items ≡ state.now.size }
    requires u_in { u < state.now.size }
    requires v_in { v < state.now.size }
    requires packs { sum_of state.now u + sum_of state.now v ≤ 2 * cost costs.now u v }
    ensures { sum_of state.now u + sum_of state.now v + result ≡ 2 * cost costs.now u v }
{
    2 * costs.between(u, v) - state.sums[u] - state.sums[v]
}

/// The amount by which a pair with an outer node stops the weights, if it does.
fn outer_turn(costs: &Costs, state: &State, u: usize, v: usize) -> Option<Turn>
    requires asked { IsAsked costs.now }
    requires searching { IsSearching costs.now state.now }
    requires u_in { u < state.now.size }
    requires v_in { v < state.now.size }
    requires apart { top_of state.now u ≢ top_of state.now v }
    requires outer { label_of state.now (top_of state.now u) ≡ Label.Outer }
    ensures keeps { KeepsPair costs.now state.now result u v }
    ensures happens { IfSome result (λ t. Happens costs.now state.now t.amount t.event) }
{
    match state.label[state.top[v]] {
        Label::Outer => Some(Turn {
            amount: room(costs, state, u, v) / 2,
            event: Event::Meet(u, v),
        }),
        Label::Free => Some(Turn {
            amount: room(costs, state, u, v),
            event: Event::Reach(u, v),
        }),
        Label::Inner => None,
    }
}

/// The amount by which a pair stops the weights, if it does.
fn pair_turn(costs: &Costs, state: &State, u: usize, v: usize) -> Option<Turn>
    requires asked { IsAsked costs.now }
    requires searching { IsSearching costs.now state.now }
    requires u_in { u < state.now.size }
    requires v_in { v < state.now.size }
    ensures keeps { KeepsPair costs.now state.now result u v }
    ensures happens { IfSome result (λ t. Happens costs.now state.now t.amount t.event) }
{
    if state.top[u] == state.top[v] {
        return None;
    }
    match state.label[state.top[u]] {
        Label::Outer => outer_turn(costs, state, u, v),
        _ => None,
    }
}

/// The amount by which a node stops the weights, if it does.
fn node_turn(state: &State, s: usize) -> Option<Turn>
    requires s_in { s < 2 * state.now.size }
    requires label_len { length state.now.label.items ≡ 2 * state.now.size }
    requires halves_len { length state.now.halves.items ≡ 2 * state.now.size }
    ensures keeps { KeepsNode state.now result s }
    ensures node { IfSome result (IsNodeTurn state.now) }
{
    match state.label[s] {
        Label::Inner => Some(Turn {
            amount: state.halves[s],
            event: Event::Spent(s),
        }),
        _ => None,
    }
}

/// The turn of the lesser amount, and the first if they are equal.
pub(crate) fn lesser(a: Option<Turn>, b: Option<Turn>) -> Option<Turn>
    ensures one { (result ≡ a) ⊎ ((result ≡ b) × IsLess b a) }
    ensures first { IsNoMore result a }
    ensures second { IsNoMore result b }
{
    match (a, b) {
        (Some(a), Some(b)) => Some(if b.amount < a.amount { b } else { a }),
        (None, b) => b,
        (a, None) => a,
    }
}

/// The least amount by which a pair of an outer member with this one stops the weights.
pub(crate) fn least_pair_to(costs: &Costs, state: &State, v: usize) -> Option<Turn>
    requires asked { IsAsked costs.now }
    requires searching { IsSearching costs.now state.now }
    requires v_in { v < state.now.size }
    ensures keeps { (u : ℕ) → u < state.now.size → KeepsPair costs.now state.now result u v }
    ensures happens { IfSome result (λ t. Happens costs.now state.now t.amount t.event) }
{
    let mut least = None;
    for u in 0..state.size {
        least = lesser(least, pair_turn(costs, state, u, v));
    }
    least
}

/// The least amount by which a node stops the weights.
pub(crate) fn least_node(state: &State) -> Option<Turn>
    requires size { state.now.size ≤ 1000 }
    requires label_len { length state.now.label.items ≡ 2 * state.now.size }
    requires halves_len { length state.now.halves.items ≡ 2 * state.now.size }
    ensures keeps { (s : ℕ) → s < 2 * state.now.size → KeepsNode state.now result s }
    ensures node { IfSome result (IsNodeTurn state.now) }
{
    let mut least = None;
    for s in 0..2 * state.size {
        least = lesser(least, node_turn(state, s));
    }
    least
}
