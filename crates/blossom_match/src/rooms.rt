// The least room, by bounds that are kept from turn to turn: for each member a lower bound of its rooms to the outer members
// that are known. A raise lowers it as it lowers the rooms; an outer member that is new lowers it to its own room. Where nodes
// are joined, a bound may be below each room that is left: it is found anew once it is the least.
ghost use Rattle.std.specs.Prelude.{◌≡◌, ◌≢◌, ℕ, ◌+◌, ◌*◌, ◌<◌, ◌≤◌, true, false, length, slice_index, slice_index_or, IsSomeAnd, IfSome};
ghost use Rattle.blossom_match.specs.Table.{cost, IsAsked};
ghost use Rattle.blossom_match.specs.Views.{label_at};
ghost use Rattle.blossom_match.specs.Between.{IsSearching};
ghost use Rattle.blossom_match.specs.Turns.{Happens, IsLawful, top_of, sum_of, label_of};
ghost use Rattle.blossom_match.specs.Rooms.{AllKnown, AreRooms, IsBoundBy, IsBounded, IsNoMore, KeepsPair, fallen};

use crate::Costs;
use crate::room::{Turn, least_node, least_pair_to, lesser, room};
use crate::state::{Label, State};

/// No member is known.
pub(crate) fn forget_all(known: &mut [bool])
    ensures { (u : ℕ) → slice_index_or known.new u false ≡ false }
{
    for u in 0..known.len() {
        known[u] = false;
    }
}

/// No bound is known.
pub(crate) fn forget_bounds(least: &mut [u64]) {
    for v in 0..least.len() {
        least[v] = u64::MAX;
    }
}

/// A bound, and no more than the room of a pair of two nodes.
fn bound_with(costs: &Costs, state: &State, u: usize, v: usize, bound: u64) -> u64
    requires asked { IsAsked costs.now }
    requires searching { IsSearching costs.now state.now }
    requires u_in { u < state.now.size }
    requires v_in { v < state.now.size }
    ensures less { result ≤ bound }
    ensures low { top_of state.now u ≢ top_of state.now v → sum_of state.now u + sum_of state.now v + result ≤ 2 * cost costs.now u v }
{
    if state.top[u] == state.top[v] {
        return bound;
    }
    let room = room(costs, state, u, v);
    if room < bound { room } else { bound }
}

/// Lowers the bounds to the rooms of one outer member.
fn lower_to(costs: &Costs, state: &State, u: usize, least: &mut [u64])
    requires asked { IsAsked costs.now }
    requires searching { IsSearching costs.now state.now }
    requires u_in { u < state.now.size }
    requires len { length least.old ≡ state.now.size }
    ensures less { (v : ℕ) → v < state.now.size → slice_index least.new v ≤ slice_index least.old v }
    ensures low { (v : ℕ) → v < state.now.size → top_of state.now u ≢ top_of state.now v → sum_of state.now u + sum_of state.now v + slice_index least.new v ≤ 2 * cost costs.now u v }
{
    for v in 0..least.len() {
        least[v] = bound_with(costs, state, u, v, least[v]);
    }
}

/// Whether a member is outer, and not known.
fn is_new(state: &State, u: usize, known: &[bool]) -> bool
    requires u_in { u < state.now.size }
    requires tops { length state.now.top.items ≡ state.now.size }
    requires top_in { top_of state.now u < length state.now.label.items }
    requires known_len { length known.now ≡ state.now.size }
    ensures outer { result ≡ true → label_of state.now (top_of state.now u) ≡ Label.Outer }
    ensures known { result ≡ false → label_of state.now (top_of state.now u) ≡ Label.Outer → slice_index_or known.now u false ≡ true }
{
    state.label[state.top[u]] == Label::Outer && !known[u]
}

/// Makes an outer member known.
fn learn(costs: &Costs, state: &State, u: usize, known: &mut [bool], least: &mut [u64])
    requires asked { IsAsked costs.now }
    requires searching { IsSearching costs.now state.now }
    requires u_in { u < state.now.size }
    requires rooms { AreRooms costs.now state.now known.old least.old }
    ensures rooms { AreRooms costs.now state.now known.new least.new }
    ensures keeps { (w : ℕ) → slice_index_or known.old w false ≡ true → slice_index_or known.new w false ≡ true }
    ensures learnt { label_of state.now (top_of state.now u) ≡ Label.Outer → slice_index_or known.new u false ≡ true }
{
    if is_new(state, u, known) {
        lower_to(costs, state, u, least);
        known[u] = true;
    }
}

/// Makes all outer members known.
fn learn_all(costs: &Costs, state: &State, known: &mut [bool], least: &mut [u64])
    requires asked { IsAsked costs.now }
    requires searching { IsSearching costs.now state.now }
    requires rooms { AreRooms costs.now state.now known.old least.old }
    ensures rooms { AreRooms costs.now state.now known.new least.new }
    ensures all { AllKnown state.now known.new }
{
    for u in 0..state.size {
        learn(costs, state, u, known, least);
    }
}

/// Whether no pair with a member of this bound stops the weights before what was found.
fn is_bounded(label: Label, bound: u64, found: Option<Turn>) -> bool
    ensures { result ≡ true → IsBounded label bound found }
{
    match (label, found) {
        (Label::Outer, Some(turn)) => turn.amount <= bound / 2,
        (Label::Free, Some(turn)) => turn.amount <= bound,
        (Label::Inner, _) => true,
        _ => false,
    }
}

/// The bound of a member by what was found for it.
fn bound_by(label: Label, bound: u64, found: Option<Turn>) -> u64
    ensures { IsBoundBy label bound result found }
{
    match (label, found) {
        (Label::Outer, Some(turn)) => turn.amount.saturating_mul(2),
        (Label::Free, Some(turn)) => turn.amount,
        _ => bound,
    }
}

/// What was found so far, or a pair with this member that stops the weights before it.
fn try_member(
    costs: &Costs,
    state: &State,
    v: usize,
    found: Option<Turn>,
    known: &[bool],
    least: &mut [u64],
) -> Option<Turn>
    requires asked { IsAsked costs.now }
    requires searching { IsSearching costs.now state.now }
    requires v_in { v < state.now.size }
    requires rooms { AreRooms costs.now state.now known.now least.old }
    requires all { AllKnown state.now known.now }
    requires happens { IfSome found (λ t. Happens costs.now state.now t.amount t.event) }
    ensures less { IsNoMore result found }
    ensures keeps { (u : ℕ) → u < state.now.size → KeepsPair costs.now state.now result u v }
    ensures happens { IfSome result (λ t. Happens costs.now state.now t.amount t.event) }
    ensures rooms { AreRooms costs.now state.now known.now least.new }
{
    let label = state.label[state.top[v]];
    if is_bounded(label, least[v], found) {
        return found;
    }
    let exact = least_pair_to(costs, state, v);
    least[v] = bound_by(label, least[v], exact);
    lesser(found, exact)
}

/// By how much the weights can be raised as far as a bound says.
fn amount_by(label: Label, bound: u64) -> u64 {
    match label {
        Label::Outer => bound / 2,
        Label::Free => bound,
        Label::Inner => u64::MAX,
    }
}

/// The member whose bound is the least.
fn lowest(state: &State, least: &[u64]) -> usize
    requires some { 1 ≤ state.now.size }
    requires len { length least.now ≡ state.now.size }
    requires tops { length state.now.top.items ≡ state.now.size }
    requires top_in { (v : ℕ) → v < state.now.size → top_of state.now v < length state.now.label.items }
    ensures { result < state.now.size }
{
    let mut best = 0;
    let mut amount = u64::MAX;
    for v in 0..least.len() {
        let here = amount_by(state.label[state.top[v]], least[v]);
        if here < amount {
            best = v;
            amount = here;
        }
    }
    best
}

/// The least amount by which a pair stops the weights.
fn least_pair(costs: &Costs, state: &State, known: &[bool], least: &mut [u64]) -> Option<Turn>
    requires asked { IsAsked costs.now }
    requires searching { IsSearching costs.now state.now }
    requires rooms { AreRooms costs.now state.now known.now least.old }
    requires all { AllKnown state.now known.now }
    ensures keeps { (u v : ℕ) → u < state.now.size → v < state.now.size → KeepsPair costs.now state.now result u v }
    ensures happens { IfSome result (λ t. Happens costs.now state.now t.amount t.event) }
    ensures rooms { AreRooms costs.now state.now known.now least.new }
{
    let first = lowest(state, least);
    let mut found = try_member(costs, state, first, None, known, least);
    for v in 0..state.size {
        found = try_member(costs, state, v, found, known, least);
    }
    found
}

/// The greatest lawful amount, and what stops it. A node stops it only if it does so before each pair, and then it is
/// no single member, since the costs are metric. It takes time of the order of n for n members, and n more for each
/// outer member that is new and for each bound that is found anew.
pub(crate) fn least_turn(
    costs: &Costs,
    state: &State,
    known: &mut [bool],
    least: &mut [u64],
) -> Option<Turn>
    requires asked { IsAsked costs.now }
    requires searching { IsSearching costs.now state.now }
    requires rooms { AreRooms costs.now state.now known.old least.old }
    ensures lawful { IsSomeAnd result (λ t. IsLawful costs.now state.now t.amount) }
    ensures happens { IsSomeAnd result (λ t. Happens costs.now state.now t.amount t.event) }
    ensures rooms { AreRooms costs.now state.now known.new least.new }
{
    learn_all(costs, state, known, least);
    let pair = least_pair(costs, state, known, least);
    lesser(pair, least_node(state))
}

/// A bound once the weights are raised.
fn fallen_by(label: Label, bound: u64, amount: u64) -> u64
    ensures { result ≡ fallen label bound amount }
{
    match label {
        Label::Free => bound.saturating_sub(amount),
        Label::Outer => bound.saturating_sub(amount).saturating_sub(amount),
        Label::Inner => bound,
    }
}

/// Lowers the bounds as a raise lowers the rooms.
pub(crate) fn lower_all(label: &[Label], top: &[usize], least: &mut [u64], amount: u64)
    requires one_each { length top.now ≡ length least.old }
    requires tops { (v : ℕ) → v < length top.now → slice_index top.now v < length label.now }
    ensures { (v : ℕ) → v < length least.old → slice_index least.new v ≡ fallen (label_at label.now (slice_index top.now v)) (slice_index least.old v) amount }
{
    for v in 0..least.len() {
        least[v] = fallen_by(label[top[v]], least[v], amount);
    }
}
