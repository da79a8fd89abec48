// Makes one set of an odd cycle of nodes.
ghost use Rattle.std.specs.Prelude.{◌≡◌, ℕ, ◌*◌, ◌<◌, ◌≤◌, length, IfSome};
ghost use Rattle.blossom_match.specs.Growth.{IsGrowth};
ghost use Rattle.blossom_match.specs.Table.{IsAsked};
ghost use Rattle.blossom_match.specs.Views.{label_at, link_at, to_do};
ghost use Rattle.blossom_match.specs.Between.{IsSearching, KeepsRoot};
ghost use Rattle.blossom_match.specs.Turns.{IsMeet, top_of, label_of};
ghost use Rattle.blossom_match.specs.Ways.{AreAimed, IsClosed, IsForked, IsJoin, IsSameTree, IsWay, on_cycle};
ghost use Rattle.blossom_match.specs.Rings.{IsFounded, IsGathered, IsRelinked, IsSlot};

use crate::Costs;
use crate::gather::{free_parts, take_members};
use crate::state::{Label, Pair, State};
use crate::ways::{Join, close_links, find_join, mark};

/// The pair that leads one step up from a node.
fn ascent(label: Label, mate: Option<Pair>, entry: Pair) -> Pair
    ensures outer { label ≡ Label.Outer → IfSome mate (λ p. result ≡ p) }
    ensures inner { label ≡ Label.Inner → result ≡ entry }
{
    match (label, mate) {
        (Label::Outer, Some(pair)) => pair,
        _ => entry,
    }
}

/// Gives each matched outer node its pair as its entry, too.
fn aim(label: &[Label], mate: &[Option<Pair>], entry: &mut [Pair])
    requires mates { length mate.now ≡ length label.now }
    requires entries { length entry.old ≡ length label.now }
    ensures aimed { AreAimed (length label.now) mate.now label.now entry.new }
    ensures inner { (s : ℕ) → label_at label.now s ≡ Label.Inner → link_at entry.new s ≡ link_at entry.old s }
{
    for s in 0..label.len() {
        entry[s] = ascent(label[s], mate[s], entry[s]);
    }
}

/// Gives each node of the tree but the root's the pair that leads up from it.
fn aim_tree(costs: &Costs, state: &mut State)
    requires { IsSearching costs.now state.old }
    ensures same { IsSameTree state.old state.new }
    ensures aimed { AreAimed (2 * state.new.size) state.new.mate.items state.new.label.items state.new.entry.items }
{
    aim(&state.label, &state.mate, &mut state.entry);
}

/// Marks the way from the node of u up to the root.
fn mark_one(costs: &Costs, state: &mut State, u: usize)
    requires asked { IsAsked costs.now }
    requires searching { IsSearching costs.now state.old }
    requires aimed { AreAimed (2 * state.old.size) state.old.mate.items state.old.label.items state.old.entry.items }
    requires u_in { u < state.old.size }
    requires outer { label_of state.old (top_of state.old u) ≡ Label.Outer }
    ensures same { IsSameTree state.old state.new }
    ensures entry { state.new.entry.items ≡ state.old.entry.items }
    ensures way { IsWay state.new.top.items state.new.entry.items (top_of state.new u) (top_of state.new state.new.root) state.new.one_way.items }
{
    let from = state.top[u];
    let root = state.top[state.root];
    mark(&state.top, &state.entry, from, root, &mut state.one_way);
}

/// Marks the way from the node of v up to the root, as the other one.
fn mark_other(costs: &Costs, state: &mut State, v: usize)
    requires asked { IsAsked costs.now }
    requires searching { IsSearching costs.now state.old }
    requires aimed { AreAimed (2 * state.old.size) state.old.mate.items state.old.label.items state.old.entry.items }
    requires v_in { v < state.old.size }
    requires outer { label_of state.old (top_of state.old v) ≡ Label.Outer }
    ensures same { IsSameTree state.old state.new }
    ensures entry { state.new.entry.items ≡ state.old.entry.items }
    ensures one_way { state.new.one_way.items ≡ state.old.one_way.items }
    ensures way { IsWay state.new.top.items state.new.entry.items (top_of state.new v) (top_of state.new state.new.root) state.new.other_way.items }
{
    let from = state.top[v];
    let root = state.top[state.root];
    mark(&state.top, &state.entry, from, root, &mut state.other_way);
}

/// Marks the two ways from a tight pair of outer nodes up to the root.
fn fork(costs: &Costs, state: &mut State, u: usize, v: usize)
    requires asked { IsAsked costs.now }
    requires searching { IsSearching costs.now state.old }
    requires meet { IsMeet costs.now state.old 0 u v }
    ensures forked { IsForked costs.now state.new u v }
    ensures same { IsSameTree state.old state.new }
{
    aim_tree(costs, state);
    mark_one(costs, state, u);
    mark_other(costs, state, v);
}

/// Where the two ways join.
fn meeting(costs: &Costs, state: &State, u: usize, v: usize) -> Join
    requires { IsForked costs.now state.now u v }
    ensures { IsJoin state.now.one_way.items state.now.other_way.items result.node result.one result.other }
{
    match find_join(&state.one_way, &state.other_way) {
        Some(join) => join,
        None => unreachable!(),
    }
}

/// The member at the foot of a way that has a step: its node is not the one where the ways join.
fn foot(join: Join, u: usize, v: usize) -> usize
    ensures one { 1 ≤ join.one → result ≡ u }
    ensures other { join.one ≡ 0 → result ≡ v }
{
    if join.one > 0 { u } else { v }
}

/// A slot that is free: it has the number of the base of a node of the cycle that is not the one where the ways join.
fn slot(costs: &Costs, state: &State, u: usize, v: usize, join: Join) -> usize
    requires asked { IsAsked costs.now }
    requires forked { IsForked costs.now state.now u v }
    requires join { IsJoin state.now.one_way.items state.now.other_way.items join.node join.one join.other }
    ensures { IsSlot state.now (on_cycle state.now.one_way.items state.now.other_way.items join.one join.other) join.node result }
{
    let member = foot(join, u, v);
    let part = state.top[member];
    let base = state.base[part];
    state.size + base
}

/// Links the nodes of the cycle.
fn link_cycle(costs: &Costs, state: &mut State, u: usize, v: usize, join: Join)
    requires asked { IsAsked costs.now }
    requires forked { IsForked costs.now state.old u v }
    requires join { IsJoin state.old.one_way.items state.old.other_way.items join.node join.one join.other }
    ensures closed { IsClosed state.old.top.items state.old.entry.items u v (top_of state.old u) (top_of state.old v) join.one join.other state.old.next.items state.new.next.items state.old.link.items state.new.link.items }
    ensures relinked { IsRelinked state.old state.new }
{
    close_links(
        &state.top,
        &state.entry,
        u,
        v,
        join,
        &mut state.next,
        &mut state.link,
    );
}

/// Puts the members of the nodes of the cycle into a new node.
fn gather(costs: &Costs, state: &mut State, join: Join, whole: usize)
    requires few { state.old.size ≤ 1000 }
    requires tops { length state.old.top.items ≡ state.old.size }
    requires held { length state.old.held.items ≡ 2 * state.old.size * state.old.size }
    requires labels { length state.old.label.items ≡ 2 * state.old.size }
    requires one_way { length state.old.one_way.items ≡ 2 * state.old.size }
    requires other_way { length state.old.other_way.items ≡ 2 * state.old.size }
    requires top_in { (v : ℕ) → v < state.old.size → top_of state.old v < 2 * state.old.size }
    requires whole_in { whole < 2 * state.old.size }
    ensures { IsGathered state.old state.new (on_cycle state.old.one_way.items state.old.other_way.items join.one join.other) whole }
{
    take_members(
        &state.one_way,
        &state.other_way,
        join,
        whole,
        &mut state.top,
        &mut state.held,
    );
    free_parts(&state.one_way, &state.other_way, join, &mut state.label);
}

/// Puts a new node into the place of the node at the end of its cycle.
fn found(costs: &Costs, state: &mut State, whole: usize, end: usize)
    requires whole_in { whole < 2 * state.old.size }
    requires end_in { end < 2 * state.old.size }
    requires mates { length state.old.mate.items ≡ 2 * state.old.size }
    requires children { length state.old.child.items ≡ 2 * state.old.size }
    requires bases { length state.old.base.items ≡ 2 * state.old.size }
    requires labels { length state.old.label.items ≡ 2 * state.old.size }
    ensures { IsFounded state.old state.new whole end }
{
    state.mate[whole] = state.mate[end];
    state.child[whole] = Some(end);
    state.base[whole] = state.base[end];
    state.label[whole] = Label::Outer;
}

/// Makes one outer node of the cycle that the tight pair u, v of two outer nodes closes.
pub(crate) fn shrink(costs: &Costs, state: &mut State, u: usize, v: usize)
    requires asked { IsAsked costs.now }
    requires searching { IsSearching costs.now state.old }
    requires meet { IsMeet costs.now state.old 0 u v }
    ensures searching { IsSearching costs.now state.new }
    ensures less { to_do state.new < to_do state.old }
    ensures keeps { KeepsRoot state.old state.new }
    ensures root { state.new.root ≡ state.old.root }
    ensures growth { IsGrowth state.old state.new }
{
    fork(costs, state, u, v);
    let join = meeting(costs, state, u, v);
    let whole = slot(costs, state, u, v, join);
    link_cycle(costs, state, u, v, join);
    gather(costs, state, join, whole);
    found(costs, state, whole, join.node);
}
