// The search from one unmatched member.
ghost use Rattle.std.specs.Prelude.{◌≡◌, ◌<◌, true, false, length, Some, None};
ghost use Rattle.blossom_match.specs.Table.{IsAsked};
ghost use Rattle.blossom_match.specs.Views.{mate_at, child_at, to_do};
ghost use Rattle.blossom_match.specs.Between.{IsBetween, IsSearching, IsTreeless, HasMate, KeepsMates, KeepsRoot};
ghost use Rattle.blossom_match.specs.Turns.{Happens, IsSpent, top_of};
ghost use Rattle.blossom_match.specs.Growth.{IsGrowth};
ghost use Rattle.blossom_match.specs.Rooms.{AreRooms};

use crate::Costs;
use crate::augment::{augment, clear};
use crate::expand::expand;
use crate::grow::grow;
use crate::raise::raise;
use crate::room::Event;
use crate::rooms::{forget_all, forget_bounds, least_turn, lower_all};
use crate::shrink::shrink;
use crate::state::{Label, Pair, State};

/// A child of a node of weight 0.
fn first_child(costs: &Costs, state: &State, s: usize) -> usize
    requires searching { IsSearching costs.now state.now }
    requires spent { IsSpent state.now 0 s }
    ensures { child_at state.now.child.items s ≡ Some result }
{
    match state.child[s] {
        Some(first) => first,
        None => unreachable!(),
    }
}

/// The pair by which a node of weight 0 is matched.
fn mate_of_inner(costs: &Costs, state: &State, s: usize) -> Pair
    requires searching { IsSearching costs.now state.now }
    requires spent { IsSpent state.now 0 s }
    ensures { mate_at state.now.mate.items s ≡ Some result }
{
    match state.mate[s] {
        Some(mate) => mate,
        None => unreachable!(),
    }
}

/// What an event does to the tree. Answers whether one pair more is matched.
fn answer(costs: &Costs, state: &mut State, event: Event) -> bool
    requires asked { IsAsked costs.now }
    requires searching { IsSearching costs.now state.old }
    requires happens { Happens costs.now state.old 0 event }
    ensures searching { result ≡ false → IsSearching costs.now state.new }
    ensures less { result ≡ false → to_do state.new < to_do state.old }
    ensures keeps { KeepsRoot state.old state.new }
    ensures root { state.new.root ≡ state.old.root }
    ensures growth { result ≡ false → IsGrowth state.old state.new }
    ensures between { result ≡ true → IsBetween costs.now state.new }
    ensures matched { result ≡ true → HasMate state.new state.old.root }
{
    match event {
        Event::Reach(u, v) => match state.mate[state.top[v]] {
            Some(mate) => {
                grow(costs, state, u, v, mate);
                false
            }
            None => {
                augment(costs, state, u, v);
                true
            }
        },
        Event::Meet(u, v) => {
            shrink(costs, state, u, v);
            false
        }
        Event::Spent(s) => {
            let first = first_child(costs, state, s);
            let mate = mate_of_inner(costs, state, s);
            expand(costs, state, s, first, mate);
            false
        }
    }
}

/// Raises the weights up to the next event, and answers it.
fn turn(costs: &Costs, state: &mut State, known: &mut [bool], least: &mut [u64]) -> bool
    requires asked { IsAsked costs.now }
    requires searching { IsSearching costs.now state.old }
    requires rooms { AreRooms costs.now state.old known.old least.old }
    ensures searching { result ≡ false → IsSearching costs.now state.new }
    ensures rooms { result ≡ false → AreRooms costs.now state.new known.new least.new }
    ensures less { result ≡ false → to_do state.new < to_do state.old }
    ensures keeps { KeepsRoot state.old state.new }
    ensures root { state.new.root ≡ state.old.root }
    ensures between { result ≡ true → IsBetween costs.now state.new }
    ensures matched { result ≡ true → HasMate state.new state.old.root }
{
    let event = raise_rooms(costs, state, known, least);
    answer(costs, state, event)
}

/// Raises the weights, and lowers the rooms, up to the next event.
fn raise_rooms(costs: &Costs, state: &mut State, known: &mut [bool], least: &mut [u64]) -> Event
    requires asked { IsAsked costs.now }
    requires searching { IsSearching costs.now state.old }
    requires rooms { AreRooms costs.now state.old known.old least.old }
    ensures searching { IsSearching costs.now state.new }
    ensures rooms { AreRooms costs.now state.new known.new least.new }
    ensures happens { Happens costs.now state.new 0 result }
    ensures same { to_do state.new ≡ to_do state.old }
    ensures keeps { KeepsRoot state.old state.new }
    ensures root { state.new.root ≡ state.old.root }
{
    match least_turn(costs, state, known, least) {
        Some(turn) => {
            lower_all(&state.label, &state.top, least, turn.amount);
            raise(costs, state, turn.amount);
            turn.event
        }
        None => unreachable!(),
    }
}

/// Makes the node of a member the tree.
fn plant(costs: &Costs, state: &mut State, root: usize)
    requires asked { IsAsked costs.now }
    requires between { IsBetween costs.now state.old }
    requires treeless { IsTreeless state.old.label.items }
    requires root_in { root < state.old.size }
    requires unmatched { mate_at state.old.mate.items (top_of state.old root) ≡ None }
    ensures searching { IsSearching costs.now state.new }
    ensures keeps { KeepsMates state.old state.new }
    ensures root { state.new.root ≡ root }
{
    let node = state.top[root];
    state.label[node] = Label::Outer;
    state.root = root;
}

/// Matches one more pair of nodes, so that the node of this member is matched. It has fewer turns than there are nodes,
/// squared.
pub(crate) fn search(
    costs: &Costs,
    state: &mut State,
    root: usize,
    known: &mut [bool],
    least: &mut [u64],
)
    requires asked { IsAsked costs.now }
    requires between { IsBetween costs.now state.old }
    requires treeless { IsTreeless state.old.label.items }
    requires root_in { root < state.old.size }
    requires unmatched { mate_at state.old.mate.items (top_of state.old root) ≡ None }
    requires known { length known.old ≡ state.old.size }
    requires least { length least.old ≡ state.old.size }
    ensures between { IsBetween costs.now state.new }
    ensures treeless { IsTreeless state.new.label.items }
    ensures keeps { KeepsMates state.old state.new }
    ensures matched { HasMate state.new root }
{
    plant(costs, state, root);
    forget_all(known);
    forget_bounds(least);
    let mut found = false;
    while !found {
        found = turn(costs, state, known, least);
    }
    clear(costs, state);
}
