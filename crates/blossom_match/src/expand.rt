// Puts an inner node of weight 0 away, and its children into its place.
ghost use Rattle.std.specs.Prelude.{◌≡◌, ◌≢◌, ℕ, ◌+◌, ◌*◌, ◌%◌, ◌<◌, ◌≤◌, false, length, Some};
ghost use Rattle.blossom_match.specs.declared.state.Label.TheVariants.{Inner, Outer};
ghost use Rattle.blossom_match.specs.Growth.{IsGrowth};
ghost use Rattle.blossom_match.specs.Table.{IsAsked};
ghost use Rattle.blossom_match.specs.Views.{holds, mate_at, child_at, to_do};
ghost use Rattle.blossom_match.specs.Between.{IsSearching, KeepsRoot, after};
ghost use Rattle.blossom_match.specs.Turns.{IsSpent};
ghost use Rattle.blossom_match.specs.Cycles.{IsTrip};
ghost use Rattle.blossom_match.specs.Expanding.{AreEnteredBack, AreEnteredOn, AreLabelled, IsCircle, IsPutAway, IsWayIn};

use crate::Costs;
use crate::cycle::open_cycle;
use crate::state::{Label, Pair, State};

/// How many steps lead along the cycle from one child to another.
fn steps_to(next: &[usize], from: usize, to: usize, len: usize) -> usize
    requires few { len ≤ 1000 }
    requires circle { IsCircle next.now (length next.now) len from }
    requires place { (k : ℕ) × (k < len) × (after next.now k from ≡ to) }
    ensures within { result < len }
    ensures there { after next.now result from ≡ to }
{
    let mut part = from;
    for k in 0..len {
        if part == to {
            return k;
        }
        part = next[part];
    }
    unreachable!()
}

/// The label of a node on an even way from one inner node to another.
fn label_on_way(k: usize) -> Label
    ensures even { k % 2 ≡ 0 → result ≡ Inner }
    ensures odd { k % 2 ≡ 1 → result ≡ Outer }
{
    if k % 2 == 0 {
        Label::Inner
    } else {
        Label::Outer
    }
}

/// Makes nodes inner and outer in turn.
fn label_along(next: &[usize], label: &mut [Label], start: usize, last: usize)
    requires few { last ≤ 1000 }
    requires trip { IsTrip next.now (length next.now) last start }
    requires label_len { length label.old ≡ length next.now }
    ensures { AreLabelled next.now start (last + 1) label.old label.new }
{
    let mut part = start;
    for k in 0..last + 1 {
        label[part] = label_on_way(k);
        part = next[part];
    }
}

/// Makes the link to the next node the entry of each node.
fn enter_back(next: &[usize], link: &[Pair], entry: &mut [Pair], start: usize, count: usize)
    requires trip { IsTrip next.now (length next.now) count start }
    requires link_len { length link.now ≡ length next.now }
    requires entry_len { length entry.old ≡ length next.now }
    ensures { AreEnteredBack next.now link.now start count entry.old entry.new }
{
    let mut part = start;
    for k in 0..count {
        entry[part] = link[part];
        part = next[part];
    }
}

/// Makes the link from the node before the entry of each node.
fn enter_on(next: &[usize], link: &[Pair], entry: &mut [Pair], start: usize, count: usize)
    requires few { length next.now ≤ 2000 }
    requires trip { IsTrip next.now (length next.now) count start }
    requires link_len { length link.now ≡ length next.now }
    requires entry_len { length entry.old ≡ length next.now }
    ensures { AreEnteredOn next.now link.now start count entry.old entry.new }
{
    let mut part = start;
    for k in 0..count {
        let pair = link[part];
        part = next[part];
        entry[part] = Pair {
            inside: pair.outside,
            outside: pair.inside,
        };
    }
}

/// Puts the children on the even way from one of them to the base into the tree. The entry is the one of the whole.
fn label_way(
    next: &[usize],
    link: &[Pair],
    label: &mut [Label],
    entry: &mut [Pair],
    base: usize,
    from: usize,
    len: usize,
    first: Pair,
)
    requires few { len ≤ 1000 }
    requires few_slots { length next.now ≤ 2000 }
    requires circle { IsCircle next.now (length next.now) len base }
    requires place { (k : ℕ) × (k < len) × (after next.now k base ≡ from) }
    requires link_len { length link.now ≡ length next.now }
    requires label_len { length label.old ≡ length next.now }
    requires entry_len { length entry.old ≡ length next.now }
    ensures { IsWayIn next.now link.now base from len first label.old label.new entry.old entry.new }
{
    let place = steps_to(next, base, from, len);
    if place % 2 == 0 {
        label_along(next, label, base, place);
        enter_back(next, link, entry, base, place);
    } else {
        label_along(next, label, from, len - place);
        enter_on(next, link, entry, from, len - place);
    }
    entry[from] = first;
}

/// Takes all members out of a node.
#[tactic(auto, using(crate::proofs::Cells::cell_in))]
fn empty_row(size: usize, held: &mut [bool], s: usize)
    requires few { size ≤ 1000 }
    requires s_in { s < 2 * size }
    requires len { length held.old ≡ 2 * size * size }
    ensures own { (v : ℕ) → v < size → holds size held.new s v ≡ false }
    ensures others { (t v : ℕ) → v < size → t ≢ s → holds size held.new t v ≡ holds size held.old t v }
{
    for v in 0..size {
        held[s * size + v] = false;
    }
}

/// Puts a node away. Its children are outermost nodes then, and matched. Answers how many there are.
fn put_away(costs: &Costs, state: &mut State, s: usize, first: usize, mate: Pair) -> usize
    requires asked { IsAsked costs.now }
    requires searching { IsSearching costs.now state.old }
    requires spent { IsSpent state.old 0 s }
    requires child { child_at state.old.child.items s ≡ Some first }
    requires matched { mate_at state.old.mate.items s ≡ Some mate }
    ensures { IsPutAway state.old state.new s first result mate }
{
    let len = open_cycle(
        state.size,
        &state.held,
        &state.next,
        &state.link,
        &mut state.top,
        &mut state.mate,
        first,
        mate,
    );
    empty_row(state.size, &mut state.held, s);
    state.child[s] = None;
    state.label[s] = Label::Free;
    len
}

/// Puts an inner node of weight 0 away. Its children on an even way through its cycle take its place in the tree,
/// and the others are matched two by two, outside the tree.
pub(crate) fn expand(costs: &Costs, state: &mut State, s: usize, first: usize, mate: Pair)
    requires asked { IsAsked costs.now }
    requires searching { IsSearching costs.now state.old }
    requires spent { IsSpent state.old 0 s }
    requires child { child_at state.old.child.items s ≡ Some first }
    requires matched { mate_at state.old.mate.items s ≡ Some mate }
    ensures searching { IsSearching costs.now state.new }
    ensures less { to_do state.new < to_do state.old }
    ensures keeps { KeepsRoot state.old state.new }
    ensures root { state.new.root ≡ state.old.root }
    ensures growth { IsGrowth state.old state.new }
{
    let entry = state.entry[s];
    let len = put_away(costs, state, s, first, mate);
    let (from, base) = (state.top[entry.inside], state.top[mate.inside]);
    label_way(
        &state.next,
        &state.link,
        &mut state.label,
        &mut state.entry,
        base,
        from,
        len,
        entry,
    );
}
