// Two ways up the tree, to where they join.
ghost use Rattle.std.specs.Prelude.{◌≡◌, ◌⊎◌, ℕ, ◌<◌, ◌≤◌, length, slice_index, Some, None, IfSome, IsSomeAnd};
ghost use Rattle.blossom_match.specs.Views.{turned};
ghost use Rattle.blossom_match.specs.Ways.{IsClosed, IsFork, IsLinkedDown, IsLinkedUp, IsTrail, IsWay, IsWayUp, way_at};

use crate::state::{Label, Pair};

/// Where two ways join: at which node, and after how many steps on each.
#[derive(Clone, Copy)]
pub(crate) struct Join {
    pub node: usize,
    pub one: usize,
    pub other: usize,
}

/// The pair seen from its other end.
fn reversed(pair: Pair) -> Pair
    ensures { result ≡ turned pair }
{
    Pair {
        inside: pair.outside,
        outside: pair.inside,
    }
}

/// Takes all marks away.
fn forget(way: &mut [Option<usize>])
    ensures { (s : ℕ) → way_at way.new s ≡ None }
{
    for s in 0..way.len() {
        way[s] = None;
    }
}

/// Marks the nodes on the way up from one node with their numbers of steps.
pub(crate) fn mark(
    top: &[usize],
    entry: &[Pair],
    from: usize,
    root: usize,
    way: &mut [Option<usize>],
)
    requires few { length way.old ≤ 2000 }
    requires entries { length entry.now ≡ length way.old }
    requires up { IsWayUp top.now entry.now (length entry.now) from root }
    ensures { IsWay top.now entry.now from root way.new }
{
    forget(way);
    let mut node = from;
    let mut steps = 0;
    way[node] = Some(steps);
    while node != root {
        node = top[entry[node].outside];
        steps += 1;
        way[node] = Some(steps);
    }
}

/// The join at a node, if it is on both ways.
fn join_at(node: usize, one: Option<usize>, other: Option<usize>) -> Option<Join>
    ensures at { IfSome result (λ t. (t.node ≡ node) × (one ≡ Some t.one) × (other ≡ Some t.other)) }
    ensures found { (j k : ℕ) → one ≡ Some j → other ≡ Some k → IsSomeAnd result (λ t. t.one ≤ j) }
{
    match (one, other) {
        (Some(one), Some(other)) => Some(Join { node, one, other }),
        _ => None,
    }
}

/// The join after fewer steps on the first way.
fn nearer(a: Option<Join>, b: Option<Join>) -> Option<Join>
    ensures one { (result ≡ a) ⊎ (result ≡ b) }
    ensures first { IfSome a (λ x. IsSomeAnd result (λ t. t.one ≤ x.one)) }
    ensures second { IfSome b (λ x. IsSomeAnd result (λ t. t.one ≤ x.one)) }
{
    match (a, b) {
        (Some(a), Some(b)) => Some(if b.one < a.one { b } else { a }),
        (None, b) => b,
        (a, None) => a,
    }
}

/// The first node of one way that is on the other one, too.
pub(crate) fn find_join(one: &[Option<usize>], other: &[Option<usize>]) -> Option<Join>
    requires len { length other.now ≡ length one.now }
    ensures at { IfSome result (λ t. (way_at one.now t.node ≡ Some t.one) × (way_at other.now t.node ≡ Some t.other)) }
    ensures first { (s j k : ℕ) → way_at one.now s ≡ Some j → way_at other.now s ≡ Some k → IsSomeAnd result (λ t. t.one ≤ j) }
{
    let mut nearest = None;
    for s in 0..one.len() {
        nearest = nearer(nearest, join_at(s, one[s], other[s]));
    }
    nearest
}

/// Links each of the first nodes on a way to the one below it.
fn link_down(
    top: &[usize],
    entry: &[Pair],
    from: usize,
    steps: usize,
    next: &mut [usize],
    link: &mut [Pair],
)
    requires entries { length entry.now ≡ length next.old }
    requires links { length link.old ≡ length next.old }
    requires trail { IsTrail top.now entry.now (length next.old) from steps }
    ensures { IsLinkedDown top.now entry.now from steps next.old next.new link.old link.new }
{
    let mut node = from;
    for k in 0..steps {
        let pair = entry[node];
        let above = top[pair.outside];
        next[above] = node;
        link[above] = reversed(pair);
        node = above;
    }
}

/// Links each of the first nodes on a way to the one above it.
fn link_up(
    top: &[usize],
    entry: &[Pair],
    from: usize,
    steps: usize,
    next: &mut [usize],
    link: &mut [Pair],
)
    requires entries { length entry.now ≡ length next.old }
    requires links { length link.old ≡ length next.old }
    requires trail { IsTrail top.now entry.now (length next.old) from steps }
    ensures { IsLinkedUp top.now entry.now from steps next.old next.new link.old link.new }
{
    let mut node = from;
    for k in 0..steps {
        let pair = entry[node];
        let above = top[pair.outside];
        next[node] = above;
        link[node] = pair;
        node = above;
    }
}

/// Links the nodes of two ways up to where they join: down the first, across the pair u, v at their feet, and up the
/// other.
pub(crate) fn close_links(
    top: &[usize],
    entry: &[Pair],
    u: usize,
    v: usize,
    join: Join,
    next: &mut [usize],
    link: &mut [Pair],
)
    requires u_in { u < length top.now }
    requires v_in { v < length top.now }
    requires entries { length entry.now ≡ length next.old }
    requires links { length link.old ≡ length next.old }
    requires fork { IsFork top.now entry.now (length next.old) (slice_index top.now u) (slice_index top.now v) join.one join.other }
    ensures { IsClosed top.now entry.now u v (slice_index top.now u) (slice_index top.now v) join.one join.other next.old next.new link.old link.new }
{
    let first = top[u];
    let second = top[v];
    link_down(top, entry, first, join.one, next, link);
    next[first] = second;
    link[first] = Pair {
        inside: u,
        outside: v,
    };
    link_up(top, entry, second, join.other, next, link);
}
