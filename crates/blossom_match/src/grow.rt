// Takes a matched pair of nodes into the tree.
ghost use Rattle.std.specs.Prelude.{◌≡◌, ◌<◌, Some};
ghost use Rattle.blossom_match.specs.Growth.{IsGrowth};
ghost use Rattle.blossom_match.specs.Table.{IsAsked};
ghost use Rattle.blossom_match.specs.Views.{mate_at, to_do};
ghost use Rattle.blossom_match.specs.Between.{IsSearching, KeepsMates};
ghost use Rattle.blossom_match.specs.Turns.{IsReach, top_of};

use crate::Costs;
use crate::state::{Label, Pair, State};

/// Takes the node of v into the tree over the tight pair u, v, and the node matched with it.
pub(crate) fn grow(costs: &Costs, state: &mut State, u: usize, v: usize, mate: Pair)
    requires asked { IsAsked costs.now }
    requires searching { IsSearching costs.now state.old }
    requires reach { IsReach costs.now state.old 0 u v }
    requires matched { mate_at state.old.mate.items (top_of state.old v) ≡ Some mate }
    ensures searching { IsSearching costs.now state.new }
    ensures less { to_do state.new < to_do state.old }
    ensures keeps { KeepsMates state.old state.new }
    ensures root { state.new.root ≡ state.old.root }
    ensures top { state.new.top.items ≡ state.old.top.items }
    ensures growth { IsGrowth state.old state.new }
{
    let inner = state.top[v];
    let outer = state.top[mate.outside];
    state.label[inner] = Label::Inner;
    state.entry[inner] = Pair {
        inside: v,
        outside: u,
    };
    state.label[outer] = Label::Outer;
}
