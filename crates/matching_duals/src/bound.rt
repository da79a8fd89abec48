// The least cost of making every junction even, with what shows it.
ghost use Rattle.std.specs.Prelude.{◌≡◌, IfOk};
ghost use Rattle.deadhead_paths.specs.Prices.{costs_of};
ghost use Rattle.matching_duals.specs.Joins.{IsJoinBound};

use crate::ground::Ground;
use crate::joining::{cost_of, join_pairs};
use crate::pairing::pair_costs;
use crate::setting::lay_sets;
use blossom_match::match_least;
use carp_base::{Instance, Memory};
use cut_pool::Weighted;
use deadhead_paths::Distances;
use edge_components::vertices_are_listed;
use road_network::Network;
use std::alloc::Global;

/// Least deadheads that make every junction even, and sets of vertices that show that none cost less.
#[derive(Drop)]
pub struct JoinBound {
    /// The number of deadheads on each edge, in the order of the edges, each 0 or 1. With the required edges they end
    /// an even number of times at each vertex.
    pub deadheads: Vec<u64>,
    /// At most 1,999 different sets of vertices without the depot, each crossed by an odd number of required edges.
    /// The weight of each is a number of halves of a unit of cost, above 0. Over each edge they sum to at most twice
    /// its cost, and in all to twice the value.
    pub shores: Vec<Weighted>,
    /// What the deadheads cost: the least cost of deadheads that make every vertex even, at most 4 * 10^9.
    pub value: u64,
}

/// The least cost of deadheads that make every vertex even, such deadheads, and sets of vertices with weights that show
/// that no others cost less (Edmonds and Johnson 1973).
///
/// It asks for the network of the instance and its distances by cost. The only error is want of memory. With n vertices
/// it takes memory in proportion to n^2. The time is that of `blossom_match::match_least` for the odd vertices. Besides
/// it is in proportion to n^2, to n times the sizes of the sets of that matching together, and for each run of equal
/// levels of a set to n and to the number of shores.
pub fn join_bound(
    alloc: Global,
    inst: &Instance,
    net: &Network,
    dist: &Distances,
) -> Result<JoinBound, Memory>
    requires net { net.now ≡ inst.now }
    requires problem { dist.now.problem ≡ inst.now }
    requires costs { dist.now.prices ≡ costs_of inst.now }
    ensures { IfOk result (λ bound. IsJoinBound inst.now bound.deadheads.items bound.shores.items bound.value) }
{
    vertices_are_listed();
    inst.validity();
    let ground = Ground::survey(alloc, inst, net, dist)?;
    let costs = pair_costs(alloc, inst, &ground)?;
    let matching = match_least(alloc, &costs)?;
    let deadheads = join_pairs(alloc, inst, dist, &ground, &matching)?;
    let value = cost_of(inst, &deadheads);
    let laying = lay_sets(alloc, inst, &ground, &matching)?;
    Ok(JoinBound {
        deadheads,
        shores: laying.shores,
        value,
    })
}
