// A least round, with what shows that none costs less.
ghost use Rattle.std.specs.Prelude.{◌≡◌, IfOk, OnOk, IfErr};
ghost use Rattle.deadhead_paths.specs.Prices.{costs_of};
ghost use Rattle.matching_duals.specs.Joins.{IsJoinBound};
ghost use Rattle.postman.specs.Refusals.{RefusesApart};
ghost use Rattle.postman.specs.Rounds.{AreJoined, IsShownRound};

use crate::circuit::lay_circuit;
use crate::joined::find_apart;
use crate::{PostmanFault, rounds_pay_joins};
use carp_base::{Fail, Instance, Memory};
use cut_pool::Weighted;
use deadhead_paths::Distances;
use matching_duals::{JoinBound, join_bound};
use plan_model::Walk;
use road_network::Network;
use std::alloc::Global;

/// A least closed walk from the depot that serves each required edge, for one vehicle without a limit, and sets of
/// vertices that show that none costs less.
#[derive(Drop)]
pub struct Round {
    /// The walk: each required edge has one served step, and no other edge has one. It crosses no edge twice without
    /// service, and has at most as many steps as there are required edges and edges together. Without required edges it
    /// has none.
    pub walk: Walk,
    /// Sets of vertices without the depot, each crossed by an odd number of required edges. The weight of each is a
    /// number of halves of a unit of cost, above 0. Over each edge they sum to at most twice its cost. They and
    /// twice the service costs sum to twice the cost.
    pub shores: Vec<Weighted>,
    /// What the walk costs, in the instance's unit of cost: the service cost for each served step, and the cost for
    /// each other one, at most 4.6 * 10^9 (600 services of at most 1,000,000, and a least join). No such walk costs less.
    pub cost: u64,
}

// The round over the required edges and least deadheads.
fn lay_round(
    alloc: Global,
    inst: &Instance,
    net: &Network,
    bound: JoinBound,
) -> Result<Round, Memory>
    requires net { net.now ≡ inst.now }
    requires joined { AreJoined inst.now }
    requires bound { IsJoinBound inst.now bound.deadheads.items bound.shores.items bound.value }
    ensures { IfOk result (λ r. IsShownRound inst.now r.walk r.shores.items r.cost) }
{
    rounds_pay_joins();
    inst.validity();
    let mut deadheads = bound.deadheads;
    let cost = inst.required_cost() + bound.value;
    let walk = lay_circuit(alloc, inst, net, &mut deadheads)?;
    Ok(Round {
        walk,
        shores: bound.shores,
        cost,
    })
}

// The least round where the required edges are joined to the depot.
fn least_round(
    alloc: Global,
    inst: &Instance,
    net: &Network,
    dist: &Distances,
) -> Result<Round, Memory>
    requires net { net.now ≡ inst.now }
    requires problem { dist.now.problem ≡ inst.now }
    requires costs { dist.now.prices ≡ costs_of inst.now }
    requires joined { AreJoined inst.now }
    ensures { IfOk result (λ r. IsShownRound inst.now r.walk r.shores.items r.cost) }
{
    let bound = join_bound(alloc, inst, net, dist)?;
    lay_round(alloc, inst, net, bound)
}

/// A least closed walk from the depot that serves each required edge, if the required edges hang together with the
/// depot.
///
/// Deadheads of least cost make every vertex even (Edmonds and Johnson 1973). A circuit goes over the required edges
/// and those of the deadheads that it reaches (Hierholzer 1873). Without required edges the walk has no steps.
///
/// It asks for the network of the instance and its distances by cost. It refuses if required edges alone do not join
/// each of them to the depot: [`PostmanFault::NotJoined`] names the least edge that is apart. `Fail::Memory` says only
/// that there was not enough memory. Besides the time and memory of [`join_bound`], it takes both in proportion to the
/// vertices and edges.
///
/// ```
/// let net = Network::new(alloc, &inst)?;
/// let dist = distances(alloc, &inst, &net, &cost_prices(alloc, &inst)?)?;
/// match postman(alloc, &inst, &net, &dist) {
///     Ok(round) => assert_eq!(rt; (round.cost, round.walk.len()), (10, 2)),
///     Err(Fail::Refused(PostmanFault::NotJoined(edge))) => panic!(rt; "edge {edge} is apart"),
///     Err(Fail::Memory) => return Err(Memory),
/// }
/// ```
pub fn postman(
    alloc: Global,
    inst: &Instance,
    net: &Network,
    dist: &Distances,
) -> Result<Round, Fail<PostmanFault>>
    requires net { net.now ≡ inst.now }
    requires problem { dist.now.problem ≡ inst.now }
    requires costs { dist.now.prices ≡ costs_of inst.now }
    ensures round { IfOk result (λ r. IsShownRound inst.now r.walk r.shores.items r.cost) }
    ensures joined { OnOk result (AreJoined inst.now) }
    ensures refused { IfErr result (RefusesApart inst.now) }
{
    if let Some(e) = find_apart(alloc, inst, net)? {
        return Err(Fail::Refused(PostmanFault::NotJoined(e)));
    }
    Ok(least_round(alloc, inst, net, dist)?)
}
