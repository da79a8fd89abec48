// A price set of the program over shores.
ghost use Rattle.std.specs.Prelude.{◌≡◌, ◌*◌, ◌≤◌, All, IfOk, map, pos};
ghost use Rattle.price_points.specs.Limits.{denominator};
ghost use Rattle.carp_base.specs.Problem.{required_edges};
ghost use Rattle.cut_pool.specs.Pools.{IsGrown};
ghost use Rattle.cut_pool.specs.Shores.{Belongs};
ghost use Rattle.leaf_adviser.specs.Offers.{IsOffer};

use crate::rounds::weighted_shores;
use branch_rules::{Branch, PriceSet};
use carp_base::{Edge, Instance, Memory};
use cut_pool::ShorePool;
use price_points::{UNIT, place_weights};
use road_network::Network;
use std::alloc::Global;

// A price set under a branch: services at cost, and the weights of the linear program over shores after up to so many
// rounds, at most 400, in parts of 1/1,000,000.
pub(crate) fn shore_prices(
    alloc: Global,
    inst: &Instance,
    net: &Network,
    pool: &mut ShorePool,
    branch: &Branch,
    rounds: u32,
) -> Result<PriceSet, Memory>
    requires net { net.now ≡ inst.now }
    requires belong { All (Belongs inst.now) pool.old }
    ensures offer { IfOk result (IsOffer inst.now pool.new) }
    ensures grown { IsGrown pool.old pool.new }
    ensures belong { All (Belongs inst.now) pool.new }
{
    let shores = weighted_shores(alloc, inst, net, pool, branch, rounds)?;
    let listed = place_weights(alloc, inst, pool, shores)?;
    let services = service_prices(alloc, inst)?;
    inst.validity();
    PriceSet::new(alloc, UNIT, &services, &listed)
}

// The cost of each service, in parts of the denominator.
fn service_prices(alloc: Global, inst: &Instance) -> Result<Vec<i64>, Memory>
    ensures { IfOk result (λ prices. prices.items ≡ map (λ x. pos (denominator * x.service)) (required_edges inst.now)) }
{
    let required = &inst.edges()[..inst.required() as usize];
    let mut prices = Vec::with_capacity(alloc, required.len())?;
    for edge in required {
        prices.push(service_price(edge))?;
    }
    Ok(prices)
}

fn service_price(edge: &Edge) -> i64
    requires { edge.now.service ≤ 1000000 }
    ensures { result ≡ pos (denominator * edge.now.service) }
{
    (UNIT * edge.service) as i64
}
