// Answers of least costs, of level sets and of join bounds, for the cases of `data/paths`.
ghost use Rattle.std.specs.Prelude.{◌≡◌};
ghost use Rattle.deadhead_paths.specs.Prices.{costs_of};

use capacity_cuts::shells;
use carp_base::Instance;
use deadhead_paths::{Distances, cost_prices, distances};
use matching_duals::join_bound;
use road_network::Network;
use samples::{instance_of, listed, numbers32, weighted};
use std::alloc::Global;
use std::test::Fail;

pub fn answer(alloc: Global, over: &str, call: &str, input: &str) -> Result<String, Fail> {
    let inst = instance_of(alloc, over)?;
    let prices = cost_prices(alloc, &inst)?;
    let net = Network::new(alloc, &inst)?;
    let dist = distances(alloc, &inst, &net, &prices)?;
    match call {
        "least" => least(alloc, &inst, &dist, input),
        "levels" => Ok(weighted(alloc, &shells(alloc, &inst, &dist)?)?),
        "join" => join(alloc, &inst, &net, &dist),
        _ => Err("no such call")?,
    }
}

// The least cost from one vertex to another, or `none`.
fn least(alloc: Global, inst: &Instance, dist: &Distances, input: &str) -> Result<String, Fail>
    requires { dist.now.problem ≡ inst.now }
{
    let (from, to) = two_of(alloc, input)?;
    let last = inst.vertices();
    if from < 1 || last < from || to < 1 || last < to {
        Err("no such vertex")?
    }
    match dist.get(from, to) {
        Some(price) => Ok(listed(alloc, &[price])?),
        None => Ok(String::from_str(alloc, "none")?),
    }
}

fn two_of(alloc: Global, input: &str) -> Result<(u32, u32), Fail> {
    match numbers32(alloc, input)?.as_slice() {
        [from, to] => Ok((*from, *to)),
        _ => Err("two vertices are asked for")?,
    }
}

// The value, the deadheads over each edge, and the shores with their halves.
fn join(alloc: Global, inst: &Instance, net: &Network, dist: &Distances) -> Result<String, Fail>
    requires net { net.now ≡ inst.now }
    requires problem { dist.now.problem ≡ inst.now }
    requires costs { dist.now.prices ≡ costs_of inst.now }
{
    let bound = join_bound(alloc, inst, net, dist)?;
    let value = bound.value;
    let deadheads = listed(alloc, &bound.deadheads)?;
    let shores = weighted(alloc, &bound.shores)?;
    Ok(format!(in alloc; "{value}; {deadheads}; {shores}")?)
}
