// Tables of distances, and the prices for them.
ghost use Rattle.std.specs.Prelude.{◌≡◌, IfOk};
ghost use Rattle.deadhead_paths.specs.Prices.{ArePrices, costs_of};

use crate::search::Search;
use crate::table::Distances;
use carp_base::{Instance, Memory};
use road_network::Network;
use std::alloc::Global;

/// The least prices between all pairs of vertices, and the steps that have them. A crossing of an edge without service
/// costs the edge's price. It takes one price for each edge, at most 4 * 10^18, and the network of the instance.
///
/// With n vertices and m edges it takes time in proportion to n (n + m) log n (Dijkstra 1959, once for each vertex),
/// and space to n^2.
///
/// ```
/// let net = Network::new(alloc, &inst)?;
/// let dist = distances(alloc, &inst, &net, &cost_prices(alloc, &inst)?)?;
/// assert_eq!(rt; dist.get(1, 2), Some(5));
/// ```
pub fn distances(
    alloc: Global,
    inst: &Instance,
    net: &Network,
    prices: &[u64],
) -> Result<Distances, Memory>
    requires net { net.now ≡ inst.now }
    requires prices { ArePrices inst.now prices.now }
    ensures problem { IfOk result (λ dist. dist.problem ≡ inst.now) }
    ensures prices { IfOk result (λ dist. dist.prices ≡ prices.now) }
{
    let vertices = inst.vertices();
    let places = vertices as usize * (vertices as usize + 1);
    let mut labels = Vec::with_capacity(alloc, places)?;
    let mut nexts = Vec::with_capacity(alloc, places)?;
    for target in 1..vertices + 1 {
        let search = Search::towards(alloc, inst, net, prices, target)?;
        labels.extend_from_slice(&search.labels)?;
        nexts.extend_from_slice(&search.nexts)?;
    }
    Ok(Distances {
        inst: inst.copy(alloc)?,
        prices: Vec::from_slice(alloc, prices)?,
        labels,
        nexts,
    })
}

/// The cost of each edge, as its price, in the order of the edges. It takes time and memory in proportion to the edges.
pub fn cost_prices(alloc: Global, inst: &Instance) -> Result<Vec<u64>, Memory>
    ensures value { IfOk result (λ prices. prices.items ≡ costs_of inst.now) }
    ensures fit { IfOk result (λ prices. ArePrices inst.now prices.items) }
{
    let edges = inst.edges();
    let mut prices = Vec::with_capacity(alloc, edges.len())?;
    for edge in edges {
        prices.push(edge.cost)?;
    }
    Ok(prices)
}
