// The odd vertices of an instance, and the distances between all vertices.
ghost use Rattle.std.specs.Prelude.{◌≡◌, ◌≤◌, ◌++◌, ◌∷◌, [], ◌+◌, ℕ, slice_index, IfOk, OnOk, if◌then◌else◌};
ghost use Rattle.carp_base.specs.Problem.{IsValid, IsVertex};
ghost use Rattle.deadhead_paths.specs.Prices.{costs_of};
ghost use Rattle.edge_components.specs.Listing.{vertices_where};
ghost use Rattle.matching_duals.specs.OddSets.{is_odd};
ghost use Rattle.matching_duals.specs.Paths.{AddsRow, AreReaches, IsReach, far};

use carp_base::{Instance, Memory};
use deadhead_paths::{Distances, least_prices_are_there};
use road_network::Network;
use std::alloc::Global;

/// More than any distance, for vertices between which no steps lead.
const FAR: u64 = 1_000_000_000;

/// The odd vertices in rising order, and the distances between all vertices by cost: the distance of u from v stands
/// at u in the row of v, which has a place for 0 too, and rows follow each other.
#[derive(Drop)]
pub(crate) struct Ground {
    pub(crate) odd: Vec<u32>,
    pub(crate) table: Vec<u64>,
}

// Adds a vertex that an odd number of required edges end at.
fn add_odd(net: &Network, v: u32, odd: &mut Vec<u32>) -> Result<(), Memory>
    requires valid { IsValid net.now }
    requires vertex { IsVertex net.now v }
    ensures { OnOk result (odd.new.items ≡ odd.old.items ++ (if is_odd net.now v then v ∷ [] else [])) }
{
    if net.required_degree(v) % 2 == 1 {
        odd.push(v)?;
    }
    Ok(())
}

// The vertices that an odd number of required edges end at, rising.
fn list_odd(alloc: Global, inst: &Instance, net: &Network) -> Result<Vec<u32>, Memory>
    requires net { net.now ≡ inst.now }
    ensures { IfOk result (λ odd. odd.items ≡ vertices_where (is_odd net.now) inst.now.vertices) }
{
    let mut odd = Vec::new(alloc);
    for v in 1..inst.vertices() + 1 {
        add_odd(net, v, &mut odd)?;
    }
    Ok(odd)
}

// The distance from one vertex to another.
fn reach_of(inst: &Instance, dist: &Distances, v: u32, x: u32) -> u64
    requires problem { dist.now.problem ≡ inst.now }
    requires costs { dist.now.prices ≡ costs_of inst.now }
    requires from { IsVertex inst.now v }
    requires to { IsVertex inst.now x }
    ensures value { IsReach inst.now v x result }
    ensures small { result ≤ far }
{
    least_prices_are_there();
    inst.validity();
    match dist.get(v, x) {
        None => FAR,
        Some(price) => price as u64,
    }
}

// Adds the row of a vertex to a table.
fn add_row(inst: &Instance, dist: &Distances, x: u32, table: &mut Vec<u64>) -> Result<(), Memory>
    requires problem { dist.now.problem ≡ inst.now }
    requires costs { dist.now.prices ≡ costs_of inst.now }
    requires to { IsVertex inst.now x }
    requires small { (k : ℕ) → slice_index table.old.items k ≤ far }
    ensures { OnOk result (AddsRow inst.now x table.old.items table.new.items) }
{
    table.push(0)?;
    for v in 1..inst.vertices() + 1 {
        table.push(reach_of(inst, dist, v, x))?;
    }
    Ok(())
}

// The distances between all vertices.
fn tabulate(alloc: Global, inst: &Instance, dist: &Distances) -> Result<Vec<u64>, Memory>
    requires problem { dist.now.problem ≡ inst.now }
    requires costs { dist.now.prices ≡ costs_of inst.now }
    ensures { IfOk result (λ table. AreReaches inst.now table.items) }
{
    let mut table = vec![in alloc; 0; inst.vertices() as usize + 1]?;
    for x in 1..inst.vertices() + 1 {
        add_row(inst, dist, x, &mut table)?;
    }
    Ok(table)
}

impl Ground {
    // The odd vertices and the distances of an instance.
    pub(crate) fn survey(
        alloc: Global,
        inst: &Instance,
        net: &Network,
        dist: &Distances,
    ) -> Result<Ground, Memory>
        requires net { net.now ≡ inst.now }
        requires problem { dist.now.problem ≡ inst.now }
        requires costs { dist.now.prices ≡ costs_of inst.now }
        ensures odd { IfOk result (λ ground. ground.odd.items ≡ vertices_where (is_odd inst.now) inst.now.vertices) }
        ensures table { IfOk result (λ ground. AreReaches inst.now ground.table.items) }
    {
        Ok(Ground {
            odd: list_odd(alloc, inst, net)?,
            table: tabulate(alloc, inst, dist)?,
        })
    }
}
