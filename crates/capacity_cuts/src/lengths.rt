// Distances from the depot as numbers.
ghost use Rattle.std.specs.Prelude.{◌≡◌, ◌≤◌, IfOk};
ghost use Rattle.carp_base.specs.Problem.{IsVertex};
ghost use Rattle.deadhead_paths.specs.Prices.{costs_of};
ghost use Rattle.capacity_cuts.specs.Lengths.{AreLengths, IsLength};

use carp_base::{Instance, Memory};
use deadhead_paths::{Distances, least_prices_are_there};
use std::alloc::Global;

// The distance of a vertex from the depot by cost, and 0 where the depot does not reach it.
fn length_of(inst: &Instance, dist: &Distances, v: u32) -> u64
    requires problem { dist.now.problem ≡ inst.now }
    requires costs { dist.now.prices ≡ costs_of inst.now }
    requires vertex { IsVertex inst.now v }
    ensures value { IsLength inst.now v result }
    ensures small { result ≤ 1000000000 }
{
    least_prices_are_there();
    match dist.get(inst.depot(), v) {
        None => 0,
        Some(price) => price as u64,
    }
}

// The length of each vertex at its place.
pub(crate) fn lengths_of(
    alloc: Global,
    inst: &Instance,
    dist: &Distances,
) -> Result<Vec<u64>, Memory>
    requires problem { dist.now.problem ≡ inst.now }
    requires costs { dist.now.prices ≡ costs_of inst.now }
    ensures { IfOk result (λ lengths. AreLengths inst.now lengths.items) }
{
    let mut lengths = Vec::with_capacity(alloc, inst.vertices() as usize + 1)?;
    lengths.push(0)?;
    for v in 1..inst.vertices() + 1 {
        lengths.push(length_of(inst, dist, v))?;
    }
    Ok(lengths)
}
