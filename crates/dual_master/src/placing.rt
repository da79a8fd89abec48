// Shores that are placed in a pool, and the set of their weights with services at cost.
ghost use Rattle.std.specs.Prelude.{◌≡◌, ◌+◌, ◌<◌, ◌≤◌, ◌++◌, ◌∷◌, [], length, IfOk, OnOk, OnErr};
ghost use Rattle.cut_pool.specs.Pools.{Holds};
ghost use Rattle.dual_master.specs.Floors.{shores_of};
ghost use Rattle.dual_master.specs.Pieces.{ArePlaceable, AreApart, HoldsFirst, prices_of, weights_from};

use crate::services::service_prices;
use branch_rules::{PriceSet, Weight};
use carp_base::{Fail, Instance, Memory};
use cut_pool::{PoolFull, ShorePool, Weighted};
use std::alloc::Global;

// Places a new shore, and gives its weight under its number.
fn place_shore(pool: &mut ShorePool, weighted: Weighted) -> Result<Weight, Memory>
    requires new { ¬ (Holds pool.old weighted.shore) }
    requires room { length pool.old < 2000 }
    ensures value { IfOk result (λ w. w ≡ record { shore = length pool.old + 1; weight = weighted.weight }) }
    ensures ok { OnOk result (pool.new ≡ pool.old ++ weighted.shore ∷ []) }
    ensures err { OnErr result (pool.new ≡ pool.old) }
{
    let weight = weighted.weight;
    match pool.add(weighted.shore) {
        Ok(shore) => Ok(Weight { shore, weight }),
        Err(Fail::Memory) => Err(Memory),
        Err(Fail::Refused(PoolFull)) => unreachable!(),
    }
}

// Places different shores in an empty pool, and gives their weights under their numbers.
fn place_shores(
    alloc: Global,
    pool: &mut ShorePool,
    shores: Vec<Weighted>,
) -> Result<Vec<Weight>, Memory>
    requires empty { pool.old ≡ [] }
    requires few { length shores.items ≤ 2000 }
    requires apart { AreApart shores.items }
    ensures value { IfOk result (λ weights. weights.items ≡ weights_from 1 shores.items) }
    ensures ok { OnOk result (pool.new ≡ shores_of shores.items) }
    ensures first { HoldsFirst shores.items pool.new }
{
    let mut weights = Vec::with_capacity(alloc, shores.len())?;
    for weighted in shores {
        weights.push(place_shore(pool, weighted)?)?;
    }
    Ok(weights)
}

// Services at cost and the weights of shores, which are placed in an empty pool, in parts of a denominator.
pub(crate) fn set_of_shores(
    alloc: Global,
    inst: &Instance,
    unit: u64,
    pool: &mut ShorePool,
    shores: Vec<Weighted>,
) -> Result<PriceSet, Memory>
    requires empty { pool.old ≡ [] }
    requires some_unit { 1 ≤ unit }
    requires unit_in { unit ≤ 1000000 }
    requires placeable { ArePlaceable inst.now shores.items }
    ensures value { IfOk result (λ set. set ≡ prices_of inst.now unit shores.items) }
    ensures ok { OnOk result (pool.new ≡ shores_of shores.items) }
    ensures first { HoldsFirst shores.items pool.new }
{
    inst.validity();
    let weights = place_shores(alloc, pool, shores)?;
    let services = service_prices(alloc, inst, unit, 0)?;
    PriceSet::new(alloc, unit, &services, &weights)
}
