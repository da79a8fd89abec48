// One number of a price set.
ghost use Rattle.std.specs.Prelude.{◌≡◌, ◌≤◌, ◌+ℤ◌, ◌≤ℤ◌, pos, All, IfOk, length};
ghost use Rattle.cut_pool.specs.Pools.{IsShoreNumber};
ghost use Rattle.branch_rules.specs.Prices.{price_in};
ghost use Rattle.tight_prices.specs.Places.{IsNumbered, IsPlaceOn, number_at, raised};
ghost use Rattle.tight_prices.specs.Tight.{add_price, add_weight, weight_on, with_price, with_weight};

use crate::heavier::{heavier, weight_in, weights_of};
use crate::probe::service_prices;
use branch_rules::{PriceSet, Weight};
use carp_base::Memory;
use cut_pool::ShorePool;
use std::alloc::Global;

/// Where a number of a price set stands: the price of an edge, or the weight on a shore.
#[derive(Clone, Copy, Debug, PartialEq, Eq)]
pub(crate) enum Place {
    Edge(u32),
    Shore(u32),
}

/// No number of a price set is greater.
pub(crate) const MOST: i64 = 1_000_000_000_000_000;

/// A set as it is.
pub(crate) fn copy(alloc: Global, set: &PriceSet) -> Result<PriceSet, Memory>
    ensures { IfOk result (λ copy. copy ≡ set.now) }
{
    set.copy(alloc)
}

/// By how much the number is below the greatest one.
pub(crate) fn room(set: &PriceSet, place: Place) -> u64
    requires { IsPlaceOn set.now place }
    ensures value { (number_at set.now place +ℤ pos result) ≡ pos 1000000000000000 }
    ensures small { result ≤ 2000000000000000 }
{
    let _ = set.unit();
    match place {
        Place::Edge(e) => (MOST - set.service(e)) as u64,
        Place::Shore(s) => (MOST - weight_in(set, s)) as u64,
    }
}

/// The set with a number greater by so much, which is at most 10^15 then.
pub(crate) fn raise(
    alloc: Global,
    pool: &ShorePool,
    set: &PriceSet,
    place: Place,
    more: u64,
) -> Result<PriceSet, Memory>
    requires place { IsPlaceOn set.now place }
    requires shores { All (λ w. IsShoreNumber pool.now w.shore) set.now.weights }
    requires number { IsNumbered pool.now place }
    requires within { (number_at set.now place +ℤ pos more) ≤ℤ pos 1000000000000000 }
    ensures { IfOk result (λ higher. higher ≡ raised set.now place more) }
{
    match place {
        Place::Edge(e) => raise_price(alloc, set, e, more),
        Place::Shore(s) => raise_weight(alloc, pool, set, s, more),
    }
}

// The set with the price of an edge greater by so much.
fn raise_price(alloc: Global, set: &PriceSet, e: u32, more: u64) -> Result<PriceSet, Memory>
    requires from_one { 1 ≤ e }
    requires in_range { e ≤ length set.now.services }
    requires within { (price_in set.now e +ℤ pos more) ≤ℤ pos 1000000000000000 }
    ensures { IfOk result (λ higher. higher ≡ with_price set.now e more) }
{
    let _ = set.unit();
    let services = higher_prices(alloc, set, e, more)?;
    let weights = weights_of(alloc, set)?;
    set.rebuilt(alloc, &services, &weights)
}

// The set with the weight on a shore greater by so much.
fn raise_weight(
    alloc: Global,
    pool: &ShorePool,
    set: &PriceSet,
    s: u32,
    more: u64,
) -> Result<PriceSet, Memory>
    requires shores { All (λ w. IsShoreNumber pool.now w.shore) set.now.weights }
    requires number { IsShoreNumber pool.now s }
    requires within { (weight_on set.now.weights s +ℤ pos more) ≤ℤ pos 1000000000000000 }
    ensures { IfOk result (λ higher. higher ≡ with_weight set.now s more) }
{
    let _ = (pool.len(), set.unit());
    let services = service_prices(alloc, set)?;
    let weights = higher_weights(alloc, set, s, more)?;
    set.rebuilt(alloc, &services, &weights)
}

// The weights, with that on a shore greater by so much.
fn higher_weights(alloc: Global, set: &PriceSet, s: u32, more: u64) -> Result<Vec<Weight>, Memory>
    requires { (weight_on set.now.weights s +ℤ pos more) ≤ℤ pos 1000000000000000 }
    ensures { IfOk result (λ weights. weights.items ≡ add_weight s more set.now.weights) }
{
    let _ = set.unit();
    let weight = higher_weight(set, s, more);
    let all = weights_of(alloc, set)?;
    heavier(alloc, &all, s, weight)
}

// The prices, with that of an edge greater by so much.
fn higher_prices(alloc: Global, set: &PriceSet, e: u32, more: u64) -> Result<Vec<i64>, Memory>
    requires from_one { 1 ≤ e }
    requires in_range { e ≤ length set.now.services }
    requires within { (price_in set.now e +ℤ pos more) ≤ℤ pos 1000000000000000 }
    ensures { IfOk result (λ services. services.items ≡ add_price e more set.now.services) }
{
    let mut services = service_prices(alloc, set)?;
    services[e as usize - 1] = higher_price(set, e, more);
    Ok(services)
}

// The price of an edge, greater by so much.
fn higher_price(set: &PriceSet, e: u32, more: u64) -> i64
    requires from_one { 1 ≤ e }
    requires in_range { e ≤ length set.now.services }
    requires within { (price_in set.now e +ℤ pos more) ≤ℤ pos 1000000000000000 }
    ensures { result ≡ price_in set.now e +ℤ pos more }
{
    let _ = set.unit();
    set.service(e) + more as i64
}

// The weight on a shore, greater by so much.
fn higher_weight(set: &PriceSet, s: u32, more: u64) -> i64
    requires { (weight_on set.now.weights s +ℤ pos more) ≤ℤ pos 1000000000000000 }
    ensures { result ≡ weight_on set.now.weights s +ℤ pos more }
{
    let _ = set.unit();
    weight_in(set, s) + more as i64
}
