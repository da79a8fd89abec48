// The numbers of a price set by the denominator of the proposals.
ghost use Rattle.std.specs.Prelude.{◌≡◌, ◌<◌, ◌≤◌, All, IfOk, length};
ghost use Rattle.route_pricing.specs.Pricing.{IsServicePrice};
ghost use Rattle.price_points.specs.Services.{AreServicePrices};

use crate::numbers::{UNIT, clamped, floor, quotient};
use branch_rules::PriceSet;
use carp_base::{Instance, Memory};
use std::alloc::Global;

/// The prices of a set by the denominator of the proposals, rounded down. The only error is want of memory.
pub fn start_prices(alloc: Global, inst: &Instance, set: &PriceSet) -> Result<Vec<i64>, Memory>
    requires { length set.now.services ≡ inst.now.required }
    ensures { IfOk result (λ prices. AreServicePrices inst.now prices.items) }
{
    let mut prices = Vec::with_capacity(alloc, inst.required() as usize)?;
    for place in 0..inst.required() {
        prices.push(start_price(set, place + 1))?;
    }
    Ok(prices)
}

fn start_price(set: &PriceSet, e: u32) -> i64
    requires from_one { 1 ≤ e }
    requires in_range { e ≤ length set.now.services }
    ensures { IsServicePrice result }
{
    let whole = i128::from(set.service(e)).saturating_mul(i128::from(UNIT));
    clamped(floor(whole, set.unit()))
}

/// The sizes of the weights of a set on shores by the denominator of the proposals, rounded towards 0. The only error is
/// want of memory.
pub fn start_sizes(alloc: Global, set: &PriceSet) -> Result<Vec<i64>, Memory>
    ensures { IfOk result (λ sizes. All IsServicePrice sizes.items) }
{
    let mut sizes = Vec::with_capacity(alloc, set.weights())?;
    for place in 0..set.weights() {
        sizes.push(start_size(set, place))?;
    }
    Ok(sizes)
}

fn start_size(set: &PriceSet, place: usize) -> i64
    requires { place < length set.now.weights }
    ensures { IsServicePrice result }
{
    clamped(i128::from(start_weight(set, place)).saturating_abs())
}

/// The weight at a place of a set by the denominator of the proposals, rounded towards 0.
pub fn start_weight(set: &PriceSet, place: usize) -> i64
    requires { place < length set.now.weights }
    ensures { IsServicePrice result }
{
    let whole = i128::from(set.weight(place).weight).saturating_mul(i128::from(UNIT));
    clamped(quotient(whole, i128::from(set.unit())))
}
