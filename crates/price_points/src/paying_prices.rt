// Prices made such that relaxed tours pay.
ghost use Rattle.std.specs.Prelude.{IfOk};
ghost use Rattle.carp_base.specs.Problem.{IsRequired};
ghost use Rattle.route_pricing.specs.Pricing.{IsServicePrice};
ghost use Rattle.route_pricing.specs.Values.{IsRate};
ghost use Rattle.price_points.specs.Services.{AreServicePrices, IsFilledOn};

use crate::numbers::{clamped, floor, number_at};
use crate::tours::excess_over;
use carp_base::{Instance, Memory};
use route_pricing::{Rate, Table};
use std::alloc::Global;

/// The prices that pay, made of those that a table was filled with and of the least rate that it tells. Each takes
/// its part of the rate, and of what every tour through its edge is worth after that the part of its demand in a
/// vehicle's capacity.
///
/// The only error is want of memory. For m required edges and a capacity Q it takes `m * Q` steps.
pub fn paying_prices(
    alloc: Global,
    inst: &Instance,
    table: &Table,
    prices: &[i64],
    rate: Rate,
) -> Result<Vec<i64>, Memory>
    requires filled { IsFilledOn inst.now table.now }
    requires rate { IsRate rate }
    ensures { IfOk result (λ paying. AreServicePrices inst.now paying.items) }
{
    inst.validity();
    let mut paying = Vec::with_capacity(alloc, inst.required() as usize)?;
    for place in 0..inst.required() {
        paying.push(paying_price(inst, table, prices, place + 1, rate))?;
    }
    Ok(paying)
}

// The price of an edge with its part of the rate, and of the excess of the tours through it, which counts by the load
// of the rate.
fn paying_price(inst: &Instance, table: &Table, prices: &[i64], e: u32, rate: Rate) -> i64
    requires filled { IsFilledOn inst.now table.now }
    requires edge { IsRequired inst.now e }
    requires rate { IsRate rate }
    ensures { IsServicePrice result }
{
    inst.validity();
    let price = number_at(prices, e as usize - 1);
    let excess = excess_over(inst, table, e, rate);
    let demand = i128::from(inst.edge(e).demand);
    let share = floor(rate.value.saturating_mul(demand), rate.load);
    let spare = floor(excess.max(0), rate.load);
    let more = floor(spare.saturating_mul(demand), inst.capacity());
    clamped(i128::from(price).saturating_add(share).saturating_add(more))
}
