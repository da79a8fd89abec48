// Prices of services.
ghost use Rattle.std.specs.Prelude.{◌≡◌, ◌+◌, ◌*◌, ◌≤◌, pos, IfOk};
ghost use Rattle.dual_master.specs.Pieces.{ArePricesSmall, prices_at};

use carp_base::{Edge, Instance, Memory};
use std::alloc::Global;

// For each required edge its service cost times `unit`, and its demand times `share`.
pub(crate) fn service_prices(
    alloc: Global,
    inst: &Instance,
    unit: u64,
    share: u64,
) -> Result<Vec<i64>, Memory>
    requires { ArePricesSmall inst.now unit share }
    ensures { IfOk result (λ prices. prices.items ≡ prices_at inst.now unit share) }
{
    let required = &inst.edges()[..inst.required() as usize];
    let mut prices = Vec::with_capacity(alloc, required.len())?;
    for edge in required {
        prices.push(service_price(edge, unit, share))?;
    }
    Ok(prices)
}

fn service_price(edge: &Edge, unit: u64, share: u64) -> i64
    requires { unit * edge.now.service + share * edge.now.demand ≤ 1000000000000000 }
    ensures { result ≡ pos (unit * edge.now.service + share * edge.now.demand) }
{
    (unit * edge.service + share * edge.demand) as i64
}
