// The price set of the Ratio floor.
ghost use Rattle.std.specs.Prelude.{◌≡◌, ℕ, List, [], IfOk, MatchOption};
ghost use Rattle.deadhead_paths.specs.Prices.{costs_of};
ghost use Rattle.route_pricing.specs.Tables.{IsRoom};
ghost use Rattle.dual_master.specs.Floors.{FitsAlways, IsLeastCostRatio, ReachesRatio, ShowsRatio};
ghost use Rattle.dual_master.specs.Pieces.{IsRatioIn, ratio_set};
ghost use Rattle.dual_master.specs.Sets.{IsRatioSet};

use crate::services::service_prices;
use branch_rules::{PriceSet, surcharge_table};
use carp_base::{Allowed, Instance, Memory};
use deadhead_paths::{Distances, least_prices_are_there};
use route_pricing::{Ratio, Table};
use std::alloc::Global;

// The ratio where nothing is to be served, so that there is no tour.
const NOTHING: Ratio = Ratio {
    deadhead: 0,
    load: 1,
};

/// The set of the Ratio floor. If a / b is the least deadhead divided by load over all relaxed tours in which no edge
/// follows itself, the denominator is b, and the price of an edge is b times its service cost and a times its demand.
///
/// The Ratio floor is the service costs and the total demand times a / b (relaxed tours: Christofides, Mingozzi and
/// Toth 1981). The set has no weights, so it says nothing of a pool. It fits under every branch, since the deadhead of
/// each relaxed tour divided by its load is at least a / b. Its value divided by its denominator is exactly the floor.
/// If no edge is required, it is the empty set with the denominator 1, of the value 0.
///
/// It asks for distances by cost and for a table that was made for the instance, and fills the table. The only error is
/// want of memory. With m required edges it takes one filling of the table, one look over it, and m * m steps for the
/// pairs.
pub fn ratio_prices(
    alloc: Global,
    inst: &Instance,
    dist: &Distances,
    table: &mut Table,
) -> Result<PriceSet, Memory>
    requires problem { dist.now.problem ≡ inst.now }
    requires costs { dist.now.prices ≡ costs_of inst.now }
    requires room { IsRoom inst.now table.old }
    ensures fits { IfOk result (λ set. (pool : List (List ℕ)) → FitsAlways inst.now pool set) }
    ensures reaches { IfOk result (λ set. (pool : List (List ℕ)) → ReachesRatio inst.now pool set) }
    ensures value { IfOk result (λ set. (pool : List (List ℕ)) → ShowsRatio inst.now pool set) }
    ensures no_weights { IfOk result (λ set. set.weights ≡ []) }
    ensures no_groups { IfOk result (λ set. set.groups ≡ []) }
    ensures made { IfOk result (IsRatioSet inst.now) }
    ensures room { IsRoom inst.now table.new }
{
    least_prices_are_there();
    inst.validity();
    match least_ratio(alloc, inst, dist, table)? {
        None => prices_by(alloc, inst, &NOTHING),
        Some(ratio) => prices_by(alloc, inst, &ratio),
    }
}

// The least ratio of deadhead and load by cost.
fn least_ratio(
    alloc: Global,
    inst: &Instance,
    dist: &Distances,
    table: &mut Table,
) -> Result<Option<Ratio>, Memory>
    requires problem { dist.now.problem ≡ inst.now }
    requires costs { dist.now.prices ≡ costs_of inst.now }
    requires room { IsRoom inst.now table.old }
    ensures value { IfOk result (λ found. MatchOption found (inst.now.required ≡ 0) (λ r. IsLeastCostRatio inst.now r.deadhead r.load)) }
    ensures room { IsRoom inst.now table.new }
{
    inst.validity();
    let services = service_prices(alloc, inst, 1, 0)?;
    let allowed = Allowed::all(alloc, inst)?;
    let surcharges = surcharge_table(alloc, inst.required(), &[])?;
    table.fill(inst, dist, 1, &services, &allowed, &surcharges);
    Ok(table.least_ratio())
}

// The prices by a ratio of deadhead and load.
fn prices_by(alloc: Global, inst: &Instance, ratio: &Ratio) -> Result<PriceSet, Memory>
    requires { IsRatioIn inst.now ratio.now.deadhead ratio.now.load }
    ensures { IfOk result (λ set. set ≡ ratio_set inst.now ratio.now.deadhead ratio.now.load) }
{
    inst.validity();
    let services = service_prices(alloc, inst, ratio.load, ratio.deadhead as u64)?;
    PriceSet::new(alloc, ratio.load, &services, &[])
}
