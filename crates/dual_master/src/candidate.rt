// Price sets with pools of their own, of which the best is taken.
ghost use Rattle.std.specs.Prelude.{◌≡◌, ◌⊎◌, IfOk};
ghost use Rattle.deadhead_paths.specs.Prices.{costs_of};
ghost use Rattle.route_pricing.specs.Tables.{IsRoom};
ghost use Rattle.dual_master.specs.Floors.{ReachesJoin, ReachesRatio, ReachesShell};
ghost use Rattle.dual_master.specs.Candidates.{IsCandidate, IsFloorSet, IsNoMore, IsValueWithin};

use crate::values::{is_no_more, value_under};
use crate::{join_prices, ratio_prices, shell_prices};
use branch_rules::{Branch, PriceSet};
use carp_base::{Instance, Memory};
use cut_pool::ShorePool;
use deadhead_paths::Distances;
use road_network::Network;
use route_pricing::Table;
use std::alloc::Global;

// A price set, the pool of its shores, and its value without decisions, in parts of the denominator.
#[derive(Drop)]
pub(crate) struct Candidate {
    pub(crate) pool: ShorePool,
    pub(crate) set: PriceSet,
    pub(crate) value: i128,
}

// The candidate of the Shell floor.
pub(crate) fn shell_candidate(
    alloc: Global,
    inst: &Instance,
    dist: &Distances,
) -> Result<Candidate, Memory>
    requires problem { dist.now.problem ≡ inst.now }
    requires costs { dist.now.prices ≡ costs_of inst.now }
    ensures candidate { IfOk result (IsCandidate inst.now) }
    ensures reaches { IfOk result (λ c. ReachesShell inst.now c.pool c.set) }
{
    let mut pool = ShorePool::new(alloc);
    let set = shell_prices(alloc, inst, dist, &mut pool)?;
    Ok(with_value(alloc, inst, pool, set))
}

// The candidate of the Ratio floor.
pub(crate) fn ratio_candidate(
    alloc: Global,
    inst: &Instance,
    dist: &Distances,
    table: &mut Table,
) -> Result<Candidate, Memory>
    requires problem { dist.now.problem ≡ inst.now }
    requires costs { dist.now.prices ≡ costs_of inst.now }
    requires room { IsRoom inst.now table.old }
    ensures candidate { IfOk result (IsCandidate inst.now) }
    ensures reaches { IfOk result (λ c. ReachesRatio inst.now c.pool c.set) }
    ensures room { IsRoom inst.now table.new }
{
    let set = ratio_prices(alloc, inst, dist, table)?;
    Ok(with_value(alloc, inst, ShorePool::new(alloc), set))
}

// The candidate of the Join floor.
pub(crate) fn join_candidate(
    alloc: Global,
    inst: &Instance,
    net: &Network,
    dist: &Distances,
) -> Result<Candidate, Memory>
    requires net { net.now ≡ inst.now }
    requires problem { dist.now.problem ≡ inst.now }
    requires costs { dist.now.prices ≡ costs_of inst.now }
    ensures candidate { IfOk result (IsCandidate inst.now) }
    ensures reaches { IfOk result (λ c. ReachesJoin inst.now c.pool c.set) }
{
    let mut pool = ShorePool::new(alloc);
    let set = join_prices(alloc, inst, net, dist, &mut pool)?;
    Ok(with_value(alloc, inst, pool, set))
}

// A set with its pool and its value.
fn with_value(alloc: Global, inst: &Instance, pool: ShorePool, set: PriceSet) -> Candidate
    requires { IsFloorSet inst.now pool set }
    ensures pool { result.pool ≡ pool }
    ensures set { result.set ≡ set }
    ensures candidate { IsCandidate inst.now result }
{
    let value = value_under(inst, &pool, &Branch::new(alloc), &set);
    Candidate { pool, set, value }
}

// The one of the greater value divided by its denominator; the first one where they are the same.
pub(crate) fn better(one: Candidate, other: Candidate) -> Candidate
    requires one { IsValueWithin one.value }
    requires other { IsValueWithin other.value }
    ensures either { (result ≡ one) ⊎ (result ≡ other) }
    ensures over_one { IsNoMore one result }
    ensures over_other { IsNoMore other result }
{
    if is_no_more(other.value, other.set.unit(), one.value, one.set.unit()) {
        one
    } else {
        other
    }
}
