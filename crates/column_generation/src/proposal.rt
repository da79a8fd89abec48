// The best point as a price set, when it is proposed, and what value is enough.
ghost use Rattle.std.specs.Prelude.{All, IfOk, IfSome};
ghost use Rattle.cut_pool.specs.Pools.{IsGrown};
ghost use Rattle.cut_pool.specs.Shores.{Belongs};
ghost use Rattle.branch_rules.specs.Limits.{IsShoreOf};
ghost use Rattle.leaf_adviser.specs.Offers.{IsOffer};
ghost use Rattle.price_points.specs.Points.{IsPoint};
ghost use Rattle.column_generation.specs.Points.{IsGeneration};

use crate::generation::Generation;
use crate::groups::weighted_groups;
use branch_rules::{Branch, PriceSet};
use carp_base::{Instance, Memory};
use cut_pool::ShorePool;
use price_points::{Constraint, Point, UNIT, place_weights, service_costs, shores_with_weights};
use std::alloc::Global;

impl Generation {
    /// The best point as a price set, if it is above the start, or `None`.
    ///
    /// The set has a price for each required edge, weights on shores of the pool that belong to the instance, and
    /// weights on groups of required edges. Shores with a weight are placed in the pool behind those that it held. If
    /// there is no room for one, it loses its weight. The only error is want of memory.
    pub fn proposal(
        &self,
        alloc: Global,
        inst: &Instance,
        pool: &mut ShorePool,
        branch: &Branch,
        start: &PriceSet,
    ) -> Result<Option<PriceSet>, Memory>
        requires belong { All (Belongs inst.now) pool.old }
        requires shores { All (λ w. IsShoreOf inst.now pool.old w.shore) start.now.weights }
        requires generation { IsGeneration inst.now self.now }
        ensures offer { IfOk result (λ set. IfSome set (IsOffer inst.now pool.new)) }
        ensures grown { IsGrown pool.old pool.new }
        ensures belong { All (Belongs inst.now) pool.new }
    {
        if !is_above(inst, pool, branch, start, self.best.value) {
            return Ok(None);
        }
        let set = offer(alloc, inst, pool, &self.master.constraints, &self.best)?;
        Ok(Some(set))
    }
}

// A point as a price set, with its shores placed in the pool.
fn offer(
    alloc: Global,
    inst: &Instance,
    pool: &mut ShorePool,
    constraints: &[Constraint],
    point: &Point,
) -> Result<PriceSet, Memory>
    requires point { IsPoint inst.now point.now }
    requires belong { All (Belongs inst.now) pool.old }
    ensures offer { IfOk result (IsOffer inst.now pool.new) }
    ensures grown { IsGrown pool.old pool.new }
    ensures belong { All (Belongs inst.now) pool.new }
{
    let shores = shores_with_weights(alloc, inst, constraints, &point.weights, 1)?;
    let listed = place_weights(alloc, inst, pool, shores)?;
    let groups = weighted_groups(alloc, inst, constraints, &point.weights)?;
    inst.validity();
    let set = PriceSet::new(alloc, UNIT, &point.prices, &listed)?;
    Ok(set.with_groups(groups))
}

// Whether a value, which counts no service costs, is above that of a set.
fn is_above(inst: &Instance, pool: &ShorePool, branch: &Branch, set: &PriceSet, value: i128) -> bool
    requires { All (λ w. IsShoreOf inst.now pool.now w.shore) set.now.weights }
{
    let whole = value.saturating_add(service_costs(inst));
    match branch.value_at(inst, pool, set) {
        Ok(other) => {
            let unit = i128::from(set.unit());
            whole.saturating_mul(unit) > other.saturating_mul(i128::from(UNIT))
        }
        Err(_) => false,
    }
}

/// A value, which counts no service costs, that is enough for a bound.
pub fn enough_for(inst: &Instance, cost: u64) -> i128 {
    let unit = i128::from(UNIT);
    let below = i128::from(cost.saturating_sub(1)).saturating_mul(unit);
    below.saturating_sub(service_costs(inst)).saturating_add(1)
}
