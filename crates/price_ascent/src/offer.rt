// A price set of an ascent.
ghost use Rattle.std.specs.Prelude.{◌≡◌, All, IfOk, IfSome, length};
ghost use Rattle.cut_pool.specs.Pools.{IsGrown};
ghost use Rattle.cut_pool.specs.Shores.{Belongs};
ghost use Rattle.branch_rules.specs.Limits.{IsShoreOf};
ghost use Rattle.route_pricing.specs.Tables.{IsRoom};
ghost use Rattle.leaf_adviser.specs.Leaves.{IsLeaf};
ghost use Rattle.leaf_adviser.specs.Offers.{IsOffer};
ghost use Rattle.price_ascent.specs.Ascents.{IsAscent};

use crate::ascent::Ascent;
use crate::start::start_of;
use branch_rules::PriceSet;
use carp_base::{Instance, Memory};
use cut_pool::ShorePool;
use leaf_adviser::Leaf;
use price_points::{PricingProblem, UNIT, place_weights, shores_with_weights};
use route_pricing::Table;
use std::alloc::Global;

// How many fills of the table there are at most, and at least: an ascent of fewer is not worth its time.
const MOST_FILLS: u32 = 400;

const LEAST_FILLS: u64 = 60;

// So much work, by the count of steps of fills, is allowed.
const WORK: u64 = 1_650_000_000;

// A price set under a branch by an ascent from a start, or `None` if no edge is required, if `rounds` is 0, or if the
// instance is so large that 60 fills of the table pass a measure of work.
pub(crate) fn ascend(
    alloc: Global,
    leaf: &Leaf<'_>,
    table: &mut Table,
    pool: &mut ShorePool,
    start: &PriceSet,
    rounds: u32,
) -> Result<Option<PriceSet>, Memory>
    requires leaf { IsLeaf leaf.now }
    requires room { IsRoom leaf.now.inst.now table.old }
    requires belong { All (Belongs leaf.now.inst.now) pool.old }
    requires shores { All (λ w. IsShoreOf leaf.now.inst.now pool.old w.shore) start.now.weights }
    requires one_each { length start.now.services ≡ leaf.now.inst.now.required }
    ensures offer { IfOk result (λ set. IfSome set (IsOffer leaf.now.inst.now pool.new)) }
    ensures grown { IsGrown pool.old pool.new }
    ensures belong { All (Belongs leaf.now.inst.now) pool.new }
    ensures room { IsRoom leaf.now.inst.now table.new }
{
    let fills = fills_for(leaf.inst, rounds);
    if fills == 0 {
        return Ok(None);
    }
    match best_ascent(alloc, leaf, table, pool, start, fills)? {
        Some(ascent) => Ok(Some(offer(alloc, leaf.inst, pool, &ascent)?)),
        None => Ok(None),
    }
}

// How many fills are made: none where they would be too few.
fn fills_for(inst: &Instance, rounds: u32) -> u32 {
    let ends = u64::from(inst.vertices()).min(u64::from(inst.required()).saturating_mul(2));
    let labels = ends.saturating_mul(ends).saturating_mul(2);
    let streets = u64::from(inst.edge_count()).saturating_mul(48);
    let tasks = u64::from(inst.required()).saturating_mul(8);
    let fill = labels
        .min(streets)
        .saturating_add(tasks)
        .saturating_mul(inst.capacity());
    let affordable = WORK / fill.max(1);
    if inst.required() == 0 || affordable < LEAST_FILLS {
        0
    } else {
        rounds.min(MOST_FILLS).min(affordable.min(1_000_000) as u32)
    }
}

// The ascent after so many fills.
fn best_ascent(
    alloc: Global,
    leaf: &Leaf<'_>,
    table: &mut Table,
    pool: &ShorePool,
    start: &PriceSet,
    fills: u32,
) -> Result<Option<Ascent>, Memory>
    requires leaf { IsLeaf leaf.now }
    requires room { IsRoom leaf.now.inst.now table.old }
    requires shores { All (λ w. IsShoreOf leaf.now.inst.now pool.now w.shore) start.now.weights }
    requires one_each { length start.now.services ≡ leaf.now.inst.now.required }
    ensures ascent { IfOk result (λ found. IfSome found (IsAscent leaf.now.inst.now)) }
    ensures room { IsRoom leaf.now.inst.now table.new }
{
    let allowed = leaf.branch.allowed(alloc, leaf.inst)?;
    let problem = PricingProblem {
        inst: leaf.inst,
        net: leaf.net,
        allowed: &allowed,
    };
    let start = start_of(alloc, leaf.inst, pool, leaf.branch, start)?;
    let Some(mut ascent) = Ascent::begin(alloc, &problem, table, start)? else {
        return Ok(None);
    };
    ascent.climb(alloc, &problem, table, fills)?;
    Ok(Some(ascent))
}

// The best point of an ascent as a price set, with its shores placed in the pool.
fn offer(
    alloc: Global,
    inst: &Instance,
    pool: &mut ShorePool,
    ascent: &Ascent,
) -> Result<PriceSet, Memory>
    requires ascent { IsAscent inst.now ascent.now }
    requires belong { All (Belongs inst.now) pool.old }
    ensures offer { IfOk result (IsOffer inst.now pool.new) }
    ensures grown { IsGrown pool.old pool.new }
    ensures belong { All (Belongs inst.now) pool.new }
{
    let best = &ascent.best;
    let least = least_weight(inst);
    let shores = shores_with_weights(alloc, inst, &ascent.constraints, &best.weights, least)?;
    let listed = place_weights(alloc, inst, pool, shores)?;
    inst.validity();
    PriceSet::new(alloc, UNIT, &best.prices, &listed)
}

// A thousandth of the mean cost of an edge, and at least 1: a weight below it is not worth a shore.
fn least_weight(inst: &Instance) -> i64 {
    let mut sum: u64 = 0;
    for edge in inst.edges() {
        sum = sum.saturating_add(edge.cost);
    }
    let mean = sum.saturating_mul(UNIT) / u64::from(inst.edge_count()).max(1);
    (mean / 1000).clamp(1, 1_000_000_000_000) as i64
}
