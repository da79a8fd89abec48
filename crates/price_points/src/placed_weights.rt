// Shores with weights that are placed in a pool, and the list of their weights.
ghost use Rattle.std.specs.Prelude.{◌≡◌, ◌+◌, ◌≤◌, All, IfNone, IfOk, IfSome, OnOk, length};
ghost use Rattle.price_points.specs.Limits.{most_shores};
ghost use Rattle.cut_pool.specs.Pools.{Holds, IsGrown, IsHeldAs};
ghost use Rattle.cut_pool.specs.Shores.{Belongs};
ghost use Rattle.branch_rules.specs.Limits.{IsPriceNumber};
ghost use Rattle.route_pricing.specs.Pricing.{IsServicePrice};
ghost use Rattle.price_points.specs.Weights.{AreListed, IsWeighted};

use crate::constraints::{Constraint, Demand};
use crate::numbers::number_at;
use crate::points::{negative, sum_within};
use branch_rules::Weight;
use carp_base::{Fail, Instance, Memory};
use cut_pool::{MOST_SHORES, PoolFull, Shore, ShorePool, Weighted};
use std::alloc::Global;

/// The shores of constraints with their weights, as a price set has them: the negative of a weight if there are to be
/// few deadheads. A weight that asks for deadheads counts if it is `least` at least, and another one if it is above 0.
///
/// It asks for weights within 10^15 either way. Shores that do not belong to the instance are left out. The only error
/// is want of memory. It takes time in proportion to the sizes of the shores.
pub fn shores_with_weights(
    alloc: Global,
    inst: &Instance,
    constraints: &[Constraint],
    weights: &[i64],
    least: i64,
) -> Result<Vec<Weighted>, Memory>
    requires { All IsServicePrice weights.now }
    ensures { IfOk result (λ shores. All (IsWeighted inst.now) shores.items) }
{
    let mut shores = Vec::new(alloc);
    for place in 0..constraints.len() {
        let weight = number_at(weights, place);
        match &constraints[place].demand {
            Demand::Deadheads(shore) if weight >= least => {
                push_weighted(alloc, inst, shore, weight, &mut shores)?
            }
            Demand::FewDeadheads(shore) if weight > 0 => {
                push_weighted(alloc, inst, shore, negative(weight), &mut shores)?
            }
            _ => {}
        }
    }
    Ok(shores)
}

// Adds a shore with a weight, if it belongs to the instance.
fn push_weighted(
    alloc: Global,
    inst: &Instance,
    shore: &Shore,
    weight: i64,
    shores: &mut Vec<Weighted>,
) -> Result<(), Memory>
    requires weight { IsServicePrice weight }
    requires shores { All (IsWeighted inst.now) shores.old.items }
    ensures { OnOk result (All (IsWeighted inst.now) shores.new.items) }
{
    if shore.belongs(inst) {
        let shore = shore.copy(alloc)?;
        shores.push(Weighted { shore, weight })?;
    }
    Ok(())
}

/// Places shores with weights in a pool, and lists the weights by rising numbers of the shores there. Weights of the
/// same shore are added. If the pool is full, the weight of a new shore is lost.
///
/// It asks for shores that belong to the instance, as those of the pool do, and for weights within 10^15 either way. A
/// shore that the pool holds keeps its number. New ones stand behind the others, in their order. The only error is want
/// of memory. It takes expected time in proportion to the sizes of the shores, and to the number of those in the pool.
pub fn place_weights(
    alloc: Global,
    inst: &Instance,
    pool: &mut ShorePool,
    shores: Vec<Weighted>,
) -> Result<Vec<Weight>, Memory>
    requires shores { All (IsWeighted inst.now) shores.items }
    requires belong { All (Belongs inst.now) pool.old }
    ensures listed { IfOk result (λ listed. AreListed (length pool.new + 1) listed.items) }
    ensures few { IfOk result (λ listed. length pool.new ≤ most_shores) }
    ensures grown { IsGrown pool.old pool.new }
    ensures belong { All (Belongs inst.now) pool.new }
{
    let mut placed = vec![in alloc; 0; MOST_SHORES + 1]?;
    for weighted in shores {
        let weight = weighted.weight;
        place_weight(inst, pool, &mut placed, weighted.shore, weight)?;
    }
    let listed = list_weights(alloc, pool, &placed)?;
    Ok(listed)
}

// Places a shore in a pool, and adds its weight in `placed`, at the place of its number there. If the pool is full or
// `placed` ends before that place, the weight is lost.
fn place_weight(
    inst: &Instance,
    pool: &mut ShorePool,
    placed: &mut [i64],
    shore: Shore,
    weight: i64,
) -> Result<(), Memory>
    requires shore { Belongs inst.now shore }
    requires belong { All (Belongs inst.now) pool.old }
    requires within { All IsPriceNumber placed.old }
    ensures within { All IsPriceNumber placed.new }
    ensures one_each { length placed.new ≡ length placed.old }
    ensures grown { IsGrown pool.old pool.new }
    ensures belong { All (Belongs inst.now) pool.new }
{
    if let Some(number) = number_in(inst, pool, shore)? {
        add_weight(placed, number as usize, weight);
    }
    Ok(())
}

/// The number of a shore of the instance in a pool, where it is placed behind the others if it is new. It is `None` if
/// the pool holds 2,000 shores, and this is none of them.
///
/// It asks for a pool of shores that belong to the instance, which stay where they are. The only error is want of
/// memory. It takes expected time in proportion to the number of the shore's vertices.
pub fn number_in(inst: &Instance, pool: &mut ShorePool, shore: Shore) -> Result<Option<u32>, Memory>
    requires shore { Belongs inst.now shore }
    requires belong { All (Belongs inst.now) pool.old }
    ensures held { IfOk result (λ found. IfSome found (IsHeldAs pool.new shore)) }
    ensures full { IfOk result (λ found. IfNone found ((¬ (Holds pool.old shore)) × (length pool.old ≡ most_shores))) }
    ensures grown { IsGrown pool.old pool.new }
    ensures belong { All (Belongs inst.now) pool.new }
{
    match pool.add(shore) {
        Ok(number) => Ok(Some(number)),
        Err(Fail::Memory) => Err(Memory),
        Err(Fail::Refused(PoolFull)) => Ok(None),
    }
}

// Adds a weight to the one at a place, if there is one.
fn add_weight(placed: &mut [i64], place: usize, weight: i64)
    requires { All IsPriceNumber placed.old }
    ensures within { All IsPriceNumber placed.new }
    ensures one_each { length placed.new ≡ length placed.old }
{
    if place < placed.len() {
        placed[place] = sum_within(placed[place], weight);
    }
}

// The weights in `placed` that are not 0, each on the shore of the number that is its place, by rising numbers, for the
// shores of the pool.
fn list_weights(alloc: Global, pool: &ShorePool, placed: &[i64]) -> Result<Vec<Weight>, Memory>
    requires one_each { length placed.now ≡ most_shores + 1 }
    requires within { All IsPriceNumber placed.now }
    ensures listed { IfOk result (λ listed. AreListed (length pool.now + 1) listed.items) }
    ensures few { length pool.now ≤ most_shores }
{
    let mut listed = Vec::new(alloc);
    for shore in 1..pool.len() + 1 {
        let weight = placed[shore as usize];
        if weight != 0 {
            listed.push(Weight { shore, weight })?;
        }
    }
    Ok(listed)
}
