// The points where an ascent begins.
ghost use Rattle.std.specs.Prelude.{◌≡◌, ◌<◌, All, IfOk, length};
ghost use Rattle.carp_base.specs.Problem.{IsRequired};
ghost use Rattle.route_pricing.specs.Pricing.{IsServicePrice};
ghost use Rattle.branch_rules.specs.Limits.{IsShoreOf};
ghost use Rattle.price_ascent.specs.Ascents.{IsStart};
ghost use Rattle.price_points.specs.Points.{IsPoint};
ghost use Rattle.price_points.specs.Services.{AreServicePrices};
ghost use Rattle.price_points.specs.Problems.{IsPricingProblem};

use branch_rules::{Branch, PriceSet};
use carp_base::{Instance, Memory};
use cut_pool::ShorePool;
use deadhead_paths::{Distances, cost_prices, distances};
use price_points::{
    Constraint, Demand, Point, PricingProblem, UNIT, clamped, floor, number_at, start_prices,
    start_sizes, start_weight,
};
use std::alloc::Global;

/// What the weights of a set are of, and its point.
#[derive(Drop)]
pub(crate) struct Start {
    pub(crate) constraints: Vec<Constraint>,
    pub(crate) point: Point,
}

/// The shores with a weight in a set, with their numbers under a branch, and the point of the set.
pub(crate) fn start_of(
    alloc: Global,
    inst: &Instance,
    pool: &ShorePool,
    branch: &Branch,
    set: &PriceSet,
) -> Result<Start, Memory>
    requires shores { All (λ w. IsShoreOf inst.now pool.now w.shore) set.now.weights }
    requires one_each { length set.now.services ≡ inst.now.required }
    ensures { IfOk result (IsStart inst.now) }
{
    let constraints = constraints_of(alloc, inst, pool, branch, set)?;
    let prices = start_prices(alloc, inst, set)?;
    let weights = start_sizes(alloc, set)?;
    let point = Point::new(inst, &constraints, prices, weights);
    Ok(Start { constraints, point })
}

fn constraints_of(
    alloc: Global,
    inst: &Instance,
    pool: &ShorePool,
    branch: &Branch,
    set: &PriceSet,
) -> Result<Vec<Constraint>, Memory>
    requires { All (λ w. IsShoreOf inst.now pool.now w.shore) set.now.weights }
{
    let mut constraints = Vec::with_capacity(alloc, set.weights())?;
    for place in 0..set.weights() {
        constraints.push(constraint_at(alloc, inst, pool, branch, set, place)?)?;
    }
    Ok(constraints)
}

// What the weight at a place is of. One below 0 is of the upper number of its shore.
fn constraint_at(
    alloc: Global,
    inst: &Instance,
    pool: &ShorePool,
    branch: &Branch,
    set: &PriceSet,
    place: usize,
) -> Result<Constraint, Memory>
    requires place { place < length set.now.weights }
    requires shores { All (λ w. IsShoreOf inst.now pool.now w.shore) set.now.weights }
{
    let number = set.weight(place).shore;
    let shore = pool.shore(number).copy(alloc)?;
    Ok(if start_weight(set, place) < 0 {
        let upper = branch.upper(number).unwrap_or(0);
        Constraint::new(Demand::FewDeadheads(shore), upper)
    } else {
        let lower = branch.lower(inst, pool, number);
        Constraint::new(Demand::Deadheads(shore), lower)
    })
}

/// The point where an ascent sets out: half of the weights, and half of what each edge is to pay if full vehicles drive
/// to it and back from it.
pub(crate) fn first_point(
    alloc: Global,
    problem: &PricingProblem<'_>,
    constraints: &[Constraint],
    weights: &[i64],
) -> Result<Point, Memory>
    requires problem { IsPricingProblem problem.now }
    requires weights { All IsServicePrice weights.now }
    ensures { IfOk result (IsPoint problem.now.inst.now) }
{
    let costs = cost_prices(alloc, problem.inst)?;
    let dist = distances(alloc, problem.inst, problem.net, &costs)?;
    let prices = first_prices(alloc, problem.inst, &dist)?;
    let weights = halves(alloc, constraints, weights)?;
    Ok(Point::new(problem.inst, constraints, prices, weights))
}

fn first_prices(alloc: Global, inst: &Instance, dist: &Distances) -> Result<Vec<i64>, Memory>
    requires { dist.now.problem ≡ inst.now }
    ensures { IfOk result (λ prices. AreServicePrices inst.now prices.items) }
{
    let mut prices = Vec::with_capacity(alloc, inst.required() as usize)?;
    for place in 0..inst.required() {
        prices.push(first_price(inst, dist, place + 1))?;
    }
    Ok(prices)
}

// The service cost, and half of the edge's part of a way to it and back without half of the edge itself.
fn first_price(inst: &Instance, dist: &Distances, e: u32) -> i64
    requires dist { dist.now.problem ≡ inst.now }
    requires edge { IsRequired inst.now e }
    ensures { IsServicePrice result }
{
    inst.validity();
    let edge = inst.edge(e);
    let out = dist.get(inst.depot(), edge.u).unwrap_or(0);
    let back = dist.get(edge.v, inst.depot()).unwrap_or(0);
    let way = out.saturating_add(back).min(1 << 62) as i128;
    let unit = i128::from(UNIT);
    let share = floor(
        way.saturating_mul(i128::from(edge.demand))
            .saturating_mul(unit),
        inst.capacity(),
    );
    let half = share.saturating_sub(unit.saturating_mul(i128::from(edge.cost)) / 2) / 2;
    clamped(half.saturating_add(unit.saturating_mul(i128::from(edge.service))))
}

fn halves(alloc: Global, constraints: &[Constraint], weights: &[i64]) -> Result<Vec<i64>, Memory>
    ensures { IfOk result (λ halves. All IsServicePrice halves.items) }
{
    let mut halves = Vec::with_capacity(alloc, constraints.len())?;
    for place in 0..constraints.len() {
        halves.push(half_of(&constraints[place], number_at(weights, place)))?;
    }
    Ok(halves)
}

// Half of a weight that asks for deadheads. Another one stays.
fn half_of(constraint: &Constraint, weight: i64) -> i64
    ensures { IsServicePrice result }
{
    match &constraint.demand {
        Demand::Deadheads(_) => clamped(i128::from(weight) / 2),
        _ => clamped(i128::from(weight)),
    }
}
