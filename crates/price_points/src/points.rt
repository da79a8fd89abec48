// Prices of services and weights of constraints.
ghost use Rattle.std.specs.Prelude.{◌≡◌, neg_ℤ, All, IfOk, length};
ghost use Rattle.carp_base.specs.Problem.{IsRequired};
ghost use Rattle.route_pricing.specs.Pricing.{IsServicePrice};
ghost use Rattle.price_points.specs.Points.{IsPoint};
ghost use Rattle.price_points.specs.Services.{AreServicePrices};

use crate::constraints::Constraint;
use crate::numbers::{UNIT, clamped, floor, number_at};
use carp_base::{Instance, Memory};
use std::alloc::Global;

/// Prices of services and weights of constraints, all by the denominator [`UNIT`]: multipliers of what tours and
/// deadheads meet together.
#[derive(Drop)]
pub struct Point {
    /// The prices, in the order of the required edges.
    pub prices: Vec<i64>,
    /// The weights, in the order of the constraints. Those past the end are 0.
    pub weights: Vec<i64>,
    /// What the prices and the weights come to, without the costs of the services.
    pub value: i128,
}

impl Point {
    /// The point of these prices and weights.
    pub fn new(
        inst: &Instance,
        constraints: &[Constraint],
        prices: Vec<i64>,
        weights: Vec<i64>,
    ) -> Point
        requires prices { AreServicePrices inst.now prices.items }
        requires weights { All IsServicePrice weights.items }
        ensures { IsPoint inst.now result }
    {
        let value = value_of(inst, constraints, &prices, &weights);
        Point {
            prices,
            weights,
            value,
        }
    }

    /// A copy. The only error is want of memory.
    pub fn copy(&self, alloc: Global) -> Result<Point, Memory>
        ensures prices { IfOk result (λ copy. copy.prices.items ≡ self.now.prices.items) }
        ensures weights { IfOk result (λ copy. copy.weights.items ≡ self.now.weights.items) }
    {
        Ok(Point {
            prices: Vec::from_slice(alloc, &self.prices)?,
            weights: Vec::from_slice(alloc, &self.weights)?,
            value: self.value,
        })
    }

    /// The point halfway to another one, each number rounded down. The only error is want of memory.
    pub fn halfway(
        &self,
        alloc: Global,
        inst: &Instance,
        constraints: &[Constraint],
        other: &Point,
    ) -> Result<Point, Memory>
        ensures { IfOk result (IsPoint inst.now) }
    {
        let prices = means(alloc, inst.required() as usize, &self.prices, &other.prices)?;
        let weights = means(alloc, constraints.len(), &self.weights, &other.weights)?;
        Ok(Point::new(inst, constraints, prices, weights))
    }
}

/// The cost of a service by the denominator.
pub fn service_cost(inst: &Instance, e: u32) -> i128
    requires { IsRequired inst.now e }
{
    inst.validity();
    i128::from(UNIT).saturating_mul(i128::from(inst.edge(e).service))
}

/// The cost of all services by the denominator.
pub fn service_costs(inst: &Instance) -> i128 {
    i128::from(inst.required_cost()).saturating_mul(i128::from(UNIT))
}

/// A weight within the limits, and 0 for one below 0.
pub fn positive_weight(weight: i64) -> i64
    ensures { IsServicePrice result }
{
    clamped(i128::from(weight.max(0)))
}

/// The negative of a weight.
pub fn negative(weight: i64) -> i64
    requires { IsServicePrice weight }
    ensures value { result ≡ neg_ℤ weight }
    ensures within { IsServicePrice result }
{
    -weight
}

/// The sum of two weights within the limits.
pub fn sum_within(one: i64, other: i64) -> i64
    ensures { IsServicePrice result }
{
    clamped(i128::from(one).saturating_add(i128::from(other)))
}

// The means of the first so many numbers.
fn means(alloc: Global, count: usize, some: &[i64], others: &[i64]) -> Result<Vec<i64>, Memory>
    ensures one_each { IfOk result (λ means. length means.items ≡ count) }
    ensures within { IfOk result (λ means. All IsServicePrice means.items) }
{
    let mut means = Vec::with_capacity(alloc, count)?;
    for place in 0..count {
        means.push(mean_at(some, others, place))?;
    }
    Ok(means)
}

// The mean of the numbers at a place, rounded down.
fn mean_at(some: &[i64], others: &[i64], place: usize) -> i64
    ensures { IsServicePrice result }
{
    let some = i128::from(number_at(some, place));
    let other = i128::from(number_at(others, place));
    clamped(floor(some.saturating_add(other), 2))
}

// What prices and weights come to: the prices without the costs of the services, and each weight for the right side of
// its constraint.
fn value_of(inst: &Instance, constraints: &[Constraint], prices: &[i64], weights: &[i64]) -> i128 {
    sum_of(prices)
        .saturating_sub(service_costs(inst))
        .saturating_add(weights_value(constraints, weights))
}

fn sum_of(prices: &[i64]) -> i128 {
    let mut sum: i128 = 0;
    for price in prices {
        sum = sum.saturating_add(i128::from(*price));
    }
    sum
}

fn weights_value(constraints: &[Constraint], weights: &[i64]) -> i128 {
    let mut sum: i128 = 0;
    for place in 0..constraints.len() {
        let weight = i128::from(number_at(weights, place));
        let right_side = i128::from(constraints[place].right_side());
        sum = sum.saturating_add(weight.saturating_mul(right_side));
    }
    sum
}
