// In which direction the numbers of a point move, and how far.
ghost use Rattle.std.specs.Prelude.{All, IfOk};
ghost use Rattle.route_pricing.specs.Pricing.{IsServicePrice};
ghost use Rattle.price_points.specs.Points.{IsPoint};
ghost use Rattle.price_points.specs.Services.{AreServicePrices};

use carp_base::{Edge, Instance, Memory};
use price_points::{Constraint, Cover, PARTS, Point, clamped, number_at, quotient};
use std::alloc::Global;

/// For each number of a point, by how many parts it is to rise.
#[derive(Drop)]
pub(crate) struct Slopes {
    prices: Vec<i64>,
    weights: Vec<i64>,
}

impl Slopes {
    /// No direction.
    pub(crate) fn new(alloc: Global) -> Slopes {
        Slopes {
            prices: Vec::new(alloc),
            weights: Vec::new(alloc),
        }
    }

    /// How far the tours of a point fall short of one service of each required edge, and of the deadheads over each
    /// shore that there are to be. Other weights stay.
    pub(crate) fn of(
        alloc: Global,
        inst: &Instance,
        constraints: &[Constraint],
        cover: &Cover,
    ) -> Result<Slopes, Memory> {
        let mut shortages = Vec::with_capacity(alloc, constraints.len())?;
        for constraint in constraints {
            shortages.push(shortage(inst.edges(), constraint, &cover.deadheads))?;
        }
        Ok(Slopes {
            prices: price_slopes(alloc, cover)?,
            weights: shortages,
        })
    }

    /// A tenth of the new slopes and nine tenths of these, or the new ones if there are none of these.
    pub(crate) fn turned(&self, alloc: Global, new: &Slopes) -> Result<Slopes, Memory> {
        Ok(Slopes {
            prices: mixed(alloc, &self.prices, &new.prices)?,
            weights: mixed(alloc, &self.weights, &new.weights)?,
        })
    }

    /// The sum of the squares of the slopes, without those of weights that are 0 and do not rise.
    pub(crate) fn squares(&self, weights: &[i64]) -> i128 {
        let mut sum: i128 = 0;
        for place in 0..self.weights.len() {
            let slope = self.weights[place];
            if slope > 0 || number_at(weights, place) != 0 {
                sum = sum.saturating_add(square(slope));
            }
        }
        sum.saturating_add(squares_of(&self.prices))
    }

    /// The point that lies so far along the slopes, as far as the limits of numbers allow.
    pub(crate) fn moved(
        &self,
        alloc: Global,
        inst: &Instance,
        constraints: &[Constraint],
        point: &Point,
        step: Step,
    ) -> Result<Point, Memory>
        requires { IsPoint inst.now point.now }
        ensures { IfOk result (IsPoint inst.now) }
    {
        let prices = moved_prices(alloc, inst, &point.prices, &self.prices, step)?;
        let weights = moved_weights(alloc, &point.weights, &self.weights, step)?;
        Ok(Point::new(inst, constraints, prices, weights))
    }
}

/// How far a step goes, as a way to be divided by a norm.
#[derive(Clone, Copy)]
pub(crate) struct Step {
    way: i128,
    norm: i128,
}

impl Step {
    /// The step of a way along slopes, from the sum of their squares and that of the latest ones.
    pub(crate) fn new(way: i128, squares: i128, latest: i128) -> Step {
        Step {
            way,
            norm: squares.max(latest / 40) / i128::from(PARTS),
        }
    }

    // By how much a number of this slope rises.
    fn rise(self, slope: i64) -> i128 {
        let norm = self.norm.max(0).saturating_add(1);
        quotient(self.way.saturating_mul(i128::from(slope)), norm)
    }
}

// The slope of a weight: by how many parts deadheads, in the order of the edges, fall short of what a constraint asks.
fn shortage(edges: &[Edge], constraint: &Constraint, deadheads: &[i64]) -> i64 {
    let Some(shore) = constraint.asks_over() else {
        return 0;
    };
    let mut short = constraint.right_side().saturating_mul(PARTS);
    for place in 0..edges.len() {
        if shore.crosses(&edges[place]) {
            short = short.saturating_sub(number_at(deadheads, place));
        }
    }
    short
}

// The slopes of prices.
fn price_slopes(alloc: Global, cover: &Cover) -> Result<Vec<i64>, Memory> {
    let mut slopes = Vec::with_capacity(alloc, cover.services.len())?;
    for served in &cover.services {
        slopes.push(PARTS.saturating_sub(*served))?;
    }
    Ok(slopes)
}

/// A tenth of the new numbers and nine tenths of the old ones, or the new ones if there are no old ones.
pub(crate) fn mixed(alloc: Global, old: &[i64], new: &[i64]) -> Result<Vec<i64>, Memory> {
    let mut numbers = Vec::with_capacity(alloc, new.len())?;
    for place in 0..new.len() {
        let before = if old.is_empty() {
            new[place]
        } else {
            number_at(old, place)
        };
        numbers.push(mix(before, new[place]))?;
    }
    Ok(numbers)
}

fn mix(before: i64, new: i64) -> i64 {
    clamped(
        i128::from(before)
            .saturating_mul(9)
            .saturating_add(i128::from(new))
            / 10,
    )
}

fn square(number: i64) -> i128 {
    i128::from(number).saturating_mul(i128::from(number))
}

fn squares_of(numbers: &[i64]) -> i128 {
    let mut sum: i128 = 0;
    for number in numbers {
        sum = sum.saturating_add(square(*number));
    }
    sum
}

// A price for each required edge, moved along its slope.
fn moved_prices(
    alloc: Global,
    inst: &Instance,
    prices: &[i64],
    slopes: &[i64],
    step: Step,
) -> Result<Vec<i64>, Memory>
    ensures { IfOk result (λ moved. AreServicePrices inst.now moved.items) }
{
    let mut moved = Vec::with_capacity(alloc, inst.required() as usize)?;
    for place in 0..inst.required() {
        moved.push(moved_price(prices, slopes, step, place as usize))?;
    }
    Ok(moved)
}

fn moved_price(prices: &[i64], slopes: &[i64], step: Step, place: usize) -> i64
    ensures { IsServicePrice result }
{
    let rise = step.rise(number_at(slopes, place));
    clamped(rise.saturating_add(i128::from(number_at(prices, place))))
}

// The weights, moved along their slopes and not below 0.
fn moved_weights(
    alloc: Global,
    weights: &[i64],
    slopes: &[i64],
    step: Step,
) -> Result<Vec<i64>, Memory>
    requires { All IsServicePrice weights.now }
    ensures { IfOk result (λ moved. All IsServicePrice moved.items) }
{
    let mut moved = Vec::with_capacity(alloc, slopes.len())?;
    for place in 0..slopes.len() {
        moved.push(moved_weight(number_at(weights, place), step.rise(slopes[place])))?;
    }
    Ok(moved)
}

fn moved_weight(weight: i64, rise: i128) -> i64
    requires { IsServicePrice weight }
    ensures { IsServicePrice result }
{
    clamped(rise.saturating_add(i128::from(weight)).max(0))
}
