// What the exact table shows of a point.
ghost use Rattle.std.specs.Prelude.{◌≡◌, IfOk, IfSome};
ghost use Rattle.route_pricing.specs.Pricing.{AreSurcharges};
ghost use Rattle.route_pricing.specs.Tables.{IsRoom};
ghost use Rattle.price_points.specs.Points.{IsPoint, IsScored};
ghost use Rattle.price_points.specs.Problems.{IsPricingProblem};
ghost use Rattle.price_points.specs.Services.{IsFilledOn};

use crate::constraints::Constraint;
use crate::dual_repair::{Eased, Easing, ease};
use crate::numbers::UNIT;
use crate::paying_prices::paying_prices;
use crate::points::Point;
use crate::problem::PricingProblem;
use carp_base::Memory;
use deadhead_paths::{Distances, distances};
use route_pricing::{Rate, Table};
use std::alloc::Global;

/// A point that pays, and what the table was filled with.
#[derive(Drop)]
pub struct Scored {
    /// The point that pays.
    pub point: Point,
    /// The deadhead prices that its weights leave, by the denominator and in the order of the edges.
    pub deadheads: Vec<u64>,
    /// The distances by them.
    pub dist: Distances,
    /// The least rate of a tour at the prices before.
    pub rate: Rate,
}

/// Weighs a point by the exact table: makes of it one that pays, by one fill, which tells also what its tours are. It is
/// `None` if no edge is required.
///
/// Weights of shores are cut until no deadhead price is negative. Each price takes its part of the least rate of a
/// tour, after which no tour is worth less than 0. Then it takes, of what every tour through its edge is worth, the
/// part of its demand in a vehicle's capacity.
///
/// It asks for a table that was made for the instance, and for the surcharges of pairs of edges that follow each other,
/// or none. The table stays filled with the prices before, for whoever asks it for tours. The only error is want of
/// memory. It takes the time of a fill, of the distances, and for E edges and k constraints `E * k` steps.
pub fn score(
    alloc: Global,
    problem: &PricingProblem<'_>,
    table: &mut Table,
    constraints: &[Constraint],
    surcharges: &[i64],
    point: &Point,
    easing: Easing,
) -> Result<Option<Scored>, Memory>
    requires problem { IsPricingProblem problem.now }
    requires room { IsRoom problem.now.inst.now table.old }
    requires surcharges { AreSurcharges problem.now.inst.now.required surcharges.now }
    requires point { IsPoint problem.now.inst.now point.now }
    ensures room { IsRoom problem.now.inst.now table.new }
    ensures filled { IfOk result (λ found. IfSome found (λ scored. IsFilledOn problem.now.inst.now table.new)) }
    ensures scored { IfOk result (λ found. IfSome found (IsScored problem.now.inst.now)) }
{
    let inst = problem.inst;
    let Eased { weights, deadheads } = ease(alloc, inst, constraints, &point.weights, easing)?;
    let dist = distances(alloc, inst, problem.net, &deadheads)?;
    table.fill(
        inst,
        &dist,
        UNIT,
        &point.prices,
        problem.allowed,
        surcharges,
    );
    let Some(rate) = table.least_rate() else {
        return Ok(None);
    };
    let prices = paying_prices(alloc, inst, table, &point.prices, rate)?;
    Ok(Some(Scored {
        point: Point::new(inst, constraints, prices, weights),
        deadheads,
        dist,
        rate,
    }))
}
