// The multipliers of a program as prices and weights.
ghost use Rattle.std.specs.Prelude.{All, IfOk};
ghost use Rattle.carp_base.specs.Problem.{IsRequired};
ghost use Rattle.route_pricing.specs.Pricing.{IsServicePrice};
ghost use Rattle.price_points.specs.Points.{IsPoint};
ghost use Rattle.price_points.specs.Services.{AreServicePrices};

use carp_base::{Instance, Memory};
use linear_program::{Program, RowId};
use price_points::{Constraint, Point, clamped, positive_weight, service_cost};
use std::alloc::Global;

/// The multipliers of a program.
pub(crate) fn point_of_program(
    alloc: Global,
    inst: &Instance,
    constraints: &[Constraint],
    program: &Program,
) -> Result<Point, Memory>
    ensures { IfOk result (IsPoint inst.now) }
{
    let prices = program_prices(alloc, inst, program)?;
    let weights = program_weights(alloc, inst, constraints.len(), program)?;
    Ok(Point::new(inst, constraints, prices, weights))
}

/// The multiplier of the row of a number, or 0 if there is none.
pub(crate) fn multiplier_at(program: &Program, number: usize) -> i64 {
    match RowId::new(number) {
        Some(row) => program.multiplier(row),
        None => 0,
    }
}

fn program_prices(alloc: Global, inst: &Instance, program: &Program) -> Result<Vec<i64>, Memory>
    ensures { IfOk result (λ prices. AreServicePrices inst.now prices.items) }
{
    let mut prices = Vec::with_capacity(alloc, inst.required() as usize)?;
    for place in 0..inst.required() {
        prices.push(program_price(inst, program, place + 1))?;
    }
    Ok(prices)
}

// The price of an edge: the multiplier of its row, and the cost of its service.
fn program_price(inst: &Instance, program: &Program, e: u32) -> i64
    requires { IsRequired inst.now e }
    ensures { IsServicePrice result }
{
    let multiplier = i128::from(multiplier_at(program, e as usize - 1));
    clamped(multiplier.saturating_add(service_cost(inst, e)))
}

fn program_weights(
    alloc: Global,
    inst: &Instance,
    count: usize,
    program: &Program,
) -> Result<Vec<i64>, Memory>
    ensures { IfOk result (λ weights. All IsServicePrice weights.items) }
{
    let first = inst.required() as usize;
    let mut weights = Vec::with_capacity(alloc, count)?;
    for place in 0..count {
        weights.push(program_weight(program, first.saturating_add(place)))?;
    }
    Ok(weights)
}

// The multiplier of a row, and 0 if it is below 0.
fn program_weight(program: &Program, number: usize) -> i64
    ensures { IsServicePrice result }
{
    positive_weight(multiplier_at(program, number))
}
