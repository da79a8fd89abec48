// A point made one that pays, and the tours that it leaves least.
ghost use Rattle.std.specs.Prelude.{All, IfOk, IfSome};
ghost use Rattle.route_pricing.specs.Pricing.{AreSurcharges, IsServicePrice};
ghost use Rattle.route_pricing.specs.Tables.{IsRoom};
ghost use Rattle.price_points.specs.Points.{IsPoint};
ghost use Rattle.price_points.specs.Problems.{IsPricingProblem};

use crate::groups::weighted_groups;
use crate::offers::{Offer, Pricing, offers_of};
use branch_rules::{surcharge_table, surcharges_are_bond_weights};
use carp_base::{Instance, Memory};
use price_points::{Constraint, Easing, Point, PricingProblem, Scored, score};
use route_pricing::Table;
use std::alloc::Global;

/// What a table tells of a point.
#[derive(Drop)]
pub(crate) struct Reply {
    /// The point made one that pays.
    pub(crate) point: Point,
    /// Tours, those of the least value at the point that was asked first.
    pub(crate) offers: Vec<Offer>,
}

/// Weighs a point by the table (`price_points::score`), and tells the tours that it leaves least.
pub(crate) fn query(
    alloc: Global,
    problem: &PricingProblem<'_>,
    table: &mut Table,
    constraints: &[Constraint],
    point: &Point,
) -> Result<Option<Reply>, Memory>
    requires problem { IsPricingProblem problem.now }
    requires room { IsRoom problem.now.inst.now table.old }
    requires point { IsPoint problem.now.inst.now point.now }
    ensures room { IsRoom problem.now.inst.now table.new }
    ensures replied { IfOk result (λ found. IfSome found (λ reply. IsPoint problem.now.inst.now reply.point)) }
{
    let inst = problem.inst;
    let surcharges = surcharges_of(alloc, inst, constraints, &point.weights)?;
    let easing = Easing::ByRank;
    let found = score(
        alloc,
        problem,
        table,
        constraints,
        &surcharges,
        point,
        easing,
    )?;
    let Some(scored) = found else {
        return Ok(None);
    };
    let Scored {
        point: paying,
        deadheads,
        dist,
        rate,
    } = scored;
    let pricing = Pricing {
        inst,
        dist: &dist,
        prices: point.prices.as_slice(),
        deadheads: deadheads.as_slice(),
        surcharges: surcharges.as_slice(),
    };
    let offers = offers_of(alloc, &pricing, table, rate)?;
    Ok(Some(Reply {
        point: paying,
        offers,
    }))
}

// What the bonds of each pair of edges weigh.
#[tactic(auto, using(crate::proofs::Surcharges::are_surcharges))]
fn surcharges_of(
    alloc: Global,
    inst: &Instance,
    constraints: &[Constraint],
    weights: &[i64],
) -> Result<Vec<i64>, Memory>
    requires { All IsServicePrice weights.now }
    ensures { IfOk result (λ surcharges. AreSurcharges inst.now.required surcharges.items) }
{
    surcharges_are_bond_weights();
    let groups = weighted_groups(alloc, inst, constraints, weights)?;
    inst.validity();
    let surcharges = surcharge_table(alloc, inst.required(), &groups)?;
    Ok(surcharges)
}
