// One tour for each required edge.
ghost use Rattle.std.specs.Prelude.{◌≡◌, IfOk};
ghost use Rattle.carp_base.specs.Problem.{IsRequired};
ghost use Rattle.plan_model.specs.Plans.{IsLawful};
ghost use Rattle.deadhead_paths.specs.Prices.{costs_of};
ghost use Rattle.deadhead_paths.specs.Singles.{AreLeastTours, IsLeastTour};

use crate::table::Distances;
use crate::tidying::serve;
use carp_base::{Instance, Memory};
use plan_model::{Plan, Step, Walk};
use std::alloc::Global;

// The tour that serves one edge alone.
fn single_tour(alloc: Global, inst: &Instance, dist: &Distances, e: u32) -> Result<Walk, Memory>
    requires problem { dist.now.problem ≡ inst.now }
    requires prices { dist.now.prices ≡ costs_of inst.now }
    requires required { IsRequired inst.now e }
    ensures { IfOk result (λ walk. IsLeastTour inst.now e walk) }
{
    let depot = inst.depot();
    let service = Step {
        edge: e,
        forward: true,
        served: true,
    };
    let mut walk = Walk::new(alloc);
    let end = serve(inst, dist, &mut walk, depot, service)?;
    dist.follow(&mut walk, end, depot)?;
    Ok(walk)
}

/// One tour for each required edge, in rising number: out by a least path, over the edge forward, and home by a least path.
/// The distances are those by cost.
///
/// It takes time in proportion to the steps that it writes.
pub fn single_tours(alloc: Global, inst: &Instance, dist: &Distances) -> Result<Plan, Memory>
    requires problem { dist.now.problem ≡ inst.now }
    requires prices { dist.now.prices ≡ costs_of inst.now }
    ensures lawful { IfOk result (λ plan. IsLawful inst.now plan) }
    ensures tours { IfOk result (λ plan. AreLeastTours inst.now plan) }
{
    let mut plan = Plan::new(alloc);
    for e in 1..inst.required() + 1 {
        plan.push(single_tour(alloc, inst, dist, e)?)?;
    }
    Ok(plan)
}
