// Plans with the same services, joined by least paths.
ghost use Rattle.std.specs.Prelude.{◌≡◌, ◌+◌, ◌^◌, ◌<◌, ◌≤◌, length, IfOk, OnOk};
ghost use Rattle.carp_base.specs.Problem.{IsValid, IsVertex, IsEdgeNumber, edge_at, tail_of, head_of};
ghost use Rattle.plan_model.specs.Plans.{IsLawful, IsLawfulWalk};
ghost use Rattle.deadhead_paths.specs.Prices.{NoneLead, costs_of};
ghost use Rattle.deadhead_paths.specs.Tidy.{IsTidied, served_steps, serves_some};
ghost use Rattle.deadhead_paths.specs.Join.{AddsService, IsJoined};

use crate::table::Distances;
use carp_base::{Instance, Memory};
use plan_model::{Plan, Step, Walk};
use std::alloc::Global;

// Whether a step of the walk serves.
fn has_service(walk: &Walk) -> bool
    ensures { result ≡ serves_some walk.now }
{
    for i in 0..walk.len() {
        if walk.step(i).served {
            return true;
        }
    }
    false
}

// Goes from a vertex to the start of a step by a least path, and then that step. Its answer is where the step ends.
pub(crate) fn serve(
    inst: &Instance,
    dist: &Distances,
    joined: &mut Walk,
    at: u32,
    step: Step,
) -> Result<u32, Memory>
    requires problem { dist.now.problem ≡ inst.now }
    requires at { IsVertex inst.now at }
    requires valid { IsValid inst.now }
    requires number { IsEdgeNumber inst.now step.edge }
    requires linked { ¬ (NoneLead inst.now at (tail_of (edge_at inst.now step.edge) step.forward)) }
    requires room { length joined.old + 2000 < 2 ^ 32 }
    ensures end { IfOk result (λ end. end ≡ head_of (edge_at inst.now step.edge) step.forward) }
    ensures added { OnOk result (AddsService dist.now at (tail_of (edge_at inst.now step.edge) step.forward) step joined.old joined.new) }
{
    let edge = inst.edge(step.edge);
    dist.follow(joined, at, edge.tail(step.forward))?;
    joined.push(step)?;
    Ok(edge.head(step.forward))
}

// The cheapest walk with the services of a lawful one, in their order and direction.
fn join(
    alloc: Global,
    inst: &Instance,
    dist: &Distances,
    depot: u32,
    walk: &Walk,
) -> Result<Walk, Memory>
    requires valid { IsValid inst.now }
    requires depot { depot ≡ inst.now.depot }
    requires problem { dist.now.problem ≡ inst.now }
    requires prices { dist.now.prices ≡ costs_of inst.now }
    requires lawful { IsLawfulWalk inst.now walk.now }
    requires few { length (served_steps walk.now) ≤ 600 }
    ensures { IfOk result (IsJoined inst.now walk.now) }
{
    let mut joined = Walk::new(alloc);
    let mut at = depot;
    for i in 0..walk.len() {
        let step = walk.step(i);
        if step.served {
            at = serve(inst, dist, &mut joined, at, step)?;
        }
    }
    dist.follow(&mut joined, at, depot)?;
    Ok(joined)
}

/// A lawful plan that costs no more than another, with each tour's services in the same order and direction, joined by
/// least paths. Tours without service are left out. The distances are those by cost.
///
/// It takes time in proportion to the steps that it reads and writes.
pub fn tidy(alloc: Global, inst: &Instance, dist: &Distances, plan: &Plan) -> Result<Plan, Memory>
    requires problem { dist.now.problem ≡ inst.now }
    requires prices { dist.now.prices ≡ costs_of inst.now }
    requires lawful { IsLawful inst.now plan.now }
    ensures { IfOk result (IsTidied inst.now plan.now) }
{
    let depot = inst.depot();
    let mut tidied = Plan::new(alloc);
    for i in 0..plan.len() {
        let walk = plan.walk(i);
        if has_service(walk) {
            tidied.push(join(alloc, inst, dist, depot, walk)?)?;
        }
    }
    Ok(tidied)
}
