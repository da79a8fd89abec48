// A plan that is carried over.
ghost use Rattle.std.specs.Prelude.{◌≡◌, ◌+◌, ◌++◌, ◌≤◌, length, IfOk, OnOk};
ghost use Rattle.std.specs.List.{AllByRecursion};
ghost use Rattle.carp_base.specs.Problem.{IsRequired};
ghost use Rattle.plan_model.specs.Plans.{IsLawful, steps_of};
ghost use Rattle.deadhead_paths.specs.Prices.{costs_of};
ghost use Rattle.deadhead_paths.specs.Tours.{tasks_of};
ghost use Rattle.task_tours.specs.Tours.{AreServedOnce, PlanGoesByLeastPaths, all_tasks, plan_tours};
ghost use Rattle.cert_transfer.specs.Cutting.{cut_tour, cut_tours};

use crate::cutting::end_of_tour;
use crate::reading::services;
use carp_base::{Instance, Memory, Task};
use deadhead_paths::Distances;
use plan_model::{Plan, Walk};
use std::alloc::Global;
use task_tours::{add_tour, plans_are_tours, served_once_are_as_many};

// Adds the tours into which these tasks are cut.
fn add_parts(
    alloc: Global,
    inst: &Instance,
    dist: &Distances,
    plan: &mut Plan,
    tasks: &[Task],
) -> Result<(), Memory>
    requires problem { dist.now.problem ≡ inst.now }
    requires prices { dist.now.prices ≡ costs_of inst.now }
    requires required { AllByRecursion (λ t. IsRequired inst.now t.edge) tasks.now }
    requires few { length plan.old + length tasks.now ≤ 600 }
    ensures tours { OnOk result (plan_tours plan.new ≡ plan_tours plan.old ++ cut_tour inst.now tasks.now) }
    ensures paths { OnOk result (PlanGoesByLeastPaths inst.now plan.old → PlanGoesByLeastPaths inst.now plan.new) }
    ensures few { OnOk result (length plan.new ≤ length plan.old + length tasks.now) }
{
    let mut start = 0;
    while start < tasks.len() {
        let end = end_of_tour(inst, tasks, start);
        add_tour(alloc, inst, dist, plan, &tasks[start..end])?;
        start = end;
    }
    Ok(())
}

// Adds the tours into which a walk is cut.
fn add_walk(
    alloc: Global,
    inst: &Instance,
    dist: &Distances,
    plan: &mut Plan,
    walk: &Walk,
) -> Result<(), Memory>
    requires problem { dist.now.problem ≡ inst.now }
    requires prices { dist.now.prices ≡ costs_of inst.now }
    requires required { AllByRecursion (λ t. IsRequired inst.now t.edge) (tasks_of walk.now) }
    requires few { length plan.old + length (tasks_of walk.now) ≤ 600 }
    ensures tours { OnOk result (plan_tours plan.new ≡ plan_tours plan.old ++ cut_tour inst.now (tasks_of walk.now)) }
    ensures paths { OnOk result (PlanGoesByLeastPaths inst.now plan.old → PlanGoesByLeastPaths inst.now plan.new) }
    ensures few { OnOk result (length plan.new ≤ length plan.old + length (tasks_of walk.now)) }
{
    let tasks = services(alloc, walk)?;
    add_parts(alloc, inst, dist, plan, &tasks)?;
    Ok(())
}

/// The plan of an older instance, carried over to this one. Each old tour keeps its services in their order and
/// direction. It is cut exactly if the load with the next service would pass the capacity. Each part is joined by least
/// paths from the depot and back. A tour without service is left out. The old plan serves each required edge once. Its
/// tours may be too heavy, and nothing is asked of its deadheads. The distances are those by cost. The only error is
/// want of memory.
///
/// The new plan is lawful. It has at most a tour for each required edge and 2,000,000 steps.
///
/// It takes time in proportion to the steps of both plans.
pub fn carry_plan(
    alloc: Global,
    inst: &Instance,
    dist: &Distances,
    plan: &Plan,
) -> Result<Plan, Memory>
    requires problem { dist.now.problem ≡ inst.now }
    requires prices { dist.now.prices ≡ costs_of inst.now }
    requires services { AreServedOnce inst.now (all_tasks (plan_tours plan.now)) }
    ensures tours { IfOk result (λ new. plan_tours new ≡ cut_tours inst.now (plan_tours plan.now)) }
    ensures paths { IfOk result (PlanGoesByLeastPaths inst.now) }
    ensures lawful { IfOk result (IsLawful inst.now) }
    ensures few_tours { IfOk result (λ new. length new ≤ inst.now.required) }
    ensures few_steps { IfOk result (λ new. length (steps_of new) ≤ 2000000) }
{
    plans_are_tours();
    served_once_are_as_many();
    inst.validity();
    let mut carried = Plan::new(alloc);
    for place in 0..plan.len() {
        add_walk(alloc, inst, dist, &mut carried, plan.walk(place))?;
    }
    Ok(carried)
}
