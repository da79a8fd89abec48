// Plans as sequences, and back.
ghost use Rattle.std.specs.Prelude.{◌≡◌, ◌≢◌, ◌+◌, ◌*◌, ◌<◌, ◌≤◌, ◌++◌, IfOk, IsTrue, OnOk, length, map, slice_index, ◌-◌};
ghost use Rattle.std.specs.List.{All, AllByRecursion};
ghost use Rattle.carp_base.specs.Problem.{IsRequired};
ghost use Rattle.plan_model.specs.Plans.{IsLawful};
ghost use Rattle.deadhead_paths.specs.Prices.{costs_of};
ghost use Rattle.deadhead_paths.specs.Tours.{tasks_of};
ghost use Rattle.task_tours.specs.Tours.{PlanGoesByLeastPaths, all_tasks, plan_tours};
ghost use Rattle.local_moves.specs.Stops.{sequence_of, stop_of};

use carp_base::{Instance, Memory, Task};
use deadhead_paths::Distances;
use plan_model::{Plan, Walk};
use std::alloc::Global;
use task_tours::add_tour;

// Adds the services of a walk to a sequence.
fn add_services(sequence: &mut Vec<u32>, walk: &Walk) -> Result<(), Memory>
    requires { AllByRecursion (λ s. IsTrue s.served → s.edge ≤ 600) walk.now }
    ensures { OnOk result (sequence.new.items ≡ sequence.old.items ++ map stop_of (tasks_of walk.now)) }
{
    for i in 0..walk.len() {
        let step = walk.step(i);
        if step.served {
            sequence.push(2 * step.edge + u32::from(!step.forward))?;
        }
    }
    Ok(())
}

// The services of a lawful plan as a sequence.
pub(crate) fn sequence_of_plan(
    alloc: Global,
    inst: &Instance,
    plan: &Plan,
) -> Result<Vec<u32>, Memory>
    requires { IsLawful inst.now plan.now }
    ensures { IfOk result (λ sequence. sequence.items ≡ sequence_of (plan_tours plan.now)) }
{
    inst.validity();
    let mut sequence = Vec::new(alloc);
    sequence.push(0)?;
    for i in 0..plan.len() {
        add_services(&mut sequence, plan.walk(i))?;
        sequence.push(0)?;
    }
    Ok(sequence)
}

// The plan of a sequence, joined by least paths.
pub(crate) fn plan_of_sequence(
    alloc: Global,
    inst: &Instance,
    dist: &Distances,
    sequence: &[u32],
) -> Result<Plan, Memory>
    requires problem { dist.now.problem ≡ inst.now }
    requires prices { dist.now.prices ≡ costs_of inst.now }
    requires some { 1 ≤ length sequence.now }
    requires short { length sequence.now ≤ 30000 }
    requires within { All (λ x. x < 2 * inst.now.required + 2) sequence.now }
    requires real { All (λ x. x ≢ 1) sequence.now }
    requires first { slice_index sequence.now 0 ≡ 0 }
    requires last { slice_index sequence.now (length sequence.now - 1) ≡ 0 }
    ensures tours { IfOk result (λ plan. sequence_of (plan_tours plan) ≡ sequence.now) }
    ensures paths { IfOk result (PlanGoesByLeastPaths inst.now) }
    ensures required { IfOk result (λ plan. AllByRecursion (λ t. IsRequired inst.now t.edge) (all_tasks (plan_tours plan))) }
{
    let mut plan = Plan::new(alloc);
    let mut tour = Vec::new(alloc);
    for i in 1..sequence.len() {
        let x = sequence[i];
        if x == 0 {
            add_tour(alloc, inst, dist, &mut plan, &tour)?;
            tour.clear();
        } else {
            tour.push(Task {
                edge: x / 2,
                forward: x % 2 == 0,
            })?;
        }
    }
    Ok(plan)
}
