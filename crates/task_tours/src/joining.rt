// Tasks joined by least paths.
ghost use Rattle.std.specs.Prelude.{◌≡◌, ◌-◌, ◌++◌, ◌∷◌, [], ◌^◌, ◌<◌, ◌≤◌, length, IfOk, OnErr, OnOk};
ghost use Rattle.std.specs.List.{AllByRecursion};
ghost use Rattle.carp_base.specs.Problem.{IsRequired};
ghost use Rattle.deadhead_paths.specs.Prices.{costs_of};
ghost use Rattle.task_tours.specs.Tours.{JoinsTasks, PlanGoesByLeastPaths, plan_tours};

use crate::laws::tours_are_linked;
use crate::stands::ends;
use carp_base::{Instance, Memory, Task};
use deadhead_paths::Distances;
use plan_model::{Plan, Step, Walk};
use std::alloc::Global;

/// The walk from the depot and back that does these tasks on required edges in their order, at most 30,000 of them,
/// joined by least paths. The distances are those by cost.
///
/// It takes time in proportion to the steps that it writes. The only error is want of memory.
pub fn join(
    alloc: Global,
    inst: &Instance,
    dist: &Distances,
    tasks: &[Task],
) -> Result<Walk, Memory>
    requires problem { dist.now.problem ≡ inst.now }
    requires prices { dist.now.prices ≡ costs_of inst.now }
    requires required { AllByRecursion (λ t. IsRequired inst.now t.edge) tasks.now }
    requires few { length tasks.now ≤ 30000 }
    ensures { IfOk result (JoinsTasks inst.now tasks.now) }
{
    tours_are_linked();
    let depot = inst.depot();
    let mut walk = Walk::new(alloc);
    let mut at = depot;
    for &task in tasks {
        let (tail, head) = ends(inst, task);
        dist.follow(&mut walk, at, tail)?;
        walk.push(Step {
            edge: task.edge,
            forward: task.forward,
            served: true,
        })?;
        at = head;
    }
    dist.follow(&mut walk, at, depot)?;
    Ok(walk)
}

/// Adds a walk that does these tasks, on required edges and at most 30,000 of them, to a plan of fewer than 2^32 - 1
/// walks. The tours of the earlier walks stay, and a plan that went by least paths does so still. The only error is
/// want of memory, and then the plan stays as it was.
pub fn add_tour(
    alloc: Global,
    inst: &Instance,
    dist: &Distances,
    plan: &mut Plan,
    tasks: &[Task],
) -> Result<(), Memory>
    requires problem { dist.now.problem ≡ inst.now }
    requires prices { dist.now.prices ≡ costs_of inst.now }
    requires required { AllByRecursion (λ t. IsRequired inst.now t.edge) tasks.now }
    requires few { length tasks.now ≤ 30000 }
    requires room { length plan.old < 2 ^ 32 - 1 }
    ensures tours { OnOk result (plan_tours plan.new ≡ plan_tours plan.old ++ tasks.now ∷ []) }
    ensures paths { OnOk result (PlanGoesByLeastPaths inst.now plan.old → PlanGoesByLeastPaths inst.now plan.new) }
    ensures kept { OnErr result (plan.new ≡ plan.old) }
{
    let walk = join(alloc, inst, dist, tasks)?;
    plan.push(walk)
}
