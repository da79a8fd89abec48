// The plan of a packing.
ghost use Rattle.std.specs.Prelude.{◌≡◌, ◌+◌, ◌-◌, ◌<◌, ◌^◌, length, IfOk, OnOk};
ghost use Rattle.carp_base.specs.Packings.{IsPacking};
ghost use Rattle.plan_model.specs.Plans.{IsLawful};
ghost use Rattle.deadhead_paths.specs.Prices.{costs_of};
ghost use Rattle.task_tours.specs.Tours.{PlanGoesByLeastPaths, plan_tours};
ghost use Rattle.group_plans.specs.Gathering.{InOrderUpTo, ServesUpTo};
ghost use Rattle.group_plans.specs.Groups.{ServesGroups, ServesInOrder};

use crate::gathering::group_tasks;
use carp_base::{Instance, Memory};
use deadhead_paths::Distances;
use plan_model::Plan;
use std::alloc::Global;
use task_tours::{add_tour, plans_are_tours};

// Adds the tour of the group that follows the first `done` groups, whose tours the plan has.
#[tactic(auto, using(crate::proofs::GroupTours::serves_step, crate::proofs::GroupTours::order_step))]
fn add_next(
    alloc: Global,
    inst: &Instance,
    dist: &Distances,
    groups: &[u32],
    done: u32,
    plan: &mut Plan,
) -> Result<(), Memory>
    requires problem { dist.now.problem ≡ inst.now }
    requires prices { dist.now.prices ≡ costs_of inst.now }
    requires one_each { length groups.now ≡ inst.now.required }
    requires few { done < 2 ^ 32 - 1 }
    requires room { length plan.old < 2 ^ 32 - 1 }
    ensures up { OnOk result (ServesUpTo inst.now groups.now done (plan_tours plan.old) → ServesUpTo inst.now groups.now (done + 1) (plan_tours plan.new)) }
    ensures order { OnOk result (InOrderUpTo inst.now groups.now done (plan_tours plan.old) → InOrderUpTo inst.now groups.now (done + 1) (plan_tours plan.new)) }
    ensures paths { OnOk result (PlanGoesByLeastPaths inst.now plan.old → PlanGoesByLeastPaths inst.now plan.new) }
{
    inst.validity();
    let tasks = group_tasks(alloc, inst, groups, done + 1)?;
    add_tour(alloc, inst, dist, plan, &tasks)?;
    Ok(())
}

/// A lawful plan with one walk for each group of a packing, in the order of the groups. Of the groups 1 to `count`,
/// `groups` has the one in which each required edge lies, in the order of the edges. Each walk serves the edges of its
/// group once and no others, joined by least paths from the depot and back. The distances are those by cost. Without
/// groups it is the plan of no walks. The only error is want of memory.
///
/// The walks are not short: each takes the edges of its group in the order of their numbers, and serves each of them
/// forward.
///
/// With m required edges in k groups it takes time in proportion to k * m, and to the steps that it writes.
pub fn plan_of_groups(
    alloc: Global,
    inst: &Instance,
    dist: &Distances,
    groups: &[u32],
    count: u32,
) -> Result<Plan, Memory>
    requires problem { dist.now.problem ≡ inst.now }
    requires prices { dist.now.prices ≡ costs_of inst.now }
    requires packing { IsPacking inst.now groups.now count }
    ensures lawful { IfOk result (λ plan. IsLawful inst.now plan) }
    ensures serves { IfOk result (λ plan. ServesGroups inst.now groups.now count plan) }
    ensures order { IfOk result (λ plan. ServesInOrder inst.now groups.now count plan) }
    ensures paths { IfOk result (λ plan. PlanGoesByLeastPaths inst.now plan) }
{
    // That a plan of lawful tours by least paths is lawful.
    plans_are_tours();
    inst.validity();
    let mut plan = Plan::new(alloc);
    for done in 0..count {
        add_next(alloc, inst, dist, groups, done, &mut plan)?;
    }
    Ok(plan)
}
