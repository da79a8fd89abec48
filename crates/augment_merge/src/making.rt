// Plans by augment-merge.
ghost use Rattle.std.specs.Prelude.{◌≡◌, ◌≤◌, length, filter, IfOk};
ghost use Rattle.plan_model.specs.Plans.{IsLawful};
ghost use Rattle.deadhead_paths.specs.Prices.{costs_of};
ghost use Rattle.task_tours.specs.Tours.{PlanGoesByLeastPaths, plan_tours};
ghost use Rattle.augment_merge.specs.Joins.{NoJoinSaves};
ghost use Rattle.augment_merge.specs.Merging.{IsAugmentMerged, has_tasks};
ghost use Rattle.augment_merge.specs.Outlines.{AreDoable};

use crate::augmenting::augment;
use crate::merging::merge;
use crate::tour::Tour;
use carp_base::{Instance, Memory};
use deadhead_paths::Distances;
use plan_model::Plan;
use std::alloc::Global;
use task_tours::{add_tour, plans_are_tours, tours_are_linked};

// The plan of the tours that have tasks.
fn plan_of(alloc: Global, inst: &Instance, dist: &Distances, tours: &[Tour]) -> Result<Plan, Memory>
    requires problem { dist.now.problem ≡ inst.now }
    requires prices { dist.now.prices ≡ costs_of inst.now }
    requires doable { AreDoable inst.now tours.now }
    requires few { length tours.now ≤ 600 }
    ensures tours { IfOk result (λ plan. plan_tours plan ≡ filter has_tasks tours.now) }
    ensures paths { IfOk result (PlanGoesByLeastPaths inst.now) }
{
    inst.validity();
    let mut plan = Plan::new(alloc);
    for tour in tours {
        if !tour.tasks().is_empty() {
            add_tour(alloc, inst, dist, &mut plan, tour.tasks())?;
        }
    }
    Ok(plan)
}

/// The plan that augment-merge makes (Golden and Wong 1981; Golden, DeArmon and Baker 1983). The distances are those by
/// cost. The only error is want of memory.
///
/// It begins with one tour for each required edge, as [`deadhead_paths::single_tours`] makes them. They are taken in
/// the order of falling cost, and those of equal cost in the order of their edges. A tour that is taken goes through
/// its deadheads in the order of its steps. It absorbs each service that fits and stands in a tour that is not taken
/// yet. That tour is dropped, and never taken. From then on a tour is the list of its services, joined by least paths.
///
/// Then tours are joined end to end, each as it stands or reversed, if their joint load is within the capacity. Each
/// time the join that saves most is made, and among equal ones that of the earlier pair, until none saves.
///
/// With m required edges it takes time in proportion to m * m and to the steps of the tours, if joins leave the best
/// partners of most tours as they were. It takes time in proportion to m * m * m at most.
pub fn augment_merge(alloc: Global, inst: &Instance, dist: &Distances) -> Result<Plan, Memory>
    requires problem { dist.now.problem ≡ inst.now }
    requires prices { dist.now.prices ≡ costs_of inst.now }
    ensures lawful { IfOk result (IsLawful inst.now) }
    ensures merged { IfOk result (IsAugmentMerged inst.now) }
    ensures no_join_saves { IfOk result (NoJoinSaves inst.now) }
{
    tours_are_linked();
    plans_are_tours();
    inst.validity();
    let augmented = augment(alloc, inst, dist)?;
    let merged = merge(alloc, inst, dist, augmented)?;
    let plan = plan_of(alloc, inst, dist, &merged)?;
    Ok(plan)
}
