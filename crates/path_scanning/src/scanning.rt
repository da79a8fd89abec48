// Plans that grow tour by tour.
ghost use Rattle.std.specs.Prelude.{◌≡◌, length, IfOk};
ghost use Rattle.plan_model.specs.Plans.{IsLawful};
ghost use Rattle.deadhead_paths.specs.Prices.{costs_of};
ghost use Rattle.path_scanning.specs.Choosing.{IsGrown};
ghost use Rattle.path_scanning.specs.Scans.{IsScanned};

use crate::nearest::nearest;
use crate::rule::Rule;
use carp_base::{Instance, Memory, Task};
use deadhead_paths::Distances;
use plan_model::Plan;
use std::alloc::Global;
use task_tours::{ends, join, plans_are_tours};

// The tasks of one tour, which are then served.
fn grow(
    alloc: Global,
    inst: &Instance,
    dist: &Distances,
    rule: Rule,
    served: &mut [bool],
) -> Result<Vec<Task>, Memory>
    requires problem { dist.now.problem ≡ inst.now }
    requires prices { dist.now.prices ≡ costs_of inst.now }
    requires flags { length served.old ≡ inst.now.required }
    ensures { IfOk result (λ tasks. IsGrown inst.now rule served.old tasks.items served.new) }
{
    let mut tasks = Vec::new(alloc);
    let mut at = inst.depot();
    let mut load = 0;
    while let Some(next) = nearest(inst, dist, rule, served, at, load) {
        served[next.task.edge as usize - 1] = true;
        at = ends(inst, next.task).1;
        load += next.demand;
        tasks.push(next.task)?;
    }
    Ok(tasks)
}

/// The plan that path scanning makes by a rule (Golden, DeArmon and Baker 1983). The distances are those by cost. The
/// only error is want of memory.
///
/// One tour grows at a time, from the depot. Of all tasks on unserved edges whose demand still fits, it takes one whose
/// start is nearest to where the tour stands. Among equally near ones it takes the one of the rule, then the one of the
/// least edge number, and then the forward one. If nothing fits, the tour returns to the depot and the next one begins,
/// until all required edges are served. The tasks are joined by least paths.
///
/// With m required edges it takes time in proportion to m * m, and to the steps that it writes.
pub fn scan(alloc: Global, inst: &Instance, dist: &Distances, rule: Rule) -> Result<Plan, Memory>
    requires problem { dist.now.problem ≡ inst.now }
    requires prices { dist.now.prices ≡ costs_of inst.now }
    ensures lawful { IfOk result (IsLawful inst.now) }
    ensures scanned { IfOk result (IsScanned inst.now rule) }
{
    plans_are_tours();
    let mut served = vec![in alloc; false; inst.required() as usize]?;
    let mut plan = Plan::new(alloc);
    loop {
        let tasks = grow(alloc, inst, dist, rule, &mut served)?;
        if tasks.is_empty() {
            return Ok(plan);
        }
        plan.push(join(alloc, inst, dist, &tasks)?)?;
    }
}
