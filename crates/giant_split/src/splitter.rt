// The helper that offers splits.
ghost use Rattle.std.specs.Prelude.{◌≡◌, ◌++◌, IfOk, OnOk};
ghost use Rattle.deadhead_paths.specs.Prices.{costs_of};
ghost use Rattle.deadhead_paths.specs.Tours.{tasks_of};
ghost use Rattle.task_tours.specs.Tours.{AreServedOnce, all_tasks, plan_tours};
ghost use Rattle.giant_split.specs.Splits.{IsOwnSplit};

use crate::cutter::Cutter;
use crate::exchange::Exchange;
use crate::splitting::split;
use carp_base::{Instance, Memory, Task};
use deadhead_paths::Distances;
use helper_frame::{Finder, Helper};
use plan_model::{Plan, Walk};
use rand_pcg::Lcg64Xsh32;
use std::alloc::Global;
use task_tours::{plans_are_tours, served_once_are_as_many};

// How many changes are drawn for one offer at most.
const MOST_DRAWS: usize = 400;

// Adds the tasks of a walk to an order.
fn add_tasks(order: &mut Vec<Task>, walk: &Walk) -> Result<(), Memory>
    ensures { OnOk result (order.new.items ≡ order.old.items ++ tasks_of walk.now) }
{
    for i in 0..walk.len() {
        let step = walk.step(i);
        if step.served {
            order.push(Task {
                edge: step.edge,
                forward: step.forward,
            })?;
        }
    }
    Ok(())
}

/// The tasks of a plan in the order in which it serves them, tour by tour. It takes time in proportion to the steps of
/// the plan. The only error is want of memory.
pub fn order_of(alloc: Global, plan: &Plan) -> Result<Vec<Task>, Memory>
    ensures { IfOk result (λ order. order.items ≡ all_tasks (plan_tours plan.now)) }
{
    let mut order = Vec::new(alloc);
    for i in 0..plan.len() {
        add_tasks(&mut order, plan.walk(i))?;
    }
    Ok(order)
}

// Draws changes of an order, and keeps those after which its split is no dearer.
fn improve(
    alloc: Global,
    inst: &Instance,
    dist: &Distances,
    draws: &mut Lcg64Xsh32,
    order: &mut [Task],
) -> Result<(), Memory>
    requires problem { dist.now.problem ≡ inst.now }
    requires prices { dist.now.prices ≡ costs_of inst.now }
    requires order { AreServedOnce inst.now order.old }
    ensures { OnOk result (AreServedOnce inst.now order.new) }
{
    served_once_are_as_many();
    let count = order.len();
    inst.validity();
    let mut cutter = Cutter::new(alloc, count)?;
    let mut least = cutter.cut(inst, dist, order);
    for _ in 0..MOST_DRAWS.min(4 * count) {
        let change = Exchange::draw(draws, count);
        change.apply(order);
        let cost = cutter.cut(inst, dist, order);
        if cost <= least {
            least = cost;
        } else {
            change.undo(order);
        }
    }
    Ok(())
}

/// Finds splits. It takes the order in which the best plan so far serves, and exchanges and turns services of it by
/// draws, four for each required edge and 400 at most. It keeps a change if the split is no dearer by it, and finds the
/// split of the order that it ends with. The draws go on from plan to plan, and begin with the seed. No clause speaks
/// of them.
///
/// With r required edges, and s tasks that fit one tour at most, it takes time in proportion to r * r * s for up to 100
/// required edges, and to r * s from there on.
#[derive(Drop)]
pub struct SplitFinder {
    draws: Lcg64Xsh32,
}

impl Finder for SplitFinder {
    ghost finds = { λ p _ plan. IsOwnSplit p plan };

    fn seeded(word: u64) -> SplitFinder {
        SplitFinder {
            draws: Lcg64Xsh32::new(word, 1),
        }
    }

    fn find(
        &mut self,
        alloc: Global,
        inst: &Instance,
        dist: &Distances,
        best: &Plan,
    ) -> Result<Plan, Memory> {
        plans_are_tours();
        let mut order = order_of(alloc, best)?;
        improve(alloc, inst, dist, &mut self.draws, &mut order)?;
        split(alloc, inst, dist, &order)
    }
}

/// A helper that offers splits of orders that it draws: a [`Helper`] with what [`SplitFinder`] finds.
pub type Splitter = Helper<SplitFinder>;
