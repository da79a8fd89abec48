// The cheapest plan that serves in an order.
ghost use Rattle.std.specs.Prelude.{◌≡◌, IfOk};
ghost use Rattle.deadhead_paths.specs.Prices.{costs_of};
ghost use Rattle.task_tours.specs.Tours.{AreServedOnce};
ghost use Rattle.giant_split.specs.Cuts.{IsCutOrder};
ghost use Rattle.giant_split.specs.Splits.{IsSplit};

use crate::cutter::Cutter;
use carp_base::{Instance, Memory, Task};
use deadhead_paths::Distances;
use plan_model::Plan;
use std::alloc::Global;
use task_tours::{add_tour, plans_are_tours, served_once_are_as_many, tours_are_linked};

// The plan of the tours into which the order was cut.
fn join_tours(
    alloc: Global,
    inst: &Instance,
    dist: &Distances,
    order: &[Task],
    cutter: &Cutter,
) -> Result<Plan, Memory>
    requires problem { dist.now.problem ≡ inst.now }
    requires prices { dist.now.prices ≡ costs_of inst.now }
    requires order { AreServedOnce inst.now order.now }
    requires cut { IsCutOrder inst.now order.now cutter.now.costs.items cutter.now.lasts.items }
    ensures { IfOk result (IsSplit inst.now order.now) }
{
    plans_are_tours();
    tours_are_linked();
    served_once_are_as_many();
    inst.validity();
    let mut plan = Plan::new(alloc);
    let mut from = 0;
    while from < order.len() {
        let end = cutter.end(from, order.len());
        add_tour(alloc, inst, dist, &mut plan, &order[from..end])?;
        from = end;
    }
    Ok(plan)
}

/// The cheapest plan whose tours, one after another, do these tasks in this order and in these directions (Beasley 1983
/// and Ulusoy 1985, route first and cluster second). The distances are those by cost. An empty order gives the plan of
/// no tours. The only error is want of memory.
///
/// A shortest path from the end of the order to its start cuts it. What each rest of the order costs at least is the
/// least, over the tours with which it can begin within the capacity, of what that tour and the rest after it cost
/// (Lacomme, Prins and Ramdane-Cherif 2004). The tours are joined by least paths.
///
/// With m tasks, of which s at most fit one tour, it takes time in proportion to m * s, and to the steps that it
/// writes.
pub fn split(
    alloc: Global,
    inst: &Instance,
    dist: &Distances,
    order: &[Task],
) -> Result<Plan, Memory>
    requires problem { dist.now.problem ≡ inst.now }
    requires prices { dist.now.prices ≡ costs_of inst.now }
    requires order { AreServedOnce inst.now order.now }
    ensures { IfOk result (IsSplit inst.now order.now) }
{
    served_once_are_as_many();
    inst.validity();
    let mut cutter = Cutter::new(alloc, order.len())?;
    cutter.cut(inst, dist, order);
    join_tours(alloc, inst, dist, order, &cutter)
}
