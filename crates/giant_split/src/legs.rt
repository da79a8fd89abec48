// What is to be known of each task of an order before it is cut into tours.
ghost use Rattle.std.specs.Prelude.{◌≡◌, ◌≤◌, length};
ghost use Rattle.std.specs.List.{AllByRecursion};
ghost use Rattle.carp_base.specs.Problem.{IsRequired};
ghost use Rattle.deadhead_paths.specs.Prices.{costs_of};
ghost use Rattle.giant_split.specs.Legs.{AreLegs};

use carp_base::{Instance, Task};
use deadhead_paths::Distances;
use task_tours::{ends, least_cost};

// The numbers of a task at its place in an order. The ways and loads are sums from the start of the order, so that
// those of a tour are differences.
#[derive(Clone, Copy)]
pub(crate) struct Leg {
    // From the depot to the start of the task.
    pub(crate) out: u64,
    // The links from the depot over all tasks before to the start of the task.
    pub(crate) way: u64,
    // From the end of the task to the depot.
    pub(crate) home: u64,
    // The demand of all tasks before.
    pub(crate) before: u64,
    // The demand up to the task.
    pub(crate) after: u64,
}

impl Leg {
    pub(crate) const NONE: Leg = Leg {
        out: 0,
        way: 0,
        home: 0,
        before: 0,
        after: 0,
    };
}

// Writes the leg of each task.
pub(crate) fn measure(inst: &Instance, dist: &Distances, order: &[Task], legs: &mut [Leg])
    requires problem { dist.now.problem ≡ inst.now }
    requires prices { dist.now.prices ≡ costs_of inst.now }
    requires required { AllByRecursion (λ t. IsRequired inst.now t.edge) order.now }
    requires few { length order.now ≤ 600 }
    requires one_each { length legs.old ≡ length order.now }
    ensures { AreLegs inst.now order.now legs.new }
{
    let depot = inst.depot();
    let mut at = depot;
    let mut way = 0;
    let mut load = 0;
    for (i, &task) in order.iter().enumerate() {
        let (start, end) = ends(inst, task);
        let before = load;
        way += least_cost(inst, dist, at, start);
        load += inst.edge(task.edge).demand;
        legs[i] = Leg {
            out: least_cost(inst, dist, depot, start),
            way,
            home: least_cost(inst, dist, end, depot),
            before,
            after: load,
        };
        at = end;
    }
}
