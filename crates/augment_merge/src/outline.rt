// What a search for joins reads of a tour.
ghost use Rattle.std.specs.Prelude.{◌≡◌, ◌≤◌};
ghost use Rattle.std.specs.List.{AllByRecursion};
ghost use Rattle.carp_base.specs.Problem.{IsRequired};
ghost use Rattle.deadhead_paths.specs.Prices.{costs_of};
ghost use Rattle.task_tours.specs.Tours.{IsStand, tour_load};
ghost use Rattle.augment_merge.specs.Outlines.{IsOutlineOf, oriented_outline, tour_ends_at, tour_starts_at};

use carp_base::{Instance, Task};
use deadhead_paths::Distances;
use task_tours::{ends, least_cost};

#[derive(Clone, Copy)]
pub(crate) struct Outline {
    // Where its first task starts and its last one ends, or the depot if it has no task.
    pub(crate) start: u32,
    pub(crate) end: u32,
    // The least costs from the depot to the start, and from the end to the depot.
    pub(crate) out: u64,
    pub(crate) home: u64,
    pub(crate) load: u64,
}

// Where a tour does its first task.
fn start_of(inst: &Instance, tasks: &[Task]) -> u32
    requires { AllByRecursion (λ t. IsRequired inst.now t.edge) tasks.now }
    ensures starts { result ≡ tour_starts_at inst.now inst.now.depot tasks.now }
    ensures stands { IsStand inst.now result }
{
    match tasks.first() {
        Some(&task) => ends(inst, task).0,
        None => inst.depot(),
    }
}

// Where a tour is done with its last task.
fn end_of(inst: &Instance, tasks: &[Task]) -> u32
    requires { AllByRecursion (λ t. IsRequired inst.now t.edge) tasks.now }
    ensures ends { result ≡ tour_ends_at inst.now inst.now.depot tasks.now }
    ensures stands { IsStand inst.now result }
{
    match tasks.last() {
        Some(&task) => ends(inst, task).1,
        None => inst.depot(),
    }
}

// The demand of the tasks of a tour.
fn load_of(inst: &Instance, tasks: &[Task]) -> u64
    requires required { AllByRecursion (λ t. IsRequired inst.now t.edge) tasks.now }
    requires load { tour_load inst.now tasks.now ≤ inst.now.capacity }
    ensures { result ≡ tour_load inst.now tasks.now }
{
    inst.validity();
    let mut load = 0;
    for task in tasks {
        load += inst.edge(task.edge).demand;
    }
    load
}

impl Outline {
    // That of a tour.
    pub(crate) fn of(inst: &Instance, dist: &Distances, tasks: &[Task]) -> Outline
        requires problem { dist.now.problem ≡ inst.now }
        requires prices { dist.now.prices ≡ costs_of inst.now }
        requires required { AllByRecursion (λ t. IsRequired inst.now t.edge) tasks.now }
        requires load { tour_load inst.now tasks.now ≤ inst.now.capacity }
        ensures { IsOutlineOf inst.now tasks.now result }
    {
        let depot = inst.depot();
        let start = start_of(inst, tasks);
        let end = end_of(inst, tasks);
        Outline {
            start,
            end,
            out: least_cost(inst, dist, depot, start),
            home: least_cost(inst, dist, end, depot),
            load: load_of(inst, tasks),
        }
    }

    // That of the tour as it stands, or reversed.
    pub(crate) fn oriented(self, turned: bool) -> Outline
        ensures { result ≡ oriented_outline turned self }
    {
        if turned {
            Outline {
                start: self.end,
                end: self.start,
                out: self.home,
                home: self.out,
                load: self.load,
            }
        } else {
            self
        }
    }
}
