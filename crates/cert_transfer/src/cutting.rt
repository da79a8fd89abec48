// Where a tour is cut.
ghost use Rattle.std.specs.Prelude.{◌≡◌, ◌<◌, ◌≤◌, length};
ghost use Rattle.std.specs.List.{AllByRecursion};
ghost use Rattle.carp_base.specs.Problem.{IsRequired, edge_at};
ghost use Rattle.cert_transfer.specs.TourParts.{IsPart, task_at};

use carp_base::{Instance, Task};

// The demand of the task at a place.
fn demand_at(inst: &Instance, tasks: &[Task], place: usize) -> u64
    requires required { AllByRecursion (λ t. IsRequired inst.now t.edge) tasks.now }
    requires within { place < length tasks.now }
    ensures value { result ≡ (edge_at inst.now (task_at tasks.now place).edge).demand }
    ensures fits { result ≤ inst.now.capacity }
{
    inst.validity();
    inst.edge(tasks[place].edge).demand
}

// The place after the tour that begins at a place: the first later place whose task a vehicle cannot take too.
pub(crate) fn end_of_tour(inst: &Instance, tasks: &[Task], start: usize) -> usize
    requires required { AllByRecursion (λ t. IsRequired inst.now t.edge) tasks.now }
    requires within { start < length tasks.now }
    ensures { IsPart inst.now tasks.now start result }
{
    let capacity = inst.capacity();
    let mut load = demand_at(inst, tasks, start);
    for end in start + 1..tasks.len() {
        load += demand_at(inst, tasks, end);
        if load > capacity {
            return end;
        }
    }
    tasks.len()
}
