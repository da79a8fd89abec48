// Solutions of programs that show a plan.

use crate::master::Master;
use carp_base::{Instance, Memory, Task};
use linear_program::{Program, Variable};
use std::alloc::Global;

// A tour is taken if its activity is above a half. Activities have 40 binary places.
const HALF: i64 = 1 << 39;

/// Tours that serve each required edge once.
#[derive(Drop)]
pub(crate) struct Whole {
    /// The tasks of each tour in order.
    pub(crate) tours: Vec<Vec<Task>>,
    // What their deadheads cost.
    cost: u64,
}

impl Whole {
    /// Whether it is cheaper than another one, if there is another one.
    pub(crate) fn is_cheaper(&self, other: &Option<Whole>) -> bool {
        match other {
            Some(other) => self.cost < other.cost,
            None => true,
        }
    }
}

/// The tours of a program's solution whose activity is above a half, if they serve each required edge once.
pub(crate) fn whole_of(
    alloc: Global,
    inst: &Instance,
    master: &Master,
    program: &Program,
) -> Result<Option<Whole>, Memory> {
    let taken = taken_tours(alloc, inst, master, program)?;
    if !serve_each_once(alloc, inst, master, &taken)? {
        return Ok(None);
    }
    Ok(Some(Whole {
        tours: tasks_of(alloc, master, &taken)?,
        cost: cost_of(inst, master, &taken),
    }))
}

// The numbers of the tours that are taken. One more than there are required edges are enough to tell that they are too
// many.
fn taken_tours(
    alloc: Global,
    inst: &Instance,
    master: &Master,
    program: &Program,
) -> Result<Vec<usize>, Memory> {
    let mut taken = Vec::new(alloc);
    for place in 0..program.rows().len() {
        if let Some(tour) = taken_at(inst, master, program, place) {
            if taken.len() <= inst.required() as usize {
                taken.push(tour)?;
            }
        }
    }
    Ok(taken)
}

// The number of the tour that is basic at a place, if it is taken. Columns of deadheads stand before those of tours.
fn taken_at(inst: &Instance, master: &Master, program: &Program, place: usize) -> Option<usize> {
    let basic = program.basic(place)?;
    if basic.activity <= HALF {
        return None;
    }
    let Variable::Column(column) = basic.variable else {
        return None;
    };
    let tour = column.number().checked_sub(inst.edge_count() as usize)?;
    if tour < master.tours.len() {
        Some(tour)
    } else {
        None
    }
}

// Whether tours serve each required edge once.
fn serve_each_once(
    alloc: Global,
    inst: &Instance,
    master: &Master,
    taken: &[usize],
) -> Result<bool, Memory> {
    let mut served = vec![in alloc; 0; inst.required() as usize]?;
    for tour in taken {
        if let Some(tour) = master.tours.get(*tour) {
            count_services(&tour.tasks, &mut served);
        }
    }
    Ok(served.iter().all(|times| *times == 1))
}

// Counts the services of a tour, each at the number of its edge less 1.
fn count_services(tasks: &[Task], served: &mut [u32]) {
    for task in tasks {
        let edge = task.edge as usize;
        if 1 <= edge && edge <= served.len() {
            served[edge - 1] = served[edge - 1].saturating_add(1);
        }
    }
}

// The tasks of tours.
fn tasks_of(alloc: Global, master: &Master, taken: &[usize]) -> Result<Vec<Vec<Task>>, Memory> {
    let mut tours = Vec::with_capacity(alloc, taken.len())?;
    for tour in taken {
        if let Some(tour) = master.tours.get(*tour) {
            tours.push(Vec::from_slice(alloc, &tour.tasks)?)?;
        }
    }
    Ok(tours)
}

// What the deadheads of tours cost.
fn cost_of(inst: &Instance, master: &Master, taken: &[usize]) -> u64 {
    let mut cost: u64 = 0;
    for tour in taken {
        if let Some(tour) = master.tours.get(*tour) {
            cost = cost.saturating_add(tour.deadheads_cost(inst.edges()));
        }
    }
    cost
}
