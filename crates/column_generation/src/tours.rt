// Relaxed tours as columns of the program.
ghost use Rattle.std.specs.Prelude.{◌≡◌};
ghost use Rattle.price_points.specs.Services.{AreServices};

use crate::numbers::mixed;
use carp_base::{Edge, Instance, Memory, Task};
use cut_pool::Shore;
use deadhead_paths::Distances;
use price_points::{Constraint, Cover, Demand, Members, UNIT};
use std::alloc::Global;

// Two tours of the same deadhead differ in cost by less than so many parts.
const NOISE: u64 = 1024;

/// How often something is done on the edge at a place, from 0.
#[derive(Clone, Copy)]
pub(crate) struct Count {
    pub(crate) place: usize,
    pub(crate) times: i64,
}

/// A relaxed tour.
#[derive(Drop)]
pub(crate) struct Tour {
    /// Its tasks in order.
    pub(crate) tasks: Vec<Task>,
    /// How often it serves each edge that it serves, places rising.
    pub(crate) services: Vec<Count>,
    /// How often it crosses each edge that it crosses without service, places rising.
    pub(crate) deadheads: Vec<Count>,
}

impl Tour {
    /// The tour of these tasks, joined by least paths.
    pub(crate) fn new(
        alloc: Global,
        inst: &Instance,
        dist: &Distances,
        tasks: Vec<Task>,
    ) -> Result<Tour, Memory>
        requires dist { dist.now.problem ≡ inst.now }
        requires tasks { AreServices inst.now tasks.items }
    {
        let mut cover = Cover::new(alloc, inst)?;
        cover.add_tour(alloc, inst, dist, &tasks, 1)?;
        Ok(Tour {
            services: counts(alloc, &cover.services)?,
            deadheads: counts(alloc, &cover.deadheads)?,
            tasks,
        })
    }

    /// Its coefficient in the row of a constraint.
    pub(crate) fn coefficient(&self, edges: &[Edge], constraint: &Constraint) -> i64 {
        match &constraint.demand {
            Demand::Deadheads(shore) => self.deadheads_over(edges, shore),
            Demand::FewDeadheads(shore) => self.deadheads_over(edges, shore).saturating_neg(),
            Demand::Bonds(members) => self.bonds(members).saturating_neg(),
            Demand::Joined(members) => self.bonds(members),
        }
    }

    // Its deadheads over a shore.
    fn deadheads_over(&self, edges: &[Edge], shore: &Shore) -> i64 {
        let mut sum: i64 = 0;
        for count in &self.deadheads {
            if let Some(edge) = edges.get(count.place) {
                let crosses = i64::from(shore.crosses(edge));
                sum = sum.saturating_add(crosses.saturating_mul(count.times));
            }
        }
        sum
    }

    // The bonds of a group in it.
    fn bonds(&self, group: &Members) -> i64 {
        let mut bonds: i64 = 0;
        for place in 1..self.tasks.len() {
            let before = self.tasks[place - 1].edge;
            let edge = self.tasks[place].edge;
            bonds = bonds.saturating_add(i64::from(group.has(before) && group.has(edge)));
        }
        bonds
    }

    /// A number that tells tours apart by their tasks and their deadheads. A tour has the same number in either
    /// direction.
    pub(crate) fn number(&self) -> u64 {
        let forward = forward_number(&self.tasks);
        let backward = backward_number(&self.tasks);
        deadheads_number(forward.min(backward), &self.deadheads)
    }

    /// What its deadheads cost, in parts, with a noise that its number tells, so that few tours are alike.
    pub(crate) fn cost(&self, edges: &[Edge], number: u64) -> i64 {
        let cost = self.deadheads_cost(edges);
        let parts = cost.saturating_mul(UNIT).saturating_add(number % NOISE);
        parts.min(1 << 55) as i64
    }

    /// What its deadheads cost.
    pub(crate) fn deadheads_cost(&self, edges: &[Edge]) -> u64 {
        let mut cost: u64 = 0;
        for count in &self.deadheads {
            cost = cost.saturating_add(cost_of(edges, count));
        }
        cost
    }
}

// What crossing an edge so often costs.
fn cost_of(edges: &[Edge], count: &Count) -> u64 {
    match edges.get(count.place) {
        Some(edge) => edge.cost.saturating_mul(count.times.max(0) as u64),
        None => 0,
    }
}

// The places with a number above 0.
fn counts(alloc: Global, numbers: &[i64]) -> Result<Vec<Count>, Memory> {
    let mut counts = Vec::new(alloc);
    for place in 0..numbers.len() {
        let times = numbers[place];
        if times > 0 {
            counts.push(Count { place, times })?;
        }
    }
    Ok(counts)
}

// A number for a task.
fn task_number(task: &Task, forward: bool) -> u64 {
    u64::from(task.edge)
        .saturating_mul(2)
        .saturating_add(u64::from(forward))
        .saturating_add(7)
}

fn forward_number(tasks: &[Task]) -> u64 {
    let mut number = 1;
    for task in tasks {
        number = mixed(task_number(task, task.forward).wrapping_add(number));
    }
    number
}

// The number of the tasks turned, from the last to the first.
fn backward_number(tasks: &[Task]) -> u64 {
    let mut number = 1;
    for task in tasks.iter().rev() {
        number = mixed(task_number(task, !task.forward).wrapping_add(number));
    }
    number
}

fn deadheads_number(start: u64, deadheads: &[Count]) -> u64 {
    let mut number = start;
    for count in deadheads {
        let crossing = (count.place as u64).wrapping_mul(4099);
        number = mixed(number ^ mixed(crossing.wrapping_add(count.times.max(0) as u64)));
    }
    number
}
