// What relaxed tours serve and cross.
ghost use Rattle.std.specs.Prelude.{◌≡◌, IfOk, IfSome};
ghost use Rattle.carp_base.specs.Problem.{IsRequired, IsVertex};
ghost use Rattle.route_pricing.specs.Values.{IsRate};
ghost use Rattle.price_points.specs.Services.{AreServices, IsFilledOn};

use crate::numbers::add_at;
use carp_base::{Instance, Memory, Task};
use deadhead_paths::Distances;
use plan_model::Walk;
use route_pricing::{Rate, Table};
use std::alloc::Global;

/// How often tours serve and cross each edge, in parts and in the order of the edges.
#[derive(Drop)]
pub struct Cover {
    /// The services of required edges.
    pub services: Vec<i64>,
    /// The deadheads of all edges.
    pub deadheads: Vec<i64>,
}

impl Cover {
    /// No tours.
    pub fn new(alloc: Global, inst: &Instance) -> Result<Cover, Memory> {
        Ok(Cover {
            services: vec![in alloc; 0; inst.required() as usize]?,
            deadheads: vec![in alloc; 0; inst.edge_count() as usize]?,
        })
    }

    /// Adds so many parts of a tour, whose tasks are joined by least paths.
    pub fn add_tour(
        &mut self,
        alloc: Global,
        inst: &Instance,
        dist: &Distances,
        tasks: &[Task],
        parts: i64,
    ) -> Result<(), Memory>
        requires dist { dist.now.problem ≡ inst.now }
        requires tasks { AreServices inst.now tasks.now }
    {
        let mut at = inst.depot();
        for task in tasks {
            let (from, to) = ends_of(inst, task);
            add_path(alloc, dist, at, from, &mut self.deadheads, parts)?;
            add_at(&mut self.services, place_of(task.edge), parts);
            at = to;
        }
        add_path(alloc, dist, at, inst.depot(), &mut self.deadheads, parts)
    }
}

// The place of an edge, from 0.
fn place_of(edge: u32) -> usize {
    edge.saturating_sub(1) as usize
}

// The vertex where a task starts, and the one where it ends.
fn ends_of(inst: &Instance, task: &Task) -> (u32, u32)
    requires { IsRequired inst.now task.now.edge }
    ensures from { IsVertex inst.now result.0 }
    ensures to { IsVertex inst.now result.1 }
{
    inst.validity();
    let edge = inst.edge(task.edge);
    (edge.tail(task.forward), edge.head(task.forward))
}

// Adds so many parts of a least path.
fn add_path(
    alloc: Global,
    dist: &Distances,
    from: u32,
    to: u32,
    deadheads: &mut [i64],
    parts: i64,
) -> Result<(), Memory>
    requires from { IsVertex dist.now.problem from }
    requires to { IsVertex dist.now.problem to }
{
    if let Some(walk) = dist.path(alloc, from, to)? {
        add_walk(deadheads, &walk, parts);
    }
    Ok(())
}

// Adds so many parts of a walk.
fn add_walk(deadheads: &mut [i64], walk: &Walk, parts: i64) {
    for place in 0..walk.len() {
        add_at(deadheads, place_of(walk.step(place).edge), parts);
    }
}

/// The load of a tour.
pub fn load_of(inst: &Instance, tasks: &[Task]) -> u64
    requires { AreServices inst.now tasks.now }
{
    inst.validity();
    let mut load: u64 = 0;
    for task in tasks {
        load = load.saturating_add(inst.edge(task.edge).demand);
    }
    load
}

/// A tour through an edge for which the value less the load times the rate is least.
pub fn tour_over(
    alloc: Global,
    inst: &Instance,
    table: &Table,
    e: u32,
    rate: Rate,
) -> Result<Vec<Task>, Memory>
    requires filled { IsFilledOn inst.now table.now }
    requires edge { IsRequired inst.now e }
    requires rate { IsRate rate }
    ensures { IfOk result (λ tasks. AreServices inst.now tasks.items) }
{
    table.tour_through(alloc, e, rate)
}

/// A tour of the least rate, if an edge is required.
pub fn best_tour(alloc: Global, inst: &Instance, table: &Table) -> Result<Option<Vec<Task>>, Memory>
    requires filled { IsFilledOn inst.now table.now }
    ensures { IfOk result (λ tour. IfSome tour (λ tasks. AreServices inst.now tasks.items)) }
{
    table.rate_tour(alloc)
}

/// A tour of the least value, if an edge is required.
pub fn least_tour(
    alloc: Global,
    inst: &Instance,
    table: &Table,
) -> Result<Option<Vec<Task>>, Memory>
    requires filled { IsFilledOn inst.now table.now }
    ensures { IfOk result (λ tour. IfSome tour (λ tasks. AreServices inst.now tasks.items)) }
{
    table.tour(alloc)
}

/// The same as `Table::through`, for a table that was filled for the instance.
pub fn excess_over(inst: &Instance, table: &Table, e: u32, rate: Rate) -> i128
    requires filled { IsFilledOn inst.now table.now }
    requires edge { IsRequired inst.now e }
    requires rate { IsRate rate }
{
    table.through(e, rate)
}
