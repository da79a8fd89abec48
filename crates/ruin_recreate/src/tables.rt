// The board of an instance.
ghost use Rattle.std.specs.Prelude.{◌≡◌, ◌+◌, ◌*◌, ◌/◌, ◌^◌, ◌<◌, ◌≤◌, IfOk, OnOk};
ghost use Rattle.carp_base.specs.Problem.{edge_at};
ghost use Rattle.deadhead_paths.specs.Prices.{costs_of};
ghost use Rattle.ruin_recreate.specs.Boards.{IsBoard, IsBoardOf, edge_of, end_of, other_way, start_of};
ghost use Rattle.ruin_recreate.specs.Tables.{AddsRow, AreDemands, AreLinks, AreTurns, IsLink};
ghost use Rattle.task_tours.specs.Tours.{IsStand};

use crate::board::Board;
use carp_base::{Instance, Memory, Task};
use deadhead_paths::Distances;
use std::alloc::Global;
use task_tours::{ends, least_cost};

// The vertex where a stop starts, and the vertex where it ends.
fn stop_ends(inst: &Instance, x: u32) -> (u32, u32)
    requires { x < 2 * inst.now.required + 2 }
    ensures start { result.0 ≡ start_of inst.now x }
    ensures end { result.1 ≡ end_of inst.now x }
    ensures start_stands { IsStand inst.now result.0 }
    ensures end_stands { IsStand inst.now result.1 }
{
    if x / 2 == 0 {
        let depot = inst.depot();
        return (depot, depot);
    }
    let task = Task {
        edge: x / 2,
        forward: x % 2 == 0,
    };
    ends(inst, task)
}

// The least price from the end of a stop to the start of another.
fn link(inst: &Instance, dist: &Distances, x: u32, y: u32) -> u32
    requires problem { dist.now.problem ≡ inst.now }
    requires prices { dist.now.prices ≡ costs_of inst.now }
    requires x { x < 2 * inst.now.required + 2 }
    requires y { y < 2 * inst.now.required + 2 }
    ensures least { IsLink inst.now x y result }
    ensures small { result ≤ 999000000 }
{
    let (_, from) = stop_ends(inst, x);
    let (to, _) = stop_ends(inst, y);
    least_cost(inst, dist, from, to) as u32
}

// Adds the links from a stop to all stops.
fn add_row(inst: &Instance, dist: &Distances, x: u32, links: &mut Vec<u32>) -> Result<(), Memory>
    requires problem { dist.now.problem ≡ inst.now }
    requires prices { dist.now.prices ≡ costs_of inst.now }
    requires x { x < 2 * inst.now.required + 2 }
    ensures { OnOk result (AddsRow inst.now x links.old.items links.new.items) }
{
    for y in 0..2 * inst.required() + 2 {
        links.push(link(inst, dist, x, y))?;
    }
    Ok(())
}

// The links between all stops, row by row.
fn links_of(alloc: Global, inst: &Instance, dist: &Distances) -> Result<Vec<u32>, Memory>
    requires problem { dist.now.problem ≡ inst.now }
    requires prices { dist.now.prices ≡ costs_of inst.now }
    ensures { IfOk result (λ links. AreLinks inst.now (2 * inst.now.required + 2) links.items) }
{
    let width = 2 * inst.required() + 2;
    let mut links = Vec::with_capacity(alloc, width as usize * width as usize)?;
    for x in 0..width {
        add_row(inst, dist, x, &mut links)?;
    }
    Ok(links)
}

// What a stop loads.
fn demand(inst: &Instance, x: u32) -> u32
    requires { x < 2 * inst.now.required + 2 }
    ensures value { result ≡ (edge_at inst.now (edge_of x)).demand }
    ensures light { result ≤ 30000 }
{
    inst.validity();
    if x / 2 == 0 {
        return 0;
    }
    inst.edge(x / 2).demand as u32
}

// What each stop loads.
fn demands_of(alloc: Global, inst: &Instance) -> Result<Vec<u32>, Memory>
    ensures { IfOk result (λ demands. AreDemands inst.now (2 * inst.now.required + 2) demands.items) }
{
    let width = 2 * inst.required() + 2;
    let mut demands = Vec::with_capacity(alloc, width as usize)?;
    for x in 0..width {
        demands.push(demand(inst, x))?;
    }
    Ok(demands)
}

// The service of the same edge in the other direction.
fn turn(x: u32) -> u32
    requires { x < 2 ^ 31 }
    ensures value { result ≡ other_way x }
    ensures same_edge { result / 2 ≡ x / 2 }
{
    if x / 2 == 0 {
        x
    } else if x % 2 == 0 {
        x + 1
    } else {
        x - 1
    }
}

// The other direction of each stop.
fn turns_of(alloc: Global, inst: &Instance) -> Result<Vec<u32>, Memory>
    ensures { IfOk result (λ turns. AreTurns (2 * inst.now.required + 2) (2 * inst.now.required + 2) turns.items) }
{
    let width = 2 * inst.required() + 2;
    let mut turns = Vec::with_capacity(alloc, width as usize)?;
    for x in 0..width {
        turns.push(turn(x))?;
    }
    Ok(turns)
}

/// The board of an instance. The distances are those by cost. The only error is want of memory.
///
/// With m required edges it takes time and memory in proportion to m * m.
pub fn board_of(alloc: Global, inst: &Instance, dist: &Distances) -> Result<Board, Memory>
    requires problem { dist.now.problem ≡ inst.now }
    requires prices { dist.now.prices ≡ costs_of inst.now }
    ensures board { IfOk result IsBoard }
    ensures of { IfOk result (IsBoardOf inst.now) }
{
    Ok(Board {
        width: 2 * inst.required() as usize + 2,
        links: links_of(alloc, inst, dist)?,
        demands: demands_of(alloc, inst)?,
        turns: turns_of(alloc, inst)?,
        room: inst.capacity() as u32,
    })
}
