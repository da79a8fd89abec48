// Least cuts in networks where demand counts for more and more.
ghost use Rattle.std.specs.Prelude.{◌<◌, ◌≤◌, IfOk, OnOk};
ghost use Rattle.flow_cut.specs.Flows.{IsNode, room_limit};
ghost use Rattle.shore_search.specs.Tables.{AreArcs, AreStreets, IsStop};

use crate::streets::{Half, Streets};
use carp_base::Memory;
use flow_cut::{Arc, max_flow};
use set_search::UNIT;
use std::alloc::Global;

// The most room of an arc, and the most arcs of a network.
const MOST_ROOM: u64 = 1_000_000_000_000_000_000;

const MOST_ARCS: usize = 40_000;

// By how much demand counts for more than its share of two crossings of a full vehicle, in hundredths.
pub(crate) const FACTORS: [i64; 10] = [100, 103, 108, 115, 125, 140, 160, 200, 250, 300];

// Half of what the demand of an edge is worth, in parts times the capacity.
fn worth(half: Half, factor: i64) -> i64 {
    half.demand.saturating_mul(UNIT).saturating_mul(factor) / 100
}

// A number as the room of an arc.
fn room_of(amount: i64) -> u64
    ensures { result ≤ room_limit }
{
    u64::try_from(amount).unwrap_or(0).min(MOST_ROOM)
}

// The room of an edge: what it adds to a border, less half of what its demand is worth.
fn room(capacity: i64, half: Half, factor: i64) -> u64
    ensures { result ≤ room_limit }
{
    room_of(
        half.room
            .saturating_mul(capacity)
            .saturating_sub(worth(half, factor)),
    )
}

// Half of what the demand at a vertex is worth.
fn gain(streets: &Streets, v: usize, factor: i64) -> u64
    requires streets { AreStreets streets.now }
    requires vertex { v < streets.now.width }
    ensures { result ≤ room_limit }
{
    let mut gain: i64 = 0;
    let (first, end) = streets.at(v);
    for k in first..end {
        gain = gain.saturating_add(worth(streets.halves[k], factor));
    }
    room_of(gain)
}

// Adds an arc in each direction.
fn add_both(nodes: u32, u: u32, v: u32, room: u64, arcs: &mut Vec<Arc>) -> Result<(), Memory>
    requires u { IsNode nodes u }
    requires v { IsNode nodes v }
    requires room { room ≤ room_limit }
    requires arcs { AreArcs nodes arcs.old.items }
    ensures { OnOk result (AreArcs nodes arcs.new.items) }
{
    arcs.push(Arc {
        from: u,
        to: v,
        room,
    })?;
    arcs.push(Arc {
        from: v,
        to: u,
        room,
    })?;
    Ok(())
}

// Adds the arcs of the edges from a vertex to those of greater number.
fn add_streets(streets: &Streets, v: usize, factor: i64, arcs: &mut Vec<Arc>) -> Result<(), Memory>
    requires streets { AreStreets streets.now }
    requires vertex { IsStop streets.now.width v }
    requires arcs { AreArcs streets.now.width arcs.old.items }
    ensures { OnOk result (AreArcs streets.now.width arcs.new.items) }
{
    let capacity = i64::try_from(streets.capacity).unwrap_or(i64::MAX);
    let nodes = streets.width as u32;
    let (first, end) = streets.at(v);
    for k in first..end {
        let half = streets.halves[k];
        if v < half.to {
            let room = room(capacity, half, factor);
            add_both(nodes, v as u32, half.to as u32, room, arcs)?;
        }
    }
    Ok(())
}

// Adds the arcs that lead to a vertex from the source, the last node, and to vertices of greater number.
fn add_vertex(streets: &Streets, v: usize, factor: i64, arcs: &mut Vec<Arc>) -> Result<(), Memory>
    requires streets { AreStreets streets.now }
    requires vertex { IsStop streets.now.width v }
    requires arcs { AreArcs streets.now.width arcs.old.items }
    ensures { OnOk result (AreArcs streets.now.width arcs.new.items) }
{
    add_streets(streets, v, factor, arcs)?;
    arcs.push(Arc {
        from: streets.width as u32,
        to: v as u32,
        room: gain(streets, v, factor),
    })?;
    Ok(())
}

fn network(alloc: Global, streets: &Streets, factor: i64) -> Result<Vec<Arc>, Memory>
    requires { AreStreets streets.now }
    ensures { IfOk result (λ arcs. AreArcs streets.now.width arcs.items) }
{
    let mut arcs = Vec::with_capacity(alloc, streets.halves.len().saturating_add(streets.width))?;
    for v in 1..streets.width {
        add_vertex(streets, v, factor, &mut arcs)?;
    }
    Ok(arcs)
}

// A mark for each place: those of a set without the depot of least room over its border, less what the demand that touches it
// is worth; and how many arcs the network has. It takes one greatest flow.
pub(crate) fn least_cut(
    alloc: Global,
    streets: &Streets,
    factor: i64,
) -> Result<(Vec<bool>, usize), Memory>
    requires { AreStreets streets.now }
{
    let nodes = streets.width as u32;
    let arcs = network(alloc, streets, factor)?;
    let mut marks = Vec::with_capacity(alloc, streets.width + 1)?;
    marks.push(false)?;
    if arcs.len() <= MOST_ARCS {
        let flow = max_flow(alloc, nodes, &arcs, nodes, streets.depot as u32)?;
        marks.extend_from_slice(&flow.side)?;
    }
    Ok((marks, arcs.len()))
}
