// What is left over the edges for the weights of shores.
ghost use Rattle.std.specs.Prelude.{◌≡◌, ◌+◌, ◌≤◌, [], IfOk, OnOk, length, if◌then◌else◌};
ghost use Rattle.plan_model.specs.Plans.{crosses};
ghost use Rattle.cut_pool.specs.Shores.{is_in};
ghost use Rattle.shore_program.specs.Tableaus.{HasRoom, IsLaid, LeavesRoom, Takes};

use crate::cuts::Cut;
use crate::tableau::UNIT;
use carp_base::{Edge, Memory};
use cut_pool::{Shore, Weighted};
use std::alloc::Global;

/// The greatest weight: one million times the greatest cost of an edge.
pub(crate) const MOST: u64 = 1_000_000_000_000;

/// The cost of each edge, in parts of `UNIT`.
pub(crate) fn rooms_of(alloc: Global, edges: &[Edge]) -> Result<Vec<u64>, Memory>
    ensures { IfOk result (λ rooms. LeavesRoom edges.now rooms.items []) }
{
    let mut rooms = Vec::with_capacity(alloc, edges.len())?;
    for place in 0..edges.len() {
        rooms.push(edges[place].cost.saturating_mul(UNIT))?;
    }
    Ok(rooms)
}

// What may be taken, where it is at most what is left over the edge if that crosses the shore.
fn room_over(edge: &Edge, room: u64, shore: &Shore, most: u64) -> u64
    ensures most { result ≤ most }
    ensures room { (if crosses (is_in shore.now) edge.now then result else 0) ≤ room }
{
    if shore.crosses(edge) {
        most.min(room)
    } else {
        most
    }
}

// The least of a number and what is left over each edge that crosses the shore.
fn least_room(edges: &[Edge], rooms: &[u64], shore: &Shore, most: u64) -> u64
    requires { length rooms.now ≡ length edges.now }
    ensures most { result ≤ most }
    ensures rooms { HasRoom edges.now shore.now result rooms.now }
{
    let mut least = most;
    for place in 0..edges.len() {
        least = room_over(&edges[place], rooms[place], shore, least);
    }
    least
}

// What is left over an edge, less an amount if that crosses the shore.
fn lessened(edge: &Edge, room: u64, shore: &Shore, amount: u64) -> u64
    requires { (if crosses (is_in shore.now) edge.now then amount else 0) ≤ room }
    ensures { result + (if crosses (is_in shore.now) edge.now then amount else 0) ≡ room }
{
    if shore.crosses(edge) {
        room - amount
    } else {
        room
    }
}

// Takes an amount from what is left over each edge that crosses the shore.
fn lower(edges: &[Edge], rooms: &mut [u64], shore: &Shore, amount: u64)
    requires long { length rooms.old ≡ length edges.now }
    requires rooms { HasRoom edges.now shore.now amount rooms.old }
    ensures { Takes edges.now shore.now amount rooms.old rooms.new }
{
    for place in 0..edges.len() {
        rooms[place] = lessened(&edges[place], rooms[place], shore, amount);
    }
}

/// Takes what is left for a shore, at most so much, and answers how much that is. It takes time in proportion to the
/// number of edges.
pub(crate) fn take(edges: &[Edge], rooms: &mut [u64], shore: &Shore, most: u64) -> u64
    requires { length rooms.old ≡ length edges.now }
    ensures most { result ≤ most }
    ensures takes { Takes edges.now shore.now result rooms.old rooms.new }
{
    let amount = least_room(edges, rooms, shore, most);
    lower(edges, rooms, shore, amount);
    amount
}

/// Adds a shore with what is left for it, at most so much.
pub(crate) fn lay(
    alloc: Global,
    edges: &[Edge],
    rooms: &mut [u64],
    cut: &Cut,
    most: u64,
    shores: &mut Vec<Weighted>,
) -> Result<(), Memory>
    requires { length rooms.old ≡ length edges.now }
    ensures { OnOk result (IsLaid edges.now cut.now.shore rooms.old rooms.new shores.old.items shores.new.items) }
{
    let weight = take(edges, rooms, &cut.shore, most.min(MOST));
    if weight > 0 {
        let shore = cut.shore.copy(alloc)?;
        shores.push(Weighted {
            shore,
            weight: weight as i64,
        })?;
    }
    Ok(())
}
