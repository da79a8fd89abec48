// A search from the depot.
ghost use Rattle.std.specs.Prelude.{◌≡◌, ℕ, ◌+◌, ◌<◌, ◌↔◌, ◌++◌, ◌∷◌, [], true, false, length, IfOk, OnOk, IsTrue, slice_index_or, slice_set, if◌then◌else◌};
ghost use Rattle.carp_base.specs.Problem.{IsValid, IsVertex, IsReached};
ghost use Rattle.road_network.specs.Incidence.{incident};
ghost use Rattle.road_network.specs.Lists.{AreLists};
ghost use Rattle.road_network.specs.Search.{IsFound, Grows, ReachesAll};

use crate::far_end;
use carp_base::{Instance, Memory};
use std::alloc::Global;

// Lists a vertex as found, where it is not marked yet, and marks it.
fn find(reached: &mut Vec<bool>, found: &mut Vec<u32>, v: u32) -> Result<(), Memory>
    requires { v < length reached.old.items }
    ensures reached { OnOk result (reached.new.items ≡ slice_set reached.old.items v true) }
    ensures found { OnOk result (found.new.items ≡ (if slice_index_or reached.old.items v false then found.old.items else found.old.items ++ v ∷ [])) }
{
    if !reached[v as usize] {
        reached[v as usize] = true;
        found.push(v)?;
    }
    Ok(())
}

// Finds the other end of each edge at a vertex.
fn find_neighbours(
    inst: &Instance,
    v: u32,
    edges: &[u32],
    reached: &mut Vec<bool>,
    found: &mut Vec<u32>,
) -> Result<(), Memory>
    requires valid { IsValid inst.now }
    requires edges { edges.now ≡ incident inst.now v }
    requires vertex { IsVertex inst.now v }
    requires from { IsReached inst.now v }
    requires found { IsFound inst.now reached.old.items found.old.items }
    ensures found { OnOk result (IsFound inst.now reached.new.items found.new.items) }
    ensures grows { OnOk result (Grows reached.old.items found.old.items reached.new.items found.new.items) }
    ensures all { OnOk result (ReachesAll inst.now reached.new.items v) }
{
    for e in edges {
        let edge = inst.edge(*e);
        find(reached, found, far_end(&edge, v))?;
    }
    Ok(())
}

// Marks each vertex, from 0 to the last, that the depot reaches.
pub(crate) fn find_reached(
    alloc: Global,
    inst: &Instance,
    starts: &[u32],
    incident: &[u32],
) -> Result<Vec<bool>, Memory>
    requires { AreLists inst.now.vertices inst.now.edges starts.now incident.now }
    ensures long { IfOk result (λ reached. length reached.items ≡ inst.now.vertices + 1) }
    ensures reaches { IfOk result (λ reached. (v : ℕ) → IsVertex inst.now v → IsTrue (slice_index_or reached.items v false) ↔ IsReached inst.now v) }
{
    let mut reached = vec![in alloc; false; inst.vertices() as usize + 1]?;
    let mut found = Vec::with_capacity(alloc, inst.vertices() as usize)?;
    find(&mut reached, &mut found, inst.depot())?;
    let mut next = 0;
    while next < found.len() {
        let v = found[next];
        let from = starts[v as usize] as usize;
        let to = starts[v as usize + 1] as usize;
        find_neighbours(inst, v, &incident[from..to], &mut reached, &mut found)?;
        next += 1;
    }
    Ok(reached)
}
