// The network whose cuts tell how much a set is violated.
ghost use Rattle.std.specs.Prelude.{◌≡◌, ℕ, ◌+◌, ◌++◌, ◌≤◌, length, slice_index, IfOk, OnOk};
ghost use Rattle.carp_base.specs.Problem.{IsEdgeNumber, IsVertex};
ghost use Rattle.edge_components.specs.Labels.{AreInRange};
ghost use Rattle.edge_components.specs.Parts.{AreParts};
ghost use Rattle.capacity_cuts.specs.Network.{demand_at, edge_arcs, network, room_at, source_arcs};

use carp_base::{Instance, Memory};
use edge_components::demand_by_label;
use flow_cut::Arc;
use std::alloc::Global;

// The room of an edge.
fn room(inst: &Instance, x: &[u64], unit: u64, e: u32) -> u64
    requires parts { AreParts inst.now x.now }
    requires unit { unit ≤ 1000000 }
    requires number { IsEdgeNumber inst.now e }
    ensures value { result ≡ room_at inst.now unit x.now e }
{
    let parts = inst.capacity() * x[e as usize - 1];
    if e <= inst.required() {
        unit * (inst.capacity() - inst.edge(e).demand) + parts
    } else {
        parts
    }
}

// A label of its own for each vertex.
fn own_labels(alloc: Global, inst: &Instance) -> Result<Vec<u32>, Memory>
    ensures range { IfOk result (λ labels. AreInRange inst.now labels.items) }
    ensures own { IfOk result (λ labels. (v : ℕ) → v ≤ inst.now.vertices → slice_index labels.items v ≡ v) }
{
    let mut labels = Vec::with_capacity(alloc, inst.vertices() as usize + 1)?;
    for v in 0..inst.vertices() + 1 {
        labels.push(v)?;
    }
    Ok(labels)
}

// The demand met at each vertex.
fn demand_met(alloc: Global, inst: &Instance) -> Result<Vec<u64>, Memory>
    ensures long { IfOk result (λ sums. length sums.items ≡ inst.now.vertices + 1) }
    ensures sums { IfOk result (λ sums. (v : ℕ) → IsVertex inst.now v → slice_index sums.items v ≡ demand_at inst.now v) }
    ensures small { IfOk result (λ sums. (v : ℕ) → slice_index sums.items v ≤ 18000000) }
{
    inst.validity();
    let labels = own_labels(alloc, inst)?;
    demand_by_label(alloc, inst, &labels)
}

// An arc from the source to each vertex.
fn add_source(inst: &Instance, unit: u64, demand: &[u64], arcs: &mut Vec<Arc>) -> Result<(), Memory>
    requires unit { unit ≤ 1000000 }
    requires long { length demand.now ≡ inst.now.vertices + 1 }
    requires sums { (v : ℕ) → IsVertex inst.now v → slice_index demand.now v ≡ demand_at inst.now v }
    requires small { (v : ℕ) → slice_index demand.now v ≤ 18000000 }
    ensures { OnOk result (arcs.new.items ≡ arcs.old.items ++ source_arcs inst.now unit inst.now.vertices) }
{
    for i in 0..inst.vertices() {
        arcs.push(Arc {
            from: inst.vertices() + 1,
            to: i + 1,
            room: unit * demand[i as usize + 1],
        })?;
    }
    Ok(())
}

// Two arcs for each edge.
fn list_edges(alloc: Global, inst: &Instance, x: &[u64], unit: u64) -> Result<Vec<Arc>, Memory>
    requires parts { AreParts inst.now x.now }
    requires unit { unit ≤ 1000000 }
    ensures { IfOk result (λ arcs. arcs.items ≡ edge_arcs inst.now unit x.now (length inst.now.edges)) }
{
    let mut arcs = Vec::new(alloc);
    for i in 0..inst.edge_count() {
        let edge = inst.edge(i + 1);
        let room = room(inst, x, unit, i + 1);
        arcs.push(Arc {
            from: edge.u,
            to: edge.v,
            room,
        })?;
        arcs.push(Arc {
            from: edge.v,
            to: edge.u,
            room,
        })?;
    }
    Ok(arcs)
}

// The network: two arcs for each edge, and one from the source to each vertex.
pub(crate) fn build_network(
    alloc: Global,
    inst: &Instance,
    x: &[u64],
    unit: u64,
) -> Result<Vec<Arc>, Memory>
    requires parts { AreParts inst.now x.now }
    requires unit { unit ≤ 1000000 }
    ensures { IfOk result (λ arcs. arcs.items ≡ network inst.now unit x.now) }
{
    let demand = demand_met(alloc, inst)?;
    let mut arcs = list_edges(alloc, inst, x, unit)?;
    add_source(inst, unit, &demand, &mut arcs)?;
    Ok(arcs)
}
