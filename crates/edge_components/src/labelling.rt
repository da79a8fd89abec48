// A search that labels one component after another.
ghost use Rattle.std.specs.Prelude.{◌≡◌, ◌≤◌, ◌<◌, ◌==◌, ◌++◌, ◌∷◌, [], length, slice_index, slice_set, IfOk, OnOk, IsTrue, if◌then◌else◌};
ghost use Rattle.carp_base.specs.Problem.{IsEdgeNumber, IsValid, IsVertex, edge_at};
ghost use Rattle.road_network.specs.Incidence.{has_end};
ghost use Rattle.edge_components.specs.Labels.{AreLabels};
ghost use Rattle.edge_components.specs.Search.{IsGoneOver, IsSearch, KeepsLabels, work_left};

use carp_base::{Instance, Memory};
use road_network::{Network, far_end};
use std::alloc::Global;

// Labels a vertex that has no label, and lists it as one whose edges are to be gone through.
fn label(labels: &mut [u32], waiting: &mut Vec<u32>, v: u32, root: u32) -> Result<(), Memory>
    requires { v < length labels.old }
    ensures labels { OnOk result (labels.new ≡ (if slice_index labels.old v == 0 then slice_set labels.old v root else labels.old)) }
    ensures waiting { OnOk result (waiting.new.items ≡ (if slice_index labels.old v == 0 then waiting.old.items ++ v ∷ [] else waiting.old.items)) }
{
    if labels[v as usize] == 0 {
        labels[v as usize] = root;
        waiting.push(v)?;
    }
    Ok(())
}

// Labels the other end of an edge at a vertex, where the edge is strong.
fn label_over(
    inst: &Instance,
    x: &[u64],
    least: u64,
    v: u32,
    e: u32,
    root: u32,
    labels: &mut [u32],
    waiting: &mut Vec<u32>,
) -> Result<(), Memory>
    requires valid { IsValid inst.now }
    requires one_each { length x.now ≡ length inst.now.edges }
    requires vertex { IsVertex inst.now v }
    requires number { IsEdgeNumber inst.now e }
    requires there { IsTrue (has_end v (edge_at inst.now e)) }
    requires root { IsVertex inst.now root }
    requires labelled { slice_index labels.old v ≡ root }
    requires search { IsSearch inst.now x.now least root labels.old waiting.old.items v }
    ensures { OnOk result (IsGoneOver inst.now x.now least root v e labels.old waiting.old.items labels.new waiting.new.items) }
{
    if least <= x[e as usize - 1] {
        label(labels, waiting, far_end(&inst.edge(e), v), root)?;
    }
    Ok(())
}

// Labels what the strong edges at a vertex lead to.
fn label_neighbours(
    inst: &Instance,
    net: &Network,
    x: &[u64],
    least: u64,
    v: u32,
    root: u32,
    labels: &mut [u32],
    waiting: &mut Vec<u32>,
) -> Result<(), Memory>
    requires valid { IsValid inst.now }
    requires net { net.now ≡ inst.now }
    requires one_each { length x.now ≡ length inst.now.edges }
    requires vertex { IsVertex inst.now v }
    requires root { IsVertex inst.now root }
    requires labelled { slice_index labels.old v ≡ root }
    requires search { IsSearch inst.now x.now least root labels.old waiting.old.items v }
    ensures search { OnOk result (IsSearch inst.now x.now least root labels.new waiting.new.items 0) }
    ensures kept { OnOk result (KeepsLabels labels.old labels.new) }
    ensures less { OnOk result (work_left labels.new waiting.new.items ≤ work_left labels.old waiting.old.items) }
{
    for i in 0..net.degree(v) {
        let e = net.edge_at(v, i);
        label_over(inst, x, least, v, e, root, labels, waiting)?;
    }
    Ok(())
}

// Labels the component of a vertex, where each vertex before it has a label.
fn label_component(
    inst: &Instance,
    net: &Network,
    x: &[u64],
    least: u64,
    root: u32,
    labels: &mut [u32],
    waiting: &mut Vec<u32>,
) -> Result<(), Memory>
    requires valid { IsValid inst.now }
    requires net { net.now ≡ inst.now }
    requires one_each { length x.now ≡ length inst.now.edges }
    requires root { IsVertex inst.now root }
    requires none { waiting.old.items ≡ [] }
    requires search { IsSearch inst.now x.now least root labels.old [] 0 }
    ensures none { OnOk result (waiting.new.items ≡ []) }
    ensures search { OnOk result (IsSearch inst.now x.now least root labels.new [] 0) }
    ensures labelled { OnOk result (1 ≤ slice_index labels.new root) }
{
    label(labels, waiting, root, root)?;
    while let Some(v) = waiting.pop() {
        label_neighbours(inst, net, x, least, v, root, labels, waiting)?;
    }
    Ok(())
}

// Labels all components, in the order of their least vertices.
fn label_all(
    inst: &Instance,
    net: &Network,
    x: &[u64],
    least: u64,
    labels: &mut [u32],
    waiting: &mut Vec<u32>,
) -> Result<(), Memory>
    requires valid { IsValid inst.now }
    requires net { net.now ≡ inst.now }
    requires one_each { length x.now ≡ length inst.now.edges }
    requires none { waiting.old.items ≡ [] }
    requires search { IsSearch inst.now x.now least 1 labels.old [] 0 }
    ensures { OnOk result (AreLabels inst.now x.now least labels.new) }
{
    for root in 1..inst.vertices() + 1 {
        label_component(inst, net, x, least, root, labels, waiting)?;
    }
    Ok(())
}

/// For each vertex the least vertex of its component, if edges with at least `least` parts join their ends. The label
/// of vertex v stands at place v, and place 0 is not used.
///
/// `x` has one number of parts for each edge, in the order of the edges. The numbers may be any. With `least` 0 every
/// edge joins its ends. The only error is want of memory. It takes time and memory in proportion to the vertices and
/// edges.
pub fn label_components(
    alloc: Global,
    inst: &Instance,
    net: &Network,
    x: &[u64],
    least: u64,
) -> Result<Vec<u32>, Memory>
    requires net { net.now ≡ inst.now }
    requires one_each { length x.now ≡ length inst.now.edges }
    ensures { IfOk result (λ labels. AreLabels inst.now x.now least labels.items) }
{
    let vertices = inst.vertices() as usize;
    let mut labels = vec![in alloc; 0; vertices + 1]?;
    let mut waiting = Vec::with_capacity(alloc, vertices)?;
    label_all(inst, net, x, least, &mut labels, &mut waiting)?;
    Ok(labels)
}
