// Layers of nodes by their distance from the source in the residual network (Dinic 1970).
ghost use Rattle.std.specs.Prelude.{◌≡◌, ◌≢◌, ◌+◌, ◌<◌, ◌≤◌, length, slice_index, replicate, OnOk};
ghost use Rattle.flow_cut.specs.Flows.{IsNetwork, IsNode, IsWithinRooms};
ghost use Rattle.flow_cut.specs.Residual.{residual_tail, residual_head, left_on};
ghost use Rattle.flow_cut.specs.Adjacency.{IsAdjacency};
ghost use Rattle.flow_cut.specs.Layers.{IsClosed, IsLayered, IsOpen, IsPending, IsProgress, IsLayerSearch};

use crate::Arc;
use crate::adjacency::Adjacency;
use crate::residual::{ResidualArc, head, left};
use carp_base::Memory;

/// How many nodes there are, and between which two of them a flow goes.
#[derive(Clone, Copy)]
pub(crate) struct Ends {
    pub nodes: u32,
    pub source: u32,
    pub target: u32,
}

/// For each node one more than its distance from the source, or 0 if it was not reached, and the residual arc over
/// which it was reached. Place 0 is not used.
#[derive(Drop)]
pub(crate) struct Layers {
    pub level: Vec<u32>,
    pub via: Vec<ResidualArc>,
}

/// Takes all nodes as not reached.
fn forget(level: &mut [u32])
    ensures { level.new ≡ replicate (length level.old) 0 }
{
    for depth in level.iter_mut() {
        *depth = 0;
    }
}

/// Begins a search at the source.
fn restart(
    arcs: &[Arc],
    flows: &[u64],
    ends: Ends,
    layers: &mut Layers,
    queue: &mut Vec<u32>,
) -> Result<(), Memory>
    requires source { IsNode ends.nodes ends.source }
    requires level_len { length layers.old.level.items ≡ ends.nodes + 1 }
    requires via_len { length layers.old.via.items ≡ ends.nodes + 1 }
    ensures search { OnOk result (IsLayerSearch arcs.now flows.now ends.nodes ends.source layers.new.level.items layers.new.via.items queue.new.items) }
    ensures pending { OnOk result (IsPending arcs.now flows.now layers.new.level.items queue.new.items 0) }
{
    forget(&mut layers.level);
    layers.level[ends.source as usize] = 1;
    queue.clear();
    queue.push(ends.source)?;
    Ok(())
}

/// Reaches the end of a residual arc of node v, unless it was reached before or nothing is left.
fn reach(
    arcs: &[Arc],
    flows: &[u64],
    ends: Ends,
    layers: &mut Layers,
    queue: &mut Vec<u32>,
    r: ResidualArc,
    v: u32,
) -> Result<(), Memory>
    requires network { IsNetwork ends.nodes arcs.now }
    requires rooms { IsWithinRooms arcs.now flows.now }
    requires search { IsLayerSearch arcs.now flows.now ends.nodes ends.source layers.old.level.items layers.old.via.items queue.old.items }
    requires in_arcs { r.arc < length arcs.now }
    requires own { residual_tail arcs.now r ≡ v }
    requires reached { slice_index layers.old.level.items v ≢ 0 }
    ensures search { OnOk result (IsLayerSearch arcs.now flows.now ends.nodes ends.source layers.new.level.items layers.new.via.items queue.new.items) }
    ensures progress { OnOk result (IsProgress layers.old.level.items queue.old.items layers.new.level.items queue.new.items) }
    ensures reached { OnOk result (1 ≤ left_on arcs.now flows.now r → slice_index layers.new.level.items (residual_head arcs.now r) ≢ 0) }
{
    let w = head(arcs, r);
    if layers.level[w as usize] == 0 && left(arcs, flows, r) > 0 {
        layers.level[w as usize] = layers.level[v as usize] + 1;
        layers.via[w as usize] = r;
        queue.push(w)?;
    }
    Ok(())
}

/// Reaches what can be reached from the node at a place of the queue.
fn explore(
    arcs: &[Arc],
    flows: &[u64],
    adjacency: &Adjacency,
    ends: Ends,
    layers: &mut Layers,
    queue: &mut Vec<u32>,
    place: usize,
) -> Result<(), Memory>
    requires network { IsNetwork ends.nodes arcs.now }
    requires rooms { IsWithinRooms arcs.now flows.now }
    requires adjacency { IsAdjacency arcs.now ends.nodes adjacency.now.starts.items adjacency.now.list.items }
    requires search { IsLayerSearch arcs.now flows.now ends.nodes ends.source layers.old.level.items layers.old.via.items queue.old.items }
    requires in_queue { place < length queue.old.items }
    requires pending { IsPending arcs.now flows.now layers.old.level.items queue.old.items place }
    ensures search { OnOk result (IsLayerSearch arcs.now flows.now ends.nodes ends.source layers.new.level.items layers.new.via.items queue.new.items) }
    ensures longer { OnOk result (length queue.old.items ≤ length queue.new.items) }
    ensures pending { OnOk result (IsPending arcs.now flows.now layers.new.level.items queue.new.items (place + 1)) }
{
    let v = queue[place];
    for k in adjacency.starts[v as usize]..adjacency.starts[v as usize + 1] {
        reach(arcs, flows, ends, layers, queue, adjacency.list[k], v)?;
    }
    Ok(())
}

/// Layers the nodes, the nearest first, until the target is reached or no further node can be.
pub(crate) fn search(
    arcs: &[Arc],
    flows: &[u64],
    adjacency: &Adjacency,
    ends: Ends,
    layers: &mut Layers,
    queue: &mut Vec<u32>,
) -> Result<(), Memory>
    requires network { IsNetwork ends.nodes arcs.now }
    requires rooms { IsWithinRooms arcs.now flows.now }
    requires adjacency { IsAdjacency arcs.now ends.nodes adjacency.now.starts.items adjacency.now.list.items }
    requires source { IsNode ends.nodes ends.source }
    requires target { IsNode ends.nodes ends.target }
    requires level_len { length layers.old.level.items ≡ ends.nodes + 1 }
    requires via_len { length layers.old.via.items ≡ ends.nodes + 1 }
    ensures layered { OnOk result (IsLayered arcs.now ends.nodes ends.source layers.new.level.items layers.new.via.items) }
    ensures open_yet { OnOk result (IsOpen arcs.now flows.now ends.source layers.new.level.items layers.new.via.items) }
    ensures closed { OnOk result (slice_index layers.new.level.items ends.target ≡ 0 → IsClosed arcs.now flows.now layers.new.level.items) }
{
    restart(arcs, flows, ends, layers, queue)?;
    let mut place = 0;
    while place < queue.len() && layers.level[ends.target as usize] == 0 {
        explore(arcs, flows, adjacency, ends, layers, queue, place)?;
        place += 1;
    }
    Ok(())
}
