// Greatest flows (Dinic 1970).
ghost use Rattle.std.specs.Prelude.{◌≡◌, ◌≢◌, ◌==◌, ◌+◌, not, map, length, IfOk};
ghost use Rattle.flow_cut.specs.Flows.{IsFlow, IsNetwork, IsNode, IsSide, cut_room};
ghost use Rattle.flow_cut.specs.Residual.{Brings};
ghost use Rattle.flow_cut.specs.Adjacency.{IsAdjacency};
ghost use Rattle.flow_cut.specs.Layers.{IsEnded};

use crate::adjacency::{Adjacency, list_residuals};
use crate::blocking::improve;
use crate::layers::{Ends, Layers, search};
use crate::residual::ResidualArc;
use crate::{Arc, Flow};
use carp_base::Memory;
use std::alloc::Global;

/// Layers that reach no node yet.
fn no_layers(alloc: Global, nodes: u32) -> Result<Layers, Memory>
    ensures level_len { IfOk result (λ layers. length layers.level.items ≡ nodes + 1) }
    ensures via_len { IfOk result (λ layers. length layers.via.items ≡ nodes + 1) }
{
    let size = nodes as usize + 1;
    let nowhere = ResidualArc {
        arc: 0,
        forward: true,
    };
    Ok(Layers {
        level: vec![in alloc; 0; size]?,
        via: vec![in alloc; nowhere; size]?,
    })
}

/// Sends over shortest ways, and then over longer ones, until none leads to the target. Answers how much was sent.
fn send_all(
    arcs: &[Arc],
    flows: &mut [u64],
    adjacency: &Adjacency,
    ends: Ends,
    layers: &mut Layers,
    untried: &mut [usize],
    queue: &mut Vec<u32>,
) -> Result<u128, Memory>
    requires network { IsNetwork ends.nodes arcs.now }
    requires source { IsNode ends.nodes ends.source }
    requires target { IsNode ends.nodes ends.target }
    requires apart { ends.source ≢ ends.target }
    requires brings { Brings arcs.now ends.source ends.target 0 flows.old }
    requires adjacency { IsAdjacency arcs.now ends.nodes adjacency.now.starts.items adjacency.now.list.items }
    requires level_len { length layers.old.level.items ≡ ends.nodes + 1 }
    requires via_len { length layers.old.via.items ≡ ends.nodes + 1 }
    requires untried_len { length untried.old ≡ ends.nodes + 1 }
    ensures brings { IfOk result (λ value. Brings arcs.now ends.source ends.target value flows.new) }
    ensures ended { IfOk result (λ value. IsEnded arcs.now flows.new ends.nodes ends.source ends.target layers.new.level.items layers.new.via.items) }
{
    let mut value = 0;
    search(arcs, flows, adjacency, ends, layers, queue)?;
    while layers.level[ends.target as usize] != 0 {
        improve(arcs, flows, &mut value, adjacency, ends, layers, untried);
        search(arcs, flows, adjacency, ends, layers, queue)?;
    }
    Ok(value)
}

/// Sends as much as can be sent, in memory of its own. Answers how much that is.
fn send_greatest(
    alloc: Global,
    arcs: &[Arc],
    flows: &mut [u64],
    adjacency: &Adjacency,
    ends: Ends,
    layers: &mut Layers,
) -> Result<u128, Memory>
    requires network { IsNetwork ends.nodes arcs.now }
    requires source { IsNode ends.nodes ends.source }
    requires target { IsNode ends.nodes ends.target }
    requires apart { ends.source ≢ ends.target }
    requires brings { Brings arcs.now ends.source ends.target 0 flows.old }
    requires adjacency { IsAdjacency arcs.now ends.nodes adjacency.now.starts.items adjacency.now.list.items }
    requires level_len { length layers.old.level.items ≡ ends.nodes + 1 }
    requires via_len { length layers.old.via.items ≡ ends.nodes + 1 }
    ensures brings { IfOk result (λ value. Brings arcs.now ends.source ends.target value flows.new) }
    ensures ended { IfOk result (λ value. IsEnded arcs.now flows.new ends.nodes ends.source ends.target layers.new.level.items layers.new.via.items) }
{
    let size = ends.nodes as usize + 1;
    let mut untried = vec![in alloc; 0; size]?;
    let mut queue = Vec::with_capacity(alloc, size)?;
    send_all(
        arcs,
        flows,
        adjacency,
        ends,
        layers,
        &mut untried,
        &mut queue,
    )
}

/// Which nodes were reached, by their levels.
fn reached_side(alloc: Global, levels: &[u32]) -> Result<Vec<bool>, Memory>
    ensures { IfOk result (λ side. side.items ≡ map (λ depth. not (depth == 0)) levels.now) }
{
    Ok(levels.iter().map(|depth| *depth != 0).collect(alloc)?)
}

/// A greatest flow from node `s` to node `t`, and a least cut between them, in a network of at most 10,000 nodes and
/// 40,000 arcs. Its only error is want of memory.
///
/// The time grows at most as the number of arcs times the square of the number of nodes, and on most networks far more
/// slowly. The memory grows as the nodes and arcs do.
pub fn max_flow(alloc: Global, nodes: u32, arcs: &[Arc], s: u32, t: u32) -> Result<Flow, Memory>
    requires network { IsNetwork nodes arcs.now }
    requires source { IsNode nodes s }
    requires target { IsNode nodes t }
    requires apart { s ≢ t }
    ensures flow { IfOk result (λ f. IsFlow arcs.now s t f.value f.flows.items) }
    ensures side_len { IfOk result (λ f. length f.side.items ≡ nodes) }
    ensures side { IfOk result (λ f. IsSide f.side.items s t) }
    ensures cut { IfOk result (λ f. cut_room arcs.now f.side.items ≡ f.value) }
{
    let ends = Ends {
        nodes,
        source: s,
        target: t,
    };
    let adjacency = list_residuals(alloc, arcs, nodes)?;
    let mut layers = no_layers(alloc, nodes)?;
    let mut flows = vec![in alloc; 0; arcs.len()]?;
    let value = send_greatest(alloc, arcs, &mut flows, &adjacency, ends, &mut layers)?;
    let side = reached_side(alloc, &layers.level[1..])?;
    Ok(Flow { value, flows, side })
}
