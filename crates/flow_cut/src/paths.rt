// Ways from the source to the target through the layers, and what is sent over them (Dinic 1970).
ghost use Rattle.std.specs.Prelude.{◌≢◌, ℕ, ◌+◌, ◌<◌, ◌≤◌, slice_index};
ghost use Rattle.flow_cut.specs.Flows.{IsNetwork, IsWithinRooms};
ghost use Rattle.flow_cut.specs.Residual.{Brings};
ghost use Rattle.flow_cut.specs.Layers.{FitsTo, IsLayered, IsOpen};

use crate::Arc;
use crate::adjacency::Adjacency;
use crate::layers::{Ends, Layers};
use crate::residual::{ResidualArc, head, left, push, tail};

/// The most that can cross the whole way on which the target was reached.
fn bottleneck(arcs: &[Arc], flows: &[u64], ends: Ends, layers: &Layers) -> u64
    requires rooms { IsWithinRooms arcs.now flows.now }
    requires layered { IsLayered arcs.now ends.nodes ends.source layers.now.level.items layers.now.via.items }
    requires reached { slice_index layers.now.level.items ends.target ≢ 0 }
    ensures fits { FitsTo arcs.now flows.now layers.now.level.items layers.now.via.items result ends.target }
    ensures some { IsOpen arcs.now flows.now ends.source layers.now.level.items layers.now.via.items → 1 ≤ result }
{
    let mut least = u64::MAX;
    let mut v = ends.target;
    while v != ends.source {
        let r = layers.via[v as usize];
        least = least.min(left(arcs, flows, r));
        v = tail(arcs, r);
    }
    least
}

/// Sends an amount over the way on which the target was reached. Answers the node nearest the source whose residual arc
/// is full now, and the target if there is none.
fn send(arcs: &[Arc], flows: &mut [u64], ends: Ends, layers: &Layers, amount: u64) -> u32
    requires network { IsNetwork ends.nodes arcs.now }
    requires apart { ends.source ≢ ends.target }
    requires rooms { IsWithinRooms arcs.now flows.old }
    requires layered { IsLayered arcs.now ends.nodes ends.source layers.now.level.items layers.now.via.items }
    requires reached { slice_index layers.now.level.items ends.target ≢ 0 }
    requires fits { FitsTo arcs.now flows.old layers.now.level.items layers.now.via.items amount ends.target }
    ensures brings { (value : ℕ) → Brings arcs.now ends.source ends.target value flows.old → Brings arcs.now ends.source ends.target (value + amount) flows.new }
    ensures reached { slice_index layers.now.level.items result ≢ 0 }
    ensures later { result ≢ ends.source }
{
    let mut full = ends.target;
    let mut v = ends.target;
    while v != ends.source {
        let r = layers.via[v as usize];
        push(arcs, flows, r, amount);
        if left(arcs, flows, r) == 0 {
            full = v;
        }
        v = tail(arcs, r);
    }
    full
}

/// Sends as much as can go over the way on which the target was reached, and answers as `send` does.
pub(crate) fn augment(
    arcs: &[Arc],
    flows: &mut [u64],
    value: &mut u128,
    ends: Ends,
    layers: &Layers,
) -> u32
    requires network { IsNetwork ends.nodes arcs.now }
    requires apart { ends.source ≢ ends.target }
    requires brings { Brings arcs.now ends.source ends.target value.old flows.old }
    requires layered { IsLayered arcs.now ends.nodes ends.source layers.now.level.items layers.now.via.items }
    requires reached { slice_index layers.now.level.items ends.target ≢ 0 }
    ensures brings { Brings arcs.now ends.source ends.target value.new flows.new }
    ensures rises { value.old ≤ value.new }
    ensures more { IsOpen arcs.now flows.old ends.source layers.now.level.items layers.now.via.items → value.old < value.new }
    ensures reached { slice_index layers.now.level.items result ≢ 0 }
    ensures later { result ≢ ends.source }
{
    let amount = bottleneck(arcs, flows, ends, layers);
    let full = send(arcs, flows, ends, layers, amount);
    *value += u128::from(amount);
    full
}
