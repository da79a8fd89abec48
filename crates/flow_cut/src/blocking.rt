// A search along the layers that sends over each way until none is left (Dinic 1970).
ghost use Rattle.std.specs.Prelude.{◌≡◌, ◌≢◌, ℕ, ◌+◌, ◌-◌, ◌<◌, ◌≤◌, ◌^◌, ◌↔◌, length, slice_index, sum, IsTrue, IfNone, IfSome};
ghost use Rattle.flow_cut.specs.Flows.{IsNetwork, IsWithinRooms};
ghost use Rattle.flow_cut.specs.Residual.{Brings, residual_head, residual_tail};
ghost use Rattle.flow_cut.specs.Adjacency.{IsAdjacency, residual_at};
ghost use Rattle.flow_cut.specs.Layers.{IsLayered, IsOpen, IsUntried, LeadsOn, to_try};

use crate::Arc;
use crate::adjacency::Adjacency;
use crate::layers::{Ends, Layers};
use crate::paths::augment;
use crate::residual::{ResidualArc, head, left, tail};

/// Whether a residual arc leads one level further, with something left.
fn leads_on(arcs: &[Arc], flows: &[u64], level: &[u32], r: ResidualArc) -> bool
    requires in_arcs { r.arc < length arcs.now }
    requires rooms { IsWithinRooms arcs.now flows.now }
    requires tail_in { residual_tail arcs.now r < length level.now }
    requires head_in { residual_head arcs.now r < length level.now }
    requires low { slice_index level.now (residual_tail arcs.now r) < 2 ^ 32 - 1 }
    ensures { IsTrue result ↔ LeadsOn arcs.now flows.now level.now r }
{
    level[head(arcs, r) as usize] == level[tail(arcs, r) as usize] + 1 && left(arcs, flows, r) > 0
}

/// The end of the residual arcs of node v that are not tried yet, when those that do not lead on are tried.
fn skip(
    arcs: &[Arc],
    flows: &[u64],
    adjacency: &Adjacency,
    ends: Ends,
    layers: &Layers,
    v: u32,
    end: usize,
) -> usize
    requires network { IsNetwork ends.nodes arcs.now }
    requires rooms { IsWithinRooms arcs.now flows.now }
    requires adjacency { IsAdjacency arcs.now ends.nodes adjacency.now.starts.items adjacency.now.list.items }
    requires layered { IsLayered arcs.now ends.nodes ends.source layers.now.level.items layers.now.via.items }
    requires node { v ≤ ends.nodes }
    requires within { end ≤ slice_index adjacency.now.starts.items (v + 1) }
    ensures below { result ≤ end }
    ensures skipped { (j : ℕ) → result ≤ j → j < end → LeadsOn arcs.now flows.now layers.now.level.items (residual_at adjacency.now.list.items j) → ⊥ }
    ensures found { slice_index adjacency.now.starts.items v < result → LeadsOn arcs.now flows.now layers.now.level.items (residual_at adjacency.now.list.items (result - 1)) }
{
    let start = adjacency.starts[v as usize];
    let mut end = end;
    while end > start && !leads_on(arcs, flows, &layers.level, adjacency.list[end - 1]) {
        end -= 1;
    }
    end
}

/// Goes back from a node to the nearest one on its way that has more to try, past the residual arc that led on from there.
fn retreat(
    arcs: &[Arc],
    adjacency: &Adjacency,
    ends: Ends,
    layers: &Layers,
    untried: &mut [usize],
    from: u32,
) -> Option<u32>
    requires adjacency { IsAdjacency arcs.now ends.nodes adjacency.now.starts.items adjacency.now.list.items }
    requires layered { IsLayered arcs.now ends.nodes ends.source layers.now.level.items layers.now.via.items }
    requires untried { IsUntried ends.nodes adjacency.now.starts.items untried.old }
    requires reached { slice_index layers.now.level.items from ≢ 0 }
    ensures untried { IsUntried ends.nodes adjacency.now.starts.items untried.new }
    ensures reached { IfSome result (λ v. slice_index layers.now.level.items v ≢ 0) }
    ensures less { IfSome result (λ v. sum untried.new < sum untried.old) }
    ensures kept { IfNone result (untried.new ≡ untried.old) }
    ensures spent { IfNone result (from ≢ ends.source → slice_index untried.new ends.source ≤ slice_index adjacency.now.starts.items ends.source) }
{
    let mut v = from;
    while v != ends.source {
        v = tail(arcs, layers.via[v as usize]);
        if untried[v as usize] > adjacency.starts[v as usize] {
            untried[v as usize] -= 1;
            return Some(v);
        }
    }
    None
}

/// One step from node v: on to the next level, or back.
fn step(
    arcs: &[Arc],
    flows: &[u64],
    adjacency: &Adjacency,
    ends: Ends,
    layers: &mut Layers,
    untried: &mut [usize],
    v: u32,
) -> Option<u32>
    requires network { IsNetwork ends.nodes arcs.now }
    requires rooms { IsWithinRooms arcs.now flows.now }
    requires adjacency { IsAdjacency arcs.now ends.nodes adjacency.now.starts.items adjacency.now.list.items }
    requires layered { IsLayered arcs.now ends.nodes ends.source layers.old.level.items layers.old.via.items }
    requires untried { IsUntried ends.nodes adjacency.now.starts.items untried.old }
    requires reached { slice_index layers.old.level.items v ≢ 0 }
    ensures layered { IsLayered arcs.now ends.nodes ends.source layers.new.level.items layers.new.via.items }
    ensures level { layers.new.level.items ≡ layers.old.level.items }
    ensures untried { IsUntried ends.nodes adjacency.now.starts.items untried.new }
    ensures reached { IfSome result (λ w. slice_index layers.new.level.items w ≢ 0) }
    ensures less { IfSome result (λ w. to_try ends.nodes layers.new.level.items untried.new w < to_try ends.nodes layers.old.level.items untried.old v) }
    ensures spent { IfNone result (slice_index untried.new ends.source ≤ slice_index adjacency.now.starts.items ends.source) }
{
    let end = skip(arcs, flows, adjacency, ends, layers, v, untried[v as usize]);
    untried[v as usize] = end;
    if end > adjacency.starts[v as usize] {
        let r = adjacency.list[end - 1];
        let w = head(arcs, r);
        layers.via[w as usize] = r;
        Some(w)
    } else {
        retreat(arcs, adjacency, ends, layers, untried, v)
    }
}

/// One step, or at the target an amount over the way on which it was reached.
fn turn(
    arcs: &[Arc],
    flows: &mut [u64],
    value: &mut u128,
    adjacency: &Adjacency,
    ends: Ends,
    layers: &mut Layers,
    untried: &mut [usize],
    v: u32,
) -> Option<u32>
    requires network { IsNetwork ends.nodes arcs.now }
    requires apart { ends.source ≢ ends.target }
    requires brings { Brings arcs.now ends.source ends.target value.old flows.old }
    requires adjacency { IsAdjacency arcs.now ends.nodes adjacency.now.starts.items adjacency.now.list.items }
    requires layered { IsLayered arcs.now ends.nodes ends.source layers.old.level.items layers.old.via.items }
    requires untried { IsUntried ends.nodes adjacency.now.starts.items untried.old }
    requires reached { slice_index layers.old.level.items v ≢ 0 }
    ensures brings { Brings arcs.now ends.source ends.target value.new flows.new }
    ensures rises { value.old ≤ value.new }
    ensures layered { IsLayered arcs.now ends.nodes ends.source layers.new.level.items layers.new.via.items }
    ensures untried { IsUntried ends.nodes adjacency.now.starts.items untried.new }
    ensures reached { IfSome result (λ w. slice_index layers.new.level.items w ≢ 0) }
    ensures less { IfSome result (λ w. to_try ends.nodes layers.new.level.items untried.new w < to_try ends.nodes layers.old.level.items untried.old v) }
    ensures spent { IfNone result (slice_index untried.new ends.source ≤ slice_index adjacency.now.starts.items ends.source) }
{
    if v == ends.target {
        let full = augment(arcs, flows, value, ends, layers);
        retreat(arcs, adjacency, ends, layers, untried, full)
    } else {
        step(arcs, flows, adjacency, ends, layers, untried, v)
    }
}

/// Sends over ways along the layers until each residual arc of the source is tried.
fn block(
    arcs: &[Arc],
    flows: &mut [u64],
    value: &mut u128,
    adjacency: &Adjacency,
    ends: Ends,
    layers: &mut Layers,
    untried: &mut [usize],
)
    requires network { IsNetwork ends.nodes arcs.now }
    requires apart { ends.source ≢ ends.target }
    requires brings { Brings arcs.now ends.source ends.target value.old flows.old }
    requires adjacency { IsAdjacency arcs.now ends.nodes adjacency.now.starts.items adjacency.now.list.items }
    requires layered { IsLayered arcs.now ends.nodes ends.source layers.old.level.items layers.old.via.items }
    requires untried { IsUntried ends.nodes adjacency.now.starts.items untried.old }
    ensures brings { Brings arcs.now ends.source ends.target value.new flows.new }
    ensures rises { value.old ≤ value.new }
    ensures layered { IsLayered arcs.now ends.nodes ends.source layers.new.level.items layers.new.via.items }
    ensures spent { slice_index untried.new ends.source ≤ slice_index adjacency.now.starts.items ends.source }
{
    let mut at = Some(ends.source);
    while let Some(v) = at {
        at = turn(arcs, flows, value, adjacency, ends, layers, untried, v);
    }
}

/// Sends over all shortest ways, of which there is at least one.
pub(crate) fn improve(
    arcs: &[Arc],
    flows: &mut [u64],
    value: &mut u128,
    adjacency: &Adjacency,
    ends: Ends,
    layers: &mut Layers,
    untried: &mut [usize],
)
    requires network { IsNetwork ends.nodes arcs.now }
    requires apart { ends.source ≢ ends.target }
    requires brings { Brings arcs.now ends.source ends.target value.old flows.old }
    requires adjacency { IsAdjacency arcs.now ends.nodes adjacency.now.starts.items adjacency.now.list.items }
    requires layered { IsLayered arcs.now ends.nodes ends.source layers.old.level.items layers.old.via.items }
    requires open_yet { IsOpen arcs.now flows.old ends.source layers.old.level.items layers.old.via.items }
    requires reached { slice_index layers.old.level.items ends.target ≢ 0 }
    requires untried_len { length untried.old ≡ ends.nodes + 1 }
    ensures brings { Brings arcs.now ends.source ends.target value.new flows.new }
    ensures more { value.old < value.new }
    ensures layered { IsLayered arcs.now ends.nodes ends.source layers.new.level.items layers.new.via.items }
    ensures spent { slice_index untried.new ends.source ≤ slice_index adjacency.now.starts.items ends.source }
{
    augment(arcs, flows, value, ends, layers);
    untried.copy_from_slice(&adjacency.starts[1..]);
    block(arcs, flows, value, adjacency, ends, layers, untried);
}
