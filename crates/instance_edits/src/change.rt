// The instance that edits make.
ghost use Rattle.std.specs.Prelude.{◌≡◌, ℕ, ◌+◌, ◌*◌, ◌<◌, ◌≤◌, ◌^◌, [], ◌++◌, length, IfOk, IfErr, OnOk, slice_index_or};
ghost use Rattle.std.specs.List.{All};
ghost use Rattle.carp_base.specs.Problem.{IsValid};
ghost use Rattle.carp_base.specs.Refusals.{RefusesFirstFault};
ghost use Rattle.instance_edits.specs.Edits.{AreKnown, edited};
ghost use Rattle.instance_edits.specs.Texts.{HasShortNumbers};
ghost use Rattle.instance_edits.specs.Changing.{IsApplied, IsAtMost, IsTable, and_by, kept, kept_from, nothing};

use crate::Edit;
use carp_base::{Edge, Fail, Instance, InstanceFault, Memory, RawEdge};
use std::alloc::Global;

// What edits do to an edge: what they add, and whether they close it.
#[derive(Clone, Copy)]
struct Change {
    cost: u64,
    demand: u64,
    service: u64,
    closed: bool,
}

/// The instance that edits make, as [`read_edits`](crate::read_edits) gives them. There are at most 2^20 edits.
///
/// All that edits add to an edge is summed. Closed edges are left out, so that the edges behind them move to smaller
/// numbers. Vertices, depot and capacity stay.
///
/// If the edited instance has faults, it is refused for the first of them, with the edge numbers of the edited
/// instance. `Fail::Memory` says only that there was not enough memory.
///
/// With k edits it takes time in proportion to k and to what [`Instance::build`] takes, and memory in proportion to the
/// edges.
pub fn edited(
    alloc: Global,
    inst: &Instance,
    edits: &[Edit],
) -> Result<Instance, Fail<InstanceFault>>
    requires known { AreKnown inst.now [] edits.now }
    requires short { All HasShortNumbers edits.now }
    requires few { length edits.now ≤ 2 ^ 20 }
    ensures built { IfOk result (λ after. after ≡ edited inst.now edits.now) }
    ensures accepted { OnOk result (IsValid (edited inst.now edits.now)) }
    ensures refused { IfErr result (RefusesFirstFault (edited inst.now edits.now)) }
{
    let changes = changes_by(alloc, inst.edge_count() as usize + 1, edits)?;
    let required = kept_from(alloc, inst, &changes, 0, inst.required())?;
    let others = kept_from(
        alloc,
        inst,
        &changes,
        inst.required(),
        inst.edge_count() - inst.required(),
    )?;
    Instance::build(
        alloc,
        u64::from(inst.vertices()),
        u64::from(inst.depot()),
        inst.capacity(),
        &required,
        &others,
    )
}

// A table of what edits do to each edge, by its number.
fn changes_by(alloc: Global, count: usize, edits: &[Edit]) -> Result<Vec<Change>, Memory>
    requires applied { All (IsApplied count) edits.now }
    requires few { length edits.now ≤ 2 ^ 20 }
    requires small { count ≤ 4001 }
    ensures table { IfOk result (λ changes. IsTable changes.items edits.now) }
    ensures all { IfOk result (λ changes. length changes.items ≡ count) }
    ensures at_most { IfOk result (λ changes. (e : ℕ) → e < count → IsAtMost (10 ^ 12 * 2 ^ 20) (slice_index_or changes.items e nothing)) }
{
    let none = Change {
        cost: 0,
        demand: 0,
        service: 0,
        closed: false,
    };
    let mut changes = vec![in alloc; none; count]?;
    apply_all(&mut changes, edits);
    Ok(changes)
}

// Does edits, one after another, to a table in which nothing is changed.
fn apply_all(changes: &mut [Change], edits: &[Edit])
    requires none { (e : ℕ) → e < length changes.old → slice_index_or changes.old e nothing ≡ nothing }
    requires applied { All (IsApplied (length changes.old)) edits.now }
    requires few { length edits.now ≤ 2 ^ 20 }
    ensures table { IsTable changes.new edits.now }
    ensures at_most { (e : ℕ) → e < length changes.new → IsAtMost (10 ^ 12 * 2 ^ 20) (slice_index_or changes.new e nothing) }
{
    for edit in edits {
        apply(changes, *edit);
    }
}

// Does an edit.
fn apply(changes: &mut [Change], edit: Edit)
    requires applied { IsApplied (length changes.old) edit }
    requires room { (e : ℕ) → e < length changes.old → IsAtMost (10 ^ 12 * 2 ^ 20) (slice_index_or changes.old e nothing) }
    ensures { (e : ℕ) → e < length changes.old → slice_index_or changes.new e nothing ≡ and_by (slice_index_or changes.old e nothing) e edit }
{
    match edit {
        Edit::Cost { edge, add } => changes[edge as usize].cost += add,
        Edit::Service { edge, add } => changes[edge as usize].service += add,
        Edit::Demand { edge, add } => changes[edge as usize].demand += add,
        Edit::Close { edge } => changes[edge as usize].closed = true,
    }
}

// So many edges from the one behind number `first` on, with what is changed of them, without the closed ones.
fn kept_from(
    alloc: Global,
    inst: &Instance,
    changes: &[Change],
    first: u32,
    count: u32,
) -> Result<Vec<RawEdge>, Memory>
    requires valid { IsValid inst.now }
    requires within { first + count ≤ length inst.now.edges }
    requires all { length changes.now ≡ length inst.now.edges + 1 }
    requires at_most { (e : ℕ) → e < length changes.now → IsAtMost (10 ^ 12 * 2 ^ 20) (slice_index_or changes.now e nothing) }
    ensures kept { IfOk result (λ edges. edges.items ≡ kept_from inst.now changes.now first count) }
    ensures few { IfOk result (λ edges. length edges.items ≤ count) }
{
    let mut edges = Vec::new(alloc);
    for place in 0..count {
        let number = first + place + 1;
        push_kept(&mut edges, inst.edge(number), changes[number as usize])?;
    }
    Ok(edges)
}

// Adds an edge with what is changed of it, unless it is closed.
fn push_kept(edges: &mut Vec<RawEdge>, edge: Edge, change: Change) -> Result<(), Memory>
    requires cost { edge.cost ≤ 1000000 }
    requires demand { edge.demand ≤ 1000000 }
    requires service { edge.service ≤ 1000000 }
    requires at_most { IsAtMost (10 ^ 12 * 2 ^ 20) change }
    ensures kept { OnOk result (edges.new.items ≡ edges.old.items ++ kept edge change) }
{
    if change.closed {
        return Ok(());
    }
    let edge = RawEdge {
        u: u64::from(edge.u),
        v: u64::from(edge.v),
        cost: edge.cost + change.cost,
        demand: edge.demand + change.demand,
        service: edge.service + change.service,
    };
    edges.push(edge)?;
    Ok(())
}
