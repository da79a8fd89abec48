// Components whose need is above the parts over them.
ghost use Rattle.std.specs.Prelude.{◌≡◌, ◌&&◌, ◌≤◌, ◌+◌, ℕ, length, slice_index, IfOk};
ghost use Rattle.carp_base.specs.Problem.{IsVertex};
ghost use Rattle.edge_components.specs.Parts.{AreParts};
ghost use Rattle.edge_components.specs.Components.{AreAll};
ghost use Rattle.edge_components.specs.Labels.{AreInRange, AreKept, is_free_label};
ghost use Rattle.capacity_cuts.specs.Components.{IsNeedyComponent, is_needy_border};

use carp_base::{Instance, Memory};
use cut_pool::Shore;
use edge_components::{
    crossings_by_label, demand_by_label, is_free_label, kept_labels_are_components,
    label_components, list_marked, parts_by_label,
};
use road_network::Network;
use std::alloc::Global;

// Whether the need at a border is above the parts over it.
fn is_needy(inst: &Instance, unit: u64, crossings: u64, demand: u64, parts: u64) -> bool
    requires unit { unit ≤ 1000000 }
    requires crossings { crossings ≤ 600 }
    requires demand { demand ≤ 18000000 }
    ensures { result ≡ is_needy_border inst.now unit crossings demand parts }
{
    let vehicles = demand.div_ceil(inst.capacity());
    let parity = crossings % 2;
    let need = parity.max((2 * vehicles).saturating_sub(crossings));
    parts < need * unit
}

// Whether a vertex is the least of a component without the depot whose need is above the parts over it.
fn is_needy_label(
    inst: &Instance,
    labels: &[u32],
    crossings: &[u64],
    demand: &[u64],
    parts: &[u64],
    unit: u64,
    r: u32,
) -> bool
    requires labels { AreInRange inst.now labels.now }
    requires vertex { IsVertex inst.now r }
    requires unit { unit ≤ 1000000 }
    requires crossings_long { length crossings.now ≡ inst.now.vertices + 1 }
    requires demand_long { length demand.now ≡ inst.now.vertices + 1 }
    requires parts_long { length parts.now ≡ inst.now.vertices + 1 }
    requires few { (k : ℕ) → slice_index crossings.now k ≤ 600 }
    requires small { (k : ℕ) → slice_index demand.now k ≤ 18000000 }
    ensures { result ≡ (is_free_label inst.now labels.now r && is_needy_border inst.now unit (slice_index crossings.now r) (slice_index demand.now r) (slice_index parts.now r)) }
{
    let place = r as usize;
    is_free_label(inst, labels, r)
        && is_needy(inst, unit, crossings[place], demand[place], parts[place])
}

// Which labels are of components without the depot whose need is above the parts over them.
fn needy_labels(
    alloc: Global,
    inst: &Instance,
    labels: &[u32],
    x: &[u64],
    unit: u64,
) -> Result<Vec<bool>, Memory>
    requires labels { AreInRange inst.now labels.now }
    requires parts { AreParts inst.now x.now }
    requires unit { unit ≤ 1000000 }
    ensures { IfOk result (λ marks. AreKept inst.now x.now labels.now (is_needy_border inst.now unit) marks.items) }
{
    let crossings = crossings_by_label(alloc, inst, labels)?;
    let demand = demand_by_label(alloc, inst, labels)?;
    let parts = parts_by_label(alloc, inst, labels, x)?;
    let mut marks = Vec::with_capacity(alloc, inst.vertices() as usize + 1)?;
    marks.push(false)?;
    for r in 1..inst.vertices() + 1 {
        let needy = is_needy_label(inst, labels, &crossings, &demand, &parts, unit, r);
        marks.push(needy)?;
    }
    Ok(marks)
}

/// Each component, without the depot, of the edges whose `x` is at least `unit`, for which the need of its vertices
/// times `unit` is above the sum of `x` over the edges that cross it. They stand in the order of their least vertices.
/// The list is empty only if there is none.
///
/// `x` has a number for each edge, in the order of the edges, each at most 10^12: its deadheads in parts of `unit`,
/// which is 1 to 1,000,000. A vertex at which no edge has so much is a component by itself. An edge between two
/// vertices of a component does not cross it. Parallel edges each count. Each lawful plan has more deadheads over such
/// a set than `x`, by the law [`cut_pool::need_is_met`] (Belenguer and Benavent 1998, parity and capacity cuts).
///
/// The only error is want of memory. It takes time and memory in proportion to the vertices and edges, and to the
/// greatest vertices of the shores.
pub fn find_components(
    alloc: Global,
    inst: &Instance,
    net: &Network,
    x: &[u64],
    unit: u64,
) -> Result<Vec<Shore>, Memory>
    requires net { net.now ≡ inst.now }
    requires parts { AreParts inst.now x.now }
    requires some { 1 ≤ unit }
    requires small { unit ≤ 1000000 }
    ensures { IfOk result (λ shores. AreAll (IsNeedyComponent inst.now unit x.now) shores.items) }
{
    kept_labels_are_components();
    let labels = label_components(alloc, inst, net, x, unit)?;
    let marks = needy_labels(alloc, inst, &labels, x, unit)?;
    inst.validity();
    list_marked(alloc, inst, &labels, &marks)
}
