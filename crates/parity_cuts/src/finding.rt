// Components with an odd number of required edges at their borders.
ghost use Rattle.std.specs.Prelude.{◌≡◌, ◌==◌, ◌&&◌, ℕ, ◌+◌, ◌%◌, List, length, slice_index, IfOk};
ghost use Rattle.carp_base.specs.Problem.{IsVertex};
ghost use Rattle.cut_pool.specs.Shores.{required_crossings};
ghost use Rattle.edge_components.specs.Components.{AreAll};
ghost use Rattle.edge_components.specs.Labels.{AreInRange, AreKept, has_label, is_free_label};
ghost use Rattle.parity_cuts.specs.OddComponents.{IsOddComponent, is_odd_border};

use carp_base::{Instance, Memory};
use cut_pool::Shore;
use edge_components::{
    crossings_by_label, is_free_label, kept_labels_are_components, label_components, list_marked,
};
use road_network::Network;
use std::alloc::Global;

// Whether a vertex is the least of a component without the depot that an odd number of required edges cross.
fn is_odd(inst: &Instance, labels: &[u32], crossings: &[u64], r: u32) -> bool
    requires labels { AreInRange inst.now labels.now }
    requires vertex { IsVertex inst.now r }
    requires long { length crossings.now ≡ inst.now.vertices + 1 }
    ensures { result ≡ (is_free_label inst.now labels.now r && (slice_index crossings.now r % 2 == 1)) }
{
    is_free_label(inst, labels, r) && crossings[r as usize] % 2 == 1
}

// Marks the labels of components without the depot that an odd number of required edges cross.
fn mark_odd(inst: &Instance, labels: &[u32], crossings: &[u64], marks: &mut [bool])
    requires labels { AreInRange inst.now labels.now }
    requires long { length crossings.now ≡ inst.now.vertices + 1 }
    requires crossings { (r : ℕ) → slice_index crossings.now r ≡ required_crossings inst.now (has_label labels.now r) }
    requires marks { length marks.old ≡ inst.now.vertices + 1 }
    ensures { (x : List ℕ) → AreKept inst.now x labels.now is_odd_border marks.new }
{
    for r in 1..inst.vertices() + 1 {
        marks[r as usize] = is_odd(inst, labels, crossings, r);
    }
}

// Which labels are of components without the depot that an odd number of required edges cross.
fn odd_labels(alloc: Global, inst: &Instance, labels: &[u32]) -> Result<Vec<bool>, Memory>
    requires { AreInRange inst.now labels.now }
    ensures { IfOk result (λ marks. (x : List ℕ) → AreKept inst.now x labels.now is_odd_border marks.items) }
{
    let crossings = crossings_by_label(alloc, inst, labels)?;
    let mut marks = vec![in alloc; false; inst.vertices() as usize + 1]?;
    mark_odd(inst, labels, &crossings, &mut marks);
    Ok(marks)
}

/// Each component, without the depot, of the edges with positive `x` that an odd number of required edges cross, in the
/// order of their least vertices. The list is empty only if there is none.
///
/// `x` has a number for each edge, in the order of the edges: its deadheads, in parts of any unit. A vertex at which no
/// edge has positive `x` is a component by itself. Each lawful plan has a deadhead over each of these sets
/// ([`cut_pool::need_is_met`]). `x` has none, since an edge with positive `x` joins its ends (Belenguer and Benavent
/// 1998, parity cuts). The only error is want of memory. It takes time and memory in proportion to the vertices and
/// edges, and to the greatest vertices of the shores.
pub fn find(alloc: Global, inst: &Instance, net: &Network, x: &[u64]) -> Result<Vec<Shore>, Memory>
    requires net { net.now ≡ inst.now }
    requires one_each { length x.now ≡ length inst.now.edges }
    ensures { IfOk result (λ shores. AreAll (IsOddComponent inst.now x.now) shores.items) }
{
    kept_labels_are_components();
    let labels = label_components(alloc, inst, net, x, 1)?;
    let marks = odd_labels(alloc, inst, &labels)?;
    inst.validity();
    list_marked(alloc, inst, &labels, &marks)
}
