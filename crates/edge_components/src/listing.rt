// Shores of the vertices of one label.
ghost use Rattle.std.specs.Prelude.{◌≡◌, ℕ, ◌+◌, ◌≤◌, ◌++◌, ◌∷◌, [], true, length, slice_index_or, IfOk, OnOk, if◌then◌else◌};
ghost use Rattle.carp_base.specs.Problem.{IsVertex};
ghost use Rattle.cut_pool.specs.Shores.{IsShore};
ghost use Rattle.edge_components.specs.Labels.{AreInRange, AreRoots, has_label, is_free_label, marked_shores};
ghost use Rattle.edge_components.specs.Listing.{vertices_where};

use carp_base::{Instance, Memory};
use cut_pool::Shore;
use std::alloc::Global;

/// Whether a vertex is the least vertex of a component without the depot. It takes constant time.
pub fn is_free_label(inst: &Instance, labels: &[u32], r: u32) -> bool
    requires labels { AreInRange inst.now labels.now }
    requires vertex { IsVertex inst.now r }
    ensures { result ≡ is_free_label inst.now labels.now r }
{
    labels[r as usize] == r && labels[inst.depot() as usize] != r
}

// Each list empty: one for each vertex, and one for 0.
fn no_vertices(alloc: Global, inst: &Instance) -> Result<Vec<Vec<u32>>, Memory>
    ensures long { IfOk result (λ groups. length groups.items ≡ inst.now.vertices + 1) }
    ensures none { IfOk result (λ groups. (r : ℕ) (d : _) → r ≤ inst.now.vertices → (slice_index_or groups.items r d).items ≡ []) }
{
    let places = inst.vertices() + 1;
    let mut groups = Vec::with_capacity(alloc, places as usize)?;
    for place in 0..places {
        groups.push(Vec::new(alloc))?;
    }
    Ok(groups)
}

// The vertices of each label, rising; those of label r at place r.
fn group(alloc: Global, inst: &Instance, labels: &[u32]) -> Result<Vec<Vec<u32>>, Memory>
    requires { AreInRange inst.now labels.now }
    ensures long { IfOk result (λ groups. length groups.items ≡ inst.now.vertices + 1) }
    ensures lists { IfOk result (λ groups. (r : ℕ) (d : _) → r ≤ inst.now.vertices → (slice_index_or groups.items r d).items ≡ vertices_where (has_label labels.now r) inst.now.vertices) }
{
    let mut groups = no_vertices(alloc, inst)?;
    for v in 1..inst.vertices() + 1 {
        groups[labels[v as usize] as usize].push(v)?;
    }
    Ok(groups)
}

// Adds a list as a shore, where its label is marked.
fn add_marked(
    alloc: Global,
    marked: bool,
    list: &[u32],
    shores: &mut Vec<Shore>,
) -> Result<(), Memory>
    requires { marked ≡ true → IsShore list.now }
    ensures { OnOk result (shores.new.items ≡ shores.old.items ++ (if marked then list.now ∷ [] else [])) }
{
    if marked {
        shores.push(Shore::from_list(alloc, list)?)?;
    }
    Ok(())
}

/// The shores of the marked labels, in the order of the labels: for each its vertices.
///
/// A marked vertex has itself as its label. The only error is want of memory. It takes time and memory in proportion to
/// the vertices, and to the greatest vertices of the shores.
pub fn list_marked(
    alloc: Global,
    inst: &Instance,
    labels: &[u32],
    marks: &[bool],
) -> Result<Vec<Shore>, Memory>
    requires labels { AreInRange inst.now labels.now }
    requires marks { length marks.now ≡ inst.now.vertices + 1 }
    requires roots { AreRoots inst.now labels.now marks.now }
    ensures { IfOk result (λ shores. shores.items ≡ marked_shores labels.now marks.now inst.now.vertices inst.now.vertices) }
{
    let groups = group(alloc, inst, labels)?;
    let mut shores = Vec::new(alloc);
    for r in 1..inst.vertices() + 1 {
        add_marked(alloc, marks[r as usize], &groups[r as usize], &mut shores)?;
    }
    Ok(shores)
}
