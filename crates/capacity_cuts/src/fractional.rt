// A shore of greatest violation.
ghost use Rattle.std.specs.Prelude.{◌≡◌, ◌≤◌, length, IfOk, MatchOption};
ghost use Rattle.flow_cut.specs.Flows.{is_on};
ghost use Rattle.cut_pool.specs.Shores.{IsShore};
ghost use Rattle.edge_components.specs.Parts.{AreParts};
ghost use Rattle.edge_components.specs.Listing.{vertices_where};
ghost use Rattle.capacity_cuts.specs.Violation.{IsGreatestViolation, IsMostViolated, IsViolated, NoneIsViolated};

use crate::laws::{cut_is_violation, network_is_fine};
use crate::network::build_network;
use carp_base::{Instance, Memory};
use cut_pool::Shore;
use edge_components::{equal_sets_have_one_border, vertices_are_listed};
use flow_cut::{equal_is_best, max_flow};
use std::alloc::Global;

// A side whose vertices are a set of greatest violation, or `None` where no set is violated.
fn find_side(
    alloc: Global,
    inst: &Instance,
    x: &[u64],
    unit: u64,
) -> Result<Option<Vec<bool>>, Memory>
    requires parts { AreParts inst.now x.now }
    requires unit { unit ≤ 1000000 }
    ensures most { IfOk result (λ found. MatchOption found (NoneIsViolated inst.now unit x.now) (λ side. IsMostViolated inst.now unit x.now (is_on side.items))) }
    ensures positive { IfOk result (λ found. MatchOption found Unit (λ side. IsViolated inst.now unit x.now (is_on side.items))) }
    ensures long { IfOk result (λ found. MatchOption found Unit (λ side. inst.now.vertices ≤ length side.items)) }
{
    network_is_fine();
    cut_is_violation();
    equal_sets_have_one_border();
    equal_is_best();
    let source = inst.vertices() + 1;
    let arcs = build_network(alloc, inst, x, unit)?;
    let flow = max_flow(alloc, source, &arcs, source, inst.depot())?;
    if flow.value < 2 * unit as u128 * inst.total_demand() as u128 {
        Ok(Some(flow.side))
    } else {
        Ok(None)
    }
}

// The shore of the vertices on a side.
fn list_side(alloc: Global, inst: &Instance, side: &[bool]) -> Result<Shore, Memory>
    requires long { inst.now.vertices ≤ length side.now }
    requires shore { IsShore (vertices_where (is_on side.now) inst.now.vertices) }
    ensures { IfOk result (λ shore. shore ≡ vertices_where (is_on side.now) inst.now.vertices) }
{
    let mut vertices = Vec::with_capacity(alloc, inst.vertices() as usize)?;
    for v in 0..inst.vertices() {
        if side[v as usize] {
            vertices.push(v + 1)?;
        }
    }
    Shore::from_list(alloc, &vertices)
}

/// A shore of greatest violation `2 t(S) / Q - r(S) - x(S) / unit` among all sets of vertices without the depot, or
/// `None` exactly if no set has positive violation.
///
/// `x` has a number for each edge, in the order of the edges, each at most 10^12: its deadheads in parts of `unit`,
/// which is 1 to 1,000,000. The touched demand of a set is half the demand met at its vertices plus half the demand
/// over it. So the violation is a constant less the room of a cut (see [`crate::cut_is_violation`]; fractional capacity
/// cuts of Belenguer and Benavent 1998).
///
/// It takes one greatest flow in a network of as many nodes as vertices and one, and besides time and memory in
/// proportion to the vertices and edges. The only error is want of memory.
pub fn find_fractional(
    alloc: Global,
    inst: &Instance,
    x: &[u64],
    unit: u64,
) -> Result<Option<Shore>, Memory>
    requires parts { AreParts inst.now x.now }
    requires some { 1 ≤ unit }
    requires small { unit ≤ 1000000 }
    ensures { IfOk result (λ found. MatchOption found (NoneIsViolated inst.now unit x.now) (λ shore. IsGreatestViolation inst.now unit x.now shore)) }
{
    vertices_are_listed();
    equal_sets_have_one_border();
    inst.validity();
    match find_side(alloc, inst, x, unit)? {
        None => Ok(None),
        Some(side) => Ok(Some(list_side(alloc, inst, &side)?)),
    }
}
