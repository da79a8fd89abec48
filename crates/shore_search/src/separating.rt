// The ways in which sets are looked for.
ghost use Rattle.std.specs.Prelude.{◌≡◌, ◌<◌, ◌≤◌, IfOk};
ghost use Rattle.carp_base.specs.Problem.{IsEdgeNumber};
ghost use Rattle.edge_components.specs.Parts.{AreParts};
ghost use Rattle.shore_search.specs.Tables.{AreStreets};

use crate::cuts::{FACTORS, least_cut};
use crate::streets::{Half, Streets};
use capacity_cuts::find_components;
use carp_base::{Instance, Memory};
use cut_pool::Shore;
use edge_components::label_components;
use road_network::Network;
use set_search::{Element, Ground, Leaving, Link, Search};
use std::alloc::Global;

// Half of the parts that count as a whole deadhead: those of a unit, less the tolerance.
const HALF_UNIT: u64 = 523_764;

// An edge with so many parts joins its ends: with three tenths of a deadhead, and with six tenths.
const TENTHS: [u64; 2] = [314_573, 629_146];

// An edge as a link.
fn link_of(half: Half) -> Link {
    Link {
        to: half.to,
        cut: half.room,
        demand: half.demand,
        required: half.required,
        tie: 1,
    }
}

// A place with its edges.
fn element_of(alloc: Global, streets: &Streets, v: usize) -> Result<Element, Memory>
    requires streets { AreStreets streets.now }
    requires vertex { v < streets.now.width }
{
    let (first, end) = streets.at(v);
    let mut links = Vec::with_capacity(alloc, end.saturating_sub(first))?;
    for k in first..end {
        links.push(link_of(streets.halves[k]))?;
    }
    Ok(Element {
        fixed: v == streets.depot,
        demand: 0,
        links,
    })
}

// The vertices as a search over sets sees them.
pub(crate) fn ground_of(alloc: Global, streets: &Streets) -> Result<Ground, Memory>
    requires { AreStreets streets.now }
{
    let mut elements = Vec::with_capacity(alloc, streets.width)?;
    for v in 0..streets.width {
        elements.push(element_of(alloc, streets, v)?)?;
    }
    Ok(Ground::new(elements, streets.capacity, Leaving::AtBorder))
}

// Judges each vertex but the depot.
pub(crate) fn single_vertices(
    alloc: Global,
    inst: &Instance,
    ground: &Ground,
    search: &mut Search,
) -> Result<(), Memory> {
    for v in 1..inst.vertices() + 1 {
        if v != inst.depot() {
            search.judge(alloc, ground, &[v])?;
        }
    }
    Ok(())
}

// The vertices of a shore.
fn vertices_of(alloc: Global, shore: &Shore) -> Result<Vec<u32>, Memory> {
    let mut vertices = Vec::with_capacity(alloc, shore.len())?;
    for i in 0..shore.len() {
        vertices.push(shore.vertex(i))?;
    }
    Ok(vertices)
}

// Judges shores.
fn judge_shores(
    alloc: Global,
    ground: &Ground,
    shores: &[Shore],
    search: &mut Search,
) -> Result<(), Memory> {
    for shore in shores {
        search.judge(alloc, ground, &vertices_of(alloc, shore)?)?;
    }
    Ok(())
}

// Half of the parts on an edge.
fn half_of(inst: &Instance, x: &[u64], e: u32) -> u64
    requires parts { AreParts inst.now x.now }
    requires number { IsEdgeNumber inst.now e }
    ensures { result ≤ 1000000000000 }
{
    x[e as usize - 1] / 2
}

// Half of the parts on each edge.
fn halved(alloc: Global, inst: &Instance, x: &[u64]) -> Result<Vec<u64>, Memory>
    requires { AreParts inst.now x.now }
    ensures { IfOk result (λ halves. AreParts inst.now halves.items) }
{
    let mut halves = Vec::with_capacity(alloc, inst.edge_count() as usize)?;
    for i in 0..inst.edge_count() {
        halves.push(half_of(inst, x, i + 1))?;
    }
    Ok(halves)
}

// Judges components without the depot: of the edges with any deadheads, of those with three tenths of one or six,
// and of those with a whole one. Where the need is above the deadheads over them by their contracts, they are those of
// `parity_cuts` and `capacity_cuts`. No edge with deadheads crosses the first ones, so that each part counts as a
// deadhead there.
pub(crate) fn all_components(
    alloc: Global,
    inst: &Instance,
    net: &Network,
    x: &[u64],
    ground: &Ground,
    search: &mut Search,
) -> Result<(), Memory>
    requires net { net.now ≡ inst.now }
    requires parts { AreParts inst.now x.now }
{
    let odd = parity_cuts::find(alloc, inst, net, x)?;
    judge_shores(alloc, ground, &odd, search)?;
    let apart = find_components(alloc, inst, net, x, 1)?;
    judge_shores(alloc, ground, &apart, search)?;
    part_components(alloc, inst, net, x, ground, search)?;
    let halves = halved(alloc, inst, x)?;
    let whole = find_components(alloc, inst, net, &halves, HALF_UNIT)?;
    judge_shores(alloc, ground, &whole, search)
}

// The vertices of a label.
fn labelled(alloc: Global, labels: &[u32], label: u32) -> Result<Vec<u32>, Memory> {
    let mut vertices = Vec::new(alloc);
    for (v, of) in labels.iter().enumerate() {
        if *of == label
            && let Ok(v) = u32::try_from(v)
        {
            vertices.push(v)?;
        }
    }
    Ok(vertices)
}

// Judges each component without the depot, where each vertex has the least vertex of its component as its label.
fn judge_labels(
    alloc: Global,
    inst: &Instance,
    ground: &Ground,
    labels: &[u32],
    search: &mut Search,
) -> Result<(), Memory> {
    let taken = labels.get(inst.depot() as usize).copied().unwrap_or(0);
    for label in 1..inst.vertices() + 1 {
        if label != taken && labels.get(label as usize) == Some(&label) {
            search.judge(alloc, ground, &labelled(alloc, labels, label)?)?;
        }
    }
    Ok(())
}

// Judges the components of the edges with three tenths of a deadhead, and those with six tenths.
fn part_components(
    alloc: Global,
    inst: &Instance,
    net: &Network,
    x: &[u64],
    ground: &Ground,
    search: &mut Search,
) -> Result<(), Memory>
    requires net { net.now ≡ inst.now }
    requires parts { AreParts inst.now x.now }
{
    for least in TENTHS {
        let labels = label_components(alloc, inst, net, x, least)?;
        judge_labels(alloc, inst, ground, &labels, search)?;
    }
    Ok(())
}

// Judges the least cuts for all factors.
pub(crate) fn all_cuts(
    alloc: Global,
    streets: &Streets,
    ground: &Ground,
    search: &mut Search,
) -> Result<(), Memory>
    requires { AreStreets streets.now }
{
    for &factor in &FACTORS {
        let (marks, arcs) = least_cut(alloc, streets, factor)?;
        // A greatest flow looks at each arc some ten times.
        search.count(arcs.saturating_mul(10));
        search.judge_start(alloc, ground, &marks)?;
    }
    Ok(())
}
