// The sets that fall short, as shores.
ghost use Rattle.std.specs.Prelude.{◌≡◌, ◌<◌, ◌≤◌, ◌++◌, ◌∷◌, false, nat_eq, not, [], length, slice_index_or, IfOk, OnOk, MatchOption, if◌then◌else◌};
ghost use Rattle.std.specs.List.{list_any};
ghost use Rattle.std.specs.Cmp.Lexicographic.{pointwise};
ghost use Rattle.carp_base.specs.Problem.{IsEdgeNumber, edge_at};
ghost use Rattle.plan_model.specs.Plans.{crosses};
ghost use Rattle.cut_pool.specs.Shores.{Belongs, IsShore, is_in};
ghost use Rattle.edge_components.specs.Listing.{vertices_where};
ghost use Rattle.edge_components.specs.Parts.{AreParts, parts_of, parts_over};
ghost use Rattle.shore_search.specs.Shortfall.{AreShort, shortfall};
ghost use Rattle.shore_search.specs.Tables.{AreShortBy};

use carp_base::{Instance, Memory};
use cut_pool::{Shore, need};
use edge_components::vertices_are_listed;
use set_search::Candidate;
use std::alloc::Global;

// Shortfalls up to a thousandth of a deadhead, in parts of 2^20, do not count.
pub(crate) const TOLERANCE: u64 = 1048;

// The parts on an edge, where it crosses the set.
fn parts_across(inst: &Instance, x: &[u64], shore: &Shore, e: u32) -> u64
    requires parts { AreParts inst.now x.now }
    requires number { IsEdgeNumber inst.now e }
    ensures value { result ≡ (if crosses (is_in shore.now) (edge_at inst.now e) then parts_of x.now e else 0) }
    ensures small { result ≤ 1000000000000 }
{
    if shore.crosses(&inst.edge(e)) {
        x[e as usize - 1]
    } else {
        0
    }
}

// The parts on all edges across the set.
fn parts_over(inst: &Instance, x: &[u64], shore: &Shore) -> u64
    requires { AreParts inst.now x.now }
    ensures { result ≡ parts_over inst.now x.now (is_in shore.now) }
{
    let mut sum = 0;
    for i in 0..inst.edge_count() {
        sum += parts_across(inst, x, shore, i + 1);
    }
    sum
}

/// By how many parts of 2^20 the deadheads over a shore are less than it needs ([`cut_pool::need`]), or 0 if they are
/// not less.
///
/// `x` has a number for each edge, in the order of the edges, each at most 10^12: its deadheads in parts of 2^20. It
/// takes no memory, and time in proportion to the number of edges.
pub fn shortfall(inst: &Instance, x: &[u64], shore: &Shore) -> u64
    requires parts { AreParts inst.now x.now }
    requires belongs { Belongs inst.now shore.now }
    ensures { result ≡ shortfall inst.now x.now shore.now }
{
    let needed = (1 << 20) * need(inst, shore);
    needed.saturating_sub(parts_over(inst, x, shore))
}

// Whether the shore is none of these.
fn is_new(shores: &[Shore], shore: &Shore) -> bool
    ensures { result ≡ not (list_any (λ y. pointwise nat_eq y shore.now) shores.now) }
{
    !shores.contains(shore)
}

// Places a shore last, where it falls short, by no more than the one before, and is not there yet. Answers the shortfall of the
// last shore.
fn place(
    inst: &Instance,
    x: &[u64],
    most: usize,
    last: u64,
    shore: Shore,
    shores: &mut Vec<Shore>,
) -> Result<u64, Memory>
    requires parts { AreParts inst.now x.now }
    requires set { IsShore shore }
    requires short { AreShortBy inst.now x.now most last shores.old.items }
    ensures { IfOk result (λ last. AreShortBy inst.now x.now most last shores.new.items) }
{
    if most <= shores.len() || !shore.belongs(inst) || !is_new(shores, &shore) {
        return Ok(last);
    }
    let short = shortfall(inst, x, &shore);
    if short <= TOLERANCE || last < short {
        return Ok(last);
    }
    shores.push(shore)?;
    Ok(short)
}

// Lists a vertex, where it is marked.
fn list_where(vertices: &mut Vec<u32>, marked: bool, v: u32) -> Result<(), Memory>
    ensures { OnOk result (vertices.new.items ≡ vertices.old.items ++ (if marked then v ∷ [] else [])) }
{
    if marked {
        vertices.push(v)?;
    }
    Ok(())
}

// The marked vertices, rising.
fn list_marked(alloc: Global, inst: &Instance, marks: &[bool]) -> Result<Vec<u32>, Memory>
    requires { inst.now.vertices < length marks.now }
    ensures { IfOk result (λ list. list.items ≡ vertices_where (λ v. slice_index_or marks.now v false) inst.now.vertices) }
{
    let mut vertices = Vec::with_capacity(alloc, inst.vertices() as usize)?;
    for v in 0..inst.vertices() {
        list_where(&mut vertices, marks[v as usize + 1], v + 1)?;
    }
    Ok(vertices)
}

// The shore of the marked vertices, where there are some.
fn shore_of(alloc: Global, inst: &Instance, marks: &[bool]) -> Result<Option<Shore>, Memory>
    ensures { IfOk result (λ found. MatchOption found Unit IsShore) }
{
    vertices_are_listed();
    if marks.len() <= inst.vertices() as usize {
        return Ok(None);
    }
    let vertices = list_marked(alloc, inst, marks)?;
    if vertices.is_empty() {
        return Ok(None);
    }
    Ok(Some(Shore::from_list(alloc, &vertices)?))
}

// Those of the sets that fall short, as shores: at most so many.
pub(crate) fn answer(
    alloc: Global,
    inst: &Instance,
    x: &[u64],
    sets: &[Candidate],
    most: usize,
) -> Result<Vec<Shore>, Memory>
    requires { AreParts inst.now x.now }
    ensures { IfOk result (λ shores. AreShort inst.now x.now most shores.items) }
{
    let mut shores = Vec::new(alloc);
    let mut last = u64::MAX;
    for set in sets {
        if let Some(shore) = shore_of(alloc, inst, set.marks())? {
            last = place(inst, x, most, last, shore, &mut shores)?;
        }
    }
    Ok(shores)
}
