// The sets that are violated, as groups.
ghost use Rattle.std.specs.Prelude.{◌≡◌, ◌+◌, ◌<◌, ◌≤◌, ◌++◌, ◌∷◌, nat_eq, not, [], length, IfOk, OnOk, MatchOption, if◌then◌else◌};
ghost use Rattle.std.specs.List.{All, list_any};
ghost use Rattle.std.specs.Cmp.Lexicographic.{pointwise};
ghost use Rattle.group_search.specs.Flows.{most_services, most_flow_out};
ghost use Rattle.carp_base.specs.Problem.{IsRequired, edge_at};
ghost use Rattle.cut_pool.specs.Shores.{vehicles};
ghost use Rattle.branch_rules.specs.Bonds.{IsGroup, group_demand};
ghost use Rattle.group_search.specs.Violation.{AreViolated, cut, flow_to, outward, tolerance, violation};
ghost use Rattle.group_search.specs.Tables.{AreViolatedBy, IsListed, IsWithin};

use crate::effort::Effort;
use crate::flow::Flow;
use crate::group::Group;
use carp_base::{Instance, Memory};
use set_search::Candidate;
use std::alloc::Global;

// The flow between the edges of a group and one service.
fn flow_to(flow: &Flow, group: &[u32], f: u32) -> u64
    requires group { IsWithin flow.now.services group.now }
    requires f { f ≤ flow.now.services }
    ensures value { result ≡ flow_to flow.now group.now f }
    ensures small { result ≤ most_flow_out }
{
    let mut sum: u64 = 0;
    for e in group {
        sum += flow.between(*e, f);
    }
    sum
}

// That flow if the service is not of the group, and 0 if it is.
fn outward(flow: &Flow, group: &[u32], f: u32) -> u64
    requires group { IsWithin flow.now.services group.now }
    requires f { f ≤ flow.now.services }
    ensures value { result ≡ outward flow.now group.now f }
    ensures small { result ≤ most_flow_out }
{
    if group.contains(&f) {
        0
    } else {
        flow_to(flow, group, f)
    }
}

// The flow out of a group.
fn cut(flow: &Flow, group: &[u32]) -> u64
    requires { IsWithin flow.now.services group.now }
    ensures { result ≡ cut flow.now group.now }
{
    let mut sum = flow_to(flow, group, 0);
    for f in 0..flow.services() {
        sum += outward(flow, group, f + 1);
    }
    sum
}

// The demand of a required edge, and 0 for other numbers.
pub(crate) fn demand_at(inst: &Instance, e: u32) -> u64
    ensures value { IsRequired inst.now e → result ≡ (edge_at inst.now e).demand }
    ensures small { result ≤ 30000 }
{
    if 1 <= e && e <= inst.required() {
        inst.edge(e).demand
    } else {
        0
    }
}

// The demand of a group.
fn demand_of(inst: &Instance, group: &[u32]) -> u64
    requires few { length group.now ≤ most_services }
    requires required { All (IsRequired inst.now) group.now }
    ensures value { result ≡ group_demand inst.now group.now }
    ensures small { result ≤ 18000000 }
{
    let mut demand: u64 = 0;
    for e in group {
        demand += demand_at(inst, *e);
    }
    demand
}

// How many vehicles the demand of a group takes.
fn vehicles(inst: &Instance, group: &[u32]) -> u64
    requires few { length group.now ≤ most_services }
    requires required { All (IsRequired inst.now) group.now }
    ensures value { result ≡ vehicles inst.now (group_demand inst.now group.now) }
    ensures small { result ≤ 18000000 }
{
    demand_of(inst, group).div_ceil(inst.capacity())
}

/// By how many parts of 2^20 the flow out of a group is less than two units for each vehicle that its demand takes, or
/// 0 if it is not less.
///
/// Each vehicle that serves an edge of the group enters the group and leaves it. The flow is that of the instance: it
/// has as many services as there are required edges. For k edges in the group and m required edges it takes time in
/// proportion to k * m, and no memory.
pub fn violation(inst: &Instance, flow: &Flow, group: &[u32]) -> u64
    requires flow { flow.now.services ≡ inst.now.required }
    requires group { IsGroup inst.now group.now }
    ensures { result ≡ violation inst.now flow.now group.now }
{
    inst.validity();
    let needed = (1 << 20) * (2 * vehicles(inst, group));
    needed.saturating_sub(cut(flow, group))
}

// Whether the group is none of these.
fn is_new(groups: &[Group], group: &Group) -> bool
    ensures { result ≡ not (list_any (λ y. pointwise nat_eq y group.now) groups.now) }
{
    !groups.contains(group)
}

// Places a group last, if it is violated, by no more than the one before, and is not there yet. Answers the violation
// of the last group.
fn place(
    inst: &Instance,
    flow: &Flow,
    effort: Effort,
    most: usize,
    last: u64,
    group: Group,
    groups: &mut Vec<Group>,
) -> Result<u64, Memory>
    requires flow { flow.now.services ≡ inst.now.required }
    requires group { IsGroup inst.now group }
    requires violated { AreViolatedBy inst.now flow.now (tolerance effort) most last groups.old.items }
    ensures { IfOk result (λ last. AreViolatedBy inst.now flow.now (tolerance effort) most last groups.new.items) }
{
    if most <= groups.len() || !is_new(groups, &group) {
        return Ok(last);
    }
    let violation = violation(inst, flow, group.edges());
    if violation <= effort.tolerance() || last < violation {
        return Ok(last);
    }
    groups.push(group)?;
    Ok(violation)
}

// Lists an edge, if it is marked.
fn list_where(edges: &mut Vec<u32>, marked: bool, e: u32) -> Result<(), Memory>
    ensures { OnOk result (edges.new.items ≡ edges.old.items ++ (if marked then e ∷ [] else [])) }
{
    if marked {
        edges.push(e)?;
    }
    Ok(())
}

// The marked required edges, rising.
fn list_marked(alloc: Global, inst: &Instance, marks: &[bool]) -> Result<Vec<u32>, Memory>
    requires { inst.now.required < length marks.now }
    ensures { IfOk result (λ edges. IsListed inst.now.required edges.items) }
{
    let mut edges = Vec::with_capacity(alloc, inst.required() as usize)?;
    for e in 0..inst.required() {
        list_where(&mut edges, marks[e as usize + 1], e + 1)?;
    }
    Ok(edges)
}

// The group of the marked edges, if there are two or more.
fn group_of(alloc: Global, inst: &Instance, marks: &[bool]) -> Result<Option<Group>, Memory>
    ensures { IfOk result (λ found. MatchOption found Unit (IsGroup inst.now)) }
{
    if marks.len() <= inst.required() as usize {
        return Ok(None);
    }
    let edges = list_marked(alloc, inst, marks)?;
    if edges.len() < 2 {
        return Ok(None);
    }
    Ok(Some(Group::new(edges)))
}

// Those of the sets that are violated, as groups: at most so many.
pub(crate) fn answer(
    alloc: Global,
    inst: &Instance,
    flow: &Flow,
    sets: &[Candidate],
    effort: Effort,
    most: usize,
) -> Result<Vec<Group>, Memory>
    requires { flow.now.services ≡ inst.now.required }
    ensures { IfOk result (λ groups. AreViolated inst.now flow.now (tolerance effort) most groups.items) }
{
    let mut groups = Vec::new(alloc);
    let mut last = u64::MAX;
    for set in sets {
        if let Some(group) = group_of(alloc, inst, set.marks())? {
            last = place(inst, flow, effort, most, last, group, &mut groups)?;
        }
    }
    Ok(groups)
}
