// Groups of required edges, and weights on them.
ghost use Rattle.std.specs.Prelude.{◌≡◌, ◌≢◌, ◌<◌, ◌≤◌, pos, ◌<ℤ◌, All, IfOk, IsTrue, OnOk, length};
ghost use Rattle.std.specs.List.Sorted.{IsStrictlyIncreasing};
ghost use Rattle.branch_rules.specs.Bonds.{IsGroup};
ghost use Rattle.carp_base.specs.Problem.{IsRequired};
ghost use Rattle.route_pricing.specs.Pricing.{IsServicePrice};
ghost use Rattle.column_generation.specs.Groups.{AreOffered, most_edges, most_groups};

use branch_rules::WeightedGroup;
use carp_base::{Instance, Memory};
use price_points::{Constraint, Demand, negative, number_at};
use std::alloc::Global;

// So many groups have a weight at most, and so many edges each.
const MOST_GROUPS: usize = 500;

const MOST_EDGES: usize = 120;

// No set is taken whose groups are longer together, in numbers: the edges of each, and six more for its weight and its
// size.
const LONGEST_GROUPS: usize = 5_000;

const HEAD: usize = 6;

// Whether the numbers of the edges rise.
fn rise(edges: &[u32]) -> bool
    ensures { IsTrue result → IsStrictlyIncreasing edges.now }
{
    for place in 1..edges.len() {
        if edges[place - 1] >= edges[place] {
            return false;
        }
    }
    true
}

// Whether the edges are required.
fn are_required(inst: &Instance, edges: &[u32]) -> bool
    ensures { IsTrue result → All (IsRequired inst.now) edges.now }
{
    let required = inst.required();
    for e in edges {
        if *e < 1 || required < *e {
            return false;
        }
    }
    true
}

/// Whether these are a group of at most 120 edges.
pub(crate) fn is_small_group(inst: &Instance, edges: &[u32]) -> bool
    ensures group { IsTrue result → IsGroup inst.now edges.now }
    ensures small { IsTrue result → length edges.now ≤ most_edges }
{
    if edges.len() < 2 || MOST_EDGES < edges.len() {
        return false;
    }
    if !rise(edges) {
        return false;
    }
    are_required(inst, edges)
}

/// The groups with a weight above 0, and the pairs to be served together with the negative of theirs: at most 500 of at
/// most 120 edges each. Where their edges, and six for
/// each group, are more than 5,000 together, the lightest are left out.
pub(crate) fn weighted_groups(
    alloc: Global,
    inst: &Instance,
    constraints: &[Constraint],
    weights: &[i64],
) -> Result<Vec<WeightedGroup>, Memory>
    requires { All IsServicePrice weights.now }
    ensures { IfOk result (λ groups. AreOffered inst.now groups.items) }
{
    let mut groups = all_weighted(alloc, inst, constraints, weights)?;
    leave_lightest_out(inst, &mut groups);
    Ok(groups)
}

// Leaves the lightest group out, of equal ones the last, until the groups are short enough together.
fn leave_lightest_out(inst: &Instance, groups: &mut Vec<WeightedGroup>)
    requires { AreOffered inst.now groups.old.items }
    ensures { AreOffered inst.now groups.new.items }
{
    for _ in 0..groups.len() {
        if length_of(groups) <= LONGEST_GROUPS {
            return;
        }
        leave_out(inst, groups);
    }
}

// Leaves the lightest group out, if there is one.
fn leave_out(inst: &Instance, groups: &mut Vec<WeightedGroup>)
    requires { AreOffered inst.now groups.old.items }
    ensures { AreOffered inst.now groups.new.items }
{
    let place = lightest(groups);
    if place < groups.len() {
        groups.remove(place);
    }
}

// How long groups are as text, in numbers.
fn length_of(groups: &[WeightedGroup]) -> usize {
    let mut length: usize = 0;
    for group in groups {
        length = length.saturating_add(group.edges().len().saturating_add(HEAD));
    }
    length
}

// The place of the lightest group, of equal ones the last.
fn lightest(groups: &[WeightedGroup]) -> usize {
    let mut place = 0;
    let mut least = u64::MAX;
    for i in 0..groups.len() {
        let weight = groups[i].weight().unsigned_abs();
        if weight <= least {
            least = weight;
            place = i;
        }
    }
    place
}

// All of them, up to 500.
fn all_weighted(
    alloc: Global,
    inst: &Instance,
    constraints: &[Constraint],
    weights: &[i64],
) -> Result<Vec<WeightedGroup>, Memory>
    requires { All IsServicePrice weights.now }
    ensures { IfOk result (λ groups. AreOffered inst.now groups.items) }
{
    let mut groups = Vec::new(alloc);
    for place in 0..constraints.len() {
        let weight = number_at(weights, place);
        match &constraints[place].demand {
            Demand::Bonds(members) => add_group(alloc, inst, &members.edges, weight, &mut groups)?,
            Demand::Joined(members) => add_pair(alloc, inst, &members.edges, weight, &mut groups)?,
            _ => {}
        }
    }
    Ok(groups)
}

// Adds a group if its weight is above 0.
fn add_group(
    alloc: Global,
    inst: &Instance,
    edges: &[u32],
    weight: i64,
    groups: &mut Vec<WeightedGroup>,
) -> Result<(), Memory>
    requires weight { IsServicePrice weight }
    requires offered { AreOffered inst.now groups.old.items }
    ensures offered { OnOk result (AreOffered inst.now groups.new.items) }
{
    if weight <= 0 || MOST_GROUPS <= groups.len() {
        return Ok(());
    }
    if !is_small_group(inst, edges) {
        return Ok(());
    }
    push_group(alloc, inst, edges, weight, groups)
}

// Adds a pair with the negative of a weight, if the weight is above 0.
fn add_pair(
    alloc: Global,
    inst: &Instance,
    edges: &[u32],
    weight: i64,
    groups: &mut Vec<WeightedGroup>,
) -> Result<(), Memory>
    requires weight { IsServicePrice weight }
    requires offered { AreOffered inst.now groups.old.items }
    ensures offered { OnOk result (AreOffered inst.now groups.new.items) }
{
    if weight <= 0 || MOST_GROUPS <= groups.len() || edges.len() != 2 {
        return Ok(());
    }
    if !is_small_group(inst, edges) {
        return Ok(());
    }
    push_group(alloc, inst, edges, negative(weight), groups)
}

// Adds a group, for which there is room.
#[tactic(auto, using(crate::proofs::Offered::fine_group))]
fn push_group(
    alloc: Global,
    inst: &Instance,
    edges: &[u32],
    weight: i64,
    groups: &mut Vec<WeightedGroup>,
) -> Result<(), Memory>
    requires group { IsGroup inst.now edges.now }
    requires small { length edges.now ≤ most_edges }
    requires some { weight ≢ pos 0 }
    requires pair { weight <ℤ pos 0 → length edges.now ≡ 2 }
    requires weight { IsServicePrice weight }
    requires room { length groups.old.items < most_groups }
    requires offered { AreOffered inst.now groups.old.items }
    ensures offered { OnOk result (AreOffered inst.now groups.new.items) }
{
    inst.validity();
    let group = WeightedGroup::new(alloc, edges, weight)?;
    groups.push(group)?;
    Ok(())
}
