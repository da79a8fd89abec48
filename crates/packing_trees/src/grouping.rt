// Whether groups are a packing.
ghost use Rattle.std.specs.Prelude.{◌≡◌, ℕ, ◌+◌, ◌^◌, ◌<◌, ◌≤◌, IfOk, length, slice_index};
ghost use Rattle.carp_base.specs.Packings.{group_load};
ghost use Rattle.packing_trees.specs.Layers.{AboveSays, EmptySays, GroupsSay, LoadsSay, PlacesSay};

use crate::PackReason;
use carp_base::{Instance, Memory};
use std::alloc::Global;

/// The first reason why the groups are not a packing with that count, if they are not.
///
/// It takes time and memory in proportion to the required edges, whatever the count.
pub(crate) fn groups_reason(
    alloc: Global,
    inst: &Instance,
    groups: &[u32],
    count: u32,
) -> Result<Option<PackReason>, Memory>
    requires { length groups.now < 2 ^ 32 }
    ensures { IfOk result (GroupsSay inst.now groups.now count) }
{
    let required = inst.required();
    if groups.len() != required as usize {
        return Ok(Some(PackReason::GroupsDiffer {
            stated: groups.len() as u64,
            found: u64::from(required),
        }));
    }
    if let Some(edge) = first_outside(groups, count) {
        return Ok(Some(PackReason::GroupWrong { edge }));
    }
    let loads = loads_of(alloc, inst, groups, places(required, count))?;
    Ok(loads_reason(&loads, inst.capacity()))
}

// So many groups are looked at: of more groups than edges one up to there is empty.
fn places(required: u32, count: u32) -> u32
    requires { required ≤ 600 }
    ensures most { result ≤ required + 1 }
    ensures within { result ≤ count }
    ensures all { result < count → result ≡ required + 1 }
{
    if count <= required {
        count
    } else {
        required + 1
    }
}

// The first edge whose number is none of a group.
fn first_outside(groups: &[u32], count: u32) -> Option<u32>
    requires { length groups.now < 2 ^ 32 }
    ensures { PlacesSay groups.now count result }
{
    for (i, group) in groups.iter().enumerate() {
        if *group < 1 || *group > count {
            return Some(i as u32 + 1);
        }
    }
    None
}

// The demand of each group up to a number, at the place of its number.
fn loads_of(alloc: Global, inst: &Instance, groups: &[u32], most: u32) -> Result<Vec<u64>, Memory>
    requires each { length groups.now ≡ inst.now.required }
    requires few { most ≤ 601 }
    ensures long { IfOk result (λ loads. length loads.items ≡ most + 1) }
    ensures each { IfOk result (λ loads. (g : ℕ) → g < length loads.items → slice_index loads.items g ≡ group_load inst.now groups.now g) }
{
    let mut loads = vec![in alloc; 0; most as usize + 1]?;
    add_up(&mut loads, inst, groups);
    Ok(loads)
}

// Adds the demand of each edge to that of its group, where the group has a place.
fn add_up(loads: &mut [u64], inst: &Instance, groups: &[u32])
    requires each { length groups.now ≡ inst.now.required }
    requires none { (k : ℕ) → k < length loads.old → slice_index loads.old k ≡ 0 }
    ensures { (g : ℕ) → g < length loads.new → slice_index loads.new g ≡ group_load inst.now groups.now g }
{
    for edge in 1..inst.required() + 1 {
        add(
            loads,
            groups[edge as usize - 1] as usize,
            inst.edge(edge).demand,
        );
    }
}

// Adds a demand at a place, where there is one.
fn add(loads: &mut [u64], place: usize, demand: u64)
    requires { (k : ℕ) → k < length loads.old → slice_index loads.old k + demand < 2 ^ 64 }
    ensures here { place < length loads.old → slice_index loads.new place ≡ slice_index loads.old place + demand }
    ensures elsewhere { (k : ℕ) → k < length loads.old → ¬ (k ≡ place) → slice_index loads.new k ≡ slice_index loads.old k }
{
    if place < loads.len() {
        loads[place] += demand;
    }
}

// The first group that is empty, or else the first above the capacity.
fn loads_reason(loads: &[u64], capacity: u64) -> Option<PackReason>
    requires { length loads.now < 2 ^ 32 }
    ensures { LoadsSay loads.now capacity result }
{
    if let Some(group) = first_nothing(loads) {
        return Some(PackReason::GroupEmpty { group });
    }
    match first_above(loads, capacity) {
        Some(group) => Some(PackReason::Overload {
            group,
            load: u128::from(loads[group as usize]),
        }),
        None => None,
    }
}

// The first place from 1 on with nothing.
fn first_nothing(loads: &[u64]) -> Option<u32>
    requires { length loads.now < 2 ^ 32 }
    ensures { EmptySays loads.now result }
{
    for group in 1..loads.len() {
        if loads[group] == 0 {
            return Some(group as u32);
        }
    }
    None
}

// The first place from 1 on with more than the capacity.
fn first_above(loads: &[u64], capacity: u64) -> Option<u32>
    requires { length loads.now < 2 ^ 32 }
    ensures { AboveSays loads.now capacity result }
{
    for group in 1..loads.len() {
        if loads[group] > capacity {
            return Some(group as u32);
        }
    }
    None
}
