// Whether groups are a packing.
ghost use Rattle.std.specs.Prelude.{◌≡◌, ℕ, ◌+◌, ◌<◌, All, IfOk, IsTrue, length, slice_index};
ghost use Rattle.carp_base.specs.Packings.{IsGroup, IsPacking, group_load};
ghost use Rattle.fleet_pack.specs.Groups.{AreFineLoads};

use carp_base::{Instance, Memory};
use std::alloc::Global;

// Whether each number is from 1 to the count.
fn all_within(groups: &[u32], count: u32) -> bool
    ensures { IsTrue result → All (IsGroup count) groups.now }
{
    for group in groups {
        if *group < 1 || *group > count {
            return false;
        }
    }
    true
}

// Adds the demand of each edge to the load of its group.
fn add_loads(inst: &Instance, groups: &[u32], loads: &mut [u64])
    requires one_each { length groups.now ≡ inst.now.required }
    requires within { All (λ g. g < length loads.old) groups.now }
    requires none { (k : ℕ) → k < length loads.old → slice_index loads.old k ≡ 0 }
    ensures long { length loads.new ≡ length loads.old }
    ensures loads { (k : ℕ) → k < length loads.new → slice_index loads.new k ≡ group_load inst.now groups.now k }
{
    for edge in 1..inst.required() + 1 {
        let group = groups[edge as usize - 1];
        loads[group as usize] += inst.edge(edge).demand;
    }
}

/// The load of each group of so many, at the place of its number.
pub(crate) fn loads_of(
    alloc: Global,
    inst: &Instance,
    groups: &[u32],
    count: u32,
) -> Result<Vec<u64>, Memory>
    requires one_each { length groups.now ≡ inst.now.required }
    requires within { All (λ g. g < count + 1) groups.now }
    ensures long { IfOk result (λ loads. length loads.items ≡ count + 1) }
    ensures loads { IfOk result (λ loads. (k : ℕ) → k < length loads.items → slice_index loads.items k ≡ group_load inst.now groups.now k) }
{
    let mut loads = vec![in alloc; 0u64; count as usize + 1]?;
    add_loads(inst, groups, &mut loads);
    Ok(loads)
}

// Whether each load but that at place 0 is above 0 and at most the capacity.
fn loads_fit(loads: &[u64], capacity: u64) -> bool
    ensures { IsTrue result → AreFineLoads capacity loads.now }
{
    for k in 1..loads.len() {
        if loads[k] < 1 || loads[k] > capacity {
            return false;
        }
    }
    true
}

/// Whether groups are a packing of so many groups. It takes time in proportion to the required edges and the count.
pub(crate) fn is_packing(
    alloc: Global,
    inst: &Instance,
    groups: &[u32],
    count: u32,
) -> Result<bool, Memory>
    ensures { IfOk result (λ found. IsTrue found → IsPacking inst.now groups.now count) }
{
    if groups.len() != inst.required() as usize || !all_within(groups, count) {
        return Ok(false);
    }
    let loads = loads_of(alloc, inst, groups, count)?;
    Ok(loads_fit(&loads, inst.capacity()))
}
