// First fit by falling demand.
ghost use Rattle.std.specs.Prelude.{◌≡◌, ◌<◌, ◌≤◌, ℕ, [], length, slice_index, IfOk};
ghost use Rattle.fleet_pack.specs.FirstFit.{first_fit_count, loads_after};
ghost use Rattle.fleet_pack.specs.Groups.{IsFirstRoom, IsGrouping, IsPlaced, IsPut, demands_of};

use crate::grouping::Grouping;
use crate::item::{Item, falling_items};
use carp_base::{Instance, Memory};
use std::alloc::Global;

// Where the first group with room for a demand stands, or their number.
fn first_room(loads: &[u64], demand: u64, capacity: u64) -> usize
    requires light { (k : ℕ) → k < length loads.now → slice_index loads.now k ≤ capacity }
    requires fits { demand ≤ capacity }
    requires small { capacity ≤ 30000 }
    ensures { IsFirstRoom capacity demand loads.now result }
{
    for place in 0..loads.len() {
        if loads[place] + demand <= capacity {
            return place;
        }
    }
    loads.len()
}

// Puts a demand into the first group with room, or else into a new one, and gives the place of that group.
fn put(loads: &mut Vec<u64>, demand: u64, capacity: u64) -> Result<usize, Memory>
    requires light { (k : ℕ) → k < length loads.old.items → slice_index loads.old.items k ≤ capacity }
    requires fits { demand ≤ capacity }
    requires small { capacity ≤ 30000 }
    ensures { IfOk result (λ place. IsPut capacity demand loads.old.items loads.new.items place) }
{
    let place = first_room(loads, demand, capacity);
    if place < loads.len() {
        loads[place] += demand;
        return Ok(place);
    }
    loads.push(demand)?;
    Ok(place)
}

// Puts items, one after another, each into the first group with room, and gives the loads of the groups.
fn place(
    alloc: Global,
    inst: &Instance,
    items: &[Item],
    groups: &mut [u32],
) -> Result<Vec<u64>, Memory>
    requires { IsPlaced inst.now items.now groups.old [] }
    ensures placed { IfOk result (λ loads. IsPlaced inst.now [] groups.new loads.items) }
    ensures loads { IfOk result (λ loads. loads.items ≡ loads_after inst.now.capacity (demands_of items.now) []) }
{
    let capacity = inst.capacity();
    let mut loads = Vec::new(alloc);
    for item in items {
        let place = put(&mut loads, item.demand, capacity)?;
        groups[item.edge as usize - 1] = place as u32 + 1;
    }
    Ok(loads)
}

/// The packing by first fit: the edges by falling demand, and those of one demand by their numbers, each into the first
/// group with room (Johnson 1973). It takes time in proportion to the number of required edges times that of groups.
pub(crate) fn first_fit(alloc: Global, inst: &Instance) -> Result<Grouping, Memory>
    ensures grouping { IfOk result (IsGrouping inst.now) }
    ensures count { IfOk result (λ found. found.count ≡ first_fit_count inst.now) }
{
    let items = falling_items(alloc, inst)?;
    let mut groups = vec![in alloc; 0; inst.required() as usize]?;
    let loads = place(alloc, inst, &items, &mut groups)?;
    Ok(Grouping {
        groups,
        count: loads.len() as u32,
    })
}
