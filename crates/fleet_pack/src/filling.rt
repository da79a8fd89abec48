// Fewer groups by filling one group after another as far as it goes. No more is owed of this search than that what it finds is a packing of
// fewer groups: that is tested.
ghost use Rattle.std.specs.Prelude.{◌≤◌, IfOk, length};
ghost use Rattle.fleet_pack.specs.Groups.{IsGrouping};

use crate::grouping::Grouping;
use crate::item::{Item, falling_items};
use crate::judging::is_packing;
use carp_base::{Instance, Memory};
use std::alloc::Global;

// The work of the search, at most so many sums that are looked at.
const MOST_WORK: u64 = 200_000_000;

// Takes an item into the table of sums: at each sum the greatest number from which on some items have that sum, or 0 where none have it.
fn add_item(firsts: &mut [u32], demand: usize, number: u32) {
    for sum in (0..firsts.len()).rev() {
        if sum >= demand && firsts[sum] == 0 && firsts[sum - demand] > number {
            firsts[sum] = number;
        }
    }
}

// The table of sums of all items but the first, up to a room. An item has its place as its number.
fn sums_of(alloc: Global, items: &[Item], room: u64) -> Result<Vec<u32>, Memory>
    requires few { length items.now ≤ 600 }
    requires small { room ≤ 30000 }
{
    let mut firsts = vec![in alloc; 0u32; room as usize + 1]?;
    firsts[0] = u32::MAX;
    for place in (1..items.len()).rev() {
        add_item(&mut firsts, items[place].demand as usize, place as u32);
    }
    Ok(firsts)
}

// The greatest sum of the table.
fn greatest(firsts: &[u32]) -> u64 {
    let mut most = 0;
    for sum in 0..firsts.len() {
        if firsts[sum] > 0 {
            most = sum as u64;
        }
    }
    most
}

// Whether an item and later ones have a sum.
fn begins(firsts: &[u32], left: u64, demand: u64, number: usize) -> bool {
    if demand > left {
        return false;
    }
    match firsts.get((left - demand) as usize) {
        Some(first) => *first as usize > number,
        None => false,
    }
}

// Puts an edge into a group.
fn put(groups: &mut [u32], edge: u32, group: u32) {
    if edge > 0 && edge as usize <= groups.len() {
        groups[edge as usize - 1] = group;
    }
}

// Fills a group with the first item and those others that together come nearest to the room that it leaves, the heaviest first. It gives the items
// that are left.
fn fill(
    alloc: Global,
    items: &[Item],
    capacity: u64,
    groups: &mut [u32],
    group: u32,
) -> Result<Vec<Item>, Memory>
    requires some { 1 ≤ length items.now }
    requires few { length items.now ≤ 600 }
    requires small { capacity ≤ 30000 }
    ensures { IfOk result (λ rest. length rest.items ≤ length items.now) }
{
    let firsts = sums_of(alloc, items, capacity.saturating_sub(items[0].demand))?;
    let mut left = greatest(&firsts);
    let mut rest = Vec::new(alloc);
    put(groups, items[0].edge, group);
    for place in 1..items.len() {
        let item = items[place];
        if begins(&firsts, left, item.demand, place) {
            put(groups, item.edge, group);
            left = left.saturating_sub(item.demand);
        } else {
            rest.push(item)?;
        }
    }
    Ok(rest)
}

// Groups that are filled one after another.
fn filled(alloc: Global, inst: &Instance) -> Result<Grouping, Memory> {
    let capacity = inst.capacity();
    let mut groups = vec![in alloc; 0; inst.required() as usize]?;
    let mut items = falling_items(alloc, inst)?;
    let mut count = 0;
    for group in 1..inst.required() + 1 {
        if items.is_empty() {
            break;
        }
        items = fill(alloc, &items, capacity, &mut groups, group)?;
        count = group;
    }
    Ok(Grouping { groups, count })
}

/// A packing of no more groups. Each group gets the heaviest edge that is left and those that fill it best (Gupta and
/// Ho 1999), if that takes fewer groups. With m required edges it takes time in proportion to m times the total demand.
/// If that product is above 200,000,000, nothing is tried.
pub(crate) fn improved(alloc: Global, inst: &Instance, best: Grouping) -> Result<Grouping, Memory>
    requires { IsGrouping inst.now best }
    ensures grouping { IfOk result (IsGrouping inst.now) }
    ensures fewer { IfOk result (λ found. found.count ≤ best.count) }
{
    if u64::from(inst.required()).saturating_mul(inst.total_demand()) > MOST_WORK {
        return Ok(best);
    }
    let found = filled(alloc, inst)?;
    if found.count >= best.count || !is_packing(alloc, inst, &found.groups, found.count)? {
        return Ok(best);
    }
    Ok(found)
}
