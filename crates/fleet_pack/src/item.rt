// Required edges by falling demand.
ghost use Rattle.std.specs.Prelude.{◌≡◌, IfOk, OnOk};
ghost use Rattle.std.specs.List.Sorted.{IsPermutation};
ghost use Rattle.fleet_pack.specs.Groups.{AreFalling, Fall, numbered};

use carp_base::{Instance, Memory};
use std::alloc::Global;

/// A required edge with its demand.
#[derive(Clone, Copy)]
pub(crate) struct Item {
    pub(crate) edge: u32,
    pub(crate) demand: u64,
}

// The required edges in the order of their numbers.
fn items_of(alloc: Global, inst: &Instance) -> Result<Vec<Item>, Memory>
    ensures { IfOk result (λ items. items.items ≡ numbered inst.now inst.now.required) }
{
    let mut items = Vec::new(alloc);
    for edge in 1..inst.required() + 1 {
        let demand = inst.edge(edge).demand;
        items.push(Item { edge, demand })?;
    }
    Ok(items)
}

// Sorts items by falling demand. Items of one demand keep their order.
fn sort(items: &mut Vec<Item>) -> Result<(), Memory>
    ensures same { IsPermutation items.old.items items.new.items }
    ensures fall { OnOk result (Fall items.new.items) }
{
    items.sort_by_key(|item| u64::MAX - item.demand)?;
    Ok(())
}

/// The required edges by falling demand, and those of one demand by their numbers.
pub(crate) fn falling_items(alloc: Global, inst: &Instance) -> Result<Vec<Item>, Memory>
    ensures { IfOk result (λ items. AreFalling inst.now items.items) }
{
    let mut items = items_of(alloc, inst)?;
    sort(&mut items)?;
    Ok(items)
}
