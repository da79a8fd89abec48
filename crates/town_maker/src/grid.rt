// Where the streets lie.
ghost use Rattle.std.specs.Prelude.{◌≡◌, ◌+◌, ◌<◌, ◌++◌, IfOk, OnOk};
ghost use Rattle.std.specs.List.{flat_map};
ghost use Rattle.town_maker.specs.Streets.{corner, numbers_below, streets_along, streets_down, town_streets};

use carp_base::Memory;
use std::alloc::Global;

// A street by its two ends, which are numbers of vertices.
#[derive(Clone, Copy)]
pub(crate) struct Street {
    pub(crate) u: u64,
    pub(crate) v: u64,
}

// The vertex in a row and a column, both from 0 to 9.
fn corner(row: u64, column: u64) -> u64
    requires row { row < 10 }
    requires column { column < 10 }
    ensures { result ≡ corner row column }
{
    10 * row + column + 1
}

fn push_streets_along(streets: &mut Vec<Street>, row: u64) -> Result<(), Memory>
    requires { row < 10 }
    ensures { OnOk result (streets.new.items ≡ streets.old.items ++ streets_along row) }
{
    for column in 0..9 {
        streets.push(Street {
            u: corner(row, column),
            v: corner(row, column + 1),
        })?;
    }
    Ok(())
}

fn push_streets_down(streets: &mut Vec<Street>, row: u64) -> Result<(), Memory>
    requires { row < 9 }
    ensures { OnOk result (streets.new.items ≡ streets.old.items ++ streets_down row) }
{
    for column in 0..10 {
        streets.push(Street {
            u: corner(row, column),
            v: corner(row + 1, column),
        })?;
    }
    Ok(())
}

fn push_rows(streets: &mut Vec<Street>) -> Result<(), Memory>
    ensures { OnOk result (streets.new.items ≡ streets.old.items ++ flat_map streets_along (numbers_below 10)) }
{
    for row in 0..10 {
        push_streets_along(streets, row)?;
    }
    Ok(())
}

fn push_columns(streets: &mut Vec<Street>) -> Result<(), Memory>
    ensures { OnOk result (streets.new.items ≡ streets.old.items ++ flat_map streets_down (numbers_below 9)) }
{
    for row in 0..9 {
        push_streets_down(streets, row)?;
    }
    Ok(())
}

// All streets in their order.
#[tactic(auto, unfolding(crate::specs::Streets::town_streets))]
pub(crate) fn streets(alloc: Global) -> Result<Vec<Street>, Memory>
    ensures { IfOk result (λ streets. streets.items ≡ town_streets) }
{
    let mut streets = Vec::with_capacity(alloc, 180)?;
    push_rows(&mut streets)?;
    push_columns(&mut streets)?;
    Ok(streets)
}
