// The costs of the pairs of odd vertices.
ghost use Rattle.std.specs.Prelude.{◌≡◌, ◌<◌, length, IfOk};
ghost use Rattle.edge_components.specs.Listing.{vertices_where};
ghost use Rattle.matching_duals.specs.OddSets.{is_odd};
ghost use Rattle.matching_duals.specs.Paths.{AreReaches};
ghost use Rattle.matching_duals.specs.Sets.{AreCosts, HasRows, HasCells};

use crate::ground::Ground;
use blossom_match::Costs;
use carp_base::{Instance, Memory};
use edge_components::vertices_are_listed;
use std::alloc::Global;

// Sets the costs between an odd vertex and those before it.
fn set_row(inst: &Instance, ground: &Ground, a: usize, costs: &mut Costs)
    requires reaches { AreReaches inst.now ground.now.table.items }
    requires odd { ground.now.odd.items ≡ vertices_where (is_odd inst.now) inst.now.vertices }
    requires place { a < length ground.now.odd.items }
    requires rows { HasRows inst.now ground.now.odd.items ground.now.table.items a costs.old }
    ensures { HasCells inst.now ground.now.odd.items ground.now.table.items a a costs.new }
{
    vertices_are_listed();
    let width = inst.vertices() as usize + 1;
    for b in 0..a {
        let (from, to) = (ground.odd[a] as usize, ground.odd[b] as usize);
        costs.set(a as u32 + 1, b as u32 + 1, ground.table[to * width + from]);
    }
}

// The costs of all pairs of odd vertices: their distances.
pub(crate) fn pair_costs(alloc: Global, inst: &Instance, ground: &Ground) -> Result<Costs, Memory>
    requires reaches { AreReaches inst.now ground.now.table.items }
    requires odd { ground.now.odd.items ≡ vertices_where (is_odd inst.now) inst.now.vertices }
    ensures { IfOk result (AreCosts inst.now ground.now.odd.items ground.now.table.items) }
{
    vertices_are_listed();
    inst.validity();
    let mut costs = Costs::new(alloc, ground.odd.len() as u32)?;
    for a in 0..ground.odd.len() {
        set_row(inst, ground, a, &mut costs);
    }
    Ok(costs)
}
