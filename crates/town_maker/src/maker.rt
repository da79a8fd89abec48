// The town of a number.
ghost use Rattle.std.specs.Prelude.{◌≡◌, IfOk};
ghost use Rattle.carp_base.specs.Problem.{described, IsValid};
ghost use Rattle.town_maker.specs.Towns.{town_of};

use crate::draws::{draw_edges, draw_from};
use crate::grid::streets;
use crate::laws::towns_are_valid;
use carp_base::{Fail, Instance, Memory, RawEdge, valid_where_no_fault};
use rand_pcg::Lcg64Xsh32;
use std::alloc::Global;

// The town with this depot and these edges.
fn build(
    alloc: Global,
    depot: u64,
    required: &[RawEdge],
    others: &[RawEdge],
) -> Result<Instance, Memory>
    requires { IsValid (described 100 depot 60 required.now others.now) }
    ensures { IfOk result (λ inst. inst ≡ described 100 depot 60 required.now others.now) }
{
    valid_where_no_fault();
    match Instance::build(alloc, 100, depot, 60, required, others) {
        Ok(inst) => Ok(inst),
        Err(Fail::Memory) => Err(Memory),
        Err(Fail::Refused(_)) => unreachable!(),
    }
}

/// The town of a number: a valid instance that the number determines, for every number.
///
/// It has 100 vertices in ten rows of ten, and the 180 streets between neighbours: first those along the rows, and then
/// those from each row to the next. The generator of that seed is PCG XSH RR 64/32 (O'Neill 2014). For one street after
/// another it draws a cost of 10 to 99 and, by a draw of 0 or 1, whether it is required. For a required street it also
/// draws a demand of 1 to 9. At last it draws the depot. A service costs what a crossing costs, and the capacity is 60.
///
/// The error says only that there was not enough memory. Time and memory are in proportion to the streets, and so the
/// same for all numbers.
///
/// ```
/// let inst = town(alloc, 7)?;
/// assert_eq!(rt; (inst.vertices(), inst.edge_count(), inst.required()), (100, 180, 87));
/// ```
pub fn town(alloc: Global, seed: u64) -> Result<Instance, Memory>
    ensures { IfOk result (λ inst. inst ≡ town_of seed) }
{
    let streets = streets(alloc)?;
    let mut words = Lcg64Xsh32::new(seed, 1);
    let mut required = Vec::new(alloc);
    let mut others = Vec::new(alloc);
    draw_edges(&mut words, &streets, &mut required, &mut others)?;
    let depot = draw_from(&mut words, 1, 100);
    towns_are_valid();
    build(alloc, depot, &required, &others)
}
