// Room for filling a table.
ghost use Rattle.std.specs.Prelude.{IfOk};
ghost use Rattle.route_pricing.specs.Rooms.{AreRooms};

use crate::labels::{Labels, NO_LABELS};
use carp_base::{Instance, Memory};
use std::alloc::Global;

/// Room for filling the cells of a grid. A caller only holds it. For n vertices and m required edges it is for
/// `n + 4 * m * m` numbers.
#[derive(Drop)]
pub struct Rooms {
    // Two labels for each vertex from 1 on, and whether these have to be passed on.
    pub(crate) layer: Vec<Labels>,
    pub(crate) marks: Vec<bool>,
    // The legs to each column, in 64 bits, a row for each.
    pub(crate) legs: Vec<u64>,
    // The values of one load, in 64 bits.
    pub(crate) row: Vec<u64>,
}

impl Rooms {
    /// Room for an instance. Its only error is want of memory.
    pub fn new(alloc: Global, inst: &Instance) -> Result<Rooms, Memory>
        ensures { IfOk result (AreRooms inst.now) }
    {
        let places = inst.vertices() as usize + 1;
        let width = 2 * inst.required() as usize;
        let layer = vec![in alloc; NO_LABELS; places]?;
        let marks = vec![in alloc; false; places]?;
        let legs = vec![in alloc; 0u64; width * width]?;
        let row = vec![in alloc; 0u64; width]?;
        Ok(Rooms {
            layer,
            marks,
            legs,
            row,
        })
    }
}
