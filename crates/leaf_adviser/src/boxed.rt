// An adviser in a box.

use crate::adviser::Adviser;
use crate::aim::Aim;
use crate::leaf::Leaf;
use branch_rules::{Node, PriceSet};
use carp_base::{Memory, Task};
use cut_pool::ShorePool;
use route_pricing::Table;
use std::alloc::Global;

// Each call is passed on, also those that the trait has a body for: else a box would answer by that body.
impl Adviser for Box<dyn Adviser> {
    fn restart(&mut self, alloc: Global, turns: u64) {
        (**self).restart(alloc, turns);
    }

    fn prices(
        &mut self,
        alloc: Global,
        leaf: &Leaf<'_>,
        table: &mut Table,
        pool: &mut ShorePool,
        best: &PriceSet,
        aim: Aim,
    ) -> Result<Option<PriceSet>, Memory> {
        (**self).prices(alloc, leaf, table, pool, best, aim)
    }

    fn split(
        &mut self,
        alloc: Global,
        leaf: &Leaf<'_>,
        table: &mut Table,
        pool: &mut ShorePool,
        number: u32,
    ) -> Result<Option<Node>, Memory> {
        (**self).split(alloc, leaf, table, pool, number)
    }

    fn tours(&mut self) -> Option<Vec<Vec<Task>>> {
        (**self).tours()
    }
}
