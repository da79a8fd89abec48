// The programs as an adviser.

use crate::programs::LeafPrograms;
use branch_rules::{Node, PriceSet};
use carp_base::{Memory, Task};
use cut_pool::ShorePool;
use leaf_adviser::{Adviser, Aim, Leaf};
use route_pricing::Table;
use std::alloc::Global;

impl Adviser for LeafPrograms {
    fn restart(&mut self, alloc: Global, turns: u64) {
        *self = LeafPrograms::for_turns(alloc, turns);
    }

    fn prices(
        &mut self,
        alloc: Global,
        leaf: &Leaf<'_>,
        table: &mut Table,
        pool: &mut ShorePool,
        best: &PriceSet,
        aim: Aim,
    ) -> Result<Option<PriceSet>, Memory> {
        self.raise(alloc, leaf, table, pool, best, aim)
    }

    fn split(
        &mut self,
        alloc: Global,
        leaf: &Leaf<'_>,
        table: &mut Table,
        pool: &mut ShorePool,
        number: u32,
    ) -> Result<Option<Node>, Memory> {
        self.best_split(alloc, leaf, table, pool, number)
    }

    fn tours(&mut self) -> Option<Vec<Vec<Task>>> {
        self.whole_tours()
    }
}
