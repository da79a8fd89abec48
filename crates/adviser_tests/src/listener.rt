// An adviser that listens.

use branch_rules::PriceSet;
use carp_base::Memory;
use cut_pool::ShorePool;
use leaf_adviser::{Adviser, Aim, Leaf};
use route_pricing::Table;
use std::alloc::Global;

/// An adviser that notes for how many turns a search begins, and offers nothing.
#[derive(Drop)]
pub struct Listener {
    /// The turns of the search that it heard of last, and 0 at first.
    pub heard: u64,
}

impl Adviser for Listener {
    fn restart(&mut self, _alloc: Global, turns: u64) {
        self.heard = turns;
    }

    fn prices(
        &mut self,
        _alloc: Global,
        _leaf: &Leaf<'_>,
        _table: &mut Table,
        _pool: &mut ShorePool,
        _best: &PriceSet,
        _aim: Aim,
    ) -> Result<Option<PriceSet>, Memory> {
        Ok(None)
    }
}
