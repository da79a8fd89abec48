// An adviser that offers nothing.

use crate::adviser::Adviser;
use crate::aim::Aim;
use crate::leaf::Leaf;
use branch_rules::PriceSet;
use carp_base::Memory;
use cut_pool::ShorePool;
use route_pricing::Table;
use std::alloc::Global;

/// Offers nothing.
#[derive(Drop)]
pub struct NoAdvice;

impl Adviser for NoAdvice {
    fn prices(
        &mut self,
        _alloc: Global,
        _leaf: &Leaf<'_>,
        _table: &mut Table,
        _pool: &mut ShorePool,
        _best: &PriceSet,
        _aim: Aim,
    ) -> Result<Option<PriceSet>, Memory> {
        Ok(None)
    }
}
