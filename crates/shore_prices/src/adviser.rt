// The adviser.

use crate::proposal::shore_prices;
use branch_rules::PriceSet;
use carp_base::Memory;
use cut_pool::ShorePool;
use leaf_adviser::{Adviser, Aim, Leaf};
use route_pricing::Table;
use std::alloc::Global;

/// Offers services at cost, and the weights of the linear program over shores after up to `rounds` rounds, at most 400, in
/// parts of 1/1,000,000. It offers none if `rounds` is 0. The best set so far is no matter to it.
///
/// The program begins with the shores of the pool, over which the branch's lower numbers are demanded, and with the level
/// sets of the depot's distances (Belenguer and Benavent 1998). In each round it is solved in up to 20,000 steps, and up
/// to 40 shores that its corner leaves short are added (`shore_search`). The rounds end if none is found, if the value
/// hardly rose in 25 of them, or by a measure of work that is a function of the input, so that no clock decides.
///
/// The shores with a weight are placed in the pool behind those that it held. If there is no room for one, since the pool
/// holds 2,000, it loses its weight. There are no weights on groups.
#[derive(Drop)]
pub struct ShoreAdviser;

impl Adviser for ShoreAdviser {
    fn prices(
        &mut self,
        alloc: Global,
        leaf: &Leaf<'_>,
        _table: &mut Table,
        pool: &mut ShorePool,
        _best: &PriceSet,
        aim: Aim,
    ) -> Result<Option<PriceSet>, Memory> {
        if aim.rounds == 0 {
            return Ok(None);
        }
        let set = shore_prices(alloc, leaf.inst, leaf.net, pool, leaf.branch, aim.rounds)?;
        Ok(Some(set))
    }
}
