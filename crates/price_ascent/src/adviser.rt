// The adviser.

use crate::offer::ascend;
use branch_rules::PriceSet;
use carp_base::Memory;
use cut_pool::ShorePool;
use leaf_adviser::{Adviser, Aim, Leaf};
use route_pricing::Table;
use std::alloc::Global;

/// Offers what an ascent comes to that begins with the best set so far. It offers none if no edge is required, if `rounds`
/// is 0, or if the instance is so large that 60 fills of the table pass a measure of work. The set has prices in parts of
/// 1/1,000,000, and no weights on groups.
///
/// Prices of services and weights of shores move together along the slopes that relaxed tours show, as Lagrange
/// multipliers do (Held, Wolfe and Crowder 1974; the heavy average of slopes after Camerini, Fratta and Maffioli 1975).
/// At each point the table is filled once, and the point is made one that pays: each price takes its part of the least
/// rate of a tour, and of what all tours through its edge leave. The ascent offers the best such point. Every tenth
/// step it adds up to 10 shores that the averaged deadheads of the tours leave short (`shore_search`). If 12 steps
/// bring no record, it goes back to the record and makes shorter steps.
///
/// Shores of the start keep a negative weight as it is. Those that end with a weight are placed in the pool behind
/// those that it held. If there is no room for one, since the pool holds 2,000, it loses its weight, and so does one
/// whose weight is small.
///
/// It takes up to `rounds` fills of the table, and at most 400, each with the distances by its deadhead prices. No clock
/// decides.
#[derive(Drop)]
pub struct AscentAdviser;

impl Adviser for AscentAdviser {
    fn prices(
        &mut self,
        alloc: Global,
        leaf: &Leaf<'_>,
        table: &mut Table,
        pool: &mut ShorePool,
        best: &PriceSet,
        aim: Aim,
    ) -> Result<Option<PriceSet>, Memory> {
        ascend(alloc, leaf, table, pool, best, aim.rounds)
    }
}
