// The price set of the Join floor.
ghost use Rattle.std.specs.Prelude.{◌≡◌, [], All, IfOk, OnOk};
ghost use Rattle.cut_pool.specs.Shores.{Belongs};
ghost use Rattle.deadhead_paths.specs.Prices.{costs_of};
ghost use Rattle.branch_rules.specs.Limits.{IsShoreOf};
ghost use Rattle.dual_master.specs.Floors.{FitsAlways, HoldsJoinShores, ReachesJoin, ShowsJoinShores, WeighsEach};
ghost use Rattle.dual_master.specs.Sets.{IsJoinSet};

use crate::placing::set_of_shores;
use branch_rules::PriceSet;
use carp_base::{Instance, Memory};
use cut_pool::ShorePool;
use deadhead_paths::Distances;
use matching_duals::join_bound;
use road_network::Network;
use std::alloc::Global;

/// The set of the Join floor: services at cost, and on each shore that shows the least join its weight. The denominator
/// is 2, since those weights are in halves (Edmonds and Johnson 1973).
///
/// The Join floor is the service costs and the least cost of deadheads that make the number of crossings at each vertex
/// even. The set fits under every branch, since over each edge the halves sum to at most twice its cost. Its value
/// divided by its denominator is at least the floor, since an odd number of required edges cross each shore, and so one
/// deadhead at least. It is above the floor if a shore needs more than one, since each shore counts as often as it
/// needs a deadhead.
///
/// It asks for the network, for distances by cost and for an empty pool, in which it leaves the shores, at most 1,999,
/// each with a weight. The only error is want of memory, after which all shores of the pool belong to the instance. It
/// takes the time of [`matching_duals::join_bound`], and with m required edges time in proportion to m and to the sizes
/// of the shores.
pub fn join_prices(
    alloc: Global,
    inst: &Instance,
    net: &Network,
    dist: &Distances,
    pool: &mut ShorePool,
) -> Result<PriceSet, Memory>
    requires net { net.now ≡ inst.now }
    requires problem { dist.now.problem ≡ inst.now }
    requires costs { dist.now.prices ≡ costs_of inst.now }
    requires empty { pool.old ≡ [] }
    ensures fits { IfOk result (FitsAlways inst.now pool.new) }
    ensures reaches { IfOk result (ReachesJoin inst.now pool.new) }
    ensures value { IfOk result (ShowsJoinShores inst.now pool.new) }
    ensures shores { IfOk result (λ set. All (λ w. IsShoreOf inst.now pool.new w.shore) set.weights) }
    ensures held { OnOk result (HoldsJoinShores inst.now pool.new) }
    ensures weighed { IfOk result (WeighsEach pool.new) }
    ensures no_groups { IfOk result (λ set. set.groups ≡ []) }
    ensures made { IfOk result (IsJoinSet inst.now pool.new) }
    ensures belong { All (Belongs inst.now) pool.new }
{
    inst.validity();
    let bound = join_bound(alloc, inst, net, dist)?;
    set_of_shores(alloc, inst, 2, pool, bound.shores)
}
