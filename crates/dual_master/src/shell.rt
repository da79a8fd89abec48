// The price set of the Shell floor.
ghost use Rattle.std.specs.Prelude.{◌≡◌, [], All, IfOk, OnOk};
ghost use Rattle.cut_pool.specs.Shores.{Belongs};
ghost use Rattle.deadhead_paths.specs.Prices.{costs_of};
ghost use Rattle.branch_rules.specs.Limits.{IsShoreOf};
ghost use Rattle.dual_master.specs.Floors.{FitsAlways, HoldsShells, ReachesShell, ShowsShell, WeighsEach};
ghost use Rattle.dual_master.specs.Sets.{IsShellSet};

use crate::floor_laws::packing_weights_fit;
use crate::placing::set_of_shores;
use branch_rules::PriceSet;
use capacity_cuts::{shells, shells_are_duals};
use carp_base::{Instance, Memory};
use cut_pool::ShorePool;
use deadhead_paths::{Distances, least_prices_are_there};
use std::alloc::Global;

/// The set of the Shell floor: services at cost, and on the level set of each distance its number of levels, with the
/// denominator 1.
///
/// The Shell floor is the service costs, and for each whole t from 0 on the need (Belenguer and Benavent 1998) of the
/// set of the vertices that the depot reaches at a distance by cost above t. The set fits under every branch, since
/// over each edge the weights sum to at most its cost, and its value is exactly the floor.
///
/// It asks for distances by cost and for an empty pool, in which it leaves the level sets, nearest first, each with a
/// weight. The only error is want of memory, after which all shores of the pool belong to the instance. With n vertices
/// and m required edges it takes one sort of the distances, and time and memory in proportion to n times the number of
/// level sets, and to m.
pub fn shell_prices(
    alloc: Global,
    inst: &Instance,
    dist: &Distances,
    pool: &mut ShorePool,
) -> Result<PriceSet, Memory>
    requires problem { dist.now.problem ≡ inst.now }
    requires costs { dist.now.prices ≡ costs_of inst.now }
    requires empty { pool.old ≡ [] }
    ensures fits { IfOk result (FitsAlways inst.now pool.new) }
    ensures reaches { IfOk result (ReachesShell inst.now pool.new) }
    ensures value { IfOk result (ShowsShell inst.now pool.new) }
    ensures shores { IfOk result (λ set. All (λ w. IsShoreOf inst.now pool.new w.shore) set.weights) }
    ensures held { OnOk result (HoldsShells inst.now pool.new) }
    ensures weighed { IfOk result (WeighsEach pool.new) }
    ensures no_groups { IfOk result (λ set. set.groups ≡ []) }
    ensures made { IfOk result (IsShellSet inst.now pool.new) }
    ensures belong { All (Belongs inst.now) pool.new }
{
    packing_weights_fit();
    shells_are_duals();
    least_prices_are_there();
    inst.validity();
    let found = shells(alloc, inst, dist)?;
    set_of_shores(alloc, inst, 1, pool, found)
}
