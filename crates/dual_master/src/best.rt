// The best of the floors.
ghost use Rattle.std.specs.Prelude.{◌≡◌, [], All, IfOk};
ghost use Rattle.cut_pool.specs.Shores.{Belongs};
ghost use Rattle.deadhead_paths.specs.Prices.{costs_of};
ghost use Rattle.route_pricing.specs.Tables.{IsRoom};
ghost use Rattle.branch_rules.specs.Limits.{IsShoreOf};
ghost use Rattle.dual_master.specs.Floors.{FitsAlways, ReachesJoin, ReachesRatio, ReachesShell};
ghost use Rattle.dual_master.specs.Singles.{IsFloorPool};

use crate::better_sets_reach_as_much;
use crate::candidate::{better, join_candidate, ratio_candidate, shell_candidate};
use crate::laws::growth_keeps_sets;
use crate::singles::place_singles;
use branch_rules::PriceSet;
use carp_base::{Instance, Memory};
use cut_pool::ShorePool;
use deadhead_paths::Distances;
use road_network::Network;
use route_pricing::Table;
use std::alloc::Global;

/// The best of the sets of the floors Shell, Ratio and Join: the one of the greatest value without decisions, divided
/// by its denominator. So the set fits under every branch, and its value is at least each of the three floors, as
/// fractions. It has no groups.
///
/// Afterwards the pool holds the shores of that floor, each with a weight of the set. They are those of Shell, and the
/// set's value divided by its denominator is exactly Shell. Or they are those of Join, and that quotient is what they
/// need, which may be above Join. Or there are none, and the quotient is exactly Ratio. So the floor is one of greatest
/// value.
///
/// Behind these shores the pool holds shores of single vertices, in rising order of the vertex and while fewer than
/// 2,000 are held: the shore of each vertex except the depot that is not held already and over which some deadhead is
/// needed (`cut_pool::need`, Belenguer and Benavent 1998).
///
/// It asks for the network, for distances by cost, for a table that was made for the instance, which it fills, and for
/// an empty pool. The only error is want of memory, after which all shores of the pool belong to the instance. It takes
/// the time of the three floors and of three values. With n vertices and m required edges the shores of single vertices
/// take time in proportion to n (n + m).
pub fn floors(
    alloc: Global,
    inst: &Instance,
    net: &Network,
    dist: &Distances,
    table: &mut Table,
    pool: &mut ShorePool,
) -> Result<PriceSet, Memory>
    requires net { net.now ≡ inst.now }
    requires problem { dist.now.problem ≡ inst.now }
    requires costs { dist.now.prices ≡ costs_of inst.now }
    requires room { IsRoom inst.now table.old }
    requires empty { pool.old ≡ [] }
    ensures fits { IfOk result (FitsAlways inst.now pool.new) }
    ensures shell { IfOk result (ReachesShell inst.now pool.new) }
    ensures ratio { IfOk result (ReachesRatio inst.now pool.new) }
    ensures join { IfOk result (ReachesJoin inst.now pool.new) }
    ensures no_groups { IfOk result (λ set. set.groups ≡ []) }
    ensures shores { IfOk result (λ set. All (λ w. IsShoreOf inst.now pool.new w.shore) set.weights) }
    ensures held { IfOk result (IsFloorPool inst.now pool.new) }
    ensures belong { All (Belongs inst.now) pool.new }
    ensures room { IsRoom inst.now table.new }
{
    growth_keeps_sets();
    better_sets_reach_as_much();
    let shell = shell_candidate(alloc, inst, dist)?;
    let ratio = ratio_candidate(alloc, inst, dist, table)?;
    let join = join_candidate(alloc, inst, net, dist)?;
    let first = better(shell, ratio);
    let best = better(first, join);
    *pool = best.pool;
    place_singles(alloc, inst, pool)?;
    Ok(best.set)
}
